// The two questions of the class exercise: does a statement fall within so many turns, does it stand within so many. Each is
// asked through the other with one turn less, along the statement's own objectors. What is told of the answers is left to
// `exercise_ask`.
//
// Each answer is kept in a table for its question, 7 · 1,024 bytes: at turns · 1,024 + x stands 1 no, 2 yes, anything else
// unknown (an empty table is all 0). So a question is answered once for a statement and a number of turns. Without tables one
// question on 90 statements and 3,960 objections takes 7.6 thousand million calls. What is found without a walk (nothing falls
// within 0, an unread one does not stand) is not kept.
#![tactic(auto)]

ghost use Rattle.std.specs.Prelude.{◌≡◌, ◌<◌, ◌≤◌, ◌↔◌, false, true, length};
ghost use Rattle.game.specs.Rules.{falls_within, stands_within};
ghost use Rattle.lists.specs.PairsBook.{pairs_book};
ghost use Rattle.exercise_within.specs.Known.{Walkable, Known};

use lists::Pairs;
use pair_chain::Links;

const NO: u8 = 1;

const YES: u8 = 2;

// The answer that an entry of a table holds, if it holds one.
fn told(entry: u8) -> Option<bool>
    ensures no { (result ≡ Some false) ↔ (entry ≡ NO) }
    ensures yes { (result ≡ Some true) ↔ (entry ≡ YES) }
{
    match entry {
        NO => Some(false),
        YES => Some(true),
        _ => None,
    }
}

// Whether x falls within the turns. `falls` and `stands` hold what is known already, an entry for each statement and number
// of turns. So no statement's objectors are walked twice for the same question and turns.
#[cycle(falls_within_stands_within)]
pub fn falls_within(
    pairs: &Pairs,
    links: &Links,
    x: usize,
    turns: usize,
    falls: &mut [u8],
    stands: &mut [u8],
) -> bool
    requires walkable { Walkable pairs.now.marks.now pairs.now.objectors.now pairs.now.targets.now links.now.head.now
        links.now.next.now × (x < length pairs.now.marks.now) × (turns ≤ 6) }
    requires known { Known (pairs_book pairs.now) falls.old stands.old }
    ensures { (result ≡ falls_within (pairs_book pairs.now) turns x)
        × Known (pairs_book pairs.now) falls.new stands.new }
{
    if turns == 0 {
        return false;
    }
    let slot = turns * 1024 + x;
    if let Some(known) = told(falls[slot]) {
        return known;
    }
    let mut c = usize::from(links.head[x]);
    // No objector of x that was passed stands within one turn less, and both tables are right.
    while c != 0 {
        let y = pairs.objectors[c - 1] as usize;
        c = usize::from(links.next[c - 1]);
        let standing = stands_within(pairs, links, y, turns - 1, falls, stands);
        if standing {
            falls[slot] = YES;
            return true;
        }
    }
    falls[slot] = NO;
    false
}

// Whether x stands within the turns.
#[cycle(falls_within_stands_within)]
#[tactic(auto, using(crate::proofs::Entries::stands_unread))]
pub fn stands_within(
    pairs: &Pairs,
    links: &Links,
    x: usize,
    turns: usize,
    falls: &mut [u8],
    stands: &mut [u8],
) -> bool
    requires walkable { Walkable pairs.now.marks.now pairs.now.objectors.now pairs.now.targets.now links.now.head.now
        links.now.next.now × (x < length pairs.now.marks.now) × (turns ≤ 6) }
    requires known { Known (pairs_book pairs.now) falls.old stands.old }
    ensures { (result ≡ stands_within (pairs_book pairs.now) turns x)
        × Known (pairs_book pairs.now) falls.new stands.new }
{
    if pairs.marks[x] != 0 {
        return false;
    }
    let slot = turns * 1024 + x;
    if let Some(known) = told(stands[slot]) {
        return known;
    }
    let mut c = usize::from(links.head[x]);
    // Each objector of x that was passed falls within one turn less, and both tables are right.
    while c != 0 {
        if turns == 0 {
            return false;
        }
        let y = pairs.objectors[c - 1] as usize;
        c = usize::from(links.next[c - 1]);
        let fallen = falls_within(pairs, links, y, turns - 1, falls, stands);
        if !fallen {
            stands[slot] = NO;
            return false;
        }
    }
    stands[slot] = YES;
    true
}
