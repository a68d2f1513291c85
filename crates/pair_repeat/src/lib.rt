// Whether an objection stands already, found along chains: objections in two linked rooms, chained by objector and by target.
// What a repeat means for a text or for lists is left to others, and what the words of the rooms hold to `pair_words`.
//
// The search walks both chains side by side, and is over where the shorter one ends: with the target's chain alone, four
// targets with 1,024 objectors each took a quarter longer than going over all earlier pairs (4.6 against 3.6 ms in a trial in
// C), since each step waits for the one before. So the searches of 4,096 objections take at most 128 steps each on average:
// those against a target with at most 64 objectors take 64 at most; at most 64 targets have more, so of the objections by one
// statement at most 64 are against such, each in as many steps at most as that statement has objections. No contract counts
// steps.
//
// The two rooms and the counts, n statements and m entries, are lent one by one: each caller holds the rooms as two lists of its
// own and counts by itself, so a struct of them would be made anew at each call, and each clause here would be longer by it.
#![tactic(auto)]

ghost use Rattle.std.specs.Prelude.{◌≡◌, ◌≤◌, ℕ, ◌<◌, ◌+◌, length, set, take};
ghost use Rattle.game.specs.Questions.{FirstBelow};
ghost use Rattle.pair_words.specs.Words.{begin_against, begin_by, objectors_in, targets_in};
ghost use Rattle.lists.specs.Refuses.{Same};
ghost use Rattle.pair_repeat.specs.Entered.{Entered};

use pair_words::{begin_against, begin_by, link_against, link_by, objector_of, target_of};

// No chain of the first n statements has begun.
fn clear(links: &mut [u32], n: usize)
    requires { (n ≤ 1024) × (3072 ≤ length links.old) }
    ensures { (v : ℕ) → v < n → (begin_against links.new v ≡ 0) × (begin_by links.new v ≡ 0) }
{
    // No chain of the first v statements has begun, neither by objector nor by target.
    for v in 0..n {
        pair_words::put_begins(links, v, v, 0);
    }
}

// Readies the rooms for the first objection, and leaves them as they are later on.
pub fn begin(pairs: &[u32], links: &mut [u32], n: usize, m: usize)
    requires room { (n ≤ 1024) × (4096 ≤ length pairs.now) × (3072 ≤ length links.old) }
    requires entered { 0 < m → Entered n m pairs.now links.old }
    ensures { Entered n m pairs.now links.new }
{
    if m == 0 {
        clear(links, n);
    }
}

// The first of the m entries that is the objection of y against x, if one is.
pub fn pair_at(
    pairs: &[u32],
    links: &[u32],
    n: usize,
    m: usize,
    y: usize,
    x: usize,
) -> Option<usize>
    requires { Entered n m pairs.now links.now × (m ≤ 4096) × (y < n) × (x < n) }
    ensures { FirstBelow (Same (objectors_in pairs.now) (targets_in pairs.now) y x) m result }
{
    let mut by = begin_by(links, y);
    let mut against = begin_against(links, x);
    // No entry passed, on the chain by y or on the chain against x, is the objection of y against x.
    while by > 0 {
        if against == 0 {
            return None;
        }
        if target_of(pairs, by - 1) == x {
            return Some(by - 1);
        }
        if objector_of(pairs, against - 1) == y {
            return Some(against - 1);
        }
        by = link_by(links, by - 1);
        against = link_against(pairs, against - 1);
    }
    None
}

// Enters an objection that does not stand yet.
pub fn enter(pairs: &mut [u32], links: &mut [u32], n: usize, m: usize, y: usize, x: usize)
    requires entered { Entered n m pairs.old links.old × (m < 4096) × (y < n) × (x < n) }
    requires new { (e : ℕ) → e < m → ¬ Same (objectors_in pairs.old) (targets_in pairs.old) y x e }
    ensures { Entered n (m + 1) pairs.new links.new
        × (objectors_in pairs.new ≡ set (objectors_in pairs.old) m y)
        × (targets_in pairs.new ≡ set (targets_in pairs.old) m x) }
{
    let against = begin_against(links, x);
    let by = begin_by(links, y);
    pair_words::put_link_by(links, m, by);
    pair_words::put_begins(links, y, x, m + 1);
    pair_words::put_pair(pairs, m, y, x, against);
}

// Gives the lists of the first m objectors and targets back, each in a room of its own.
#[tactic(auto, unfolding(pair_words::specs::Words::objectors_in, pair_words::specs::Words::targets_in))]
pub fn unpack(pairs: &mut [u32], links: &mut [u32], m: usize)
    requires { (m ≤ length pairs.old) × (m ≤ length links.old) }
    ensures { (take m pairs.new ≡ take m (objectors_in pairs.old))
        × (take m links.new ≡ take m (targets_in pairs.old)) }
{
    // `pairs` begins with the first e objectors and `links` with the first e targets; `pairs` is as it was from e on.
    for e in 0..m {
        let word = pairs[e];
        links[e] = word / 1024 % 1024;
        pairs[e] = word % 1024;
    }
}
