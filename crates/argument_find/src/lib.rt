// The line of argument of a statement of a register that is labelled: by recursion along objectors, with the length as the
// falling number. Labels and lengths are left to `label_solve`.
//
// Each step looks at the objectors of one statement only, all of them, since the earliest listed need not come first; no
// statement comes twice, so a line takes time linear in statements and objections. The compiled recursion is as deep as the
// line is long, at about 200 bytes a step: up to 200 KiB of stack, more than all else that a call takes; the header says so.
#![tactic(auto)]

ghost use Rattle.std.specs.Prelude.{List, ◌++◌, ◌≡◌, ◌<◌, ℕ, length, drop, get_or};
ghost use Rattle.game.specs.Label.{Least};
ghost use Rattle.game.specs.Argument.{Argument};
ghost use Rattle.lists.specs.PairsBook.{pairs_book};
ghost use Rattle.pair_chain.specs.Linked.{Chains};
ghost use Rattle.label_solve.specs.AreLabelled.{AreLabelled};
ghost use Rattle.argument_find.specs.ArgumentRoom.{Turns, Other, ObjectsWith, ArgumentIn};

use label_solve::LabelledPairs;
use pair_chain::{Links, chain};

// How many statements come after x in its line: its length, and for an open one 0, which is a count like the others.
fn turns(labelled: &LabelledPairs, x: usize) -> u16
    requires { x < length labelled.now.pairs.marks.now }
    ensures { Turns labelled.now.labels.now labelled.now.lengths.now x result }
{
    if labelled.labels[x] == 0 {
        0
    } else {
        labelled.lengths[x]
    }
}

// The other of stands and falls.
fn other(label: u8) -> u8
    ensures { Other label result }
{
    if label == 1 { 2 } else { 1 }
}

// The earliest listed objector of x that has the other label than x and this length, where there is one.
fn onward(labelled: &LabelledPairs, links: &Links, x: usize, turns: u16) -> usize
    requires lists_labelled { AreLabelled labelled.now × (x < length labelled.now.pairs.marks.now) }
    requires chains { Chains labelled.now.pairs.marks.now labelled.now.pairs.targets.now links.now.head.now links.now.next.now }
    requires objector { (label : ℕ) → Other (get_or labelled.now.labels.now x 0) label
        → (y : ℕ) × ObjectsWith labelled.now.pairs.objectors.now labelled.now.pairs.targets.now labelled.now.labels.now
        labelled.now.lengths.now x label turns y }
    ensures { (label : ℕ) × Other (get_or labelled.now.labels.now x 0) label
        × Least (ObjectsWith labelled.now.pairs.objectors.now labelled.now.pairs.targets.now labelled.now.labels.now
        labelled.now.lengths.now x label turns) result }
{
    let label = other(labelled.labels[x]);
    // The search begins above all places. That number is never answered, since there is such an objector: no `Option` is needed.
    let mut earliest = labelled.pairs.marks.len();
    let mut c = usize::from(links.head[x]);
    // Of the objectors of x passed, `earliest` is the first listed with the label and length, or the number of statements.
    while c != 0 {
        let y = labelled.pairs.objectors[c - 1] as usize;
        c = usize::from(links.next[c - 1]);
        if labelled.labels[y] == label && labelled.lengths[y] == turns && y < earliest {
            earliest = y;
        }
    }
    earliest
}

// Writes the line of x, which has `turns` more entries: x, and then the line of the objector that is next.
fn write(labelled: &LabelledPairs, links: &Links, x: usize, turns: u16, line: &mut [u32])
    requires lists_labelled { AreLabelled labelled.now }
    requires chains { Chains labelled.now.pairs.marks.now labelled.now.pairs.targets.now links.now.head.now links.now.next.now }
    requires x_in_bounds { (x < length labelled.now.pairs.marks.now)
        × Turns labelled.now.labels.now labelled.now.lengths.now x turns × (turns < length line.old) }
    ensures { (l : List ℕ) × Argument (pairs_book labelled.now.pairs) x l
        × (line.new ≡ l ++ drop (length l) line.old) }
{
    line[0] = x as u32;
    if turns == 0 {
        return;
    }
    let y = onward(labelled, links, x, turns - 1);
    write(labelled, links, y, turns - 1, &mut line[1..]);
}

// The line of argument of x, by places, if there is room for all of it. Answers how many entries it has.
pub fn argument(labelled: &LabelledPairs, x: usize, room: &mut [u32]) -> usize
    requires { AreLabelled labelled.now × (x < length labelled.now.pairs.marks.now) }
    ensures { ArgumentIn (pairs_book labelled.now.pairs) x room.old result room.new }
{
    let after = turns(labelled, x);
    let n = usize::from(after) + 1;
    if room.len() < n {
        return n;
    }
    let mut head = [0u16; 1024];
    let mut next = [0u16; 4096];
    chain(labelled.pairs.targets, &mut head, &mut next);
    let links = Links {
        head: &head,
        next: &next,
    };
    write(labelled, &links, x, after, room);
    n
}
