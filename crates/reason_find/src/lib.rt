// Which objections are in the reason for a statement, in a register that is labelled: from each statement that the reason comes
// to it goes on to the objectors. Labels are left to `label_solve`, kinds to `reason_belongs`, what is written of a reason to the
// crates above.
//
// Each statement is looked at once, and with it the objections against it, so the time is linear in statements and objections. A
// tick for each statement and, in the end, one for each objection: counting and writing then go by the same ticks. The rooms of
// the walk have 1,024 entries whatever the register's size, so that no part of a room is lent.
#![tactic(auto)]

ghost use Rattle.std.specs.Prelude.{◌≡◌, ◌<◌, ◌≤◌, ℕ, length, get_or};
ghost use Rattle.game.specs.Questions.{Decides};
ghost use Rattle.game.specs.Reason.{Belongs, InReason};
ghost use Rattle.lists.specs.PairsBook.{pairs_book};
ghost use Rattle.pair_chain.specs.Linked.{Chains};
ghost use Rattle.label_solve.specs.AreLabelled.{AreLabelled};
ghost use Rattle.reason_find.specs.Ticks.{Queued, Grown, Ticked, ReachTicked, Chosen};

use label_solve::LabelledPairs;
use pair_chain::{Links, chain};
use reason_belongs::belongs;

// Comes to the statement y: it gets a tick and is queued behind the others, unless it has its tick.
fn tick_statement(y: usize, room: &mut [u8], queue: &mut [u16], tail: usize) -> usize
    requires { Queued (length room.old) tail room.old queue.old × (y < length room.old)
        × (length room.old < 65536) }
    ensures { Grown (λ x. x ≡ y) (length room.old) tail room.old queue.old result
        room.new queue.new × Ticked room.new y }
{
    if room[y] != 0 {
        return tail;
    }
    room[y] = 1;
    queue[tail] = y as u16;
    tail + 1
}

// Comes from x to the objectors whose objections against it belong to the reason.
fn tick_objectors(
    labelled: &LabelledPairs,
    links: &Links,
    x: usize,
    room: &mut [u8],
    queue: &mut [u16],
    tail: usize,
) -> usize
    requires lists_labelled { AreLabelled labelled.now × (x < length labelled.now.pairs.marks.now) }
    requires chains { Chains labelled.now.pairs.marks.now labelled.now.pairs.targets.now links.now.head.now links.now.next.now }
    requires queued { Queued (length room.old) tail room.old queue.old
        × (length labelled.now.pairs.marks.now ≤ length room.old) × (length room.old < 65536) }
    ensures grown { Grown (λ y. Belongs (pairs_book labelled.now.pairs) y x)
        (length room.old) tail room.old queue.old result room.new queue.new }
    ensures ticked { (y : ℕ) → Belongs (pairs_book labelled.now.pairs) y x → Ticked room.new y }
{
    let mut end = tail;
    let mut c = usize::from(links.head[x]);
    // The objectors of x passed whose objections belong to the reason have a tick and are in the queue before `end`.
    while c != 0 {
        let k = c - 1;
        c = usize::from(links.next[k]);
        if belongs(labelled, k) {
            end = tick_statement(labelled.pairs.objectors[k] as usize, room, queue, end);
        }
    }
    end
}

// Ticks the statements that the reason for the asked one comes to, in a room that has no tick yet.
fn reach(labelled: &LabelledPairs, asked: usize, room: &mut [u8])
    requires lists_labelled { AreLabelled labelled.now × (asked < length labelled.now.pairs.marks.now) }
    requires room_len { (length room.old ≡ 1024) × ((x : ℕ) → get_or room.old x 0 ≡ 0) }
    ensures { ReachTicked (pairs_book labelled.now.pairs) asked room.new }
{
    let mut head = [0u16; 1024];
    let mut next = [0u16; 4096];
    let mut queue = [0u16; 1024];
    chain(labelled.pairs.targets, &mut head, &mut next);
    let links = Links {
        head: &head,
        next: &next,
    };
    let mut tail = tick_statement(asked, room, &mut queue, 0);
    let mut at = 0;
    // The queue holds the statements with a tick; the reason comes to each of them, and those before `at` are looked at. The end
    // moves on while the queue is gone through, so that no `for` fits.
    while at < tail {
        let x = usize::from(queue[at]);
        tail = tick_objectors(labelled, &links, x, room, &mut queue, tail);
        at += 1;
    }
}

// Whether the objection k is in the reason for the asked statement, of which the statements that it comes to have a tick.
fn in_reason(labelled: &LabelledPairs, room: &[u8], k: usize) -> bool
    requires { AreLabelled labelled.now × (k < length labelled.now.pairs.objectors.now)
        × (length labelled.now.pairs.marks.now ≤ length room.now) }
    ensures { (a : ℕ) → ReachTicked (pairs_book labelled.now.pairs) a room.now
        → Decides (InReason (pairs_book labelled.now.pairs) a (get_or labelled.now.pairs.objectors.now k 0)
        (get_or labelled.now.pairs.targets.now k 0)) result }
{
    let x = labelled.pairs.targets[k] as usize;
    room[x] != 0 && belongs(labelled, k)
}

// Ticks the objections in the reason for the asked statement, in a room that has no tick yet.
pub fn choose(labelled: &LabelledPairs, asked: usize, inside: &mut [u8])
    requires lists_labelled { AreLabelled labelled.now × (asked < length labelled.now.pairs.marks.now) }
    requires objectors_in_bounds { (length labelled.now.pairs.objectors.now ≤ length inside.old)
        × ((k : ℕ) → get_or inside.old k 0 ≡ 0) }
    ensures { Chosen labelled.now.pairs.marks.now labelled.now.pairs.objectors.now labelled.now.pairs.targets.now asked
        inside.new }
{
    let mut reached = [0u8; 1024];
    reach(labelled, asked, &mut reached);
    // Of the first k objections those in the reason have a tick, and no other objection has one.
    for k in 0..labelled.pairs.objectors.len() {
        if in_reason(labelled, &reached, k) {
            inside[k] = 1;
        }
    }
}
