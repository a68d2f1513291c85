// Labels and lengths of lists that are in order, in time linear in statements and objections (retrograde analysis): each
// objection is looked at once, when the label of its objector is known. The places go through a queue in order of their lengths;
// what is never reached is open. `label_queue` fills the queue and `label_step` looks at one place of it. Whether lists are in
// order is left to others.
#![tactic(auto)]

mod labelled;

ghost use Rattle.std.specs.Prelude.{◌≤◌, length};
ghost use Rattle.pair_chain.specs.Linked.{Chains};
ghost use Rattle.lists.specs.PairsBook.{pairs_book};
ghost use Rattle.label_queue.specs.LabelState.{Rooms};
ghost use Rattle.label_queue.specs.WorkAt.{WorkAt, SameRooms};
ghost use Rattle.label_solve.specs.Labelled.{Labelled, Solved};

use label_queue::{Work, count, start};
use label_step::{fell_targets, stand_targets};
pub use labelled::LabelledPairs;
use lists::Pairs;
use pair_chain::{Links, chain};

// Looks at every place of the queue, which grows meanwhile.
fn run(pairs: &Pairs, links: &Links, left: &mut [u16], work: &mut Work, tail: usize)
    requires chains { Chains pairs.now.marks.now pairs.now.objectors.now links.now.head.now links.now.next.now }
    requires queued { WorkAt pairs.now left.old 0 tail work.old }
    ensures labelled { Labelled (pairs_book pairs.now) work.new.labels.now work.new.lengths.now }
    ensures same { SameRooms work.old work.new }
{
    let mut t = tail;
    let mut h = 0;
    // Each label so far is right and its place in the queue before t; the objections by the places before h are looked at. The
    // end moves on meanwhile, so that no `for` fits.
    while h < t {
        let y = usize::from(work.queue[h]);
        t = if work.labels[y] == 1 {
            fell_targets(pairs, links, left, work, h, t)
        } else {
            stand_targets(pairs, links, left, work, h, t)
        };
        h += 1;
    }
}

// Labels every statement, in rooms that are just as long. Apart from `solve`, since what is written to a part of a room through
// `Work` is not known to a proof.
fn label_all(pairs: &Pairs, labels: &mut [u8], lengths: &mut [u16])
    requires rooms { Rooms pairs.now.marks.now labels.old lengths.old }
    ensures { Labelled (pairs_book pairs.now) labels.new lengths.new }
{
    let mut head = [0u16; 1024];
    let mut next = [0u16; 4096];
    let mut left = [0u16; 1024];
    let mut queue = [0u16; 1024];
    // No length is 65,535, and no Option: that is the number of the C interface.
    labels.fill(0);
    lengths.fill(u16::MAX);
    chain(pairs.objectors, &mut head, &mut next);
    count(pairs, &mut left);
    let links = Links {
        head: &head,
        next: &next,
    };
    let mut work = Work {
        labels,
        lengths,
        queue: &mut queue,
    };
    let tail = start(pairs, &left, &mut work);
    run(pairs, &links, &mut left, &mut work, tail);
}

// Labels every statement, in time linear in statements and objections. The rooms may be longer than that takes.
pub fn solve(pairs: &Pairs, labels: &mut [u8], lengths: &mut [u16])
    requires marks_in_bounds { (length pairs.now.marks.now ≤ length labels.old)
        × (length pairs.now.marks.now ≤ length lengths.old) }
    ensures { Solved pairs.now.marks.now pairs.now.objectors.now pairs.now.targets.now
        labels.old lengths.old labels.new lengths.new }
{
    let n = pairs.marks.len();
    label_all(pairs, &mut labels[..n], &mut lengths[..n]);
}
