// How a label spreads: one place of the queue is looked at, and what it objects to falls, or has one objector less. Each such
// objection is looked at once. Which place comes next is left to `label_solve`.
#![tactic(auto)]

ghost use Rattle.std.specs.Prelude.{◌≡◌, ◌<◌, ◌+◌, get_or};
ghost use Rattle.pair_chain.specs.Linked.{Chains};
ghost use Rattle.label_queue.specs.WorkAt.{WorkAt, SameRooms};

use label_queue::Work;
use lists::Pairs;
use pair_chain::Links;

// The place at h of the queue stands: what it objects to falls, one turn later. `left` is there for the contract alone.
pub fn fell_targets(
    pairs: &Pairs,
    links: &Links,
    left: &[u16],
    work: &mut Work,
    h: usize,
    tail: usize,
) -> usize
    requires chains { Chains pairs.now.marks.now pairs.now.objectors.now links.now.head.now links.now.next.now }
    requires queued { WorkAt pairs.now left.now h tail work.old × (h < tail)
        × (get_or work.old.labels.now (get_or work.old.queue.now h 0) 0 ≡ 1) }
    ensures queued { WorkAt pairs.now left.now (h + 1) result work.new }
    ensures same { SameRooms work.old work.new }
{
    let y = usize::from(work.queue[h]);
    let k = work.lengths[y] + 1;
    let mut t = tail;
    let mut c = usize::from(links.head[y]);
    // The target of each objection by y that was passed falls, and each place with a label is in the queue before t.
    while c != 0 {
        let x = pairs.targets[c - 1] as usize;
        c = usize::from(links.next[c - 1]);
        if work.labels[x] != 0 {
            continue;
        }
        work.labels[x] = 2;
        work.lengths[x] = k;
        work.queue[t] = x as u16;
        t += 1;
    }
    t
}

// The place at h of the queue falls: what it objects to has one objector less, and with none left, and read, it stands.
pub fn stand_targets(
    pairs: &Pairs,
    links: &Links,
    left: &mut [u16],
    work: &mut Work,
    h: usize,
    tail: usize,
) -> usize
    requires chains { Chains pairs.now.marks.now pairs.now.objectors.now links.now.head.now links.now.next.now }
    requires queued { WorkAt pairs.now left.old h tail work.old × (h < tail)
        × (get_or work.old.labels.now (get_or work.old.queue.now h 0) 0 ≡ 2) }
    ensures queued { WorkAt pairs.now left.new (h + 1) result work.new }
    ensures same { SameRooms work.old work.new }
{
    let y = usize::from(work.queue[h]);
    let k = work.lengths[y] + 1;
    let mut t = tail;
    let mut c = usize::from(links.head[y]);
    // The objections by y that were passed are out of `left`; what is read and has none left stands and is queued before t.
    while c != 0 {
        let x = pairs.targets[c - 1] as usize;
        c = usize::from(links.next[c - 1]);
        left[x] -= 1;
        if left[x] != 0 || pairs.marks[x] != 0 || work.labels[x] != 0 {
            continue;
        }
        work.labels[x] = 1;
        work.lengths[x] = k;
        work.queue[t] = x as u16;
        t += 1;
    }
    t
}
