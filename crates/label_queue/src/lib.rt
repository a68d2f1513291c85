// How the labelling begins: the objections counted, and what is read and has no objector labelled and queued. The states of the
// queue that `label_step` and `label_solve` go by, and their laws, are here too; what comes of it is left to them.
#![tactic(auto)]

ghost use Rattle.std.specs.Prelude.{◌≡◌, ◌≤◌, ℕ, ◌<◌, length, get_or};
ghost use Rattle.label_queue.specs.LabelState.{Rooms, Blank};
ghost use Rattle.label_queue.specs.Queue.{Counted, Spaces};
ghost use Rattle.label_queue.specs.WorkAt.{WorkAt, SameRooms};

use lists::Pairs;

// Counts the objections against each place.
pub fn count(pairs: &Pairs, left: &mut [u16])
    requires marks_in_bounds { length pairs.now.marks.now ≤ length left.old }
    requires none_counted { (x : ℕ) → x < length pairs.now.marks.now → get_or left.old x 0 ≡ 0 }
    ensures { Counted pairs.now.marks.now pairs.now.targets.now (length pairs.now.targets.now) left.new }
{
    // For each place, `left` has how many of the objections passed are against it.
    for &target in pairs.targets {
        left[target as usize] += 1;
    }
}

// What the labelling writes at each step: for each place its label and its length, and the queue of the places that have a label.
// How many objections against a place are left to look at is lent beside it, since not each step writes that.
#[derive(Drop)]
pub struct Work<'a> {
    pub labels: &'a mut [u8],
    pub lengths: &'a mut [u16],
    pub queue: &'a mut [u16],
}

// Labels what is read and has no objector, and queues it.
pub fn start(pairs: &Pairs, left: &[u16], work: &mut Work) -> usize
    requires rooms { Rooms pairs.now.marks.now work.old.labels.now work.old.lengths.now }
    requires spaces { Spaces pairs.now.marks.now left.now work.old.queue.now }
    requires counted { Counted pairs.now.marks.now pairs.now.targets.now (length pairs.now.targets.now) left.now }
    requires blank { Blank pairs.now.marks.now work.old.labels.now work.old.lengths.now }
    ensures queued { WorkAt pairs.now left.now 0 result work.new }
    ensures same { SameRooms work.old work.new }
{
    let mut t = 0;
    // The places before x that are read and have no objector stand and are queued before t; no other place has a label.
    for (x, &mark) in pairs.marks.iter().enumerate() {
        if mark == 0 && left[x] == 0 {
            work.labels[x] = 1;
            work.lengths[x] = 0;
            work.queue[t] = x as u16;
            t += 1;
        }
    }
    t
}
