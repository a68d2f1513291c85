// Lists handed over by another program, in whatever state they are: accepted, or refused with 01's number and the first
// entry at fault. Labels, and the room for the answer, are left to others.
#![tactic(auto)]

ghost use Rattle.std.specs.Prelude.{◌≡◌, length};
ghost use Rattle.game.specs.Questions.{FirstBelow};
ghost use Rattle.lists.specs.Refuses.{BadMark, BadPlace, Repeat};
ghost use Rattle.pair_repeat.specs.Entered.{Entered};
ghost use Rattle.lists_check.specs.Checks.{Checks};

use lists::{ListsFault, Pairs};

// The first mark other than 0 or 1, if there is one.
pub fn bad_mark(marks: &[u8]) -> Option<usize>
    ensures { FirstBelow (BadMark marks.now) (length marks.now) result }
{
    marks.iter().position(|&mark| mark > 1)
}

// The first pair with a place outside the mark list, if there is one.
pub fn bad_place(marks: &[u8], objectors: &[u32], targets: &[u32]) -> Option<usize>
    requires { length targets.now ≡ length objectors.now }
    ensures { FirstBelow (BadPlace marks.now objectors.now targets.now)
        (length objectors.now) result }
{
    let n = marks.len();
    // Both places of each of the first k pairs are within the mark list.
    for k in 0..objectors.len() {
        if objectors[k] as usize >= n {
            return Some(k);
        }
        if targets[k] as usize >= n {
            return Some(k);
        }
    }
    None
}

// The first pair that stands earlier too, if there is one. The handed lists are only read: the pairs passed are linked in two
// rooms of our own.
fn first_repeat(pairs: &Pairs, copies: &mut [u32], links: &mut [u32]) -> Option<usize>
    requires { Entered (length pairs.now.marks.now) 0 copies.old links.old }
    ensures { FirstBelow (Repeat pairs.now.objectors.now pairs.now.targets.now)
        (length pairs.now.objectors.now) result }
{
    let n = pairs.marks.len();
    // None of the first k pairs stands earlier too, and `copies` and `links` hold these k pairs, chained.
    for k in 0..pairs.objectors.len() {
        let y = pairs.objectors[k] as usize;
        let x = pairs.targets[k] as usize;
        if pair_repeat::pair_at(copies, links, n, k, y, x).is_some() {
            return Some(k);
        }
        pair_repeat::enter(copies, links, n, k, y, x);
    }
    None
}

// The first pair that stands earlier too, if there is one.
fn repeated(pairs: &Pairs) -> Option<usize>
    ensures { FirstBelow (Repeat pairs.now.objectors.now pairs.now.targets.now)
        (length pairs.now.objectors.now) result }
{
    let mut copies = [0u32; 4096];
    let mut links = [0u32; 3072];
    first_repeat(pairs, &mut copies, &mut links)
}

// Checks the lists in 01's order, and answers them as lists that are in order.
pub fn check<'a>(
    marks: &'a [u8],
    objectors: &'a [u32],
    targets: &'a [u32],
) -> Result<Pairs<'a>, ListsFault>
    ensures { Checks marks.now objectors.now targets.now result }
{
    if objectors.len() != targets.len() {
        return Err(ListsFault::Unequal);
    }
    if marks.len() > 1024 {
        return Err(ListsFault::Statements);
    }
    if objectors.len() > 4096 {
        return Err(ListsFault::Objections);
    }
    if let Some(mark) = bad_mark(marks) {
        return Err(ListsFault::Mark(mark as u32));
    }
    if let Some(pair) = bad_place(marks, objectors, targets) {
        return Err(ListsFault::Place(pair as u32));
    }
    let pairs = Pairs {
        marks,
        objectors,
        targets,
    };
    if let Some(pair) = repeated(&pairs) {
        return Err(ListsFault::Repeated(pair as u32));
    }
    Ok(pairs)
}
