// The place of a number, found without a scan: the places of the numbers entered stand in a tree, and who looks a number up
// goes down by its digits in base 8. Who asks only once scans the numbers instead (`find`). What the numbers stand for is left
// to the caller.
//
// `links` has eight slots for each of 1,024 places and for the root, 8 · 1,025 = 8,200 entries of 16 bits: slot 8 · p + d leads
// from the place p, counted from 1, on by the digit d, and 0 leads nowhere (an Option would take twice the room). The last digit
// comes first, since numbers that are issued one after the other differ there. No choice of numbers makes it slow, as a hash
// table can be made: a number's code is below 121,000,000, so below 8 to the 9th, and nine steps are the most (eleven for 32 bits
// that are nobody's); no contract says so.
#![tactic(auto)]

mod number_index;

ghost use Rattle.std.specs.Prelude.{◌≡◌, ◌≤◌, ◌+◌, length, get_or, set};
ghost use Rattle.game.specs.Questions.{FirstBelow};
ghost use Rattle.register_index.specs.Indexed.{slot, Indexed, Free, New};
ghost use Rattle.register_index.specs.IndexAt.{IsIndexed, SameParts};

pub use number_index::NumberIndex;

// The slot of a node for the last digit of what is left.
#[tactic(auto, unfolding(crate::specs::Indexed::slot))]
fn slot_of(rest: u32, node: usize) -> usize
    requires { node ≤ 1024 }
    ensures { result ≡ slot rest node }
{
    8 * node + (rest % 8) as usize
}

// The node to which the last digit of what is left leads, or 0.
#[tactic(auto, unfolding(crate::specs::Indexed::slot))]
fn below(links: &[u16], rest: u32, node: usize) -> usize
    requires { (length links.now ≡ 8200) × (node ≤ 1024) }
    ensures { result ≡ get_or links.now (slot rest node) 0 }
{
    let s = slot_of(rest, node);
    usize::from(links[s])
}

// The place of a number among the first n, if it is there. The two rooms are only read, so they are lent one by one.
pub fn look_up(numbers: &[u32], n: usize, links: &[u16], number: u32) -> Option<usize>
    requires { Indexed numbers.now n links.now }
    ensures { FirstBelow (λ x. get_or numbers.now x 0 ≡ number) n result }
{
    let mut rest = number;
    let mut node = below(links, rest, 0);
    // The number, if it is among the first n, is at the node or below it.
    while node != 0 {
        if numbers[node - 1] == number {
            return Some(node - 1);
        }
        rest = rest / 8;
        node = below(links, rest, node);
    }
    None
}

// The place of a number in an index, if it was entered.
pub fn look_up_in(index: &NumberIndex, number: u32) -> Option<usize>
    requires { IsIndexed index.now }
    ensures { FirstBelow (λ x. get_or index.now.numbers.now x 0 ≡ number) index.now.n result }
{
    look_up(index.numbers, index.n, index.links, number)
}

// The free slot to which the digits of a number lead.
fn free_slot(index: &NumberIndex, number: u32) -> usize
    requires { IsIndexed index.now }
    ensures { Free index.now.n index.now.links.now number result }
{
    let mut rest = number;
    let mut node = 0;
    let mut next = below(index.links, rest, node);
    // The digits passed lead to the node, and the last digit of `rest` leads on to `next`, or nowhere if that is 0.
    while next != 0 {
        node = next;
        rest = rest / 8;
        next = below(index.links, rest, node);
    }
    slot_of(rest, node)
}

// Enters a new number, at place n.
pub fn enter(index: &mut NumberIndex, number: u32)
    requires { IsIndexed index.old × New index.old.numbers.now index.old.n number }
    ensures entered { (index.new.numbers.now ≡ set index.old.numbers.now index.old.n number) × (index.new.n ≡ index.old.n + 1) }
    ensures indexed { IsIndexed index.new }
    ensures same { SameParts index.old index.new }
{
    let n = index.n;
    let s = free_slot(index, number);
    index.numbers[n] = number;
    index.links[s] = (n + 1) as u16;
    index.n = n + 1;
}

// The place of a number, if it is there.
pub fn find(numbers: &[u32], number: u32) -> Option<usize>
    ensures { FirstBelow (λ x. get_or numbers.now x 0 ≡ number) (length numbers.now) result }
{
    numbers.iter().position(|&x| x == number)
}
