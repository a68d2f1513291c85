// The numbers entered and the links that lead to their places, as one value. That each leads to its own is said by a clause
// (`IsIndexed`) and not by a ghost field (tried: `Indexed` tells a way to each number, so it is no proposition), and found out
// by others.

// The first n numbers, and the links of their tree.
#[derive(Drop)]
pub struct NumberIndex<'a> {
    pub numbers: &'a mut [u32],
    pub links: &'a mut [u16],
    pub n: usize,
}
