// What a text is mended to, as one value: the register that is left, and the fates of the lines. That they are those of the text
// is said by a clause (`MendedAs`), and found out by others.
use lists::NumberedPairs;

// A fate is the number of one byte that the report writes, not an enum: up to 65,535 stand in fixed memory, with no heap.
#[derive(Clone, Copy)]
pub struct MendedText<'a> {
    pub register: NumberedPairs<'a>,
    pub fates: &'a [u8],
}
