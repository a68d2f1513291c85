// Three lists that are in order, as one value, and the same with the statements' numbers. That they are in order is part of the
// type, so that whoever is lent them need not ask.
ghost use Rattle.std.specs.Prelude.{◌≡◌, length};
ghost use Rattle.lists.specs.Handed.{Handed};

// A mark for each statement (0 read, 1 unread), and for each objection its objector and its target, as places among the marks:
// numbers, as the C interface hands them over.
#[derive(Clone, Copy)]
pub struct Pairs<'a> {
    pub marks: &'a [u8],
    pub objectors: &'a [u32],
    pub targets: &'a [u32],
    ghost handed: { Handed marks.now objectors.now targets.now },
}

// A register: the number of each statement beside its mark.
#[derive(Clone, Copy)]
pub struct NumberedPairs<'a> {
    pub numbers: &'a [u32],
    pub pairs: Pairs<'a>,
    ghost numbered: { length numbers.now ≡ length pairs.marks.now },
}
