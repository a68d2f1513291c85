// A register that is labelled, as one value: what its listing is made of. That there is a number for each statement is part of
// the type; that the labels are the right ones is asked by a clause (`AreLabelled`), and found out by others.
ghost use Rattle.std.specs.Prelude.{◌≡◌, length};

use label_solve::LabelledPairs;

// The number of each statement, beside the lists and their labels and lengths.
#[derive(Clone, Copy)]
pub struct LabelledRegister<'a> {
    pub numbers: &'a [u32],
    pub labelled: LabelledPairs<'a>,
    ghost numbered: { length numbers.now ≡ length labelled.pairs.marks.now },
}
