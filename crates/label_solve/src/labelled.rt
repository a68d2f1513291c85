// Lists that are in order and labelled, as one value. That there is a label and a length for each statement is part of the type;
// that they are the right ones is asked by a clause (`AreLabelled`), since a type can't hold a fact that has a witness.
ghost use Rattle.std.specs.Prelude.{◌≤◌, length};

use lists::Pairs;

// The label (0 open, 1 stands, 2 falls) and the length of each statement, beside its mark: numbers, since the solver writes them
// straight into rooms of the C interface. The two lists may be longer.
#[derive(Clone, Copy)]
pub struct LabelledPairs<'a> {
    pub pairs: Pairs<'a>,
    pub labels: &'a [u8],
    pub lengths: &'a [u16],
    ghost labels_room: { length pairs.marks.now ≤ length labels.now },
    ghost lengths_room: { length pairs.marks.now ≤ length lengths.now },
}
