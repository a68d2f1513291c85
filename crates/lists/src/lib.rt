// What lists can be refused for, and lists that are in order. No function stands here: specs/ says which handed lists are
// accepted and which fault the others have, proofs/ that every list is one or the other, once. Checking lists is left to
// `lists_check`.
#![tactic(auto)]

mod in_order;

pub use in_order::{NumberedPairs, Pairs};

// 01's 11, 6, 9, 12, 13 and 8. A case holds its entry; the first three have none.
#[derive(Clone, Copy)]
pub enum ListsFault {
    Unequal,
    Statements,
    Objections,
    Mark(u32),
    Place(u32),
    Repeated(u32),
}
