// The meanings of the register stand in specs/, and what is proved of them in proofs/. The kind of an objection is the
// program's own type; finding it is left to `label_kind`.
#![tactic(auto)]

// The kind of an objection. A felling or delaying one holds its length.
#[derive(Clone, Copy)]
pub enum Kind {
    Idle,
    Felling(u16),
    Delaying(u16),
    Standoff,
}
