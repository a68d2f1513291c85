// No function stands here: specs/ says how a reason is written, and what the register of nothing but a reason is; proofs/ that
// this register gives the statement the same line. What a reason is stands in `game`, and finding it is left to `reason_find`.
#![tactic(auto)]
