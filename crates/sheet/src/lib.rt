// No function stands here: specs/ says what a label sheet is and when an old one is sound, proofs/ that a register has one sheet
// only. The code is in `sheet_code` and the crates upon it.
#![tactic(auto)]
