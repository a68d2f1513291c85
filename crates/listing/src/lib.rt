// No function stands here: specs/ says what the rows of a listing are, byte by byte, and which listing a register has; proofs/
// that it has one only, and how long that can be. Writing it is left to `listing_row` and `listing_write`.
#![tactic(auto)]
