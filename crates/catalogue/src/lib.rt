// What a catalogue is: a register with each statement on one line, a card, and its objectors behind it. No function stands here:
// specs/ says how a register is written as one, and which texts are accepted or refused; proofs/ that every text is one or the
// other, once, and that nothing is lost on the way there or back. Reading is left to `catalogue_read`, writing to
// `catalogue_write`.
#![tactic(auto)]
