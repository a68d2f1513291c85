// No function stands here: specs/ has the examples that 01 marks P, of reasons and of label sheets, and tables of what the
// programs print and the calls answer; proofs/ shows every row of the meanings and promises themselves, and that the promises
// shut the idle programs out.
#![tactic(auto)]
