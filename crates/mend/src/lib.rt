// No function stands here: specs/ says what mending a text means, line by line, and how it is reported; proofs/ what that is
// worth. The code is in `mend_line`, `mend_text` and `mend_report`.
#![tactic(auto)]
