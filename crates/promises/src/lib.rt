// No function stands here: specs/ has what every public call promises, a file for each family of calls, what the programs print,
// and the three demands, where a reader starts. proofs/ shows that each promise leaves one answer, that each refusal is given
// exactly when it is due, and that the promises meet the demands. What they say of named inputs is left to `examples`.
#![tactic(auto)]
