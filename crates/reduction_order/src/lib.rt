// Why the order of a reduction does not matter is said in specs/ and proved in proofs/: there is no code. The code that folds is in the
// crate reduction.

#![tactic(auto)]
