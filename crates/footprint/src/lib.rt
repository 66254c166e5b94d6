// What an instruction reads and writes, and what may be changed between its turns, is said in specs/ and proved in proofs/: there is no
// code. The calls that take turns are in the crate turn.

#![tactic(auto)]
