// The worked values of document 01 are in specs/, and proved in proofs/: there is no code.

#![tactic(auto)]
