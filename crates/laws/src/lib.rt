// Laws that the proofs of many crates cite are in proofs/: there is no code.

#![tactic(auto)]
