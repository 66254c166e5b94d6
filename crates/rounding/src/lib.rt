// What the rounding modes mean is in specs/, and proved in proofs/: there is no code. The code that rounds is in the crate fixed.

#![tactic(auto)]
