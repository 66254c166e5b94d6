// The machine as a definition is in specs/, and what is proved of it in proofs/. The only code is the record that a turn returns.

#![tactic(auto)]

use access::FaultPlace;
use answer::Answer;
use control::Control;

// What a turn gives beside what it leaves in the lent parts: the answer, the number of elements passed, where a fault lies, and the control
// record after it. (Turn, allowance and passed are terms of document 01.) It is no Result: passed and control stand beside every answer.
#[derive(Clone, Copy)]
pub struct Turned {
    pub answer: Answer,
    pub passed: u64,
    pub place: FaultPlace,
    pub control: Control,
}
