// Refusals 32 to 36, in their order.

#![tactic(auto)]

ghost use Rattle.std.specs.Prelude.{◌≡◌};
ghost use Rattle.refusal.specs.Refusal.{rights_fit, refusal_of};

use answer::Answer;
use control::{Control, Hart};

// Whether no right is above 2: by the greatest, which is compiled to vectors. With each tested by itself an illegal word took 57 ns, and
// 17 so (docs/PERFORMANCE.md).
fn rights_fit(rights: &[u8]) -> bool
    ensures { result ≡ rights_fit rights.now }
{
    rights.iter().copied().fold(0, u8::max) <= 2
}

// What a state handed in comes to on a board, by the lengths of its parts, its rights and its control record.
pub fn refusal(
    hart: Hart,
    registers: usize,
    scalars: usize,
    memory: usize,
    rights: &[u8],
    control: Control,
) -> Result<(), Answer>
    ensures { result ≡ refusal_of hart.board registers scalars memory rights.now control }
{
    if registers as u64 != 32 * (hart.board.vlenb as u64) {
        return Err(Answer::BadRegisters);
    }
    if scalars != 32 {
        return Err(Answer::BadScalars);
    }
    if 65536 < memory {
        return Err(Answer::BadMemory);
    }
    if rights.len() != 256 {
        return Err(Answer::BadRights);
    }
    if !rights_fit(rights) {
        return Err(Answer::BadRights);
    }
    if !control.possible(hart) {
        return Err(Answer::BadControl);
    }
    Ok(())
}
