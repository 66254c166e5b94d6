// The elements of a load or a store that lie one after the other in memory, moved as one copy where none of them faults.

#![tactic(auto)]

ghost use Rattle.std.specs.Prelude.{◌≡◌, List, ℕ, ◌+◌, ◌≤◌, length};
ghost use Rattle.control.specs.declared.Control.{Control};
ghost use Rattle.execute.specs.Step.{core_at, Attempted};
ghost use Rattle.unit_stride.specs.Tested.{Packed};
ghost use Rattle.block_copy.specs.Copy.{copied, in_order_of, AllGranted, Copyable};

use answer::Answer;
use control::Board;
use plan::{Elementwise, Read, Transfer};

// n bytes, from index a of one list to index at of the other.
fn copy(to: &mut [u8], at: usize, from: &[u8], a: usize, n: usize)
    requires { (at + n ≤ length to.old) × (a + n ≤ length from.now) }
    ensures { to.new ≡ copied to.old at from.now a n }
{
    to[at..at + n].copy_from_slice(&from[a..a + n]);
}

// Whether each element, of one field, lies after the one before it in memory, and all are active.
fn in_order(e: Elementwise, t: Transfer) -> bool
    ensures { result ≡ in_order_of e t }
{
    matches!(e.vs2, Read::Constant(0)) && !e.masked && t.stride == t.bytes && e.dest.nf == 0
}

// Whether none of the n elements from element v up faults.
fn granted(rights: &[u8; 256], memory: usize, t: Transfer, v: u64, n: u64) -> bool
    requires { Packed memory t v n }
    ensures { AllGranted rights.now memory t v n result }
{
    let checked = unit_stride::unmasked(rights, memory, t, v, n);
    matches!(checked.answer, Answer::Finished)
}

// The n elements from element v up of a plan that loads or stores, where they can be moved as one copy: whether they can.
// A bool and no Option or enum: no value stands beside it, and whatever the reason that it is false, the caller goes element by element.
pub fn transferred(
    registers: &mut [u8],
    memory: &mut [u8],
    rights: &[u8; 256],
    board: Board,
    e: Elementwise,
    t: Transfer,
    v: u64,
    n: u64,
) -> bool
    requires { Copyable board (length registers.old) (length memory.old) e t v n }
    ensures { (x : List ℕ) (c : Control) → Attempted board rights.now e v n
        (core_at registers.old memory.old x c) result (core_at registers.new memory.new x c) }
{
    if n == 0 || !in_order(e, t) {
        return false;
    }
    if !granted(rights, memory.len(), t, v, n) {
        return false;
    }
    let dest = e.dest;
    let size = t.bytes as usize;
    let at = (board.vlenb as usize) * dest.reg + (v as usize) * size;
    let a = execute::address(t, v, 0) as usize;
    let bytes = (n as usize) * size;
    if t.store {
        copy(memory, a, registers, at, bytes);
    } else {
        copy(registers, at, memory, a, bytes);
    }
    true
}
