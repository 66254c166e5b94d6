// One element of a permutation (sections 16.9, 17.3 and 17.4 of document 000), in place.
// Registers and VLENB are no struct: tried, contracts are 18 % longer, as each that writes must say that the file is still the one lent.

#![tactic(auto)]

ghost use Rattle.std.specs.Prelude.{◌≡◌, false, cond, List, ℕ, ◌+◌, ◌-◌, ◌≤◌, ◌<◌, length, eqb, Ok};
ghost use Rattle.control.specs.declared.Control.{Control};
ghost use Rattle.plan.specs.declared.Action.TheVariants as Act;
ghost use Rattle.machine.specs.Effect.{vs2_at, stays_at, permuted_of, permuting, effect_of};
ghost use Rattle.execute.specs.Step.{ReadInside, Ready, Permutable, core_at, Did};

use control::Board;
use decode::PermutationOp;
use plan::{Elementwise, Permute, Read};
use width::Eew;

// Element k of vs2, and 0 from VLMAX on. What is asked of vs2 is a clause, and no type that would be made of it at each element.
fn vs2_at(registers: &[u8], vlenb: usize, vs2: Read, vlmax: u64, k: u64) -> u64
    requires { (j : ℕ) → j < vlmax → ReadInside (length registers.now) vlenb vs2 j }
    ensures { result ≡ vs2_at vlenb registers.now vs2 vlmax k }
{
    if k < vlmax {
        return execute::value(registers, vlenb, vs2, k as usize);
    }
    0
}

// Element i + x of vs2. The offset is tested before it is added: the sum would not fit 64 bits.
fn slid_down(registers: &[u8], vlenb: usize, vs2: Read, vlmax: u64, x: u64, i: u64) -> u64
    requires { ((j : ℕ) → j < vlmax → ReadInside (length registers.now) vlenb vs2 j) × ((i < vlmax) × (vlmax ≤ 128)) }
    ensures { result ≡ vs2_at vlenb registers.now vs2 vlmax (i + x) }
{
    if x < vlmax {
        return vs2_at(registers, vlenb, vs2, vlmax, i + x);
    }
    0
}

// The element below, or x at element 0. One function for this and `slid_1down` would take an Option, which each of its two calls makes: no
// plainer, and tried, a turn of vse8.v took 1,015 ns and not 765 (docs/PERFORMANCE.md; no bar is of it).
fn slid_1up(registers: &[u8], vlenb: usize, vs2: Read, vlmax: u64, x: u64, i: u64) -> u64
    requires { (j : ℕ) → j < vlmax → ReadInside (length registers.now) vlenb vs2 j }
    ensures { result ≡ cond (eqb i 0) x (vs2_at vlenb registers.now vs2 vlmax (i - 1)) }
{
    if i == 0 {
        return x;
    }
    vs2_at(registers, vlenb, vs2, vlmax, i - 1)
}

// The element above, or x at the last of vl.
fn slid_1down(registers: &[u8], vlenb: usize, vs2: Read, vlmax: u64, vl: u64, x: u64, i: u64) -> u64
    requires { ((j : ℕ) → j < vlmax → ReadInside (length registers.now) vlenb vs2 j) × ((i < vlmax) × (vlmax ≤ 128)) }
    ensures { result ≡ cond (eqb (i + 1) vl) x (vs2_at vlenb registers.now vs2 vlmax (i + 1)) }
{
    let next = i + 1;
    if next == vl {
        return x;
    }
    vs2_at(registers, vlenb, vs2, vlmax, next)
}

// Whether a slide up leaves element i as it is.
fn stays(op: PermutationOp, x: u64, i: u64) -> bool
    ensures { result ≡ stays_at op x i }
{
    matches!(op, PermutationOp::Vslideup) && i < x
}

// What element i gets, where x is the offset, its index, or the scalar that is put in.
fn permuted(registers: &[u8], vlenb: usize, e: Elementwise, p: Permute, x: u64, i: u64) -> u64
    requires { Permutable (length registers.now) vlenb e p i × (stays_at p.op x i ≡ false) }
    ensures { result ≡ permuted_of p.op p.sew e.end (vs2_at vlenb registers.now e.vs2 p.vlmax) x i }
{
    let op = p.op;
    let vs2 = e.vs2;
    let vlmax = p.vlmax;
    match op {
        PermutationOp::Vid => Eew { bits: p.sew }.low(i),
        PermutationOp::Vslideup => vs2_at(registers, vlenb, vs2, vlmax, i - x),
        PermutationOp::Vslidedown => slid_down(registers, vlenb, vs2, vlmax, x, i),
        PermutationOp::Vslide1up => slid_1up(registers, vlenb, vs2, vlmax, x, i),
        PermutationOp::Vslide1down => slid_1down(registers, vlenb, vs2, vlmax, e.end, x, i),
        PermutationOp::Vrgather | PermutationOp::Vrgatherei16 => {
            vs2_at(registers, vlenb, vs2, vlmax, x)
        }
    }
}

// An element of vs2 moved to element i, or element i as it was.
fn permute(registers: &mut [u8], vlenb: usize, e: Elementwise, p: Permute, i: usize)
    requires { Ready (length registers.old) vlenb e i × Permutable (length registers.old) vlenb e p i }
    ensures { (memory x : List ℕ) (c : Control) → Did vlenb (permuting vlenb registers.old e p i)
        (core_at registers.old memory x c) (Ok tt) (core_at registers.new memory x c) }
{
    let vs1 = e.vs1;
    let dest = e.dest;
    let op = p.op;
    let x = execute::value(registers, vlenb, vs1, i);
    if stays(op, x, i as u64) {
        return;
    }
    let z = permuted(registers, vlenb, e, p, x, i as u64);
    layout::write_element(registers, vlenb, dest.reg, dest.eew, i, z);
}

// Element i of a permutation, from the state as it is.
pub fn element(registers: &mut [u8], board: Board, e: Elementwise, p: Permute, i: usize)
    requires { Ready (length registers.old) board.vlenb e i
        × (Permutable (length registers.old) board.vlenb e p i × (e.action ≡ Act.Permute p)) }
    ensures { (rights memory x : List ℕ) (c : Control) → Did board.vlenb
        (effect_of board rights (core_at registers.old memory x c) e i)
        (core_at registers.old memory x c) (Ok tt) (core_at registers.new memory x c) }
{
    let vlenb = board.vlenb as usize;
    if !execute::active(registers, vlenb, e.masked, i) {
        return;
    }
    permute(registers, vlenb, e, p, i);
}
