// Reductions (section 15 of document 000): the fold over the active elements of vs2, from vs1[0] up.
// Registers and VLENB are no struct: tried, contracts are 18 % longer, as each that writes must say that the file is still the one lent.

#![tactic(auto)]

ghost use Rattle.std.specs.Prelude.{◌≡◌, cond, ◌^◌, ◌<◌, length};
ghost use Rattle.layout.specs.Layout.{element_at};
ghost use Rattle.plan.specs.Plan.{scalar_eew};
ghost use Rattle.machine.specs.Effect.{active_of};
ghost use Rattle.machine.specs.OneTurn.{joined_by, reduction_of, reduced_file};
ghost use Rattle.reduction.specs.Reducible.{Joinable, Reachable, Reducible};

use decode::ReductionOp;
use plan::Reduction;
use width::Eew;

// An accumulator and an element, joined.
#[tactic(auto, using(crate::proofs::Operators::within))]
fn joined(op: ReductionOp, sew: u64, acc: u64, x: u64) -> u64
    requires { Joinable op sew acc x }
    ensures { result ≡ joined_by op sew acc x }
{
    let sew = Eew { bits: sew };
    match op {
        ReductionOp::Vredsum => integer::add(sew, acc, x),
        ReductionOp::Vredand => integer::and(sew.bits, acc, x),
        ReductionOp::Vredor => integer::or(sew.bits, acc, x),
        ReductionOp::Vredxor => integer::xor(sew.bits, acc, x),
        ReductionOp::Vredminu => integer::minu(sew.bits, acc, x),
        ReductionOp::Vredmin => integer::min(sew, acc, x),
        ReductionOp::Vredmaxu => integer::maxu(sew.bits, acc, x),
        ReductionOp::Vredmax => integer::max(sew, acc, x),
        ReductionOp::Vwredsumu => integer::waddu(sew, acc, x),
        ReductionOp::Vwredsum => integer::wadd_w(sew, acc, x),
    }
}

// The accumulator, joined with element i if that is active.
fn step(registers: &[u8], vlenb: usize, r: Reduction, i: usize, acc: u64) -> u64
    requires { Reachable (length registers.now) vlenb r i × (acc < 2 ^ scalar_eew r.op r.sew) }
    ensures value { result ≡ cond (active_of vlenb registers.now r.masked i)
        (joined_by r.op r.sew acc (element_at vlenb registers.now r.vs2.reg r.vs2.eew i)) acc }
    ensures upper_bound { result < 2 ^ scalar_eew r.op r.sew }
{
    if execute::active(registers, vlenb, r.masked, i) {
        let op = r.op;
        let vs2 = r.vs2;
        let x = layout::read_element(registers, vlenb, vs2.reg, vs2.eew, i);
        return joined(op, r.sew, acc, x);
    }
    acc
}

// vs1[0], joined with each active element of the first vl, upward.
// By the element's number, which `reduction_of` speaks of: v0 and vs2 are both read by it, and elements of EEW bits are no slice.
fn fold(registers: &[u8], vlenb: usize, r: Reduction, vl: usize) -> u64
    requires { Reducible (length registers.now) vlenb r vl }
    ensures { result ≡ reduction_of vlenb registers.now r vl }
{
    let vs1 = r.vs1;
    let mut acc = layout::read_element(registers, vlenb, vs1.reg, vs1.eew, 0);
    for i in 0..vl {
        acc = step(registers, vlenb, r, i, acc);
    }
    acc
}

// The one turn of a reduction. All is read before element 0 of vd is written, which may be an element of any source, or of the mask.
pub fn reduce(registers: &mut [u8], vlenb: usize, r: Reduction, vl: usize)
    requires { Reducible (length registers.old) vlenb r vl }
    ensures { registers.new ≡ reduced_file vlenb registers.old r vl }
{
    if vl != 0 {
        let vd = r.vd;
        let z = fold(registers, vlenb, r, vl);
        layout::write_element(registers, vlenb, vd.reg, vd.eew, 0, z);
    }
}
