// The element operations of sections 12.1 to 12.9, 12.15 and 12.16 of document 000. `a` is the element of vs2, `b` that of vs1 (or the
// scalar or immediate in its place), `c` the mask bit of v0. Each is an operation that the standard names and alu calls: two that differ in
// a width or a sign alone (vadd and vwaddu, vminu and vmin) stay two. Those that use no width (zext, msbc, and, or, xor, mseq, msne, msltu,
// msleu, msgtu, minu, maxu, merge, mv) take its number, since their clauses name it: an `Eew` would ask more of callers; without it the
// clause is over every width, which was tried for `and`: its arm in alu then needs an answer, and there are 24 such calls.
// An element is a number with its bound as a clause, and no type: alu gets three as numbers, and would wrap them at each call.

#![tactic(auto)]

ghost use Rattle.std.specs.Prelude.{◌≡◌, ◌*◌, ◌/◌, ◌%◌, ◌<◌, ◌≤◌, ◌^◌, cond};
ghost use Rattle.std.specs.Int.Signed.{lt_z, shr_z};
ghost use Rattle.width.specs.Width.{signed, wrap};
ghost use Rattle.integer.specs.Integer.{vadd, vsub, vrsub, vwaddu, vwsubu, vwadd, vwsub, vwadd-w, vwsub-w, vzext, vsext};
ghost use Rattle.integer.specs.Integer.{vadc, vmadc, vsbc, vmsbc, vand, vor, vxor, vsll, vsrl, vsra, vnsrl, vnsra};
ghost use Rattle.integer.specs.Integer.{vmseq, vmsne, vmsltu, vmslt, vmsleu, vmsle, vmsgtu, vmsgt};
ghost use Rattle.integer.specs.Integer.{vminu, vmin, vmaxu, vmax, vmerge, vmv};

use width::Eew;

pub mod mask;

// ---- 12.1

// vadd: the sum, wrapped.
pub fn add(sew: Eew, a: u64, b: u64) -> u64
    ensures { result ≡ vadd sew.bits a b }
{
    sew.add(a, b)
}

// vsub: a - b, wrapped.
pub fn sub(sew: Eew, a: u64, b: u64) -> u64
    ensures { result ≡ vsub sew.bits a b }
{
    sew.sub(a, b)
}

// vrsub: b - a, wrapped.
pub fn rsub(sew: Eew, a: u64, b: u64) -> u64
    ensures { result ≡ vrsub sew.bits a b }
{
    sew.sub(b, a)
}

// ---- 12.2

// vwaddu, and its .w form: the sum of 2 * sew bits.
pub fn waddu(sew: Eew, a: u64, b: u64) -> u64
    requires { 2 * sew.bits ≤ 64 }
    ensures { result ≡ vwaddu sew.bits a b }
{
    sew.doubled().add(a, b)
}

// vwsubu, and its .w form: a - b at 2 * sew bits.
pub fn wsubu(sew: Eew, a: u64, b: u64) -> u64
    requires { 2 * sew.bits ≤ 64 }
    ensures { result ≡ vwsubu sew.bits a b }
{
    sew.doubled().sub(a, b)
}

// x, of the width `from`, sign-extended to the width `to`.
pub fn extend(from: Eew, to: Eew, x: u64) -> u64
    requires { x < 2 ^ from.bits }
    ensures { result ≡ wrap to.bits (signed from.bits x) }
{
    to.from_signed(from.to_signed(x))
}

// vwadd: the sum of both sign-extended to 2 * sew bits.
#[tactic(auto, using(crate::proofs::SumLaws::widening))]
pub fn wadd(sew: Eew, a: u64, b: u64) -> u64
    requires { (2 * sew.bits ≤ 64) × ((a < 2 ^ sew.bits) × (b < 2 ^ sew.bits)) }
    ensures { result ≡ vwadd sew.bits a b }
{
    let wide = sew.doubled();
    wide.add(extend(sew, wide, a), extend(sew, wide, b))
}

// vwsub: a - b, both sign-extended to 2 * sew bits.
#[tactic(auto, using(crate::proofs::SumLaws::widening))]
pub fn wsub(sew: Eew, a: u64, b: u64) -> u64
    requires { (2 * sew.bits ≤ 64) × ((a < 2 ^ sew.bits) × (b < 2 ^ sew.bits)) }
    ensures { result ≡ vwsub sew.bits a b }
{
    let wide = sew.doubled();
    wide.sub(extend(sew, wide, a), extend(sew, wide, b))
}

// vwadd.w: the sum, where a has 2 * sew bits already.
#[tactic(auto, using(crate::proofs::SumLaws::widening))]
pub fn wadd_w(sew: Eew, a: u64, b: u64) -> u64
    requires { (2 * sew.bits ≤ 64) × ((a < 2 ^ (2 * sew.bits)) × (b < 2 ^ sew.bits)) }
    ensures { result ≡ vwadd-w sew.bits a b }
{
    let wide = sew.doubled();
    wide.add(a, extend(sew, wide, b))
}

// vwsub.w: a - b, where a has 2 * sew bits already.
#[tactic(auto, using(crate::proofs::SumLaws::widening))]
pub fn wsub_w(sew: Eew, a: u64, b: u64) -> u64
    requires { (2 * sew.bits ≤ 64) × ((a < 2 ^ (2 * sew.bits)) × (b < 2 ^ sew.bits)) }
    ensures { result ≡ vwsub-w sew.bits a b }
{
    let wide = sew.doubled();
    wide.sub(a, extend(sew, wide, b))
}

// ---- 12.3

// vzext: a has sew / f bits, and its number stays.
pub fn zext(f: u64, sew: u64, a: u64) -> u64
    ensures { result ≡ vzext f sew a }
{
    a
}

// vsext: the sew / f bits of a sign-extended.
pub fn sext(f: u64, sew: Eew, a: u64) -> u64
    requires { (1 ≤ f) × ((1 ≤ sew.bits / f) × (a < 2 ^ (sew.bits / f))) }
    ensures { result ≡ vsext f sew.bits a }
{
    extend(Eew { bits: sew.bits / f }, sew, a)
}

// ---- 12.4

// vadc: the sum with the carry-in c, wrapped.
#[tactic(auto, using(crate::proofs::SumLaws::cuts))]
pub fn adc(sew: Eew, a: u64, b: u64, c: u64) -> u64
    ensures { result ≡ vadc sew.bits a b c }
{
    sew.add(sew.add(a, b), c)
}

// vmadc: a + b + c carries out where what a leaves to all ones is less than b + c.
pub fn madc(sew: Eew, a: u64, b: u64, c: u64) -> u64
    requires { (a < 2 ^ sew.bits) × ((b < 2 ^ sew.bits) × (c < 2)) }
    ensures { result ≡ vmadc sew.bits a b c }
{
    msbc(sew.bits, sew.ones() - a, b, c)
}

// vsbc: a - b less the borrow-in c, wrapped.
#[tactic(auto, using(crate::proofs::SumLaws::cuts))]
pub fn sbc(sew: Eew, a: u64, b: u64, c: u64) -> u64
    ensures { result ≡ vsbc sew.bits a b c }
{
    sew.sub(a, sew.add(b, c))
}

// vmsbc: a < b + c with no sum, since b + 1 may not fit.
pub fn msbc(sew: u64, a: u64, b: u64, c: u64) -> u64
    requires { c < 2 }
    ensures { result ≡ vmsbc sew a b c }
{
    if c == 0 {
        msltu(sew, a, b)
    } else {
        msleu(sew, a, b)
    }
}

// ---- 12.5

// vand
pub fn and(sew: u64, a: u64, b: u64) -> u64
    ensures { result ≡ vand sew a b }
{
    a & b
}

// vor
pub fn or(sew: u64, a: u64, b: u64) -> u64
    ensures { result ≡ vor sew a b }
{
    a | b
}

// vxor
pub fn xor(sew: u64, a: u64, b: u64) -> u64
    ensures { result ≡ vxor sew a b }
{
    a ^ b
}

// ---- 12.6

// The v bits of a, signed, shifted right; of that the low w bits.
fn shift_signed(v: Eew, w: Eew, a: u64, b: u64) -> u64
    requires { a < 2 ^ v.bits }
    ensures { result ≡ wrap w.bits (shr_z (signed v.bits a) (2 ^ (b % v.bits))) }
{
    let x = v.to_signed(a);
    w.from_signed(x >> (b % v.bits))
}

// vsll: by the low lg2(sew) bits of b.
#[tactic(auto, using(crate::proofs::ShiftLaws::left_is))]
pub fn sll(sew: Eew, a: u64, b: u64) -> u64
    ensures { result ≡ vsll sew.bits a b }
{
    sew.low(a << (b % sew.bits))
}

// vsrl: the same, zeros shifted in.
pub fn srl(sew: Eew, a: u64, b: u64) -> u64
    ensures { result ≡ vsrl sew.bits a b }
{
    a >> (b % sew.bits)
}

// vsra: the same, the sign shifted in.
pub fn sra(sew: Eew, a: u64, b: u64) -> u64
    requires { a < 2 ^ sew.bits }
    ensures { result ≡ vsra sew.bits a b }
{
    shift_signed(sew, sew, a, b)
}

// ---- 12.7

// vnsrl: a has 2 * sew bits, shifted by the low lg2(2 * sew) bits of b.
pub fn nsrl(sew: Eew, a: u64, b: u64) -> u64
    requires { 2 * sew.bits ≤ 64 }
    ensures { result ≡ vnsrl sew.bits a b }
{
    sew.low(a >> (b % (2 * sew.bits)))
}

// vnsra: the same, the sign shifted in.
pub fn nsra(sew: Eew, a: u64, b: u64) -> u64
    requires { (2 * sew.bits ≤ 64) × (a < 2 ^ (2 * sew.bits)) }
    ensures { result ≡ vnsra sew.bits a b }
{
    shift_signed(sew.doubled(), sew, a, b)
}

// ---- 12.8

// Whether a is less than b, both signed.
fn less(sew: Eew, a: u64, b: u64) -> bool
    requires { (a < 2 ^ sew.bits) × (b < 2 ^ sew.bits) }
    ensures { result ≡ lt_z (signed sew.bits a) (signed sew.bits b) }
{
    sew.to_signed(a) < sew.to_signed(b)
}

// vmseq: 1 where a is b.
pub fn mseq(sew: u64, a: u64, b: u64) -> u64
    ensures { result ≡ vmseq sew a b }
{
    u64::from(a == b)
}

// vmsne: 1 where it is not.
pub fn msne(sew: u64, a: u64, b: u64) -> u64
    ensures { result ≡ vmsne sew a b }
{
    u64::from(a != b)
}

// vmsltu: 1 where a is less, both unsigned.
pub fn msltu(sew: u64, a: u64, b: u64) -> u64
    ensures { result ≡ vmsltu sew a b }
{
    u64::from(a < b)
}

// vmslt: 1 where a is less, both signed.
pub fn mslt(sew: Eew, a: u64, b: u64) -> u64
    requires { (a < 2 ^ sew.bits) × (b < 2 ^ sew.bits) }
    ensures { result ≡ vmslt sew.bits a b }
{
    u64::from(less(sew, a, b))
}

// vmsleu: 1 where a is less or equal, both unsigned.
pub fn msleu(sew: u64, a: u64, b: u64) -> u64
    ensures { result ≡ vmsleu sew a b }
{
    u64::from(a <= b)
}

// vmsle: 1 where a is less or equal, both signed.
pub fn msle(sew: Eew, a: u64, b: u64) -> u64
    requires { (a < 2 ^ sew.bits) × (b < 2 ^ sew.bits) }
    ensures { result ≡ vmsle sew.bits a b }
{
    u64::from(!less(sew, b, a))
}

// vmsgtu: 1 where b is less, both unsigned.
pub fn msgtu(sew: u64, a: u64, b: u64) -> u64
    ensures { result ≡ vmsgtu sew a b }
{
    msltu(sew, b, a)
}

// vmsgt: 1 where b is less, both signed.
pub fn msgt(sew: Eew, a: u64, b: u64) -> u64
    requires { (a < 2 ^ sew.bits) × (b < 2 ^ sew.bits) }
    ensures { result ≡ vmsgt sew.bits a b }
{
    mslt(sew, b, a)
}

// ---- 12.9

// vminu: the smaller, both unsigned.
pub fn minu(sew: u64, a: u64, b: u64) -> u64
    ensures { result ≡ vminu sew a b }
{
    a.min(b)
}

// vmin: the smaller, both signed.
pub fn min(sew: Eew, a: u64, b: u64) -> u64
    requires { (a < 2 ^ sew.bits) × (b < 2 ^ sew.bits) }
    ensures { result ≡ vmin sew.bits a b }
{
    if less(sew, a, b) { a } else { b }
}

// vmaxu: the larger, both unsigned.
pub fn maxu(sew: u64, a: u64, b: u64) -> u64
    ensures { result ≡ vmaxu sew a b }
{
    a.max(b)
}

// vmax: the larger, both signed.
pub fn max(sew: Eew, a: u64, b: u64) -> u64
    requires { (a < 2 ^ sew.bits) × (b < 2 ^ sew.bits) }
    ensures { result ≡ vmax sew.bits a b }
{
    if less(sew, a, b) { b } else { a }
}

// ---- 12.15, 12.16

// vmerge: b where the mask bit c is set, else a.
pub fn merge(sew: u64, a: u64, b: u64, c: u64) -> u64
    ensures { result ≡ vmerge sew a b c }
{
    if c == 1 { b } else { a }
}

// vmv: b.
pub fn mv(sew: u64, b: u64) -> u64
    ensures { result ≡ vmv sew b }
{
    b
}
