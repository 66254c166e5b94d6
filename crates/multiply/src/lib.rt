// The element operations of sections 12.10 to 12.14 of document 000. `a` is the element of vs2, `b` that of vs1 (or the scalar in its
// place), `d` the destination's element before the instruction. Each is an operation that the standard names and alu calls, as in integer;
// `remu`, which uses no width, takes its number, and an element is a number with its bound as a clause, for the reasons that stand there.

#![tactic(auto)]

ghost use Rattle.std.specs.Prelude.{◌≡◌, ◌*◌, ◌<◌, ◌≤◌, ◌^◌};
ghost use Rattle.multiply.specs.Multiply.{vmul, vmulh, vmulhu, vmulhsu, vdivu, vremu, vdiv, vrem, vwmul, vwmulu, vwmulsu};
ghost use Rattle.multiply.specs.Multiply.{vmacc, vnmsac, vmadd, vnmsub, vwmaccu, vwmacc, vwmaccsu, vwmaccus};

use width::Eew;

// ---- 12.10

// vmul: the low sew bits of the product.
pub fn mul(sew: Eew, a: u64, b: u64) -> u64
    ensures { result ≡ vmul sew.bits a b }
{
    sew.mul(a, b)
}

// vmulh: the high sew bits, both signed.
#[tactic(auto, using(crate::proofs::ProductLaws::products))]
pub fn mulh(sew: Eew, a: u64, b: u64) -> u64
    requires { (2 * sew.bits ≤ 64) × ((a < 2 ^ sew.bits) × (b < 2 ^ sew.bits)) }
    ensures { result ≡ vmulh sew.bits a b }
{
    let x = sew.to_signed(a);
    let y = sew.to_signed(b);
    sew.from_signed((x * y) >> sew.bits)
}

// vmulhu: the high sew bits, both unsigned.
pub fn mulhu(sew: Eew, a: u64, b: u64) -> u64
    requires { (2 * sew.bits ≤ 64) × ((a < 2 ^ sew.bits) × (b < 2 ^ sew.bits)) }
    ensures { result ≡ vmulhu sew.bits a b }
{
    (a * b) >> sew.bits
}

// vmulhsu: the high sew bits, a signed and b unsigned.
#[tactic(auto, using(crate::proofs::ProductLaws::products))]
pub fn mulhsu(sew: Eew, a: u64, b: u64) -> u64
    requires { (2 * sew.bits ≤ 64) × ((a < 2 ^ sew.bits) × (b < 2 ^ sew.bits)) }
    ensures { result ≡ vmulhsu sew.bits a b }
{
    let x = sew.to_signed(a);
    sew.from_signed((x * (b as i64)) >> sew.bits)
}

// ---- 12.11

// vdivu: the quotient; by 0, all ones.
pub fn divu(sew: Eew, a: u64, b: u64) -> u64
    ensures { result ≡ vdivu sew.bits a b }
{
    if b == 0 { sew.ones() } else { a / b }
}

// vremu: the remainder; by 0, the dividend.
pub fn remu(sew: u64, a: u64, b: u64) -> u64
    ensures { result ≡ vremu sew a b }
{
    if b == 0 { a } else { a % b }
}

// vdiv: rounded toward zero; by 0, all ones. The least i64 by -1 is no i64, and wraps.
#[tactic(auto, using(crate::proofs::DivideLaws::divisions))]
pub fn div(sew: Eew, a: u64, b: u64) -> u64
    requires { (a < 2 ^ sew.bits) × (b < 2 ^ sew.bits) }
    ensures { result ≡ vdiv sew.bits a b }
{
    if b == 0 {
        return sew.ones();
    }
    let x = sew.to_signed(a);
    let y = sew.to_signed(b);
    sew.from_signed(x.wrapping_div(y))
}

// vrem: what vdiv leaves; by 0, the dividend.
#[tactic(auto, using(crate::proofs::DivideLaws::divisions))]
pub fn rem(sew: Eew, a: u64, b: u64) -> u64
    requires { (a < 2 ^ sew.bits) × (b < 2 ^ sew.bits) }
    ensures { result ≡ vrem sew.bits a b }
{
    if b == 0 {
        return a;
    }
    let x = sew.to_signed(a);
    let y = sew.to_signed(b);
    sew.from_signed(x.wrapping_rem(y))
}

// ---- 12.12

// vwmul: the product of 2 * sew bits, both signed.
#[tactic(auto, using(crate::proofs::ProductLaws::products))]
pub fn wmul(sew: Eew, a: u64, b: u64) -> u64
    requires { (2 * sew.bits ≤ 64) × ((a < 2 ^ sew.bits) × (b < 2 ^ sew.bits)) }
    ensures { result ≡ vwmul sew.bits a b }
{
    let x = sew.to_signed(a);
    let y = sew.to_signed(b);
    sew.doubled().from_signed(x * y)
}

// vwmulu: the same, both unsigned.
pub fn wmulu(sew: Eew, a: u64, b: u64) -> u64
    requires { 2 * sew.bits ≤ 64 }
    ensures { result ≡ vwmulu sew.bits a b }
{
    sew.doubled().mul(a, b)
}

// vwmulsu: the same, a signed and b unsigned.
#[tactic(auto, using(crate::proofs::ProductLaws::products))]
pub fn wmulsu(sew: Eew, a: u64, b: u64) -> u64
    requires { (2 * sew.bits ≤ 64) × ((a < 2 ^ sew.bits) × (b < 2 ^ sew.bits)) }
    ensures { result ≡ vwmulsu sew.bits a b }
{
    let x = sew.to_signed(a);
    sew.doubled().from_signed(x * (b as i64))
}

// ---- 12.13

// vmacc: b * a + d, wrapped.
#[tactic(auto, using(crate::proofs::MultiplyAddLaws::add_is))]
pub fn macc(sew: Eew, a: u64, b: u64, d: u64) -> u64
    ensures { result ≡ vmacc sew.bits a b d }
{
    sew.add(sew.mul(b, a), d)
}

// vnmsac: d - b * a, wrapped.
#[tactic(auto, using(crate::proofs::MultiplyAddLaws::sub_is))]
pub fn nmsac(sew: Eew, a: u64, b: u64, d: u64) -> u64
    ensures { result ≡ vnmsac sew.bits a b d }
{
    sew.sub(d, sew.mul(b, a))
}

// vmadd: b * d + a, wrapped.
#[tactic(auto, using(crate::proofs::MultiplyAddLaws::add_is))]
pub fn madd(sew: Eew, a: u64, b: u64, d: u64) -> u64
    ensures { result ≡ vmadd sew.bits a b d }
{
    sew.add(sew.mul(b, d), a)
}

// vnmsub: a - b * d, wrapped.
#[tactic(auto, using(crate::proofs::MultiplyAddLaws::sub_is))]
pub fn nmsub(sew: Eew, a: u64, b: u64, d: u64) -> u64
    ensures { result ≡ vnmsub sew.bits a b d }
{
    sew.sub(a, sew.mul(b, d))
}

// ---- 12.14

// vwmaccu: b * a + d at 2 * sew bits, both unsigned.
#[tactic(auto, using(crate::proofs::MultiplyAddLaws::add_is))]
pub fn wmaccu(sew: Eew, a: u64, b: u64, d: u64) -> u64
    requires { 2 * sew.bits ≤ 64 }
    ensures { result ≡ vwmaccu sew.bits a b d }
{
    let wide = sew.doubled();
    wide.add(wide.mul(b, a), d)
}

// vwmacc: the same, both signed.
pub fn wmacc(sew: Eew, a: u64, b: u64, d: u64) -> u64
    requires { (2 * sew.bits ≤ 64) × ((a < 2 ^ sew.bits) × (b < 2 ^ sew.bits)) }
    ensures { result ≡ vwmacc sew.bits a b d }
{
    sew.doubled().add(wmul(sew, b, a), d)
}

// vwmaccsu: the same, b signed and a unsigned.
pub fn wmaccsu(sew: Eew, a: u64, b: u64, d: u64) -> u64
    requires { (2 * sew.bits ≤ 64) × ((a < 2 ^ sew.bits) × (b < 2 ^ sew.bits)) }
    ensures { result ≡ vwmaccsu sew.bits a b d }
{
    sew.doubled().add(wmulsu(sew, b, a), d)
}

// vwmaccus: the same, b unsigned and a signed: the product of wmulsu(a, b), as products commute.
pub fn wmaccus(sew: Eew, a: u64, b: u64, d: u64) -> u64
    requires { (2 * sew.bits ≤ 64) × ((a < 2 ^ sew.bits) × (b < 2 ^ sew.bits)) }
    ensures { result ≡ vwmaccus sew.bits a b d }
{
    sew.doubled().add(wmulsu(sew, a, b), d)
}
