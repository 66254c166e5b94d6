// The element operations of section 13 of document 000, with the rounding and saturation of sections 4.8 and 4.9. `a` is the element of
// vs2, `b` that of vs1 (or the scalar or immediate in its place), `rm` the rounding mode. Each is an operation that the standard names
// and alu calls, and an element is a number with its bound as a clause, both as in integer.

#![tactic(auto)]

ghost use Rattle.std.specs.Prelude.{◌≡◌, ◌+◌, ◌*◌, ◌%◌, ◌<◌, ◌≤◌, ◌^◌, pos};
ghost use Rattle.fixed.specs.Round.{vxrm_of, increment, roundoff_unsigned, roundoff_signed, clip_unsigned, clip_signed, exact, saturated};
ghost use Rattle.fixed.specs.Fixed.{vsaddu, vssubu, vsadd, vssub, vaaddu, vasubu, vaadd, vasub};
ghost use Rattle.fixed.specs.Fixed.{vssrl, vssra, vnclipu, vnclip, vsmul};

use width::Eew;

// An element's result, and whether it saturated. No Option: what saturated is a result too, and sets vxsat beside it (section 4.9).
#[derive(Clone, Copy)]
pub struct Element {
    pub value: u64,
    pub saturates: bool,
}

impl Element {
    pub fn exact(value: u64) -> Element
        ensures { result ≡ exact value }
    {
        Element {
            value,
            saturates: false,
        }
    }

    pub fn saturated(value: u64) -> Element
        ensures { result ≡ saturated value }
    {
        Element {
            value,
            saturates: true,
        }
    }
}

// The rounding modes, by their names in section 4.8.
#[derive(Clone, Copy)]
pub enum Vxrm {
    Rnu,
    Rne,
    Rdn,
    Rod,
}

// The rounding mode of a vxrm number.
impl From<u64> for Vxrm {
    ghost from_gives = { λ vxrm mode. mode ≡ vxrm_of vxrm };

    fn from(vxrm: u64) -> Vxrm {
        match vxrm {
            0 => Vxrm::Rnu,
            1 => Vxrm::Rne,
            2 => Vxrm::Rdn,
            _ => Vxrm::Rod,
        }
    }
}

// v at most 2^sew - 1, else that.
pub fn clip_unsigned(sew: Eew, v: u64) -> Element
    ensures { result ≡ clip_unsigned sew.bits (pos v) }
{
    let m = sew.ones();
    if m < v {
        return Element::saturated(m);
    }
    Element::exact(v)
}

// z at least -2^(sew - 1) and at most 2^(sew - 1) - 1, else the nearer of these.
pub fn clip_signed(sew: Eew, z: i64) -> Element
    ensures { result ≡ clip_signed sew.bits z }
{
    let h = sew.ones() / 2;
    let top = h as i64;
    if z < -1 - top {
        return Element::saturated(h + 1);
    }
    if top < z {
        return Element::saturated(h);
    }
    Element::exact(sew.from_signed(z))
}

// vsaddu: the sum passes 2^sew - 1 where what a leaves to it is less than b.
pub fn saddu(sew: Eew, a: u64, b: u64) -> Element
    requires { (a < 2 ^ sew.bits) × (b < 2 ^ sew.bits) }
    ensures { result ≡ vsaddu sew.bits a b }
{
    let m = sew.ones();
    if m - a < b {
        return Element::saturated(m);
    }
    Element::exact(a + b)
}

// vssubu: a - b, or 0.
pub fn ssubu(sew: Eew, a: u64, b: u64) -> Element
    requires { a < 2 ^ sew.bits }
    ensures { result ≡ vssubu sew.bits a b }
{
    if a < b {
        return Element::saturated(0);
    }
    Element::exact(a - b)
}

// vsadd: the sum wraps where the operands have one sign and the sum the other.
pub fn sadd(sew: Eew, a: u64, b: u64) -> Element
    requires { (a < 2 ^ sew.bits) × (b < 2 ^ sew.bits) }
    ensures { result ≡ vsadd sew.bits a b }
{
    let h = sew.ones() / 2;
    let s = sew.add(a, b);
    if a <= h && b <= h && h < s {
        return Element::saturated(h);
    }
    if h < a && h < b && s <= h {
        return Element::saturated(h + 1);
    }
    Element::exact(s)
}

// vssub: the difference wraps where the operands have different signs and the difference has the second's.
pub fn ssub(sew: Eew, a: u64, b: u64) -> Element
    requires { (a < 2 ^ sew.bits) × (b < 2 ^ sew.bits) }
    ensures { result ≡ vssub sew.bits a b }
{
    let h = sew.ones() / 2;
    let s = sew.sub(a, b);
    if a <= h && h < b && h < s {
        return Element::saturated(h);
    }
    if h < a && b <= h && s <= h {
        return Element::saturated(h + 1);
    }
    Element::exact(s)
}

// 2^d. The shift is apart, so that its callers see the power.
pub fn power(d: u64) -> u64
    requires { d < 64 }
    ensures { result ≡ 2 ^ d }
{
    1u64 << d
}

// The rounding increment: the four rows of the table. `last` is the last kept bit, `lost` the d bits lost.
pub fn increment_of(rm: Vxrm, d: u64, last: u64, lost: u64) -> u64
    requires { d < 64 }
    ensures { result ≡ increment rm d last lost }
{
    // d = 0 adds 0
    if d == 0 {
        return 0;
    }
    // 2^(d - 1) is the weight of the highest lost bit: the quotient by it is that bit, the remainder the lower ones
    let half = power(d - 1);
    let highest = lost / half;
    let lower = lost % half;
    match rm {
        // 0, rnu: the highest lost bit
        Vxrm::Rnu => highest,
        // 1, rne: that bit if a lower lost bit or the last kept bit is 1, else 0
        Vxrm::Rne => if lower != 0 || last == 1 { highest } else { 0 },
        // 2, rdn: 0
        Vxrm::Rdn => 0,
        // 3, rod: 1 if the last kept bit is 0 and a lost bit is 1 (`&`: a bit of two tests, without a branch)
        Vxrm::Rod => u64::from((last == 0) & (lost != 0)),
    }
}

// v with its last d bits rounded off.
pub fn round_unsigned(rm: Vxrm, v: u64, d: u64) -> u64
    requires { d < 64 }
    ensures { result ≡ roundoff_unsigned rm v d }
{
    if d == 0 {
        return v;
    }
    let kept = v >> d;
    kept + increment_of(rm, d, kept % 2, Eew { bits: d }.low(v))
}

// z with its last d bits rounded off; what is kept is the quotient rounded down.
pub fn round_signed(rm: Vxrm, z: i64, d: u64) -> i64
    requires { d < 64 }
    ensures { result ≡ roundoff_signed rm z d }
{
    if d == 0 {
        return z;
    }
    let kept = z >> d;
    let last = Eew { bits: 1 }.from_signed(kept);
    kept + (increment_of(rm, d, last, Eew { bits: d }.from_signed(z)) as i64)
}

// x + y + c with its last bit rounded off, where the sum may have one bit more than a u64.
pub fn average(rm: Vxrm, sew: Eew, x: u64, y: u64, c: u64) -> u64
    requires { c < 2 }
    ensures { result ≡ roundoff_unsigned rm (x + y + c) 1 % 2 ^ sew.bits }
{
    let low = x % 2 + y % 2 + c;
    let kept = x / 2 + y / 2 + low / 2;
    sew.add(kept, increment_of(rm, 1, kept % 2, low % 2))
}

// vaaddu: half the sum.
pub fn aaddu(rm: Vxrm, sew: Eew, a: u64, b: u64) -> u64
    ensures { result ≡ vaaddu rm sew.bits a b }
{
    average(rm, sew, a, b, 0)
}

// vasubu: a - b is a + (2^sew - 1 - b) + 1 less 2^sew, whose half is 2^(sew - 1).
pub fn asubu(rm: Vxrm, sew: Eew, a: u64, b: u64) -> u64
    requires { (2 ≤ sew.bits) × ((a < 2 ^ sew.bits) × (b < 2 ^ sew.bits)) }
    ensures { result ≡ vasubu rm sew.bits a b }
{
    let m = sew.ones();
    sew.add(average(rm, sew, a, m - b, 1), m / 2 + 1)
}

// vaadd: a signed value plus 2^(sew - 1) is not negative. Two of them add 2^sew.
pub fn aadd(rm: Vxrm, sew: Eew, a: u64, b: u64) -> u64
    requires { (2 ≤ sew.bits) × ((a < 2 ^ sew.bits) × (b < 2 ^ sew.bits)) }
    ensures { result ≡ vaadd rm sew.bits a b }
{
    let h = sew.ones() / 2 + 1;
    let x = sew.add(a, h);
    let y = sew.add(b, h);
    sew.add(average(rm, sew, x, y, 0), h)
}

// vasub: b's complement, 2^sew - 1 - b, has the signed value -1 - b.
pub fn asub(rm: Vxrm, sew: Eew, a: u64, b: u64) -> u64
    requires { (2 ≤ sew.bits) × ((a < 2 ^ sew.bits) × (b < 2 ^ sew.bits)) }
    ensures { result ≡ vasub rm sew.bits a b }
{
    let m = sew.ones();
    let h = m / 2 + 1;
    let x = sew.add(a, h);
    let y = sew.add(m - b, h);
    sew.add(average(rm, sew, x, y, 1), h)
}

// vssrl: a with b % sew bits rounded off.
pub fn ssrl(rm: Vxrm, sew: Eew, a: u64, b: u64) -> u64
    ensures { result ≡ vssrl rm sew.bits a b }
{
    sew.low(round_unsigned(rm, a, b % sew.bits))
}

// vssra: the same, a signed.
pub fn ssra(rm: Vxrm, sew: Eew, a: u64, b: u64) -> u64
    requires { a < 2 ^ sew.bits }
    ensures { result ≡ vssra rm sew.bits a b }
{
    let z = sew.to_signed(a);
    sew.from_signed(round_signed(rm, z, b % sew.bits))
}

// vnclipu: a has 2 * sew bits, of which b % (2 * sew) are rounded off; the rest is clipped.
pub fn nclipu(rm: Vxrm, sew: Eew, a: u64, b: u64) -> Element
    requires { 2 * sew.bits ≤ 64 }
    ensures { result ≡ vnclipu rm sew.bits a b }
{
    clip_unsigned(sew, round_unsigned(rm, a, b % (2 * sew.bits)))
}

// vnclip: the same, a signed.
pub fn nclip(rm: Vxrm, sew: Eew, a: u64, b: u64) -> Element
    requires { (2 * sew.bits ≤ 64) × (a < 2 ^ (2 * sew.bits)) }
    ensures { result ≡ vnclip rm sew.bits a b }
{
    let z = sew.doubled().to_signed(a);
    clip_signed(sew, round_signed(rm, z, b % (2 * sew.bits)))
}

// vsmul: the product, both signed, with sew - 1 bits rounded off and clipped.
pub fn smul(rm: Vxrm, sew: Eew, a: u64, b: u64) -> Element
    requires { (2 * sew.bits ≤ 64) × ((a < 2 ^ sew.bits) × (b < 2 ^ sew.bits)) }
    ensures { result ≡ vsmul rm sew.bits a b }
{
    let x = sew.to_signed(a);
    let y = sew.to_signed(b);
    clip_signed(sew, round_signed(rm, x * y, sew.bits - 1))
}
