// The eight operations of section 16.1 of document 000. `a` is the mask bit of vs2, `b` that of vs1. One function over a closure would be
// no plainer: each of its eight calls would hold the formula that stands here. `&` and `|`: a bit of two tests, without a branch.
ghost use Rattle.std.specs.Prelude.{◌≡◌};
ghost use Rattle.integer.specs.Mask.{vmand, vmnand, vmandn, vmxor, vmor, vmnor, vmorn, vmxnor};

// vmand
pub fn and(a: u64, b: u64) -> u64
    ensures { result ≡ vmand a b }
{
    u64::from((a == 1) & (b == 1))
}

// vmnand: not both
pub fn nand(a: u64, b: u64) -> u64
    ensures { result ≡ vmnand a b }
{
    u64::from(!((a == 1) & (b == 1)))
}

// vmandn: a, and not b
pub fn andn(a: u64, b: u64) -> u64
    ensures { result ≡ vmandn a b }
{
    u64::from((a == 1) & (b != 1))
}

// vmxor
pub fn xor(a: u64, b: u64) -> u64
    ensures { result ≡ vmxor a b }
{
    u64::from((a == 1) ^ (b == 1))
}

// vmor
pub fn or(a: u64, b: u64) -> u64
    ensures { result ≡ vmor a b }
{
    u64::from((a == 1) | (b == 1))
}

// vmnor: neither
pub fn nor(a: u64, b: u64) -> u64
    ensures { result ≡ vmnor a b }
{
    u64::from(!((a == 1) | (b == 1)))
}

// vmorn: a, or not b
pub fn orn(a: u64, b: u64) -> u64
    ensures { result ≡ vmorn a b }
{
    u64::from((a == 1) | (b != 1))
}

// vmxnor: both or neither
pub fn xnor(a: u64, b: u64) -> u64
    ensures { result ≡ vmxnor a b }
{
    u64::from(!((a == 1) ^ (b == 1)))
}
