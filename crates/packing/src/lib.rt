// viota.m and vcompress.vm (sections 16.8 and 17.5 of document 000): one walk over the elements, which counts the set bits of a mask.
// Registers and VLENB are no struct: tried, contracts are 18 % longer, as each that writes must say that the file is still the one lent.

#![tactic(auto)]

ghost use Rattle.std.specs.Prelude.{◌≡◌, cond, ◌+◌, ◌%◌, ◌^◌, length};
ghost use Rattle.width.specs.Width.{flag};
ghost use Rattle.layout.specs.Layout.{with_element};
ghost use Rattle.machine.specs.Effect.{value_of, active_of};
ghost use Rattle.machine.specs.OneTurn.{set_at, packed_file};
ghost use Rattle.packing.specs.Packable.{Reachable, packed_at, Packable};

use decode::PackOp;
use plan::Packing;
use width::Eew;

// viota.m: element i gets n, how many bits are set below it, if it is active.
fn count_into(registers: &mut [u8], vlenb: usize, p: Packing, i: usize, n: usize)
    requires { Reachable (length registers.old) vlenb p i n }
    ensures { registers.new
        ≡ cond (active_of vlenb registers.old p.masked i)
        (with_element vlenb registers.old p.vd.reg p.vd.eew i (n % 2 ^ p.vd.eew)) registers.old }
{
    let vd = p.vd;
    if execute::active(registers, vlenb, p.masked, i) {
        let eew = Eew {
            bits: vd.eew as u64,
        };
        let z = eew.low(n as u64);
        layout::write_element(registers, vlenb, vd.reg, vd.eew, i, z);
    }
}

// vcompress.vm: element i goes to element n, if its bit is set.
fn pack_into(registers: &mut [u8], vlenb: usize, p: Packing, set: bool, i: usize, n: usize)
    requires { Reachable (length registers.old) vlenb p i n }
    ensures { registers.new
        ≡ cond set
        (with_element vlenb registers.old p.vd.reg p.vd.eew n (value_of vlenb registers.old p.elements i))
        registers.old }
{
    let vd = p.vd;
    let elements = p.elements;
    if set {
        let z = execute::value(registers, vlenb, elements, i);
        layout::write_element(registers, vlenb, vd.reg, vd.eew, n, z);
    }
}

// Element i, where n bits are set below it: how many are set up to it.
fn step(registers: &mut [u8], vlenb: usize, p: Packing, i: usize, n: usize) -> usize
    requires { Reachable (length registers.old) vlenb p i n }
    ensures value { result ≡ n + flag (set_at vlenb registers.old p.masked p.mask i) }
    ensures registers_after { registers.new ≡ packed_at vlenb registers.old p i n p.op }
{
    let op = p.op;
    let set = execute::set_at(registers, vlenb, p.masked, p.mask, i);
    let next = n + usize::from(set);
    match op {
        PackOp::Viota => count_into(registers, vlenb, p, i, n),
        PackOp::Vcompress => pack_into(registers, vlenb, p, set, i, n),
    }
    next
}

// The one turn of viota.m or vcompress.vm. The destination overlaps no source, so each is read as it was before.
// By the element's number, which `packed_file` speaks of: v0, the mask and the elements are all read by it, and mask bits are no slice.
pub fn pack(registers: &mut [u8], vlenb: usize, p: Packing, vl: usize)
    requires { Packable (length registers.old) vlenb p vl }
    ensures { registers.new ≡ packed_file vlenb registers.old p vl }
{
    let mut n: usize = 0;
    for i in 0..vl {
        n = step(registers, vlenb, p, i, n);
    }
}
