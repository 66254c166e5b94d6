// One element of an arithmetic or memory instruction, in place.
// Registers and VLENB are no struct: tried, contracts are 18 % longer, as each that writes must say that the file is still the one lent.

#![tactic(auto)]

ghost use Rattle.std.specs.Prelude.{◌≡◌, ℕ, ◌+◌, ◌*◌, ◌≤◌, cond, T, List, length, Ok};
ghost use Rattle.control.specs.declared.Control.{Control};
ghost use Rattle.layout.specs.Layout.{bytes_at, with_bytes, element_at, with_element, Inside, byte_size};
ghost use Rattle.group.specs.Group.{nfields, span_of};
ghost use Rattle.plan.specs.declared.Action.TheVariants as Act;
ghost use Rattle.machine.specs.Effect.{saturating, put_all, value_of, active_of, element_address};
ghost use Rattle.machine.specs.Effect.{each_field, field_write, computing, transferring, effect_of};
ghost use Rattle.machine.specs.OneTurn.{set_at};
ghost use Rattle.execute.specs.Step.{ReadInside, FieldsInside, Ready, OperandsFit, core_at, Did};

use access::Fault;
use control::Board;
use group::Group;
use plan::{Compute, Elementwise, Read, Transfer};

// An operand's element.
pub fn value(registers: &[u8], vlenb: usize, read: Read, i: usize) -> u64
    requires { ReadInside (length registers.now) vlenb read i }
    ensures { result ≡ value_of vlenb registers.now read i }
{
    match read {
        Read::Constant(n) => n,
        Read::Element(g) => layout::read_element(registers, vlenb, g.reg, g.eew, i),
        Read::Bit(reg) => layout::read_element(registers, vlenb, reg, 1, i),
    }
}

// Whether element i is active: v0 is not the mask, or its bit is set.
pub fn active(registers: &[u8], vlenb: usize, masked: bool, i: usize) -> bool
    requires { Inside (length registers.now) vlenb 0 1 i }
    ensures { result ≡ active_of vlenb registers.now masked i }
{
    if !masked {
        return true;
    }
    layout::read_element(registers, vlenb, 0, 1, i) == 1
}

// Whether element i is active and its bit in a mask register set. `&`: both are read, without a branch.
pub fn set_at(registers: &[u8], vlenb: usize, masked: bool, reg: usize, i: usize) -> bool
    requires { Inside (length registers.now) vlenb 0 1 i × Inside (length registers.now) vlenb reg 1 i }
    ensures { result ≡ set_at vlenb registers.now masked reg i }
{
    active(registers, vlenb, masked, i) & (layout::read_element(registers, vlenb, reg, 1, i) == 1)
}

// ---- operations

// An operation on the operands' elements: whether it saturates.
fn compute(registers: &mut [u8], vlenb: usize, e: Elementwise, k: Compute, i: usize) -> bool
    requires { Ready (length registers.old) vlenb e i × OperandsFit vlenb registers.old e k i }
    ensures { (memory x : List ℕ) (c : Control) → Did vlenb (computing vlenb registers.old e k i)
        (core_at registers.old memory x c) (Ok tt) (core_at registers.new memory x (saturating result c)) }
{
    let a = value(registers, vlenb, e.vs2, i);
    let b = value(registers, vlenb, e.vs1, i);
    let d = value(registers, vlenb, e.vd, i);
    let c = value(registers, vlenb, e.v0, i);
    let r = alu::element(k.op, k.sew, k.vxrm, a, b, d, c);
    layout::write_element(registers, vlenb, e.dest.reg, e.dest.eew, i, r.value);
    r.saturates
}

// Element i of an instruction that computes, from the state as it is: whether it saturates.
pub fn compute_element(
    registers: &mut [u8],
    board: Board,
    e: Elementwise,
    k: Compute,
    i: usize,
) -> bool
    requires { Ready (length registers.old) board.vlenb e i
        × (OperandsFit board.vlenb registers.old e k i × (e.action ≡ Act.Compute k)) }
    ensures { (rights memory x : List ℕ) (c : Control) → Did board.vlenb
        (effect_of board rights (core_at registers.old memory x c) e i)
        (core_at registers.old memory x c) (Ok tt) (core_at registers.new memory x (saturating result c)) }
{
    let vlenb = board.vlenb as usize;
    if !active(registers, vlenb, e.masked, i) {
        return false;
    }
    compute(registers, vlenb, e, k, i)
}

// ---- loads and stores

// The parts of a `Transfer` come one by one below, as the definitions `field_write` and `transferring` have them: it has no address of an
// element. `move_fields` steps a register and an index of memory: two numbers, neither of them counted by one.

// base + i * stride + offset, modulo 2^64.
pub fn address(t: Transfer, i: u64, offset: u64) -> u64
    ensures { result ≡ element_address t i offset }
{
    t.base
        .wrapping_add(i.wrapping_mul(t.stride))
        .wrapping_add(offset)
}

// Element i of the group that begins at the register reg, stored to memory from index a on or loaded from there.
fn move_field(
    registers: &mut [u8],
    memory: &mut [u8],
    vlenb: usize,
    store: bool,
    reg: usize,
    eew: usize,
    n: usize,
    i: usize,
    a: usize,
)
    requires { Inside (length registers.old) vlenb reg eew i × (T (byte_size n) × (a + n ≤ length memory.old)) }
    ensures registers_after { registers.new
        ≡ cond store registers.old
        (with_element vlenb registers.old reg eew i (bytes_at memory.old a n)) }
    ensures memory_after { memory.new
        ≡ cond store (with_bytes memory.old a n (element_at vlenb registers.old reg eew i))
        memory.old }
{
    if store {
        let x = layout::read_element(registers, vlenb, reg, eew, i);
        layout::write_bytes(memory, a, n, x);
    } else {
        let x = layout::read_bytes(memory, a, n);
        layout::write_element(registers, vlenb, reg, eew, i, x);
    }
}

// Element i of each field, the first at index a of memory, each after the one before it.
fn move_fields(
    registers: &mut [u8],
    memory: &mut [u8],
    vlenb: usize,
    store: bool,
    dest: Group,
    n: usize,
    i: usize,
    a: usize,
)
    requires { FieldsInside (length registers.old) vlenb dest i
        × ((dest.reg + span_of dest ≤ 32)
        × (T (byte_size n) × ((length memory.old ≤ 65536) × (a + nfields dest * n ≤ length memory.old)))) }
    ensures { (x : List ℕ) (c : Control) → core_at registers.new memory.new x c
        ≡ put_all vlenb
        (each_field (field_write vlenb registers.old memory.old store dest n i a) 0 (nfields dest))
        (core_at registers.old memory.old x c) }
{
    let step = group::registers(dest);
    let mut reg = dest.reg;
    let mut field = a;
    // `0..=dest.nf` is slower
    for _ in 0..dest.nf as u64 + 1 {
        move_field(registers, memory, vlenb, store, reg, dest.eew, n, i, field);
        reg += step;
        field += n;
    }
}

// Element i, at address a: no field of it is moved before all are tested.
fn transfer(
    registers: &mut [u8],
    memory: &mut [u8],
    rights: &[u8; 256],
    vlenb: usize,
    store: bool,
    dest: Group,
    n: u64,
    i: usize,
    a: u64,
) -> Result<(), Fault>
    requires { FieldsInside (length registers.old) vlenb dest i
        × ((dest.reg + span_of dest ≤ 32)
        × ((length memory.old ≤ 65536) × T (byte_size n))) }
    ensures { (x : List ℕ) (c : Control) → Did vlenb
        (transferring vlenb rights.now (core_at registers.old memory.old x c) store dest n i a)
        (core_at registers.old memory.old x c) result (core_at registers.new memory.new x c) }
{
    access::segment(rights, memory.len(), store, a, n, dest.nf)?;
    move_fields(
        registers, memory, vlenb, store, dest, n as usize, i, a as usize,
    );
    Ok(())
}

// Element i of a load or a store, from the state as it is: granted, or its fault.
pub fn transfer_element(
    registers: &mut [u8],
    memory: &mut [u8],
    rights: &[u8; 256],
    board: Board,
    e: Elementwise,
    t: Transfer,
    i: usize,
) -> Result<(), Fault>
    requires { Ready (length registers.old) board.vlenb e i
        × ((length memory.old ≤ 65536) × (T (byte_size t.bytes) × (e.action ≡ Act.Transfer t))) }
    ensures { (x : List ℕ) (c : Control) → Did board.vlenb
        (effect_of board rights.now (core_at registers.old memory.old x c) e i)
        (core_at registers.old memory.old x c) result (core_at registers.new memory.new x c) }
{
    let vlenb = board.vlenb as usize;
    if !active(registers, vlenb, e.masked, i) {
        return Ok(());
    }
    let a = address(t, i as u64, value(registers, vlenb, e.vs2, i));
    transfer(
        registers, memory, rights, vlenb, t.store, e.dest, t.bytes, i, a,
    )
}
