// Instructions that take one turn: the setting instructions (section 7 of document 000), the reductions (section 15), those on masks
// (sections 16.2 to 16.6), viota.m and vcompress.vm (16.8, 17.5) and the scalar moves (17.1).
// Registers and VLENB are no struct: tried, contracts are 18 % longer, as each that writes must say that the file is still the one lent.

#![tactic(auto)]

ghost use Rattle.std.specs.Prelude.{◌≡◌, cond, List, ℕ, ◌*◌, ◌^◌, ◌-◌, ◌<◌, length, T, ltb, Some, None};
ghost use Rattle.width.specs.Width.{signed, wrap};
ghost use Rattle.control.specs.declared.Control.{Control};
ghost use Rattle.control.specs.Control.{with_vstart, set_of};
ghost use Rattle.decode.specs.Fields.{AvlFits, TypeFits, SettingFits, MaskFits};
ghost use Rattle.layout.specs.Layout.{element_at, with_element};
ghost use Rattle.plan.specs.Plan.{scalar_of};
ghost use Rattle.legality.specs.Legal.{keeps_v0, mask_apart};
ghost use Rattle.machine.specs.Effect.{active_of};
ghost use Rattle.machine.specs.OneTurn.{with_scalar, avl_from, type_from, population_of, first_of, first_bit, setting_first, mask_result};
ghost use Rattle.machine.specs.OneTurn.{scalar_move_result, one_turn_result};
ghost use Rattle.execute.specs.Step.{core_at};
ghost use Rattle.one_turn.specs.Holds.{Holds, Movable};
ghost use Rattle.one_turn.specs.Performable.{Performable};

use control::{Control, Hart};
use decode::{AvlSource, MaskInstruction, MaskOp, ScalarMoveOp, Setting, TypeSource};
use plan::{OneTurn, ScalarMove};
use width::Eew;

// ---- scalar registers

// x0 is never written.
fn put_scalar(x: &mut [u64; 32], r: usize, z: u64)
    requires { r < 32 }
    ensures { x.new ≡ with_scalar x.old r z }
{
    if r != 0 {
        x[r] = z;
    }
}

// ---- setting

// The application vector length that is asked for; none where vl is kept.
fn avl_of(x: &[u64; 32], avl: AvlSource) -> Option<u64>
    requires { AvlFits avl }
    ensures { result ≡ avl_from x.now avl }
{
    match avl {
        AvlSource::Register(r) => Some(plan::scalar(x, r)),
        AvlSource::Number(n) => Some(n),
        AvlSource::Largest => Some(u64::MAX),
        AvlSource::Kept => None,
    }
}

fn type_of(x: &[u64; 32], vtype: TypeSource) -> u64
    requires { TypeFits vtype }
    ensures { result ≡ type_from x.now vtype }
{
    match vtype {
        TypeSource::Given(v) => v,
        TypeSource::InRegister(r) => plan::scalar(x, r),
    }
}

// The control record after a setting instruction; rd gets the new vl.
fn setting(hart: Hart, scalars: &mut [u64; 32], control: Control, s: Setting) -> Control
    requires { SettingFits s }
    ensures { (result ≡ set_of hart.board control (type_from scalars.old s.vtype) (avl_from scalars.old s.avl))
        × (scalars.new ≡ with_scalar scalars.old s.rd result.vl) }
{
    let avl = s.avl;
    let vtype = s.vtype;
    let next = control.set(hart, type_of(scalars, vtype), avl_of(scalars, avl));
    put_scalar(scalars, s.rd, next.vl);
    next
}

// ---- masks

// The loops go by the element's number, which the definitions speak of: v0 and the mask register are read by it, and bits are no slice.

// How many of the first vl elements are active and set.
fn count(registers: &[u8], vlenb: usize, m: MaskInstruction, vl: usize) -> u64
    requires { Holds (length registers.now) vlenb vl m }
    ensures { result ≡ population_of vlenb registers.now m.masked m.vs2 vl }
{
    let mut n: u64 = 0;
    for i in 0..vl {
        n += u64::from(execute::set_at(registers, vlenb, m.masked, m.vs2, i));
    }
    n
}

// The first of the vl elements that is active and set, if one is.
fn first(registers: &[u8], vlenb: usize, m: MaskInstruction, vl: usize) -> Option<usize>
    requires { Holds (length registers.now) vlenb vl m }
    ensures { result ≡ cond (ltb (first_of vlenb registers.now m.masked m.vs2 0 vl) vl)
        (Some (first_of vlenb registers.now m.masked m.vs2 0 vl)) None }
{
    for i in 0..vl {
        if execute::set_at(registers, vlenb, m.masked, m.vs2, i) {
            return Some(i);
        }
    }
    None
}

// What vfirst gives: the first such element, or all ones.
fn first_or_ones(registers: &[u8], vlenb: usize, m: MaskInstruction, vl: usize) -> u64
    requires { Holds (length registers.now) vlenb vl m }
    ensures { result ≡ cond (ltb (first_of vlenb registers.now m.masked m.vs2 0 vl) vl)
        (first_of vlenb registers.now m.masked m.vs2 0 vl) (2 ^ 64 - 1) }
{
    match first(registers, vlenb, m, vl) {
        Some(i) => i as u64,
        None => u64::MAX,
    }
}

// The bit of element i by the first element that is active and set, or by vl where none is.
fn first_bit(op: MaskOp, i: usize, first: usize) -> u64
    ensures { result ≡ first_bit op i first }
{
    match op {
        MaskOp::Vmsbf => u64::from(i < first),
        MaskOp::Vmsif => u64::from(i <= first),
        MaskOp::Vmsof => u64::from(i == first),
        MaskOp::Vcpop | MaskOp::Vfirst => 0,
    }
}

// Element i of the destination gets its bit, if it is active.
fn set_bit(registers: &mut [u8], vlenb: usize, m: MaskInstruction, first: usize, i: usize)
    requires { (length registers.old ≡ 32 * vlenb) × ((i < 8 * vlenb) × MaskFits m) }
    ensures { registers.new
        ≡ cond (active_of vlenb registers.old m.masked i)
        (with_element vlenb registers.old m.rd 1 i (first_bit m.op i first)) registers.old }
{
    let op = m.op;
    if execute::active(registers, vlenb, m.masked, i) {
        layout::write_element(registers, vlenb, m.rd, 1, i, first_bit(op, i, first));
    }
}

// The active elements get their bits. None of these is a bit of the mask in v0, so v0 is read as it was before.
fn set_first(registers: &mut [u8], vlenb: usize, m: MaskInstruction, vl: usize)
    requires { Holds (length registers.old) vlenb vl m × T (keeps_v0 m) }
    ensures { registers.new
        ≡ setting_first vlenb vl registers.old m (first_of vlenb registers.old m.masked m.vs2 0 vl) }
{
    // where there is none, all of the vl lie before it
    let f = first(registers, vlenb, m, vl).unwrap_or(vl);
    for i in 0..vl {
        set_bit(registers, vlenb, m, f, i);
    }
}

// The one turn of an instruction on masks.
fn mask_turn(
    registers: &mut [u8],
    scalars: &mut [u64; 32],
    vlenb: usize,
    vl: usize,
    m: MaskInstruction,
)
    requires { Holds (length registers.old) vlenb vl m × T (mask_apart m) }
    ensures { (memory : List ℕ) (c : Control) → core_at registers.new memory scalars.new c
        ≡ mask_result vlenb vl m (core_at registers.old memory scalars.old c) m.op }
{
    let op = m.op;
    match op {
        MaskOp::Vcpop => {
            let n = count(registers, vlenb, m, vl);
            put_scalar(scalars, m.rd, n);
        }
        MaskOp::Vfirst => {
            let f = first_or_ones(registers, vlenb, m, vl);
            put_scalar(scalars, m.rd, f);
        }
        MaskOp::Vmsbf | MaskOp::Vmsof | MaskOp::Vmsif => set_first(registers, vlenb, m, vl),
    }
}

// ---- scalar moves

// vmv.x.s: element 0, sign-extended to 64 bits, whatever vl is.
fn to_scalar(registers: &[u8], scalars: &mut [u64; 32], vlenb: usize, m: ScalarMove)
    requires { Movable (length registers.now) vlenb m }
    ensures { scalars.new
        ≡ with_scalar scalars.old m.scalar
        (wrap 64 (signed m.vector.eew (element_at vlenb registers.now m.vector.reg m.vector.eew 0))) }
{
    let vector = m.vector;
    let eew = Eew {
        bits: vector.eew as u64,
    };
    let z = layout::read_element(registers, vlenb, vector.reg, vector.eew, 0);
    put_scalar(scalars, m.scalar, integer::extend(eew, Eew { bits: 64 }, z));
}

// vmv.s.x: element 0, unless vstart has reached vl.
fn to_vector(
    registers: &mut [u8],
    scalars: &[u64; 32],
    vlenb: usize,
    vl: u64,
    vstart: u64,
    m: ScalarMove,
)
    requires { Movable (length registers.old) vlenb m }
    ensures { registers.new
        ≡ cond (ltb vstart vl)
        (with_element vlenb registers.old m.vector.reg m.vector.eew 0 (scalar_of scalars.now m.scalar))
        registers.old }
{
    let vector = m.vector;
    if vstart < vl {
        let z = plan::scalar(scalars, m.scalar);
        layout::write_element(registers, vlenb, vector.reg, vector.eew, 0, z);
    }
}

// The one turn of a scalar move.
fn scalar_turn(
    registers: &mut [u8],
    scalars: &mut [u64; 32],
    vlenb: usize,
    control: Control,
    m: ScalarMove,
)
    requires { Movable (length registers.old) vlenb m }
    ensures { (memory : List ℕ) → core_at registers.new memory scalars.new (with_vstart control 0)
        ≡ scalar_move_result vlenb m control.vstart
        (core_at registers.old memory scalars.old (with_vstart control 0)) m.op }
{
    let op = m.op;
    match op {
        ScalarMoveOp::VmvXS => to_scalar(registers, scalars, vlenb, m),
        ScalarMoveOp::VmvSX => {
            to_vector(registers, scalars, vlenb, control.vl, control.vstart, m)
        }
    }
}

// ---- each of them

// The results of an instruction that takes one turn, and the control record after it: vstart is 0.
pub fn perform(
    hart: Hart,
    registers: &mut [u8],
    scalars: &mut [u64; 32],
    control: Control,
    t: OneTurn,
) -> Control
    requires { Performable hart.board (length registers.old) scalars.old control t }
    ensures { (memory : List ℕ) → core_at registers.new memory scalars.new result
        ≡ one_turn_result hart.board t control.vstart
        (core_at registers.old memory scalars.old (with_vstart control 0)) }
{
    match t {
        OneTurn::Setting(s) => return setting(hart, scalars, control, s),
        OneTurn::Mask(m) => mask_turn(
            registers,
            scalars,
            hart.board.vlenb as usize,
            control.vl as usize,
            m,
        ),
        OneTurn::Reduction(r) => {
            reduction::reduce(registers, hart.board.vlenb as usize, r, control.vl as usize)
        }
        OneTurn::Packing(p) => {
            packing::pack(registers, hart.board.vlenb as usize, p, control.vl as usize)
        }
        OneTurn::ScalarMove(m) => {
            scalar_turn(registers, scalars, hart.board.vlenb as usize, control, m)
        }
    }
    control.with_vstart(0)
}
