// What a decoded word means at a board, scalars and a control record: its plan, worked out once before the first element.

#![tactic(auto)]

ghost use Rattle.std.specs.Prelude.{◌≡◌, ◌≤◌, ◌<◌, cond};
ghost use Rattle.width.specs.Width.{signed, wrap};
ghost use Rattle.control.specs.Vtype.{sew_of};
ghost use Rattle.decode.specs.Fields.{SourceFits, ArithmeticFits, PermutationFits, AccessFits, Fits};
ghost use Rattle.plan.specs.declared.Read.TheVariants.{Constant};
ghost use Rattle.plan.specs.Plan.{scalar_of, groups_at, read_at, group_of, second_of, v0_read, v0_masks};
ghost use Rattle.plan.specs.Plan.{computing_of, index_of, moved_elements, moved_by, permuting_of, moving_of, transferring_of};
ghost use Rattle.plan.specs.Plan.{register_at, scalar_size, reducing_of, packed_elements, counted_mask, packing_of};
ghost use Rattle.plan.specs.Plan.{scalar_moving_of, plan_of};
ghost use Rattle.plan.specs.Sources.{v0_source, element_sources, reduction_sources, packing_sources, moved_register, one_turn_sources};
ghost use Rattle.plan.specs.Sources.{sources_of};
ghost use Rattle.plan.specs.Range.{InRange, ReductionInRange, PackingInRange, OneTurnFits, PlanFits, Lists};

use control::{Control, Hart};
use decode::{
    Access, Arithmetic, Instruction, MaskInstruction, Mode, PackInstruction, PackOp,
    PermutationInstruction, PermutationOp, ReductionInstruction, ReductionOp,
    ScalarMoveInstruction, ScalarMoveOp, Setting, Source,
};
use fixed::Vxrm;
use group::Group;
use operation::{Op, Size, V0};
use width::Eew;

// Where an operand's element comes from: the same number at every index, an element of a register group, or a bit of a mask register.
// No operand is `Constant(0)` and not None: definitions `value_of` and `registers_read` (theorem `two-eews`) would say the same of both.
#[derive(Clone, Copy)]
pub enum Read {
    Constant(u64),
    Element(Group),
    Bit(usize),
}

// An operation at a SEW and a rounding mode.
#[derive(Clone, Copy)]
pub struct Compute {
    pub op: Op,
    pub sew: u64,
    pub vxrm: Vxrm,
}

// A load or a store of elements of so many bytes: element i lies at base + i * stride + the element of vs2; of a segment, its first field.
#[derive(Clone, Copy)]
pub struct Transfer {
    pub store: bool,
    pub base: u64,
    pub stride: u64,
    pub bytes: u64,
}

// (SEW is a number here and an `Eew` in the code of an element: a plan is made at any vtype, at a SEW too that is then illegal.)
// A permutation at a SEW and a VLMAX: elements of vs2 are read below VLMAX, whatever vl is.
#[derive(Clone, Copy)]
pub struct Permute {
    pub op: PermutationOp,
    pub sew: u64,
    pub vlmax: u64,
}

// What is done at each element.
#[derive(Clone, Copy)]
pub enum Action {
    Compute(Compute),
    Permute(Permute),
    Transfer(Transfer),
}

// What an instruction of elements does, whatever its word was.
#[derive(Clone, Copy)]
pub struct Elementwise {
    // what is written; of a store, what is read
    pub dest: Group,
    pub vs2: Read,
    pub vs1: Read,
    pub vd: Read,
    pub v0: Read,
    // v0 says which elements are active
    pub masked: bool,
    // it goes by vtype, so that vill must be clear and vstart below 8 * VLEN / SEW: not so for whole registers
    pub typed: bool,
    // how many elements there are
    pub end: u64,
    pub action: Action,
}

// A reduction at a SEW: element 0 of vd gets element 0 of vs1, joined with each active element of vs2.
#[derive(Clone, Copy)]
pub struct Reduction {
    pub op: ReductionOp,
    pub sew: u64,
    pub vd: Group,
    pub vs2: Group,
    pub vs1: Group,
    // v0 says which elements are active
    pub masked: bool,
}

// viota.m, which gives the set bits of a mask below each element, or vcompress.vm, which puts elements there.
#[derive(Clone, Copy)]
pub struct Packing {
    pub op: PackOp,
    pub vd: Group,
    // what is packed: vs2 of vcompress.vm, nothing for viota.m
    pub elements: Read,
    // the mask register: vs2 of viota.m, vs1 of vcompress.vm
    pub mask: usize,
    // v0 says which elements are active
    pub masked: bool,
}

// A move between element 0 of a vector register and a scalar register.
#[derive(Clone, Copy)]
pub struct ScalarMove {
    pub op: ScalarMoveOp,
    pub vector: Group,
    pub scalar: usize,
}

// An instruction that takes one turn.
#[derive(Clone, Copy)]
pub enum OneTurn {
    Setting(Setting),
    Mask(MaskInstruction),
    Reduction(Reduction),
    Packing(Packing),
    ScalarMove(ScalarMove),
}

// What a decoded word means: nothing, something that takes one turn, or elements. `Illegal` is one of the three and no Option around two:
// each match on a plan names what it gives of it (`legal_of`, `plan_turn`).
#[derive(Clone, Copy)]
pub enum Plan {
    Illegal,
    OneTurn(OneTurn),
    Elements(Elementwise),
}

// What an instruction reads from vector registers; an operand that is not there is a constant.
#[derive(Clone, Copy)]
pub struct Sources {
    pub vs2: Read,
    pub vs1: Read,
    pub vd: Read,
    pub v0: Read,
}

impl Sources {
    // No vector register is read.
    const NONE: Sources = Sources {
        vs2: Read::Constant(0),
        vs1: Read::Constant(0),
        vd: Read::Constant(0),
        v0: Read::Constant(0),
    };
}

// ---- operands

// A group of elements of so many bits, and one for each field of a segment.
fn groups_at(vtype: u64, eew: u64, reg: usize, nf: u32) -> Group
    requires { eew ≤ 2048 }
    ensures { result ≡ groups_at vtype eew reg nf }
{
    let sew = Control::sew(vtype) as usize;
    let lmul8 = Control::lmul8(vtype) as usize;
    let e = eew as usize;
    Group {
        reg,
        eew: e,
        emul8: group::emul8(sew, lmul8, e),
        nf,
    }
}

// The registers of an operand, by its size.
fn read_at(vtype: u64, size: Size, reg: usize) -> Read
    ensures { result ≡ read_at vtype size reg }
{
    let sew = Control::sew(vtype);
    let group = groups_at(vtype, operation::eew(size, sew), reg, 0);
    match size {
        Size::Absent => Read::Constant(0),
        Size::Bit => Read::Bit(reg),
        Size::Eighth | Size::Quarter | Size::Half | Size::Single | Size::Double => {
            Read::Element(group)
        }
    }
}

// A read that is there on a condition.
fn read_if(there: bool, read: Read) -> Read
    ensures { result ≡ cond there read (Constant 0) }
{
    if there {
        return read;
    }
    Read::Constant(0)
}

// What is read as a group to be written. The first arm is that of the definition, and never used: every operation has a destination.
fn group_of(read: Read) -> Group
    ensures { result ≡ group_of read }
{
    match read {
        Read::Constant(_) => group::mask(0),
        Read::Element(g) => g,
        Read::Bit(reg) => group::mask(reg),
    }
}

// x0 reads 0.
pub fn scalar(x: &[u64; 32], r: usize) -> u64
    requires { r < 32 }
    ensures { result ≡ scalar_of x.now r }
{
    if r == 0 {
        return 0;
    }
    x[r]
}

// A 5-bit immediate at SEW: sign-extended, unless it is an unsigned one.
fn immediate(sew: Eew, unsigned: bool, n: u64) -> u64
    requires { n < 32 }
    ensures { result ≡ cond unsigned n (wrap sew.bits (signed 5 n)) }
{
    if unsigned {
        return n;
    }
    integer::extend(Eew { bits: 5 }, sew, n)
}

// The second source.
fn second(x: &[u64; 32], vtype: u64, size: Size, unsigned: bool, source: Source) -> Read
    requires { (sew_of vtype ≤ 64) × SourceFits source }
    ensures { result ≡ second_of x.now vtype size unsigned source }
{
    let sew = Eew {
        bits: Control::sew(vtype),
    };
    match source {
        Source::Vector(r) => read_at(vtype, size, r),
        Source::Scalar(r) => Read::Constant(sew.low(scalar(x, r))),
        Source::Immediate(n) => Read::Constant(immediate(sew, unsigned, n)),
    }
}

// v0 as an operand.
fn v0_read(v0: V0, masked: bool) -> Read
    ensures { result ≡ v0_read v0 masked }
{
    match v0 {
        V0::Operand => Read::Bit(0),
        V0::MaybeOperand => read_if(masked, Read::Bit(0)),
        V0::Masks | V0::Unused => Read::Constant(0),
    }
}

// v0 as the mask.
fn v0_masks(v0: V0, masked: bool) -> bool
    ensures { result ≡ v0_masks v0 masked }
{
    masked && matches!(v0, V0::Masks)
}

// An arithmetic instruction.
fn computing(x: &[u64; 32], control: Control, a: Arithmetic) -> Elementwise
    requires { (sew_of control.vtype ≤ 64) × ArithmeticFits a }
    ensures { result ≡ computing_of x.now control a }
{
    let op = a.op;
    let source = a.source;
    let shape = operation::shape_of(op);
    let size_d = shape.vd;
    let size_2 = shape.vs2;
    let size_1 = shape.vs1;
    let v0 = shape.v0;
    let vtype = control.vtype;
    let result = read_at(vtype, size_d, a.vd);
    let vs2 = read_at(vtype, size_2, a.vs2);
    let vs1 = second(x, vtype, size_1, shape.unsigned, source);
    let vd = read_if(shape.accumulates, result);
    let dest = group_of(result);
    let mask = v0_read(v0, a.masked);
    let sew = Control::sew(vtype);
    let vxrm = Vxrm::from(control.vxrm);
    Elementwise {
        dest,
        vs2,
        vs1,
        vd,
        v0: mask,
        masked: v0_masks(v0, a.masked),
        typed: true,
        end: control.vl,
        action: Action::Compute(Compute { op, sew, vxrm }),
    }
}

// ---- permutations

// An offset or an index, not cut to SEW.
fn index_of(x: &[u64; 32], vtype: u64, eew: u64, source: Source) -> Read
    requires { (eew ≤ 2048) × SourceFits source }
    ensures { result ≡ index_of x.now vtype eew source }
{
    match source {
        Source::Vector(r) => Read::Element(groups_at(vtype, eew, r, 0)),
        Source::Scalar(r) => Read::Constant(scalar(x, r)),
        Source::Immediate(n) => Read::Constant(n),
    }
}

// vs2 of a permutation.
fn moved_elements(vtype: u64, op: PermutationOp, reg: usize) -> Read
    ensures { result ≡ moved_elements vtype op reg }
{
    match op {
        PermutationOp::Vid => Read::Constant(0),
        _ => read_at(vtype, Size::Single, reg),
    }
}

// The second operand of a permutation.
fn moved_by(x: &[u64; 32], vtype: u64, op: PermutationOp, source: Source) -> Read
    requires { (sew_of vtype ≤ 64) × SourceFits source }
    ensures { result ≡ moved_by x.now vtype op source }
{
    let sew = Control::sew(vtype);
    match op {
        PermutationOp::Vid => Read::Constant(0),
        PermutationOp::Vslideup | PermutationOp::Vslidedown | PermutationOp::Vrgather => {
            index_of(x, vtype, sew, source)
        }
        PermutationOp::Vslide1up | PermutationOp::Vslide1down => {
            second(x, vtype, Size::Single, true, source)
        }
        PermutationOp::Vrgatherei16 => index_of(x, vtype, 16, source),
    }
}

// A permutation that goes element by element.
fn permuting(hart: Hart, x: &[u64; 32], control: Control, a: PermutationInstruction) -> Elementwise
    requires { (sew_of control.vtype ≤ 64) × PermutationFits a }
    ensures { result ≡ permuting_of hart.board x.now control a }
{
    let op = a.op;
    let source = a.source;
    let vtype = control.vtype;
    let sew = Control::sew(vtype);
    let vlmax = Control::vlmax(hart, vtype);
    let dest = groups_at(vtype, sew, a.vd, 0);
    let vs2 = moved_elements(vtype, op, a.vs2);
    let vs1 = moved_by(x, vtype, op, source);
    Elementwise {
        dest,
        vs2,
        vs1,
        vd: Read::Constant(0),
        v0: Read::Constant(0),
        masked: a.masked,
        typed: true,
        end: control.vl,
        action: Action::Permute(Permute { op, sew, vlmax }),
    }
}

// ---- memory

// A load or a store of a group.
fn moving(
    a: Access,
    typed: bool,
    group: Group,
    offset: Read,
    transfer: Transfer,
    end: u64,
) -> Elementwise
    ensures { result ≡ moving_of a typed group offset transfer end }
{
    let vd = read_if(transfer.store, Read::Element(group));
    Elementwise {
        dest: group,
        vs2: offset,
        vs1: Read::Constant(0),
        vd,
        v0: Read::Constant(0),
        masked: a.masked,
        typed,
        end,
        action: Action::Transfer(transfer),
    }
}

// A register alone.
fn register_at(eew: usize, reg: usize) -> Group
    ensures { result ≡ register_at eew reg }
{
    Group {
        reg,
        eew,
        emul8: 8,
        nf: 0,
    }
}

// A load or a store, by its addressing mode.
fn transferring(hart: Hart, x: &[u64; 32], control: Control, a: Access) -> Elementwise
    requires { (control.vl ≤ 128) × AccessFits a }
    ensures { result ≡ transferring_of hart.board x.now control a }
{
    let mode = a.mode;
    let vtype = control.vtype;
    let vl = control.vl;
    let base = scalar(x, a.rs1);
    let eew = a.eew;
    let bytes = eew / 8;
    let plain = Read::Constant(0);
    let t = Transfer {
        store: a.store,
        base,
        stride: bytes,
        bytes,
    };
    match mode {
        Mode::UnitStride => {
            let group = groups_at(vtype, eew, a.vd, a.nf);
            let stride = (a.nf as u64 + 1) * bytes;
            moving(a, true, group, plain, Transfer { stride, ..t }, vl)
        }
        Mode::Strided(r) => {
            let group = groups_at(vtype, eew, a.vd, a.nf);
            let stride = scalar(x, r);
            moving(a, true, group, plain, Transfer { stride, ..t }, vl)
        }
        Mode::Indexed(r) => {
            let sew = Control::sew(vtype);
            let offset = Read::Element(groups_at(vtype, eew, r, 0));
            let group = groups_at(vtype, sew, a.vd, a.nf);
            let stride = 0;
            let bytes = sew / 8;
            moving(a, true, group, offset, Transfer { stride, bytes, ..t }, vl)
        }
        Mode::MaskBytes => {
            let group = register_at(8, a.vd);
            let stride = 1;
            let bytes = 1;
            moving(
                a,
                true,
                group,
                plain,
                Transfer { stride, bytes, ..t },
                (vl + 7) / 8,
            )
        }
        Mode::Whole(n) => {
            let end = (n as u64) * (8 * (hart.board.vlenb as u64)) / eew;
            let group = Group {
                reg: a.vd,
                eew: eew as usize,
                emul8: (8 * n) as u32,
                nf: 0,
            };
            moving(a, false, group, plain, t, end)
        }
    }
}

// ---- reductions

// How wide the scalars of a reduction are.
fn scalar_size(op: ReductionOp) -> Size
    ensures { result ≡ scalar_size op }
{
    match op {
        ReductionOp::Vwredsumu | ReductionOp::Vwredsum => Size::Double,
        _ => Size::Single,
    }
}

// vs1 and vd hold scalars, each in a register alone; vs2 is a group.
fn reducing(vtype: u64, a: ReductionInstruction) -> Reduction
    ensures { result ≡ reducing_of vtype a }
{
    let op = a.op;
    let sew = Control::sew(vtype);
    let eew = operation::eew(scalar_size(op), sew) as usize;
    let vd = register_at(eew, a.vd);
    let vs2 = groups_at(vtype, sew, a.vs2, 0);
    let vs1 = register_at(eew, a.vs1);
    Reduction {
        op,
        sew,
        vd,
        vs2,
        vs1,
        masked: a.masked,
    }
}

// ---- viota.m, vcompress.vm and the scalar moves

// The mask whose set bits are counted.
fn counted_mask(op: PackOp, a: PackInstruction) -> usize
    ensures { result ≡ counted_mask op a }
{
    match op {
        PackOp::Viota => a.vs2,
        PackOp::Vcompress => a.vs1,
    }
}

// What is packed.
fn packed_elements(vtype: u64, op: PackOp, a: PackInstruction) -> Read
    ensures { result ≡ packed_elements vtype op a }
{
    match op {
        PackOp::Viota => Read::Constant(0),
        PackOp::Vcompress => read_at(vtype, Size::Single, a.vs2),
    }
}

// viota.m or vcompress.vm.
fn packing_at(vtype: u64, a: PackInstruction) -> Packing
    ensures { result ≡ packing_of vtype a }
{
    let op = a.op;
    let vd = groups_at(vtype, Control::sew(vtype), a.vd, 0);
    let elements = packed_elements(vtype, op, a);
    Packing {
        op,
        vd,
        elements,
        mask: counted_mask(op, a),
        masked: a.masked,
    }
}

// vmv.x.s or vmv.s.x.
fn scalar_moving(vtype: u64, a: ScalarMoveInstruction) -> ScalarMove
    ensures { result ≡ scalar_moving_of vtype a }
{
    let op = a.op;
    let vector = register_at(Control::sew(vtype) as usize, a.vector);
    ScalarMove {
        op,
        vector,
        scalar: a.scalar,
    }
}

// ---- every decoded word

// The plan of a decoded word. No type of a record that can be: of the record this asks SEW and vl, and such a type would ask more.
pub fn plan_of(hart: Hart, x: &[u64; 32], control: Control, instruction: Instruction) -> Plan
    requires { (sew_of control.vtype ≤ 64) × ((control.vl ≤ 128) × Fits instruction) }
    ensures { result ≡ plan_of hart.board x.now control instruction }
{
    match instruction {
        Instruction::Illegal => Plan::Illegal,
        Instruction::Setting(t) => Plan::OneTurn(OneTurn::Setting(t)),
        Instruction::Mask(m) => Plan::OneTurn(OneTurn::Mask(m)),
        Instruction::Reduction(a) => Plan::OneTurn(OneTurn::Reduction(reducing(control.vtype, a))),
        Instruction::Pack(a) => Plan::OneTurn(OneTurn::Packing(packing_at(control.vtype, a))),
        Instruction::ScalarMove(a) => {
            Plan::OneTurn(OneTurn::ScalarMove(scalar_moving(control.vtype, a)))
        }
        Instruction::Arithmetic(a) => Plan::Elements(computing(x, control, a)),
        Instruction::Permutation(a) => Plan::Elements(permuting(hart, x, control, a)),
        Instruction::Memory(a) => Plan::Elements(transferring(hart, x, control, a)),
    }
}

// ---- the sources of a plan

// v0 as the mask, or as the operand that it may be.
fn v0_source(masked: bool, operand: Read) -> Read
    ensures { result ≡ v0_source masked operand }
{
    if masked {
        return Read::Bit(0);
    }
    operand
}

// The vector register that a scalar move reads.
fn moved_register(op: ScalarMoveOp, vector: Group) -> Read
    ensures { result ≡ moved_register op vector }
{
    match op {
        ScalarMoveOp::VmvXS => Read::Element(vector),
        ScalarMoveOp::VmvSX => Read::Constant(0),
    }
}

// An instruction that takes one turn.
fn one_turn_sources(t: OneTurn) -> Sources
    requires { OneTurnFits t }
    ensures { Lists (one_turn_sources t) result }
{
    let nothing = Read::Constant(0);
    match t {
        OneTurn::Setting(_) => Sources::NONE,
        OneTurn::Mask(m) => Sources {
            vs2: Read::Bit(m.vs2),
            v0: v0_source(m.masked, nothing),
            ..Sources::NONE
        },
        OneTurn::Reduction(r) => Sources {
            vs2: Read::Element(r.vs2),
            vs1: Read::Element(r.vs1),
            v0: v0_source(r.masked, nothing),
            ..Sources::NONE
        },
        OneTurn::Packing(p) => Sources {
            vs2: p.elements,
            vs1: Read::Bit(p.mask),
            v0: v0_source(p.masked, nothing),
            ..Sources::NONE
        },
        OneTurn::ScalarMove(m) => Sources {
            vs2: moved_register(m.op, m.vector),
            ..Sources::NONE
        },
    }
}

// An instruction of elements.
fn element_sources(e: Elementwise) -> Sources
    requires { InRange e }
    ensures { Lists (element_sources e) result }
{
    let vs2 = e.vs2;
    let vs1 = e.vs1;
    let vd = e.vd;
    let operand = e.v0;
    let v0 = v0_source(e.masked, operand);
    Sources { vs2, vs1, vd, v0 }
}

// The sources of a plan.
pub fn sources_of(plan: Plan) -> Sources
    requires { PlanFits plan }
    ensures { Lists (sources_of plan) result }
{
    match plan {
        Plan::Illegal => Sources::NONE,
        Plan::OneTurn(t) => one_turn_sources(t),
        Plan::Elements(e) => element_sources(e),
    }
}
