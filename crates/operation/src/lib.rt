// The operations of sections 12, 13 and 16.1 of document 000 that work element by element, and the shape of each.

#![tactic(auto)]

ghost use Rattle.std.specs.Prelude.{◌≡◌, ◌≤◌};
ghost use Rattle.operation.specs.Shape.{eew_of, operands_of, maskable_of, accumulating_of, unsigned_of, up_to_32};
ghost use Rattle.operation.specs.Shape.{shape_at, form_of, shape_of, largest_sew};

#[derive(Clone, Copy)]
pub enum Op {
    Vadd,
    Vsub,
    Vrsub,
    Vwaddu,
    Vwadd,
    Vwsubu,
    Vwsub,
    VwadduW,
    VwaddW,
    VwsubuW,
    VwsubW,
    VzextVf2,
    VsextVf2,
    VzextVf4,
    VsextVf4,
    VzextVf8,
    VsextVf8,
    Vadc,
    Vsbc,
    Vmadc,
    Vmsbc,
    Vand,
    Vor,
    Vxor,
    Vsll,
    Vsrl,
    Vsra,
    Vnsrl,
    Vnsra,
    Vmseq,
    Vmsne,
    Vmsltu,
    Vmslt,
    Vmsleu,
    Vmsle,
    Vmsgtu,
    Vmsgt,
    Vminu,
    Vmin,
    Vmaxu,
    Vmax,
    Vmul,
    Vmulh,
    Vmulhu,
    Vmulhsu,
    Vdivu,
    Vdiv,
    Vremu,
    Vrem,
    Vwmul,
    Vwmulu,
    Vwmulsu,
    Vmacc,
    Vnmsac,
    Vmadd,
    Vnmsub,
    Vwmaccu,
    Vwmacc,
    Vwmaccsu,
    Vwmaccus,
    Vmerge,
    Vmv,
    Vsaddu,
    Vsadd,
    Vssubu,
    Vssub,
    Vaaddu,
    Vaadd,
    Vasubu,
    Vasub,
    Vsmul,
    Vssrl,
    Vssra,
    Vnclipu,
    Vnclip,
    Vmand,
    Vmnand,
    Vmandn,
    Vmxor,
    Vmor,
    Vmnor,
    Vmorn,
    Vmxnor,
}

// An operand's EEW as a multiple of SEW: none, a mask bit, SEW/8 to 2*SEW.
// `Absent` is a size and no None: `eew` (docs/READING) takes every size, and with None the table of shapes has `Some` at 30 places.
#[derive(Clone, Copy)]
pub enum Size {
    Absent,
    Bit,
    Eighth,
    Quarter,
    Half,
    Single,
    Double,
}

// What v0 is to an operation. Where it is an operand (the carry, the borrow, or the choice of vmerge), all body elements are active.
#[derive(Clone, Copy)]
pub enum V0 {
    // the mask, if vm is 0
    Masks,
    // an operand; vm is 0
    Operand,
    // an operand, if vm is 0
    MaybeOperand,
    // nothing; vm is 1
    Unused,
}

// How the widths of an operation's operands go together.
#[derive(Clone, Copy)]
pub enum Form {
    // SEW = SEW op SEW
    SingleWidth,
    // the same, by an immediate that is not sign-extended
    Shift,
    // the same, at SEW 8 to 32 alone
    High,
    // 2*SEW = SEW op SEW (section 11.2)
    Widening,
    // 2*SEW = 2*SEW op SEW
    WideFirst,
    // SEW = 2*SEW op SEW (section 11.3), by an immediate that is not sign-extended
    Narrowing,
    // SEW of SEW/2, SEW/4, SEW/8
    FromHalf,
    FromQuarter,
    FromEighth,
    // mask = SEW op SEW
    Compare,
    // SEW = SEW op SEW op carry
    AddCarry,
    // mask = SEW op SEW op carry, if there is one
    CarryOut,
    // SEW = v0 ? SEW : SEW
    Merge,
    // SEW = SEW
    Move,
    // SEW = SEW * SEW op SEW, one of them vd
    MultiplyAdd,
    // 2*SEW = SEW * SEW op 2*SEW, the last vd
    WideningMultiplyAdd,
    // mask = mask op mask
    MaskLogical,
}

#[derive(Clone, Copy)]
pub struct Shape {
    pub vd: Size,
    pub vs2: Size,
    pub vs1: Size,
    // vd is a source too
    pub accumulates: bool,
    pub v0: V0,
    // an immediate is not sign-extended
    pub unsigned: bool,
    // the largest SEW that the operation is there at
    pub largest: u64,
}

impl Shape {
    // vd is a source too.
    fn accumulating(self) -> Shape
        ensures { result ≡ accumulating_of self }
    {
        Shape {
            accumulates: true,
            ..self
        }
    }

    // An immediate is not sign-extended.
    fn by_unsigned(self) -> Shape
        ensures { result ≡ unsigned_of self }
    {
        Shape {
            unsigned: true,
            ..self
        }
    }

    // SEW goes to 32 alone.
    fn up_to_32(self) -> Shape
        ensures { result ≡ up_to_32 self }
    {
        Shape {
            largest: 32,
            ..self
        }
    }
}

// EEW at a SEW: 0 for none, as `eew_of` has it, by which `Operands` (alu/specs/Element, theorem `bounded`) has such an operand below 2 ^ 0.
pub fn eew(size: Size, sew: u64) -> u64
    requires { sew ≤ 1024 }
    ensures { result ≡ eew_of size sew }
{
    match size {
        Size::Absent => 0,
        Size::Bit => 1,
        Size::Eighth => sew / 8,
        Size::Quarter => sew / 4,
        Size::Half => sew / 2,
        Size::Single => sew,
        Size::Double => 2 * sew,
    }
}

// The form of an operation.
pub fn form_of(op: Op) -> Form
    ensures { result ≡ form_of op }
{
    match op {
        Op::Vadd
        | Op::Vsub
        | Op::Vrsub
        | Op::Vand
        | Op::Vor
        | Op::Vxor
        | Op::Vminu
        | Op::Vmin
        | Op::Vmaxu
        | Op::Vmax
        | Op::Vmul
        | Op::Vdivu
        | Op::Vdiv
        | Op::Vremu
        | Op::Vrem
        | Op::Vsaddu
        | Op::Vsadd
        | Op::Vssubu
        | Op::Vssub
        | Op::Vaaddu
        | Op::Vaadd
        | Op::Vasubu
        | Op::Vasub => Form::SingleWidth,
        Op::Vwaddu | Op::Vwadd | Op::Vwsubu | Op::Vwsub | Op::Vwmul | Op::Vwmulu | Op::Vwmulsu =>
            Form::Widening,
        Op::VwadduW | Op::VwaddW | Op::VwsubuW | Op::VwsubW => Form::WideFirst,
        Op::VzextVf2 | Op::VsextVf2 => Form::FromHalf,
        Op::VzextVf4 | Op::VsextVf4 => Form::FromQuarter,
        Op::VzextVf8 | Op::VsextVf8 => Form::FromEighth,
        Op::Vadc | Op::Vsbc => Form::AddCarry,
        Op::Vmadc | Op::Vmsbc => Form::CarryOut,
        Op::Vsll | Op::Vsrl | Op::Vsra | Op::Vssrl | Op::Vssra => Form::Shift,
        Op::Vnsrl | Op::Vnsra | Op::Vnclipu | Op::Vnclip => Form::Narrowing,
        Op::Vmseq
        | Op::Vmsne
        | Op::Vmsltu
        | Op::Vmslt
        | Op::Vmsleu
        | Op::Vmsle
        | Op::Vmsgtu
        | Op::Vmsgt => Form::Compare,
        Op::Vmulh | Op::Vmulhu | Op::Vmulhsu | Op::Vsmul => Form::High,
        Op::Vmacc | Op::Vnmsac | Op::Vmadd | Op::Vnmsub => Form::MultiplyAdd,
        Op::Vwmaccu | Op::Vwmacc | Op::Vwmaccsu | Op::Vwmaccus => Form::WideningMultiplyAdd,
        Op::Vmerge => Form::Merge,
        Op::Vmv => Form::Move,
        Op::Vmand
        | Op::Vmnand
        | Op::Vmandn
        | Op::Vmxor
        | Op::Vmor
        | Op::Vmnor
        | Op::Vmorn
        | Op::Vmxnor => Form::MaskLogical,
    }
}

// vd is no source, an immediate is sign-extended, and SEW goes to 64.
fn operands(vd: Size, vs2: Size, vs1: Size, v0: V0) -> Shape
    ensures { result ≡ operands_of vd vs2 vs1 v0 }
{
    Shape {
        vd,
        vs2,
        vs1,
        accumulates: false,
        v0,
        unsigned: false,
        largest: 64,
    }
}

// The same, where v0 is the mask.
fn maskable(vd: Size, vs2: Size, vs1: Size) -> Shape
    ensures { result ≡ maskable_of vd vs2 vs1 }
{
    operands(vd, vs2, vs1, V0::Masks)
}

// The operands of a form.
pub fn shape_at(form: Form) -> Shape
    ensures { result ≡ shape_at form }
{
    let single = Size::Single;
    let double = Size::Double;
    match form {
        Form::SingleWidth => maskable(single, single, single),
        Form::Shift => maskable(single, single, single).by_unsigned(),
        Form::High => maskable(single, single, single).up_to_32(),
        Form::Widening => maskable(double, single, single).up_to_32(),
        Form::WideFirst => maskable(double, double, single).up_to_32(),
        Form::Narrowing => maskable(single, double, single).by_unsigned().up_to_32(),
        Form::FromHalf => maskable(single, Size::Half, Size::Absent),
        Form::FromQuarter => maskable(single, Size::Quarter, Size::Absent),
        Form::FromEighth => maskable(single, Size::Eighth, Size::Absent),
        Form::Compare => maskable(Size::Bit, single, single),
        Form::AddCarry => operands(single, single, single, V0::Operand),
        Form::CarryOut => operands(Size::Bit, single, single, V0::MaybeOperand),
        Form::Merge => operands(single, single, single, V0::Operand),
        Form::Move => operands(single, Size::Absent, single, V0::Unused),
        Form::MultiplyAdd => maskable(single, single, single).accumulating(),
        Form::WideningMultiplyAdd => maskable(double, single, single).accumulating().up_to_32(),
        Form::MaskLogical => operands(Size::Bit, Size::Bit, Size::Bit, V0::Unused),
    }
}

// The operands of an operation.
pub fn shape_of(op: Op) -> Shape
    ensures { result ≡ shape_of op }
{
    shape_at(form_of(op))
}

// The largest SEW that an operation is there at.
pub fn largest_sew(op: Op) -> u64
    ensures { result ≡ largest_sew op }
{
    shape_of(op).largest
}
