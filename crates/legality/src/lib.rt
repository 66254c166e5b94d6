// Whether a plan is legal: every rule of answer 2 that is not decode's. `&` and `|` in `may_start`, `overlap_fits`, `read_fits`,
// `operands_fit`, `elements_legal`, `mask_apart`, `reduction_placed`, `packing_placed`, `one_turn_legal` and `sources_fit` take both sides,
// as the definitions do: they are on the path of each turn, and there is no branch.

#![tactic(auto)]

ghost use Rattle.std.specs.Prelude.{◌≡◌, ◌≤◌, ◌<◌, ◌++◌};
ghost use Rattle.control.specs.Vtype.{sew_of};
ghost use Rattle.decode.specs.Fields.{Fits};
ghost use Rattle.plan.specs.Plan.{plan_of};
ghost use Rattle.plan.specs.Sources.{registers_read};
ghost use Rattle.plan.specs.Range.{ReadInRange, InRange, ReductionInRange, PackingInRange, OneTurnFits, PlanFits, listed, SourcesInRange};
ghost use Rattle.legality.specs.Legal.{startable, overlap_fits, read_fits, writes_registers, strictly, is_strict, is_bit, operands_fit};
ghost use Rattle.legality.specs.Legal.{is_there, elements_legal, writes_mask, mask_apart, reduction_placed, packing_placed, one_turn_legal};
ghost use Rattle.legality.specs.Legal.{may_share_each, sources_fit, kind_legal, legal_of, checked_of};

use control::{Control, Hart};
use decode::{Instruction, MaskInstruction, MaskOp, PermutationOp};
use group::Group;
use plan::{Action, Elementwise, OneTurn, Packing, Plan, Read, Reduction, Sources};

// vill is clear, and vstart below 8 * VLEN / SEW.
fn may_start(hart: Hart, control: Control) -> bool
    ensures { result ≡ startable hart.board control }
{
    (control.vtype != Control::VILL)
        & (control.vstart < 64 * (hart.board.vlenb as u64) / Control::sew(control.vtype))
}

// Whether a destination may overlap a source as it does: not at all, where the instruction is strict.
fn overlap_fits(strict: bool, d: Group, s: Group) -> bool
    requires { (d.reg < 32) × (s.reg < 32) }
    ensures { result ≡ overlap_fits strict d s }
{
    group::apart(d, s) | (!strict & group::may_overlap(d, s))
}

// Whether an operand is legal beside a destination, where that is written.
fn read_fits(elen: usize, writes: bool, strict: bool, dest: Group, read: Read) -> bool
    requires { (dest.reg < 32) × ReadInRange read }
    ensures { result ≡ read_fits elen writes strict dest read }
{
    match read {
        Read::Constant(_) => true,
        Read::Element(g) => group::placed(elen, g) & (!writes | overlap_fits(strict, dest, g)),
        Read::Bit(r) => !writes | overlap_fits(strict, dest, group::mask(r)),
    }
}

fn writes_registers(action: Action) -> bool
    ensures { result ≡ writes_registers action }
{
    match action {
        Action::Compute(_) | Action::Permute(_) => true,
        Action::Transfer(t) => !t.store,
    }
}

fn strict_op(op: PermutationOp) -> bool
    ensures { result ≡ strictly op }
{
    matches!(
        op,
        PermutationOp::Vslideup
            | PermutationOp::Vslide1up
            | PermutationOp::Vrgather
            | PermutationOp::Vrgatherei16
    )
}

// Whether the destination overlaps no source at all.
fn is_strict(action: Action) -> bool
    ensures { result ≡ is_strict action }
{
    match action {
        Action::Permute(p) => strict_op(p.op),
        Action::Compute(_) | Action::Transfer(_) => false,
    }
}

fn is_bit(read: Read) -> bool
    ensures { result ≡ is_bit read }
{
    matches!(read, Read::Bit(_))
}

// Whether the operands and the destination are well placed and overlap only as they may.
fn operands_fit(elen: usize, e: Elementwise) -> bool
    requires { InRange e }
    ensures { result ≡ operands_fit elen e }
{
    let dest = e.dest;
    let vs2 = e.vs2;
    let vs1 = e.vs1;
    let vd = e.vd;
    let v0 = e.v0;
    let action = e.action;
    let writes = writes_registers(action);
    let strict = is_strict(action);
    ((dest.eew == 1) | group::placed(elen, dest))
        & read_fits(elen, writes, strict, dest, vs2)
        & read_fits(elen, writes, strict, dest, vs1)
        & read_fits(elen, writes, strict, dest, vd)
        & (!writes | group::spares_v0(e.masked | is_bit(v0), dest))
}

// Whether an operation is there at its SEW.
fn is_there(action: Action) -> bool
    ensures { result ≡ is_there action }
{
    match action {
        Action::Compute(k) => k.sew <= operation::largest_sew(k.op),
        Action::Permute(_) | Action::Transfer(_) => true,
    }
}

fn elements_legal(hart: Hart, control: Control, e: Elementwise) -> bool
    requires { InRange e }
    ensures { result ≡ elements_legal hart.board control e }
{
    let action = e.action;
    (!e.typed | may_start(hart, control))
        & is_there(action)
        & operands_fit(hart.board.elen as usize, e)
}

fn writes_mask(op: MaskOp) -> bool
    ensures { result ≡ writes_mask op }
{
    matches!(op, MaskOp::Vmsbf | MaskOp::Vmsof | MaskOp::Vmsif)
}

// A mask that is written is neither the source nor the mask in v0.
fn mask_apart(m: MaskInstruction) -> bool
    ensures { result ≡ mask_apart m }
{
    let op = m.op;
    !writes_mask(op) | ((m.rd != m.vs2) & (!m.masked | (m.rd != 0)))
}

// The scalars have an EEW that there is, and the group of vs2 is well placed.
fn reduction_placed(elen: usize, r: Reduction) -> bool
    requires { ReductionInRange r }
    ensures { result ≡ reduction_placed elen r }
{
    let vd = r.vd;
    let vs2 = r.vs2;
    (vd.eew <= elen) & group::placed(elen, vs2)
}

// The operands of viota.m or vcompress.vm are well placed, and the destination overlaps none of them.
fn packing_placed(elen: usize, p: Packing) -> bool
    requires { PackingInRange p }
    ensures { result ≡ packing_placed elen p }
{
    let vd = p.vd;
    let elements = p.elements;
    group::placed(elen, vd)
        & read_fits(elen, true, true, vd, elements)
        & read_fits(elen, true, true, vd, Read::Bit(p.mask))
        & group::spares_v0(p.masked, vd)
}

fn one_turn_legal(hart: Hart, control: Control, t: OneTurn) -> bool
    requires { OneTurnFits t }
    ensures { result ≡ one_turn_legal hart.board control t }
{
    match t {
        OneTurn::Setting(_) => true,
        OneTurn::Mask(m) => may_start(hart, control) & (control.vstart == 0) & mask_apart(m),
        OneTurn::Reduction(r) => {
            may_start(hart, control)
                & (control.vstart == 0)
                & reduction_placed(hart.board.elen as usize, r)
        }
        OneTurn::Packing(p) => {
            may_start(hart, control)
                & (control.vstart == 0)
                & packing_placed(hart.board.elen as usize, p)
        }
        OneTurn::ScalarMove(_) => may_start(hart, control),
    }
}

// Whether a source may overlap an operand as it does.
fn may_share_with(s: Group, read: Read) -> bool
    requires { (s.reg < 32) × ReadInRange read }
    ensures { result ≡ may_share_each s (registers_read read) }
{
    match read {
        Read::Constant(_) => true,
        Read::Element(g) => group::may_share(s, g),
        Read::Bit(r) => group::may_share(s, group::mask(r)),
    }
}

// Whether two operands may overlap as they do.
fn pair_fits(a: Read, b: Read) -> bool
    requires { ReadInRange a × ReadInRange b }
    ensures { result ≡ sources_fit (registers_read a ++ registers_read b) }
{
    match a {
        Read::Constant(_) => true,
        Read::Element(g) => may_share_with(g, b),
        Read::Bit(r) => may_share_with(group::mask(r), b),
    }
}

// Whether each two sources may overlap as they do.
fn sources_fit(sources: Sources) -> bool
    requires { SourcesInRange sources }
    ensures { result ≡ sources_fit (listed sources) }
{
    let vs2 = sources.vs2;
    let vs1 = sources.vs1;
    let vd = sources.vd;
    let v0 = sources.v0;
    pair_fits(vs2, vs1)
        & pair_fits(vs2, vd)
        & pair_fits(vs1, vd)
        & pair_fits(vs2, v0)
        & pair_fits(vs1, v0)
        & pair_fits(vd, v0)
}

// Whether a plan is legal, but for what its sources share.
fn kind_legal(hart: Hart, control: Control, plan: Plan) -> bool
    requires { PlanFits plan }
    ensures { result ≡ kind_legal hart.board control plan }
{
    match plan {
        Plan::Illegal => false,
        Plan::OneTurn(t) => one_turn_legal(hart, control, t),
        Plan::Elements(e) => elements_legal(hart, control, e),
    }
}

// Whether a plan is legal.
fn legal(hart: Hart, control: Control, plan: Plan) -> bool
    requires { PlanFits plan }
    ensures { result ≡ legal_of hart.board control plan }
{
    if control.is_off() {
        return false;
    }
    if !kind_legal(hart, control, plan) {
        return false;
    }
    sources_fit(plan::sources_of(plan))
}

// The plan of a decoded word where it is legal, and `Illegal` where not.
pub fn checked(hart: Hart, x: &[u64; 32], control: Control, instruction: Instruction) -> Plan
    requires { (sew_of control.vtype ≤ 64) × ((control.vl ≤ 128) × Fits instruction) }
    ensures { result ≡ checked_of hart.board control (plan_of hart.board x.now control instruction) }
{
    let plan = plan::plan_of(hart, x, control, instruction);
    if legal(hart, control, plan) {
        return plan;
    }
    Plan::Illegal
}
