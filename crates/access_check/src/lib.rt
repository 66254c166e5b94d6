// The access check: what an uncut turn of a unit-stride access would answer, before it is taken. It changes nothing.

#![tactic(auto)]

ghost use Rattle.std.specs.Prelude.{◌≡◌, ◌-◌, length};
ghost use Rattle.plan.specs.declared.Action.TheVariants as Act;
ghost use Rattle.plan.specs.declared.Transfer.{Transfer};
ghost use Rattle.machine.specs.Call.{given};
ghost use Rattle.machine.specs.Effect.{active_of};
ghost use Rattle.unit_stride.specs.Tested.{Packed, MaskInside, Tested};
ghost use Rattle.access_check.specs.AccessCheck.{unit_stride_mode, is_unit_stride, nothing_tested, access_check_of};

use access::Wanted;
use answer::Answer;
use control::{Board, Control, Hart};
use decode::{Instruction, Mode};
use plan::{Action, Elementwise, Plan};
use unit_stride::Checked;

// What a refusal or 2 gives.
fn nothing_tested(answer: Answer) -> Checked
    ensures { result ≡ nothing_tested answer }
{
    Checked {
        answer,
        element: 0,
        pages: 0,
        wanted: Wanted::NOTHING,
    }
}

fn unit_stride_mode(mode: Mode, nf: u32) -> bool
    ensures { result ≡ unit_stride_mode mode nf }
{
    match mode {
        Mode::UnitStride => nf == 0,
        Mode::Strided(_) | Mode::Indexed(_) => false,
        Mode::MaskBytes | Mode::Whole(_) => true,
    }
}

fn is_unit_stride(instruction: Instruction) -> bool
    ensures { result ≡ is_unit_stride instruction }
{
    matches!(instruction, Instruction::Memory(a) if unit_stride_mode(a.mode, a.nf))
}

// The elements of a legal plan that remain. One that computes or permutes is no access.
fn elements(
    board: Board,
    registers: &[u8],
    rights: &[u8; 256],
    memory: usize,
    vstart: u64,
    e: Elementwise,
) -> Checked
    requires { ((t : Transfer) → e.action ≡ Act.Transfer t → Packed memory t vstart (e.end - vstart))
        × MaskInside (length registers.now) board.vlenb vstart (e.end - vstart) }
    ensures { (t : Transfer) → e.action ≡ Act.Transfer t
        → Tested (active_of board.vlenb registers.now e.masked) rights.now memory t vstart
        (e.end - vstart) result }
{
    match e.action {
        Action::Compute(_) | Action::Permute(_) => nothing_tested(Answer::Illegal),
        Action::Transfer(t) => unit_stride::tested(
            board,
            registers,
            rights,
            memory,
            e.masked,
            t,
            vstart,
            e.end.saturating_sub(vstart),
        ),
    }
}

// What an uncut turn of the word would answer on a board, where it is a unit-stride access: refusals 32 to 36, then 2, then the elements.
// The parts of the state come one by one, as C lends them.
pub fn check(
    hart: Hart,
    word: u32,
    registers: &[u8],
    scalars: &[u64],
    memory: &[u8],
    rights: &[u8],
    control: Control,
) -> Checked
    ensures { result ≡ access_check_of hart.board word
        (given registers.now scalars.now memory.now rights.now control) }
{
    let refused = refusal::refusal(
        hart,
        registers.len(),
        scalars.len(),
        memory.len(),
        rights,
        control,
    );
    if let Err(answer) = refused {
        return nothing_tested(answer);
    }
    let instruction = decode::decode(word);
    if !is_unit_stride(instruction) {
        return nothing_tested(Answer::Illegal);
    }
    // what is not refused has 32 scalars and 256 rights
    let Ok(scalars) = <&[u64; 32]>::try_from(scalars) else {
        unreachable!()
    };
    let Ok(rights) = <&[u8; 256]>::try_from(rights) else {
        unreachable!()
    };
    match legality::checked(hart, scalars, control, instruction) {
        Plan::Illegal | Plan::OneTurn(_) => nothing_tested(Answer::Illegal),
        Plan::Elements(e) => elements(
            hart.board,
            registers,
            rights,
            memory.len(),
            control.vstart,
            e,
        ),
    }
}
