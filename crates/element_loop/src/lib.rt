// The loops over the elements of one turn. The parts of the state come one by one, as `turn` was lent them: of a struct of lent parts each
// contract would say too that the parts are still those that were lent.

#![tactic(auto)]

ghost use Rattle.std.specs.Prelude.{◌≡◌, cond, ◌+◌, ltb};
ghost use Rattle.std.specs.Int.{w64};
ghost use Rattle.std.proofs.Common.{Fits};
ghost use Rattle.answer.specs.declared.Answer.TheVariants.{Finished, Paused};
ghost use Rattle.control.specs.Control.{with_vstart, with_vxsat, dirtied};
ghost use Rattle.access.specs.Access.{nowhere};
ghost use Rattle.plan.specs.declared.Action.{Action};
ghost use Rattle.plan.specs.declared.Action.TheVariants as Act;
ghost use Rattle.plan.specs.declared.Plan.TheVariants as P;
ghost use Rattle.machine.specs.Call.{given, left};
ghost use Rattle.machine.specs.Machine.{plan_turn};
ghost use Rattle.element_loop.specs.Runnable.{Runnable};
ghost use Rattle.element_loop.specs.Step.{Steppable, Stepped};

use access::{Fault, FaultPlace};
use answer::Answer;
use control::{Board, Control};
use machine::Turned;
use plan::{Action, Compute, Elementwise, Permute, Transfer};

// What a turn gives that leaves the control record with another vstart and vxsat: VS is Dirty, also where nothing was passed.
fn ended(
    answer: Answer,
    passed: u64,
    place: FaultPlace,
    c: Control,
    vstart: u64,
    vxsat: u64,
) -> Turned
    ensures { result
        ≡ record { answer = answer; passed = passed; place = place; control = dirtied (with_vxsat (with_vstart c vstart) vxsat) } }
{
    let control = c.with_vstart(vstart).with_vxsat(vxsat).dirtied();
    Turned {
        answer,
        passed,
        place,
        control,
    }
}

// What a turn gives that a fault stops.
fn trapped(fault: Fault, passed: u64, c: Control, vstart: u64, vxsat: u64) -> Turned
    ensures { result ≡ record {
      answer = fault.answer;
      passed = passed;
      place = fault.place;
      control = dirtied (with_vxsat (with_vstart c vstart) vxsat);
    } }
{
    ended(fault.answer, passed, fault.place, c, vstart, vxsat)
}

// vxsat after an element that saturates or not.
fn saturated(vxsat: u64, saturates: bool) -> u64
    ensures { result ≡ cond saturates 1 vxsat }
{
    if saturates { 1 } else { vxsat }
}

// What a turn gives that no fault stops: it finishes where none of the elements remains.
fn stopped(remaining: u64, passed: u64, c: Control, vxsat: u64) -> Turned
    requires { Fits w64 (c.vstart + passed) }
    ensures { result ≡ record {
      answer = cond (ltb passed remaining) Paused Finished;
      passed = passed;
      place = nowhere;
      control = dirtied (with_vxsat (with_vstart c (cond (ltb passed remaining) (c.vstart + passed) 0)) vxsat);
    } }
{
    let place = FaultPlace::nowhere();
    if passed < remaining {
        let next = c.vstart + passed;
        return ended(Answer::Paused, passed, place, c, next, vxsat);
    }
    ended(Answer::Finished, passed, place, c, 0, vxsat)
}

// What is done to one element: an operation, a permutation, a load or a store.
trait Step: Copy {
    // The action of the plans whose elements it carries out.
    ghost action: { Self → Action };

    // Element i, from the state as it is: whether it saturates, or its fault.
    fn element(
        self,
        board: Board,
        registers: &mut [u8],
        memory: &mut [u8],
        rights: &[u8; 256],
        e: Elementwise,
        i: usize,
    ) -> Result<bool, Fault>
        requires { Steppable board registers.old memory.old e i (action self) }
        ensures { Stepped board rights.now e i registers.old memory.old result registers.new memory.new };
}

impl Step for Compute {
    ghost action = { Act.Compute };

    fn element(
        self,
        board: Board,
        registers: &mut [u8],
        _memory: &mut [u8],
        _rights: &[u8; 256],
        e: Elementwise,
        i: usize,
    ) -> Result<bool, Fault> {
        Ok(execute::compute_element(registers, board, e, self, i))
    }
}

impl Step for Permute {
    ghost action = { Act.Permute };

    fn element(
        self,
        board: Board,
        registers: &mut [u8],
        _memory: &mut [u8],
        _rights: &[u8; 256],
        e: Elementwise,
        i: usize,
    ) -> Result<bool, Fault> {
        permutation::element(registers, board, e, self, i);
        Ok(false)
    }
}

impl Step for Transfer {
    ghost action = { Act.Transfer };

    fn element(
        self,
        board: Board,
        registers: &mut [u8],
        memory: &mut [u8],
        rights: &[u8; 256],
        e: Elementwise,
        i: usize,
    ) -> Result<bool, Fault> {
        execute::transfer_element(registers, memory, rights, board, e, self, i)?;
        Ok(false)
    }
}

// The elements of a legal plan, upward from vstart: as many as the smaller of allowance and remaining, or those before the first fault.
fn upward<S: Step>(
    board: Board,
    registers: &mut [u8],
    scalars: &[u64],
    memory: &mut [u8],
    rights: &[u8; 256],
    control: Control,
    allowance: u64,
    e: Elementwise,
    step: S,
) -> Turned
    requires { Runnable board (given registers.old scalars.now memory.old rights.now control) e
        × (e.action ≡ S.action step) }
    ensures { left result registers.new scalars.now memory.new rights.now
        ≡ plan_turn board (P.Elements e) allowance
        (given registers.old scalars.now memory.old rights.now control) }
{
    let vstart = control.vstart;
    let remaining = e.end.saturating_sub(vstart);
    let count = allowance.min(remaining);
    let mut vxsat = control.vxsat;
    for k in 0..count {
        let i = vstart + k;
        match step.element(board, registers, memory, rights, e, i as usize) {
            Ok(saturates) => vxsat = saturated(vxsat, saturates),
            Err(fault) => return trapped(fault, k, control, i, vxsat),
        }
    }
    stopped(remaining, count, control, vxsat)
}

// The elements of a legal plan.
pub fn elements(
    board: Board,
    registers: &mut [u8],
    scalars: &[u64],
    memory: &mut [u8],
    rights: &[u8; 256],
    control: Control,
    allowance: u64,
    e: Elementwise,
) -> Turned
    requires { Runnable board (given registers.old scalars.now memory.old rights.now control) e }
    ensures { left result registers.new scalars.now memory.new rights.now
        ≡ plan_turn board (P.Elements e) allowance
        (given registers.old scalars.now memory.old rights.now control) }
{
    match e.action {
        Action::Compute(operation) => upward(
            board, registers, scalars, memory, rights, control, allowance, e, operation,
        ),
        Action::Permute(p) => upward(
            board, registers, scalars, memory, rights, control, allowance, e, p,
        ),
        Action::Transfer(t) => upward(
            board, registers, scalars, memory, rights, control, allowance, e, t,
        ),
    }
}
