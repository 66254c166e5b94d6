// One turn of any word on any state.

#![tactic(auto)]

ghost use Rattle.std.specs.Prelude.{◌≡◌};
ghost use Rattle.answer.specs.declared.Answer.TheVariants.{Finished};
ghost use Rattle.control.specs.Control.{dirtied};
ghost use Rattle.access.specs.Access.{nowhere};
ghost use Rattle.machine.specs.Call.{given, left};
ghost use Rattle.machine.specs.Machine.{turn_of};

use access::FaultPlace;
use answer::Answer;
use control::{Control, Hart};
use machine::Turned;
use plan::Plan;

// What a turn gives in which no element is passed.
fn answered(answer: Answer, control: Control) -> Turned
    ensures { result ≡ record { answer = answer; passed = 0; place = nowhere; control = control } }
{
    let place = FaultPlace::nowhere();
    Turned {
        answer,
        passed: 0,
        place,
        control,
    }
}

// What an instruction that takes one turn gives, from the record after it: VS is Dirty.
fn finished(control: Control) -> Turned
    ensures { result ≡ record { answer = Finished; passed = 0; place = nowhere; control = dirtied control } }
{
    answered(Answer::Finished, control.dirtied())
}

// One turn of a word on a board, of at most `allowance` elements: refusals 32 to 36, then 2, then what its plan says. Answer and counts are
// returned, the rest of what it leaves stands in the lent parts. These come one by one, as C lends them: a struct of them would be made by
// each caller and taken apart in the first lines. No Result is made of refusal and 2, here and in access_check: `Plan::Illegal` would still
// be matched, beside `Err`.
pub fn turn(
    hart: Hart,
    word: u32,
    allowance: u32,
    registers: &mut [u8],
    scalars: &mut [u64],
    memory: &mut [u8],
    rights: &[u8],
    control: Control,
) -> Turned
    ensures { left result registers.new scalars.new memory.new rights.now
        ≡ turn_of hart.board word allowance
        (given registers.old scalars.old memory.old rights.now control) }
{
    let refused = refusal::refusal(
        hart,
        registers.len(),
        scalars.len(),
        memory.len(),
        rights,
        control,
    );
    if let Err(answer) = refused {
        return answered(answer, control);
    }
    // what is not refused has 32 scalars and 256 rights
    let Some(scalars) = scalars.first_chunk_mut::<32>() else {
        unreachable!()
    };
    let Ok(rights) = <&[u8; 256]>::try_from(rights) else {
        unreachable!()
    };
    match legality::checked(hart, scalars, control, decode::decode(word)) {
        Plan::Illegal => answered(Answer::Illegal, control),
        Plan::OneTurn(t) => finished(one_turn::perform(hart, registers, scalars, control, t)),
        Plan::Elements(e) => element_loop::elements(
            hart.board,
            registers,
            scalars,
            memory,
            rights,
            control,
            allowance as u64,
            e,
        ),
    }
}
