// The calls of the smaller board: each is that of the first board without `small_` in its name. They are twins since C has no board to
// pass, and exported names stay.
ghost use Rattle.std.specs.Prelude.{◌≡◌, length};
ghost use Rattle.answer.specs.Answer.{number_of, answer_of};
ghost use Rattle.control.specs.Board.{small};
ghost use Rattle.control.specs.Control.{fields_of, record_of};
ghost use Rattle.csr.specs.Csr.{read_of, written_of, value_of, record_after};
ghost use Rattle.view.specs.View.{place_of, start_of, size_of};
ghost use Rattle.machine.specs.Machine.{turn_of};
ghost use Rattle.machine.specs.Call.{given};
ghost use Rattle.access_check.specs.AccessCheck.{access_check_of};
ghost use Rattle.crossing.specs.Crossing.{Shows, Tells};

use answer::Answer;
use control::{Control, Hart};
use view::ViewPlace;

#[unsafe(no_mangle)]
pub extern "C" fn prashunde_small_turn(
    word: u32,
    allowance: u32,
    registers: &mut [u8],
    scalars: &mut [u64],
    memory: &mut [u8],
    rights: &[u8],
    control: &mut [u64; 6],
    passed: &mut u64,
    address: &mut u64,
    page: &mut u64,
    right: &mut u64,
) -> u64
    ensures { Shows
        (turn_of small word allowance
        (given registers.old scalars.old memory.old rights.now
        (record_of control.old)))
        result passed.new address.new page.new right.new registers.new
        scalars.new memory.new rights.now control.new }
{
    let turned = turn::turn(
        Hart::small(),
        word,
        allowance,
        registers,
        scalars,
        memory,
        rights,
        Control::from(*control),
    );
    crossing::turned(turned, control, passed, address, page, right)
}

#[unsafe(no_mangle)]
pub extern "C" fn prashunde_small_access_check(
    word: u32,
    registers: &[u8],
    scalars: &[u64],
    memory: &[u8],
    rights: &[u8],
    control: &[u64; 6],
    element: &mut u64,
    pages: &mut u64,
    page: &mut u64,
    right: &mut u64,
) -> u64
    ensures tells { Tells
        (access_check_of small word
        (given registers.now scalars.now memory.now rights.now
        (record_of control.now)))
        result element.new pages.new page.new right.new }
    ensures registers_value { (registers.exit.now ≡ registers.entry.now)
        × ((scalars.exit.now ≡ scalars.entry.now)
        × ((memory.exit.now ≡ memory.entry.now)
        × ((rights.exit.now ≡ rights.entry.now) × (control.exit.now ≡ control.entry.now)))) }
{
    let checked = access_check::check(
        Hart::small(),
        word,
        registers,
        scalars,
        memory,
        rights,
        Control::from(*control),
    );
    crossing::checked(checked, element, pages, page, right)
}

#[unsafe(no_mangle)]
pub extern "C" fn prashunde_small_csr_read(csr: u64, control: &[u64; 6], value: &mut u64) -> u64
    ensures answered { result ≡ number_of (answer_of (read_of small (record_of control.now) csr)) }
    ensures value_after { value.new ≡ value_of (read_of small (record_of control.now) csr) }
    ensures control_value { control.exit.now ≡ control.entry.now }
{
    let read = csr::read(Hart::small(), Control::from(*control), csr);
    crossing::read(Answer::of(read), read.unwrap_or(0), value)
}

#[unsafe(no_mangle)]
pub extern "C" fn prashunde_small_csr_write(csr: u64, value: u64, control: &mut [u64; 6]) -> u64
    ensures answered { result ≡ number_of (answer_of (written_of small (record_of control.old) csr value)) }
    ensures control_after { control.new
        ≡ fields_of (record_after (record_of control.old) (written_of small (record_of control.old) csr value)) }
{
    let mut record = Control::from(*control);
    let outcome = csr_field::write(Hart::small(), &mut record, csr, value);
    crossing::written(Answer::of(outcome), record, control)
}

#[unsafe(no_mangle)]
pub extern "C" fn prashunde_small_view(
    registers: &[u8],
    first: usize,
    count: usize,
    start: &mut usize,
    size: &mut usize,
) -> u64
    ensures answered { result ≡ number_of (answer_of (place_of small (length registers.now) first count)) }
    ensures start_after { start.new ≡ start_of (place_of small (length registers.now) first count) }
    ensures size_after { size.new ≡ size_of (place_of small (length registers.now) first count) }
{
    let place = view::place(Hart::small(), registers.len(), first, count);
    let nowhere = ViewPlace { start: 0, size: 0 };
    crossing::placed(Answer::of(place), place.unwrap_or(nowhere), start, size)
}
