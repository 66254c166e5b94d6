// The calls with the C ABI: here those of the first board, the record at reset and sheets; in `small` those of the smaller board. A slice
// crosses as a pointer and a length, the control record as an array of six numbers.

#![tactic(auto)]

ghost use Rattle.std.specs.Prelude.{◌≡◌, ◌≤◌, length};
ghost use Rattle.answer.specs.Answer.{number_of, answer_of};
ghost use Rattle.control.specs.Board.{base};
ghost use Rattle.control.specs.Control.{reset, fields_of, record_of};
ghost use Rattle.csr.specs.Csr.{read_of, written_of, value_of, record_after};
ghost use Rattle.view.specs.View.{place_of, start_of, size_of};
ghost use Rattle.machine.specs.Machine.{turn_of};
ghost use Rattle.machine.specs.Call.{given};
ghost use Rattle.access_check.specs.AccessCheck.{access_check_of};
ghost use Rattle.sheet.specs.Run.{printed, buffered};
ghost use Rattle.sheet.specs.Bounds.{sheet_bound};
ghost use Rattle.crossing.specs.Crossing.{Shows, Tells};

use answer::Answer;
use control::{Control, Hart};
use view::ViewPlace;

pub mod small;

// One turn of a word: the answer's number, and in the lent parts what the turn leaves.
#[unsafe(no_mangle)]
pub extern "C" fn prashunde_turn(
    word: u32,
    allowance: u32,
    registers: &mut [u8],
    scalars: &mut [u64],
    memory: &mut [u8],
    rights: &[u8],
    control: &mut [u64; 6],
    passed: &mut u64,
    address: &mut u64,
    page: &mut u64,
    right: &mut u64,
) -> u64
    ensures { Shows
        (turn_of base word allowance
        (given registers.old scalars.old memory.old rights.now
        (record_of control.old)))
        result passed.new address.new page.new right.new registers.new
        scalars.new memory.new rights.now control.new }
{
    let turned = turn::turn(
        Hart::base(),
        word,
        allowance,
        registers,
        scalars,
        memory,
        rights,
        Control::from(*control),
    );
    crossing::turned(turned, control, passed, address, page, right)
}

// What an uncut turn of a unit-stride access would answer: the answer's number, the element, the number of pages tested, and the page and
// the right that are wanted. All that is lent for reading is as before.
#[unsafe(no_mangle)]
pub extern "C" fn prashunde_access_check(
    word: u32,
    registers: &[u8],
    scalars: &[u64],
    memory: &[u8],
    rights: &[u8],
    control: &[u64; 6],
    element: &mut u64,
    pages: &mut u64,
    page: &mut u64,
    right: &mut u64,
) -> u64
    ensures tells { Tells
        (access_check_of base word
        (given registers.now scalars.now memory.now rights.now
        (record_of control.now)))
        result element.new pages.new page.new right.new }
    ensures registers_value { (registers.exit.now ≡ registers.entry.now)
        × ((scalars.exit.now ≡ scalars.entry.now)
        × ((memory.exit.now ≡ memory.entry.now)
        × ((rights.exit.now ≡ rights.entry.now) × (control.exit.now ≡ control.entry.now)))) }
{
    let checked = access_check::check(
        Hart::base(),
        word,
        registers,
        scalars,
        memory,
        rights,
        Control::from(*control),
    );
    crossing::checked(checked, element, pages, page, right)
}

// A CSR of the record; 0 beside any other answer than 0. The record is as before: a read sets no VS.
#[unsafe(no_mangle)]
pub extern "C" fn prashunde_csr_read(csr: u64, control: &[u64; 6], value: &mut u64) -> u64
    ensures answered { result ≡ number_of (answer_of (read_of base (record_of control.now) csr)) }
    ensures value_after { value.new ≡ value_of (read_of base (record_of control.now) csr) }
    ensures control_value { control.exit.now ≡ control.entry.now }
{
    let read = csr::read(Hart::base(), Control::from(*control), csr);
    crossing::read(Answer::of(read), read.unwrap_or(0), value)
}

// The record after a write, through the write on a lent record; the same record beside any other answer than 0.
#[unsafe(no_mangle)]
pub extern "C" fn prashunde_csr_write(csr: u64, value: u64, control: &mut [u64; 6]) -> u64
    ensures answered { result ≡ number_of (answer_of (written_of base (record_of control.old) csr value)) }
    ensures control_after { control.new
        ≡ fields_of (record_after (record_of control.old) (written_of base (record_of control.old) csr value)) }
{
    let mut record = Control::from(*control);
    let outcome = csr_field::write(Hart::base(), &mut record, csr, value);
    crossing::written(Answer::of(outcome), record, control)
}

// Where a group of registers lies in the file: registers[start .. start + size]. Both are 0 beside any other answer than 0.
#[unsafe(no_mangle)]
pub extern "C" fn prashunde_view(
    registers: &[u8],
    first: usize,
    count: usize,
    start: &mut usize,
    size: &mut usize,
) -> u64
    ensures answered { result ≡ number_of (answer_of (place_of base (length registers.now) first count)) }
    ensures start_after { start.new ≡ start_of (place_of base (length registers.now) first count) }
    ensures size_after { size.new ≡ size_of (place_of base (length registers.now) first count) }
{
    let place = view::place(Hart::base(), registers.len(), first, count);
    let nowhere = ViewPlace { start: 0, size: 0 };
    crossing::placed(Answer::of(place), place.unwrap_or(nowhere), start, size)
}

// The record after reset: vill, and VS Initial.
#[unsafe(no_mangle)]
pub extern "C" fn prashunde_reset(control: &mut [u64; 6])
    ensures { control.new ≡ fields_of reset }
{
    *control = Control::RESET.into();
}

// The length of what a sheet prints, and the text in a buffer that is as long; a shorter one is left as it was.
#[unsafe(no_mangle)]
pub extern "C" fn prashunde_sheet(sheet: &[u8], out: &mut [u8]) -> u64
    ensures value { result ≡ length (printed sheet.now) }
    ensures out_after { out.new ≡ buffered (printed sheet.now) out.old }
    ensures upper_bound { result ≤ sheet_bound }
{
    sheet::run(sheet, out) as u64
}
