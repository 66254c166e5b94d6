// What crosses to C: what a call gives, as the numbers that the caller lends room for, and the number of its answer. The control record
// crosses as an array of six numbers.

#![tactic(auto)]

ghost use Rattle.std.specs.Prelude.{◌≡◌, List, ℕ};
ghost use Rattle.answer.specs.Answer.{number_of};
ghost use Rattle.control.specs.Control.{fields_of};
ghost use Rattle.machine.specs.Call.{left};
ghost use Rattle.crossing.specs.Crossing.{Shows, Tells};

use answer::Answer;
use control::Control;
use machine::Turned;
use unit_stride::Checked;
use view::ViewPlace;

// A turn: what it leaves in the other lent parts is there already.
pub fn turned(
    turned: Turned,
    control: &mut [u64; 6],
    passed: &mut u64,
    address: &mut u64,
    page: &mut u64,
    right: &mut u64,
) -> u64
    ensures { (registers scalars memory rights : List ℕ) → Shows (left turned registers scalars memory rights) result passed.new
        address.new page.new right.new registers scalars memory rights control.new }
{
    let place = turned.place;
    *control = turned.control.into();
    *passed = turned.passed;
    *address = place.address;
    *page = place.wanted.page;
    *right = u64::from(place.wanted.right);
    u64::from(turned.answer)
}

// An access check.
pub fn checked(
    checked: Checked,
    element: &mut u64,
    pages: &mut u64,
    page: &mut u64,
    right: &mut u64,
) -> u64
    ensures { Tells checked result element.new pages.new page.new right.new }
{
    *element = checked.element;
    *pages = checked.pages;
    *page = checked.wanted.page;
    *right = u64::from(checked.wanted.right);
    u64::from(checked.answer)
}

// A read by CSR number. Here and below any answer goes with anything beside it, as callers could give: a Result has no value beside a
// refusal.
pub fn read(answer: Answer, found: u64, value: &mut u64) -> u64
    ensures answered { result ≡ number_of answer }
    ensures value_after { value.new ≡ found }
{
    *value = found;
    u64::from(answer)
}

// A write by CSR number, and the record after it.
pub fn written(answer: Answer, after: Control, control: &mut [u64; 6]) -> u64
    ensures answered { result ≡ number_of answer }
    ensures control_after { control.new ≡ fields_of after }
{
    *control = after.into();
    u64::from(answer)
}

// The place of a group of registers.
pub fn placed(answer: Answer, place: ViewPlace, start: &mut usize, size: &mut usize) -> u64
    ensures answered { result ≡ number_of answer }
    ensures start_after { start.new ≡ place.start }
    ensures size_after { size.new ≡ place.size }
{
    *start = place.start;
    *size = place.size;
    u64::from(answer)
}
