// The register view: the bytes of a group of registers, as a part of the lent file.

#![tactic(auto)]

ghost use Rattle.std.specs.Prelude.{◌≡◌, length};
ghost use Rattle.answer.specs.Answer.{number_of, answer_of};
ghost use Rattle.view.specs.View.{is_group_of, place_of, start_of, part_of, point_at};

use answer::Answer;
use control::Hart;

// Where a group lies in the file, in bytes.
#[derive(Clone, Copy, PartialEq, Eq)]
pub struct ViewPlace {
    pub start: usize,
    pub size: usize,
}

// Whether there is such a group.
#[tactic(auto, unfolding(crate::specs::View::is_group_of))]
fn is_group(first: usize, count: usize) -> bool
    ensures { result ≡ is_group_of first count }
{
    matches!(count, 1 | 2 | 4 | 8) && first <= 31 && first % count == 0
}

// The place of a group on a board, in a file of so many bytes, or the answer that refuses it.
pub fn place(hart: Hart, bytes: usize, first: usize, count: usize) -> Result<ViewPlace, Answer>
    ensures { result ≡ place_of hart.board bytes first count }
{
    let vlenb = hart.board.vlenb as usize;
    if bytes != 32 * vlenb {
        return Err(Answer::BadRegisters);
    }
    if !is_group(first, count) {
        return Err(Answer::NoGroup);
    }
    Ok(ViewPlace {
        start: vlenb * first,
        size: vlenb * count,
    })
}

// The bytes of the group, or an empty part; the answer's number beside it. (No Result: document 01 asks for a part of the file, or an empty
// part on refusal. A number and no `Answer`: README names the call, and a caller may lend any number.)
pub fn view_with<'a>(
    hart: Hart,
    registers: &'a [u8],
    first: usize,
    count: usize,
    answer: &mut u64,
) -> &'a [u8]
    ensures part { result.now ≡ part_of hart.board registers.now first count }
    ensures answered { answer.new ≡ number_of (answer_of (place_of hart.board (length registers.now) first count)) }
    ensures place { result.ref_ptr ≡ point_at registers.entry.ref_ptr (start_of (place_of hart.board (length registers.now) first count)) }
{
    match place(hart, registers.len(), first, count) {
        Ok(place) => {
            *answer = u64::from(Answer::Finished);
            &registers[place.start..place.start + place.size]
        }
        Err(refused) => {
            *answer = u64::from(refused);
            &registers[..0]
        }
    }
}

// The same without the answer.
pub fn view(hart: Hart, registers: &[u8], first: usize, count: usize) -> &[u8]
    ensures part { result.now ≡ part_of hart.board registers.now first count }
    ensures place { result.ref_ptr ≡ point_at registers.entry.ref_ptr (start_of (place_of hart.board (length registers.now) first count)) }
{
    let mut answer = 0;
    view_with(hart, registers, first, count, &mut answer)
}
