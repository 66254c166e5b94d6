// The elements of a unit-stride access, tested: by pages where there is no mask, one after the other where there is.
// Registers and VLENB are no struct: one that serves writers holds a `&mut`, and of the `&[u8]` that is lent here none can be made.

#![tactic(auto)]

ghost use Rattle.std.specs.Prelude.{◌≡◌, true, cond, ◌+◌, ◌^◌, ◌≤◌, ◌<◌, length, T, Ok};
ghost use Rattle.answer.specs.declared.Answer.TheVariants.{Finished};
ghost use Rattle.layout.specs.Layout.{byte_size};
ghost use Rattle.access.specs.Access.{nothing_wanted, access_of};
ghost use Rattle.machine.specs.Effect.{active_of};
ghost use Rattle.unit_stride.specs.Pages.{page_tested};
ghost use Rattle.unit_stride.specs.Tested.{Packed, Begins, MaskInside, all, Tested, FirstClosed, tallied_of};

use access::{Fault, Wanted};
use answer::Answer;
use control::Board;
use plan::Transfer;

// What is found: the answer, the element that would fault, the number of pages tested, and what was wanted of which page.
// It is no Result, since `pages` stands beside every answer (`none-faults` and `first-faults`, specs/Tested).
#[derive(Clone, Copy, PartialEq, Eq)]
pub struct Checked {
    pub answer: Answer,
    pub element: u64,
    pub pages: u64,
    pub wanted: Wanted,
}

impl Checked {
    // None of the elements faults.
    fn finished(pages: u64) -> Checked
        ensures { result ≡ record { answer = Finished; element = 0; pages = pages; wanted = nothing_wanted } }
    {
        Checked {
            answer: Answer::Finished,
            element: 0,
            pages,
            wanted: Wanted::NOTHING,
        }
    }
}

// ---- unmasked: by pages

// The first of the pages from `first` to `last` that lacks the right, if one does. At most two are asked for, by the number of the page, of
// which `FirstClosed` speaks.
fn first_closed(rights: &[u8; 256], right: u8, first: u64, last: u64) -> Option<u64>
    requires { (first ≤ last) × ((last ≤ first + 1) × (last < 256)) }
    ensures { FirstClosed rights.now right first last result }
{
    for page in first..=last {
        if rights[page as usize] < right {
            return Some(page);
        }
    }
    None
}

// The elements from the address `start` on, which is aligned: how many of them lie inside memory, and the pages of these.
fn by_pages(
    rights: &[u8; 256],
    memory: usize,
    t: Transfer,
    vstart: u64,
    remaining: u64,
    start: u64,
) -> Checked
    requires { Packed memory t vstart remaining × (Begins t vstart start × (1 ≤ remaining)) }
    ensures { Tested all rights.now memory t vstart remaining result }
{
    let size = t.bytes;
    let inside = remaining.min((memory as u64).saturating_sub(start) / size);
    if inside == 0 {
        return Checked {
            answer: access::denied_answer(t.store),
            element: vstart,
            pages: 0,
            wanted: Wanted::NOTHING,
        };
    }
    let first = start / 256;
    let last = (start + (inside - 1) * size) / 256;
    let right = access::right_needed(t.store);
    if let Some(closed) = first_closed(rights, right, first, last) {
        // the first element on that page
        let element = vstart + (256 * closed).saturating_sub(start) / size;
        return Checked {
            answer: access::denied_answer(t.store),
            element,
            pages: closed - first + 1,
            wanted: Wanted {
                page: closed,
                right,
            },
        };
    }
    let pages = last - first + 1;
    if inside < remaining {
        return Checked {
            answer: access::denied_answer(t.store),
            element: vstart + inside,
            pages,
            wanted: Wanted::NOTHING,
        };
    }
    Checked::finished(pages)
}

// All elements are active: the start's alignment, the end of memory, and each page once.
pub fn unmasked(
    rights: &[u8; 256],
    memory: usize,
    t: Transfer,
    vstart: u64,
    remaining: u64,
) -> Checked
    requires { Packed memory t vstart remaining }
    ensures { Tested all rights.now memory t vstart remaining result }
{
    if remaining == 0 {
        return Checked::finished(0);
    }
    let start = execute::address(t, vstart, 0);
    if !access::aligned(start, t.bytes) {
        return Checked {
            answer: access::misaligned_answer(t.store),
            element: vstart,
            pages: 0,
            wanted: Wanted::NOTHING,
        };
    }
    by_pages(rights, memory, t, vstart, remaining, start)
}

// ---- masked: one element after the other

// The pages so far: how many there are, and the page after the last of them. With none it is 0, which bounds the next from below as any
// other does, so that it is no Option.
#[derive(Clone, Copy)]
struct Tally {
    pages: u64,
    next: u64,
}

// With one page more, where that is tested and was not before; pages come in ascending order.
fn tallied(c: Tally, tested: bool, page: u64) -> Tally
    requires { (c.pages ≤ 2 ^ 32) × (page ≤ 2 ^ 56) }
    ensures { result ≡ tallied_of c tested page }
{
    let next = c.next;
    if tested && next <= page {
        return Tally {
            pages: c.pages + 1,
            next: page + 1,
        };
    }
    c
}

// Whether an element is neither misaligned nor past memory.
fn page_tested(memory: usize, a: u64, n: u64) -> bool
    requires { T (byte_size n) }
    ensures { result ≡ page_tested memory a n }
{
    if !access::aligned(a, n) {
        return false;
    }
    a + (n - 1) < memory as u64
}

// An element that is active or not.
fn test(rights: &[u8; 256], memory: usize, t: Transfer, active: bool, a: u64) -> Result<(), Fault>
    requires { (memory ≤ 65536) × T (byte_size t.bytes) }
    ensures { result ≡ cond active (access_of rights.now memory t.store a t.bytes) (Ok tt) }
{
    if !active {
        return Ok(());
    }
    access::access(rights, memory, t.store, a, t.bytes)
}

// v0 says which elements are active: they are tested upward, up to the first that faults.
fn walked(
    registers: &[u8],
    vlenb: usize,
    rights: &[u8; 256],
    memory: usize,
    t: Transfer,
    vstart: u64,
    remaining: u64,
) -> Checked
    requires { Packed memory t vstart remaining × MaskInside (length registers.now) vlenb vstart remaining }
    ensures { Tested (active_of vlenb registers.now true) rights.now memory t vstart remaining result }
{
    let mut tally = Tally { pages: 0, next: 0 };
    // by how many are done, which `pages_from` counts
    for k in 0..remaining {
        let i = vstart + k;
        let a = execute::address(t, i, 0);
        let active = execute::active(registers, vlenb, true, i as usize);
        // `&`: both are asked, without a branch
        let tested = active & page_tested(memory, a, t.bytes);
        tally = tallied(tally, tested, a / 256);
        if let Err(fault) = test(rights, memory, t, active, a) {
            return Checked {
                answer: fault.answer,
                element: i,
                pages: tally.pages,
                wanted: fault.place.wanted,
            };
        }
    }
    Checked::finished(tally.pages)
}

// ---- either way

// The elements of a unit-stride access that remain.
pub fn tested(
    board: Board,
    registers: &[u8],
    rights: &[u8; 256],
    memory: usize,
    masked: bool,
    t: Transfer,
    vstart: u64,
    remaining: u64,
) -> Checked
    requires { Packed memory t vstart remaining × MaskInside (length registers.now) board.vlenb vstart remaining }
    ensures { Tested (active_of board.vlenb registers.now masked) rights.now memory t vstart remaining result }
{
    if masked {
        return walked(
            registers,
            board.vlenb as usize,
            rights,
            memory,
            t,
            vstart,
            remaining,
        );
    }
    unmasked(rights, memory, t, vstart, remaining)
}
