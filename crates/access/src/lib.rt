// The access test of one element and of the fields of a segment, and what a fault tells.

#![tactic(auto)]

ghost use Rattle.std.specs.Prelude.{◌≡◌, suc, ◌%◌, ◌≤◌, T, ◌==◌};
ghost use Rattle.layout.specs.Layout.{byte_size};
ghost use Rattle.access.specs.Access.{nowhere, fault_at, needed, misaligned, denied, access_of, fields_access};

use answer::Answer;

// The page that was asked, and the right that was wanted of it.
#[derive(Clone, Copy, PartialEq, Eq)]
pub struct Wanted {
    pub page: u64,
    pub right: u8,
}

impl Wanted {
    // No page was asked. It is no Option: `nothing_wanted` (specs/Access) says page 256 and right 0, and theorem `Reasons` speaks of them.
    pub const NOTHING: Wanted = Wanted {
        page: 256,
        right: 0,
    };
}

// Where a fault lies: the address of the faulting element's first byte, and the page and the right that were wanted there.
#[derive(Clone, Copy, PartialEq, Eq)]
pub struct FaultPlace {
    pub address: u64,
    pub wanted: Wanted,
}

impl FaultPlace {
    // What stands beside an answer that is no fault. A function and no constant: the contracts of its callers name the definition.
    pub fn nowhere() -> FaultPlace
        ensures { result ≡ nowhere }
    {
        FaultPlace {
            address: 0,
            wanted: Wanted::NOTHING,
        }
    }
}

// A fault: its answer, and where it lies.
#[derive(Clone, Copy, PartialEq, Eq)]
pub struct Fault {
    pub answer: Answer,
    pub place: FaultPlace,
}

// The definition's `fault_at`: the same literal in three returns of `access`.
fn fault_at(answer: Answer, address: u64, wanted: Wanted) -> Result<(), Fault>
    ensures { result ≡ fault_at answer address wanted }
{
    let place = FaultPlace { address, wanted };
    Err(Fault { answer, place })
}

// 4 or 6. One function for this and `denied_answer` would take an enum that says which is meant: longer than the second function.
pub fn misaligned_answer(store: bool) -> Answer
    ensures { result ≡ misaligned store }
{
    if store {
        Answer::StoreMisaligned
    } else {
        Answer::LoadMisaligned
    }
}

// 5 or 7.
pub fn denied_answer(store: bool) -> Answer
    ensures { result ≡ denied store }
{
    if store {
        Answer::StoreAccess
    } else {
        Answer::LoadAccess
    }
}

// The right that a page needs, 1 or 2: a number, since the caller lends the pages' rights as bytes (the C interface).
pub fn right_needed(store: bool) -> u8
    ensures { result ≡ needed store }
{
    if store { 2 } else { 1 }
}

// Whether the address a is a multiple of n, a power of 2.
pub fn aligned(a: u64, n: u64) -> bool
    requires { T (byte_size n) }
    ensures { result ≡ (a % n == 0) }
{
    a & (n - 1) == 0
}

// The element of n bytes at address a, in a memory of so many bytes. The rights and the length of memory come one by one here and in
// callers, as the definitions have them (`access_of`): a struct of both would be made for each call.
pub fn access(rights: &[u8; 256], memory: usize, store: bool, a: u64, n: u64) -> Result<(), Fault>
    requires { (memory ≤ 65536) × T (byte_size n) }
    ensures { result ≡ access_of rights.now memory store a n }
{
    if !aligned(a, n) {
        return fault_at(misaligned_answer(store), a, Wanted::NOTHING);
    }
    // an aligned element ends below 2^64
    let last = a + (n - 1);
    let size = memory as u64;
    if size <= last {
        return fault_at(denied_answer(store), a, Wanted::NOTHING);
    }
    // below the end of memory it is one of the 256 pages, and that of every byte of the element
    let page = a / 256;
    let own = rights[page as usize];
    let right = right_needed(store);
    if right <= own {
        return Ok(());
    }
    fault_at(denied_answer(store), a, Wanted { page, right })
}

// The fields of a segment, each of n bytes, upward from the one at address a; nf of them follow it.
pub fn segment(
    rights: &[u8; 256],
    memory: usize,
    store: bool,
    a: u64,
    n: u64,
    nf: u32,
) -> Result<(), Fault>
    requires { (memory ≤ 65536) × T (byte_size n) }
    ensures { result ≡ fields_access rights.now memory store a n 0 (suc nf) }
{
    // stepped, since the address wraps
    let mut field = a;
    // `0..=nf` is slower
    for _ in 0..nf as u64 + 1 {
        access(rights, memory, store, field, n)?;
        field = field.wrapping_add(n);
    }
    Ok(())
}
