// What a sheet says, and its first bad line.

#![tactic(auto)]

ghost use Rattle.std.specs.Prelude.{◌≡◌, ◌++◌, ◌+◌, ◌*◌, ◌≤◌, ◌<◌, ◌^◌, length, drop, true, false, slice_index, MatchResult};
ghost use Rattle.hexadecimal.specs.Hexadecimal.{all_at};
ghost use Rattle.sheet_read.specs.Sheet.{begins, hex_line, is_mark, mark_of, rights_at, marks_from, rights_line};
ghost use Rattle.sheet_read.specs.Sheet.{up_to_128, allow_of, after_allow, first_word};
ghost use Rattle.sheet_read.specs.Sheet.{most_words, count_at, bad_end, first_bad};
ghost use Rattle.sheet_read.specs.Listed.{Allowed, Listed};

// ---- where the lines begin, and their values: a line is its key, its value and a newline

// The rights: 16 marks.
const MARKS_FROM: usize = 7;

// x10, x11, x12: 16 digits.
const X10_AT: u32 = MARKS_FROM as u32 + 16 + 1;

pub const X10_FROM: u32 = X10_AT + 4;

const X11_AT: u32 = X10_FROM + 16 + 1;

pub const X11_FROM: u32 = X11_AT + 4;

const X12_AT: u32 = X11_FROM + 16 + 1;

pub const X12_FROM: u32 = X12_AT + 4;

// The allowance, and its greatest.
const ALLOW_AT: u32 = X12_FROM + 16 + 1;

const ALLOW_FROM: usize = ALLOW_AT as usize + 6;

const MOST_ALLOW: u64 = 128;

// Where the first word's line begins, after an allowance of one, two and three digits.
const AFTER_ONE_DIGIT: u32 = ALLOW_AT + 6 + 1 + 1;

const AFTER_TWO_DIGITS: u32 = AFTER_ONE_DIGIT + 1;

const AFTER_THREE_DIGITS: u32 = AFTER_TWO_DIGITS + 1;

// In a word line: where its 8 digits begin; its length; and how many there are at most.
pub const WORD_FROM: u32 = 5;

pub const WORD_LENGTH: u32 = WORD_FROM + 8 + 1;

const MOST_WORDS: u32 = 64;

// The last line, end=1.
const END_LENGTH: u32 = 6;

// ---- lines

// Whether the key stands at an index. Byte by byte, since past the end the definition reads 0, as `starts_with` does not.
fn begins_with(s: &[u8], at: u32, key: &[u8]) -> bool
    ensures { result ≡ begins s.now at key.now }
{
    key.iter().enumerate().all(|(i, byte)| hexadecimal::byte_at(s, at as usize + i) == *byte)
}

// The key, n hex digits and a newline.
fn hex_line(s: &[u8], at: u32, key: &[u8], n: u32) -> bool
    requires { (at ≤ 2 ^ 16) × (length key.now ≤ 8) × (n ≤ 16) }
    ensures { result ≡ hex_line s.now at key.now n }
{
    let value = at + key.len() as u32;
    begins_with(s, at, key)
        && hexadecimal::digits(s, value, n)
        && hexadecimal::byte_at(s, (value + n) as usize) == b'\n'
}

// Whether a byte is - r w.
fn is_mark(b: u8) -> bool
    ensures { result ≡ is_mark b }
{
    matches!(b, b'-' | b'r' | b'w')
}

// The right that a mark gives.
#[tactic(auto, unfolding(crate::specs::Sheet::mark_of))]
fn mark(b: u8) -> u8
    ensures { result ≡ mark_of b }
{
    match b {
        b'r' => 1,
        b'w' => 2,
        _ => 0,
    }
}

// Whether all 16 marks are.
fn marks(s: &[u8]) -> bool
    ensures { result ≡ all_at is_mark s.now marks_from 16 }
{
    (0..16).all(|i| is_mark(hexadecimal::byte_at(s, MARKS_FROM + i)))
}

// The key, 16 marks and a newline.
fn rights_line(s: &[u8]) -> bool
    ensures { result ≡ rights_line s.now }
{
    begins_with(s, 0, b"rights=") && marks(s) && hexadecimal::byte_at(s, MARKS_FROM + 16) == b'\n'
}

// A number from 1 to 128 and the newline after it, at the front of four bytes.
#[tactic(auto, unfolding(crate::specs::Sheet::up_to_128, crate::specs::Sheet::three_digits))]
fn up_to_128(bytes: [u8; 4]) -> Option<u64>
    ensures { Allowed (up_to_128 (slice_index bytes 0) (slice_index bytes 1) (slice_index bytes 2) (slice_index bytes 3)) result }
{
    match bytes {
        [d @ b'1'..=b'9', b'\n', _, _] => Some((d - b'0') as u64),
        [d @ b'1'..=b'9', e @ b'0'..=b'9', b'\n', _] => {
            Some(10 * (d - b'0') as u64 + (e - b'0') as u64)
        }
        [d @ b'1'..=b'9', e @ b'0'..=b'9', f @ b'0'..=b'9', b'\n'] => {
            let n = 100 * (d - b'0') as u64 + 10 * (e - b'0') as u64 + (f - b'0') as u64;
            if n <= MOST_ALLOW { Some(n) } else { None }
        }
        _ => None,
    }
}

// ---- what a sheet says

// The number of a bad line, counted from 1.
#[derive(Clone, Copy)]
pub struct BadLine(pub u64);

// Of a good sheet: the allowance, where the first word's line begins, and how many word lines there are.
#[derive(Clone, Copy)]
pub struct Words {
    pub allow: u32,
    pub first: u32,
    pub count: u32,
}

// The allowance, where its line is good. One call a byte: `search` did not join what `from_fn` fills to the definition's four bytes.
pub fn allow(s: &[u8]) -> Option<u64>
    ensures { Allowed (allow_of s.now) result }
{
    if !begins_with(s, ALLOW_AT, b"allow=") {
        return None;
    }
    up_to_128([
        hexadecimal::byte_at(s, ALLOW_FROM),
        hexadecimal::byte_at(s, ALLOW_FROM + 1),
        hexadecimal::byte_at(s, ALLOW_FROM + 2),
        hexadecimal::byte_at(s, ALLOW_FROM + 3),
    ])
}

// Where the first word's line begins.
pub fn first_word(allow: u64) -> u32
    ensures { (result ≡ first_word allow) × (result ≤ after_allow 3) }
{
    match allow {
        0..=9 => AFTER_ONE_DIGIT,
        10..=99 => AFTER_TWO_DIGITS,
        _ => AFTER_THREE_DIGITS,
    }
}

// How many word lines stand at an index, at most 64.
pub fn count(s: &[u8], at: u32) -> u32
    requires { at ≤ after_allow 3 }
    ensures { (result ≡ count_at s.now at most_words) × (result ≤ most_words) }
{
    for k in 0..MOST_WORDS {
        if !hex_line(s, at + WORD_LENGTH * k, b"word=", 8) {
            return k;
        }
    }
    MOST_WORDS
}

// Whether a line is good.
fn check(line: u64, good: bool) -> Result<(), BadLine>
    ensures { MatchResult result (λ _. good ≡ true) (λ bad. (good ≡ false) × (bad.0 ≡ line)) }
{
    if good { Ok(()) } else { Err(BadLine(line)) }
}

// Whether the last line follows k word lines from an index on, and nothing follows it.
#[tactic(auto, unfolding(crate::specs::Sheet::bad_end))]
fn check_end(s: &[u8], at: u32, k: u32) -> Result<(), BadLine>
    requires { (at ≤ after_allow 3) × (k ≤ most_words) }
    ensures { MatchResult result (λ _. bad_end s.now at k ≡ 0) (λ bad. (bad.0 ≡ bad_end s.now at k) × (0 < bad.0)) }
{
    let end = at + WORD_LENGTH * k;
    check(6, k != 0)?;
    check(6 + k as u64, begins_with(s, end, b"end=1\n"))?;
    check(7 + k as u64, s.len() <= (end + END_LENGTH) as usize)
}

// What a good sheet says of its words, or the first bad line.
#[tactic(auto, unfolding(crate::specs::Sheet::first_bad))]
pub fn read(s: &[u8]) -> Result<Words, BadLine>
    ensures { MatchResult result (λ words. Listed s.now words) (λ bad. (bad.0 ≡ first_bad s.now) × (0 < bad.0)) }
{
    check(1, rights_line(s))?;
    check(2, hex_line(s, X10_AT, b"x10=", 16))?;
    check(3, hex_line(s, X11_AT, b"x11=", 16))?;
    check(4, hex_line(s, X12_AT, b"x12=", 16))?;
    let allow = allow(s).ok_or(BadLine(5))?;
    let first = first_word(allow);
    let count = count(s, first);
    check_end(s, first, count)?;
    Ok(Words {
        allow: allow as u32,
        first,
        count,
    })
}

// The rights of pages 0 to 15, opened in an array of rights.
pub fn open(s: &[u8], rights: &mut [u8])
    requires { 16 ≤ length rights.old }
    ensures { rights.new ≡ (rights_at s.now marks_from 16 ++ drop 16 rights.old) }
{
    for (i, right) in rights[..16].iter_mut().enumerate() {
        *right = mark(hexadecimal::byte_at(s, MARKS_FROM + i));
    }
}
