// Numbers in lines of lower-case hex digits.

#![tactic(auto)]

ghost use Rattle.std.specs.Prelude.{◌≡◌, ◌||◌, ◌+◌, ◌≤◌, ◌<◌, ◌^◌, get_or};
ghost use Rattle.hexadecimal.specs.Hexadecimal.{is_decimal, is_letter, digit_of, digits_at, number_at};

// The byte at an index, and 0 past the end: no Option, as `digits_at` and the definitions of a sheet read 0 there (`get_or`).
pub fn byte_at(s: &[u8], at: usize) -> u8
    ensures { result ≡ get_or s.now at 0 }
{
    s.get(at).copied().unwrap_or(0)
}

// The value of a hex digit, and 0 of any other byte: no Option, as `digit_of` has it, and what is no digit is told by `digits`.
#[tactic(auto, unfolding(crate::specs::Hexadecimal::digit_of))]
pub fn digit(b: u8) -> u64
    ensures { (result ≡ digit_of b) × (result < 16) }
{
    match b {
        b'0'..=b'9' => (b - b'0') as u64,
        b'a'..=b'f' => (b - b'a') as u64 + 10,
        _ => 0,
    }
}

// Whether a byte is a lower-case hex digit.
fn is_digit(b: u8) -> bool
    ensures { result ≡ (is_decimal b || is_letter b) }
{
    matches!(b, b'0'..=b'9' | b'a'..=b'f')
}

// Whether the n bytes from index `at` are digits.
pub fn digits(line: &[u8], at: u32, n: u32) -> bool
    ensures { result ≡ digits_at line.now at n }
{
    (0..n).all(|i| is_digit(byte_at(line, at as usize + i as usize)))
}

// The number of the n digits from index `at`. A loop and no fold: that x fits would be a contract of the fold's closure.
pub fn number(line: &[u8], at: u32, n: u32) -> u64
    requires { n ≤ 16 }
    ensures { (result ≡ number_at line.now at n) × (result < 16 ^ n) }
{
    let mut x = 0;
    for i in 0..n {
        x = x * 16 + digit(byte_at(line, at as usize + i as usize));
    }
    x
}
