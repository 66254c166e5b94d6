// How the programs that run cases read lines, and how they read and write the control record.

#![tactic(auto)]

ghost use Rattle.std.specs.Prelude.{◌≡◌, ◌+◌, ◌*◌, ◌≤◌, ◌^◌, length, set};
ghost use Rattle.hexadecimal.specs.Hexadecimal.{number_at};
ghost use Rattle.text.specs.Text.{over, Wrote, Adds};
ghost use Rattle.case_lines.specs.Lines.{control_at, with_range, bytes_at, spaced, control_text};
ghost use Rattle.std.specs.Prelude.{IfSome, OnOk};
ghost use Rattle.std.specs.Io.KnownBytes.{Consumes, Appends};

use control::Control;
use text::Text;

// No program reads more lines, or runs more sheets.
pub const MOST_LINES: usize = 1_000_000;

// The control record: its fields from index `at` on, each in 16 hex digits.
pub fn control_at(line: &[u8], at: u32) -> Control
    requires { at ≤ 2 ^ 31 }
    ensures { result ≡ control_at line.now at }
{
    Control::from([
        hexadecimal::number(line, at, 16),
        hexadecimal::number(line, at + 16, 16),
        hexadecimal::number(line, at + 32, 16),
        hexadecimal::number(line, at + 48, 16),
        hexadecimal::number(line, at + 64, 16),
        hexadecimal::number(line, at + 80, 16),
    ])
}

// The scalar register of a line: two digits of its number, and 16 of its value. A number past the scalars sets none.
pub fn set_scalar(scalars: &mut [u64], line: &[u8])
    ensures { scalars.new ≡ set scalars.old (number_at line.now 0 2) (number_at line.now 2 16) }
{
    let at = hexadecimal::number(line, 0, 2) as usize;
    // by its index: `get_mut` was tried, of it the check knows no more than the length after
    if at < scalars.len() {
        scalars[at] = hexadecimal::number(line, 2, 16);
    }
}

// The right of a line in its pages: n digits of the first page, n of the last, and m of the right. Of pages past the rights it sets none.
pub fn set_rights(rights: &mut [u8], line: &[u8], n: u32, m: u32)
    requires { (n ≤ 8) × (m ≤ 2) }
    ensures { rights.new ≡ with_range rights.old (number_at line.now 0 n) (number_at line.now n n + 1) (number_at line.now (2 * n) m) }
{
    let first = hexadecimal::number(line, 0, n) as usize;
    let last = hexadecimal::number(line, n, n) as usize;
    let right = hexadecimal::number(line, 2 * n, m) as u8;
    let end = rights.len().min(last + 1);
    if first < end {
        rights[first..end].fill(right);
    }
}

// The n bytes from index `at` of a line, of two digits each.
fn put_bytes(bytes: &mut Text, line: &[u8], at: u32, n: u32)
    requires { (bytes.old.at ≤ 2 ^ 31) × (at ≤ 2 ^ 31) × (n ≤ 255) }
    ensures { Adds bytes.old (bytes_at line.now at n) bytes.new }
{
    for k in 0..n {
        bytes.put(&[hexadecimal::number(line, at + 2 * k, 2) as u8]);
    }
}

// The bytes of a line, from an index of `bytes` on: two digits of how many from index `at`, and then they. Bytes past the end are left out.
pub fn set_bytes(bytes: &mut [u8], first: usize, line: &[u8], at: u32)
    requires { (first ≤ 2 ^ 31) × (at ≤ 2 ^ 30) }
    ensures { bytes.new ≡ over bytes.old first (bytes_at line.now (at + 2) (number_at line.now at 2)) }
{
    let n = hexadecimal::number(line, at, 2) as u32;
    let mut text = Text {
        out: bytes,
        at: first,
    };
    put_bytes(&mut text, line, at + 2, n);
}

// The next bytes of the input; none where it ends before them, or is not to be read.
pub fn next_bytes<const N: usize, R: std::io::Read>(input: &mut R) -> Option<[u8; N]>
    ensures { IfSome result (λ bytes. Consumes (R.remaining input.old) (R.remaining input.new) bytes) }
{
    let mut bytes = [0; N];
    input.read_exact(&mut bytes).ok()?;
    Some(bytes)
}

// The control record, as `control_text` has it, written.
pub fn print_control<W: std::io::Write>(output: &mut W, control: Control) -> std::io::Result<()>
    ensures { OnOk result (Appends (W.contents output.old) (W.contents output.new) (control_text control)) }
{
    let mut text = [0; 121];
    let end = control_text(&mut text, 0, control);
    output.write_all(&text[..end])
}

// Each number in decimal, after a space.
fn put_spaced(text: &mut Text, numbers: &[u64])
    requires { text.old.at + 21 * length numbers.now ≤ 2 ^ 30 }
    ensures { Adds text.old (spaced numbers.now) text.new }
{
    for number in numbers {
        text.put(b" ");
        text.put_decimal(*number);
    }
}

// The control record: vtype in hex, then the other fields in decimal.
fn put_control(text: &mut Text, control: Control)
    requires { text.old.at ≤ 2 ^ 29 }
    ensures { Adds text.old (control_text control) text.new × (text.new.at ≤ text.old.at + 121) }
{
    let fields = <[u64; 6]>::from(control);
    text.put_short_hex(fields[0]);
    put_spaced(text, &fields[1..]);
}

// The same into a buffer from an index on, and the index after it: no `Text`, as it was (docs/READING.md, section 8).
pub fn control_text(out: &mut [u8], at: usize, control: Control) -> usize
    requires { at ≤ 2 ^ 29 }
    ensures { Wrote out.old at (control_text control) out.new result × (result ≤ at + 121) }
{
    let mut text = Text { out, at };
    put_control(&mut text, control);
    text.at
}
