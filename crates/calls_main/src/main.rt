// Runs the reads and writes by CSR number and the register view on given cases. Each line of standard input is a letter and eight numbers
// of 16 hex digits: 'r' csr, 0, control record; 'w' csr, value, control record; 'v' length of the file, first register, count, and zeros;
// on the smaller board 'R', 'W' and 'V'. A read writes one line. A write writes two: by the call that is lent the record, then by the call
// that takes it by value. A view writes two: by `view_with`, then by `place` and `view`; the start is told by the bytes found there, and a
// checksum is of all.

#![tactic(auto)]

use answer::Answer;
use case_lines::next_bytes;
use control::{Control, Hart};
use std::io::{self, BufReader, LineWriter, Read, Write};
use std::{array, iter};
use view::ViewPlace;

// ---- lines

// The numbers of a line, and its newline.
type Numbers = [u8; 129];

// A line, by its letter: the board of a call, and what follows the letter.
#[derive(Clone, Copy)]
enum Line {
    Read(Hart, Numbers),
    Write(Hart, Numbers),
    View(Hart, Numbers),
}

// The next line; none at the end of the input, in a line or before one, and where a letter is none of these.
fn next_line(input: &mut impl Read) -> Option<Line> {
    let [letter]: [u8; 1] = next_bytes(input)?;
    Some(match letter {
        b'r' => Line::Read(Hart::BASE, next_bytes(input)?),
        b'w' => Line::Write(Hart::BASE, next_bytes(input)?),
        b'v' => Line::View(Hart::BASE, next_bytes(input)?),
        b'R' => Line::Read(Hart::SMALL, next_bytes(input)?),
        b'W' => Line::Write(Hart::SMALL, next_bytes(input)?),
        b'V' => Line::View(Hart::SMALL, next_bytes(input)?),
        _ => return None,
    })
}

// ---- CSR numbers

fn control_of(line: &[u8]) -> Control {
    case_lines::control_at(line, 32)
}

fn print_written(output: &mut impl Write, answer: Answer, control: Control) -> io::Result<()> {
    write!(output, "{} ", u64::from(answer))?;
    case_lines::print_control(output, control)?;
    writeln!(output)
}

// The value of a read is 0 beside a refusal.
fn read(output: &mut impl Write, hart: Hart, line: &[u8]) -> io::Result<()> {
    let csr = hexadecimal::number(line, 0, 16);
    let read = csr::read(hart, control_of(line), csr);
    let (answer, value) = (u64::from(Answer::of(read)), read.unwrap_or(0));
    writeln!(output, "{answer} {value:x}")
}

// The record of a write is as before beside a refusal.
fn write(output: &mut impl Write, hart: Hart, line: &[u8]) -> io::Result<()> {
    let control = control_of(line);
    let csr = hexadecimal::number(line, 0, 16);
    let value = hexadecimal::number(line, 16, 16);
    let mut lent = control;
    let outcome = csr_field::write(hart, &mut lent, csr, value);
    print_written(output, Answer::of(outcome), lent)?;
    let written = csr::write(hart, control, csr, value);
    print_written(output, Answer::of(written), written.unwrap_or(control))
}

// ---- the register view

// Of each 8 bytes, a register of the smaller board, the first is their number.
fn file_byte(k: usize) -> u8 {
    ((k / 8 + k % 8 * 32) % 256) as u8
}

// Where a part begins, by its first byte; 0 of an empty one.
fn start_of(part: &[u8]) -> u64 {
    part.first().map_or(0, |byte| 8 * u64::from(*byte))
}

fn checksum(part: &[u8]) -> u64 {
    part.iter()
        .fold(0, |sum, byte| sum % 65521 * 31 + u64::from(*byte))
}

fn view_with(
    output: &mut impl Write,
    hart: Hart,
    file: &[u8],
    first: usize,
    count: usize,
) -> io::Result<()> {
    let mut answer = 0;
    let part = view::view_with(hart, file, first, count, &mut answer);
    let (start, size) = (start_of(part), part.len());
    writeln!(output, "{answer} {start} {size} {}", checksum(part))
}

fn view(
    output: &mut impl Write,
    hart: Hart,
    file: &[u8],
    first: usize,
    count: usize,
) -> io::Result<()> {
    let place = view::place(hart, file.len(), first, count);
    let answer = Answer::of(place);
    let ViewPlace { start, size } = place.unwrap_or(ViewPlace { start: 0, size: 0 });
    let part = view::view(hart, file, first, count);
    let answer = u64::from(answer);
    writeln!(output, "{answer} {start} {size} {}", checksum(part))
}

// The views of a file of the length in a line, at most the room that there is.
fn views(output: &mut impl Write, hart: Hart, line: &[u8], file: &[u8]) -> io::Result<()> {
    let n = file.len().min(hexadecimal::number(line, 0, 16) as usize);
    let first = hexadecimal::number(line, 16, 16) as usize;
    let count = hexadecimal::number(line, 32, 16) as usize;
    view_with(output, hart, &file[..n], first, count)?;
    view(output, hart, &file[..n], first, count)
}

// ---- the whole

// The calls of a line.
fn follow(output: &mut impl Write, line: Line, file: &[u8]) -> io::Result<()> {
    match line {
        Line::Read(hart, numbers) => read(output, hart, &numbers),
        Line::Write(hart, numbers) => write(output, hart, &numbers),
        Line::View(hart, numbers) => views(output, hart, &numbers, file),
    }
}

// The loop is short, and stands in each program that runs cases: a function for all of them would take its two calls as closures.
fn main(rt: HostRuntime) -> io::Result<()> {
    let alloc = rt.alloc();
    let mut input = BufReader::new(alloc, rt.reader())?;
    let mut output = LineWriter::new(alloc, io::writer(&rt))?;
    let file: [u8; 1024] = array::from_fn(file_byte);
    for line in iter::from_fn(|| next_line(&mut input)).take(case_lines::MOST_LINES) {
        // a write that fails is passed over
        let _ = follow(&mut output, line, &file);
    }
    Ok(())
}
