// Runs sheets. Standard input has, for each, its length in 8 hex digits, and its bytes. For each the program writes what the sheet
// prints, from a buffer of just that length; `rest=ok` where a longer buffer is as it was behind the text; and `short=ok` where an empty
// buffer and one that is a byte too short are as they were. In each case the same length must be answered.

#![tactic(auto)]

use std::alloc::{AllocError, Global};
use std::io::{self, BufReader, ErrorKind, LineWriter, Read, Write};
use std::iter;

// No sheet prints this byte.
const FILLER: u8 = 165;

// Bytes behind the text that must stay as they were.
const BEHIND: usize = 64;

// A longer sheet is not run, nor are those behind it.
const SHEET_ROOM: u64 = 400_000;

// Whether a sheet answers the length needed, and leaves a buffer as it was from an index on.
fn leaves(sheet: &[u8], buffer: &mut [u8], from: usize, needed: usize) -> bool {
    buffer.fill(FILLER);
    let answered = sheet::run(sheet, buffer);
    answered == needed && buffer.iter().skip(from).all(|byte| *byte == FILLER)
}

// A line that says whether a check went well.
fn print_check(output: &mut impl Write, name: &str, is_well: bool) -> io::Result<()> {
    writeln!(output, "{name}={}", if is_well { "ok" } else { "bad" })
}

// One sheet: its text, and the two checks. A write that fails is passed over.
fn run_sheet(alloc: Global, sheet: &[u8], output: &mut impl Write) -> Result<(), AllocError> {
    let needed = sheet::run(sheet, &mut []);
    if needed == 0 {
        return Ok(());
    }
    let mut buffer = vec![in alloc; FILLER; needed + BEHIND]?;
    sheet::run(sheet, &mut buffer[..needed]);
    let _ = output.write_all(&buffer[..needed]);
    let rest = leaves(sheet, &mut buffer, needed, needed);
    let _ = print_check(output, "rest", rest);
    let empty = leaves(sheet, &mut buffer[..0], 0, needed);
    let short = leaves(sheet, &mut buffer[..needed - 1], 0, needed);
    let _ = print_check(output, "short", empty && short);
    Ok(())
}

// The bytes of the next sheet, as far as the input has them; none where there is no length, or it is above the room.
fn next_sheet(alloc: Global, input: &mut impl Read) -> Option<io::Result<Vec<u8>>> {
    let head = case_lines::next_bytes::<8, _>(input)?;
    let size = hexadecimal::number(&head, 0, 8);
    if SHEET_ROOM < size {
        return None;
    }
    let mut sheet = Vec::new(alloc);
    match input.by_ref().take(size).read_to_end(&mut sheet) {
        Err(error) if error.kind() == ErrorKind::OutOfMemory => Some(Err(error)),
        // a read that fails ends the sheet, as the end of the input does
        _ => Some(Ok(sheet)),
    }
}

// The loop is short, and stands in each program that runs cases: a function for all of them would take its two calls as closures.
fn main(rt: HostRuntime) -> io::Result<()> {
    let alloc = rt.alloc();
    let mut input = BufReader::new(alloc, rt.reader())?;
    let mut output = LineWriter::new(alloc, io::writer(&rt))?;
    let sheets = iter::from_fn(|| next_sheet(alloc, &mut input));
    for sheet in sheets.take(case_lines::MOST_LINES) {
        run_sheet(alloc, &sheet?, &mut output)?;
    }
    Ok(())
}
