// Runs the sheet on standard input. No good sheet is longer than 999 bytes, and the first bad line of any other is known from its first
// 1,000: nothing beyond is read.

#![tactic(auto)]

ghost use Rattle.std.specs.Prelude.{◌≡◌, length};
ghost use Rattle.sheet.specs.Bounds.{sheet_bound};

use std::io::{self, ErrorKind, Read, Write};

// Bytes read at most.
const INPUT: u64 = 1000;

// Zeros, as many as the longest text that a sheet prints: no `Vec`, so that no sheet is refused for want of memory.
fn room() -> [u8; sheet::SHEET_MAX]
    ensures { sheet_bound ≡ length result }
{
    [0; sheet::SHEET_MAX]
}

// What a sheet prints. A write that fails is passed over.
fn print(output: &mut impl Write, sheet: &[u8], out: &mut [u8]) {
    let n = sheet::run(sheet, out);
    let k = n.min(out.len());
    let _ = output.write_all(&out[..k]);
}

fn main(rt: HostRuntime) -> io::Result<()> {
    let mut sheet = Vec::new(rt.alloc());
    match rt.reader().take(INPUT).read_to_end(&mut sheet) {
        Err(error) if error.kind() == ErrorKind::OutOfMemory => return Err(error),
        // a read that fails ends the sheet, as the end of the input does (so in sheets_main: a crate for these two arms is no plainer)
        _ => {}
    }
    let mut out = room();
    print(&mut io::writer(&rt), &sheet, &mut out);
    Ok(())
}
