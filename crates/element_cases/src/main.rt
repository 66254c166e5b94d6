// Runs element cases. A line of standard input is a case: the word, SEW, vxrm, the elements of vs2, vs1 and vd and the bit of v0, in hex.
// For each it writes the result and whether it saturates, or 'none' where the word names no operation of elements at that SEW.

#![tactic(auto)]

ghost use Rattle.std.specs.Prelude.{◌<◌, ◌≤◌, ◌^◌};
ghost use Rattle.operation.specs.Shape.{eew_of};

use decode::Instruction;
use fixed::{Element, Vxrm};
use operation::{Op, Size};
use std::io::{self, BufReader, LineWriter, Write};
use std::iter;
use width::Eew;

// The bytes of a case, with its newline.
const LINE: usize = 67;

// An operand cut to its width; 0 where the operation has none.
fn cut(size: Size, sew: u64, x: u64) -> u64
    requires { sew ≤ 64 }
    ensures { result < 2 ^ eew_of size sew }
{
    match operation::eew(size, sew) {
        eew @ 1..=64 => Eew { bits: eew }.low(x),
        _ => 0,
    }
}

// What an operation gives of the operands in a line; none where it is not there at the line's SEW.
fn element(op: Op, line: &[u8]) -> Option<Element> {
    let sew = hexadecimal::number(line, 9, 2);
    if sew < 8 || operation::largest_sew(op) < sew {
        return None;
    }
    let shape = operation::shape_of(op);
    let a = cut(shape.vs2, sew, hexadecimal::number(line, 14, 16));
    let b = cut(shape.vs1, sew, hexadecimal::number(line, 31, 16));
    let d = hexadecimal::number(line, 48, 16);
    let c = hexadecimal::number(line, 65, 1) % 2;
    let rm = Vxrm::from(hexadecimal::number(line, 12, 1));
    Some(alu::element(op, sew, rm, a, b, d, c))
}

// What a case comes to; none where its word names no operation of elements.
fn outcome(line: &[u8]) -> Option<Element> {
    match decode::decode(hexadecimal::number(line, 0, 8) as u32) {
        Instruction::Arithmetic(arithmetic) => element(arithmetic.op, line),
        _ => None,
    }
}

fn print(output: &mut impl Write, outcome: Option<Element>) -> io::Result<()> {
    match outcome {
        Some(Element { value, saturates }) => {
            writeln!(output, "{value:016x} {}", u8::from(saturates))
        }
        None => writeln!(output, "none"),
    }
}

// The loop is short, and stands in each program that runs cases: a function for all of them would take its two calls as closures.
fn main(rt: HostRuntime) -> io::Result<()> {
    let alloc = rt.alloc();
    let mut input = BufReader::new(alloc, rt.reader())?;
    let mut output = LineWriter::new(alloc, io::writer(&rt))?;
    let lines = iter::from_fn(|| case_lines::next_bytes::<LINE, _>(&mut input));
    for line in lines.take(case_lines::MOST_LINES) {
        // a write that fails is passed over
        let _ = print(&mut output, outcome(&line));
    }
    Ok(())
}
