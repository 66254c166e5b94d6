// Runs instruction vectors through the public calls. Standard input has records of lines: 'c' a case (word, allowance, the fields of the
// control record, and the lengths of the register file, the scalars, memory and the rights), 'x' a scalar, 'v' bytes of the register file
// from a multiple of 8 on, 'p' the right of a range of pages, and then '.', upon which the turn is taken, or '?', upon which the access
// check is made; on the smaller board ',' and '!'. Of a turn it writes the answer, the number passed, the fault address, the page and the
// right that were wanted, the control record after, and every byte or scalar that has changed; of a check the answer, the element, the
// number of pages, and the page and the right.

#![tactic(auto)]

ghost use Rattle.std.specs.Prelude.{◌≤◌};
ghost use Rattle.vectors_main.specs.declared.TheConstants.{REGISTERS, SCALARS, MEMORY, RIGHTS};

use access::Wanted;
use case_lines::next_bytes;
use control::{Control, Hart};
use machine::Turned;
use std::io::{self, BufReader, LineWriter, Read, Write};
use std::{array, iter};
use unit_stride::Checked;

// ---- the state that a case starts from, but for what its lines say

// Room for each part of a state: twice what the machine has, so that a case can say a wrong length.
const REGISTERS: usize = 1024;

const SCALARS: usize = 64;

const MEMORY: usize = 131072;

const RIGHTS: usize = 512;

fn register_byte(k: usize) -> u8 {
    match k {
        0..512 => ((73 * k + 29) % 256) as u8,
        _ => 0,
    }
}

fn scalar_at(k: usize) -> u64 {
    match k {
        0 => 0x00f0_0d00_dead_beef,
        1..32 => (k as u64)
            .wrapping_mul(0x0123_4567_89ab_cdef)
            .wrapping_add(0x55),
        _ => 0,
    }
}

fn memory_byte(k: usize) -> u8 {
    match k {
        0..65536 => (((167 * k + 59 * (k / 256) + 13) ^ (k / 8)) % 256) as u8,
        _ => 0,
    }
}

// ---- the lines of a case

// A line, by its letter: what follows it, with the newline, or the board of a turn or of a check.
#[derive(Clone, Copy)]
enum Line {
    Case([u8; 145]),
    Scalar([u8; 19]),
    Registers([u8; 37]),
    Rights([u8; 9]),
    Turn(Hart),
    Check(Hart),
}

// The next line; none at the end of the input, in a line or before one, and where a letter is none of these.
fn next_line(input: &mut impl Read) -> Option<Line> {
    let [letter]: [u8; 1] = next_bytes(input)?;
    let line = match letter {
        b'c' => Line::Case(next_bytes(input)?),
        b'x' => Line::Scalar(next_bytes(input)?),
        b'v' => Line::Registers(next_bytes(input)?),
        b'p' => Line::Rights(next_bytes(input)?),
        b'.' => Line::Turn(Hart::BASE),
        b',' => Line::Turn(Hart::SMALL),
        b'?' => Line::Check(Hart::BASE),
        b'!' => Line::Check(Hart::SMALL),
        _ => return None,
    };
    if matches!(line, Line::Turn(_) | Line::Check(_)) {
        // the last line may lack its newline
        let _ = next_bytes::<1, _>(input);
    }
    Some(line)
}

// What the first line of a case says: the word and its allowance, the control record, and how much of each part is lent.
// A part with its own length: tried; the borrow checker lends no part of an array of generic length, nor of a struct with a ghost field.
#[derive(Clone, Copy)]
struct Head {
    word: u32,
    allowance: u32,
    control: Control,
    registers: usize,
    scalars: usize,
    memory: usize,
    rights: usize,
    ghost registers_fit: { registers ≤ REGISTERS },
    ghost scalars_fit: { scalars ≤ SCALARS },
    ghost memory_fits: { memory ≤ MEMORY },
    ghost rights_fit: { rights ≤ RIGHTS },
}

impl Head {
    // A length is at most the room that there is.
    fn of_line(line: &[u8]) -> Head {
        Head {
            word: hexadecimal::number(line, 0, 8) as u32,
            allowance: hexadecimal::number(line, 8, 8) as u32,
            control: case_lines::control_at(line, 16),
            registers: REGISTERS.min(hexadecimal::number(line, 112, 8) as usize),
            scalars: SCALARS.min(hexadecimal::number(line, 120, 8) as usize),
            memory: MEMORY.min(hexadecimal::number(line, 128, 8) as usize),
            rights: RIGHTS.min(hexadecimal::number(line, 136, 8) as usize),
        }
    }
}

// A case as far as its lines have come.
#[derive(Drop)]
struct Case {
    head: Head,
    registers: [u8; REGISTERS],
    scalars: [u64; SCALARS],
    memory: [u8; MEMORY],
    rights: [u8; RIGHTS],
}

impl Case {
    // Of no line yet. Every page may be read and written.
    fn new() -> Case {
        Case {
            head: Head::of_line(b""),
            registers: array::from_fn(register_byte),
            scalars: array::from_fn(scalar_at),
            memory: array::from_fn(memory_byte),
            rights: [2; RIGHTS],
        }
    }

    // What a line asks for. All but memory is as in `blank` when a case begins; memory is so after every turn.
    fn follow(&mut self, line: Line, blank: &Case, output: &mut impl Write) -> io::Result<()> {
        match line {
            Line::Case(line) => {
                self.head = Head::of_line(&line);
                self.registers = blank.registers;
                self.scalars = blank.scalars;
                self.rights = blank.rights;
            }
            Line::Scalar(line) => case_lines::set_scalar(&mut self.scalars, &line),
            Line::Registers(line) => {
                let first = 8 * hexadecimal::number(&line, 0, 2) as usize;
                case_lines::set_bytes(&mut self.registers, first, &line, 2);
            }
            Line::Rights(line) => case_lines::set_rights(&mut self.rights, &line, 3, 2),
            Line::Turn(hart) => return self.turn(hart, blank, output),
            Line::Check(hart) => return print_checked(output, self.checked(hart)),
        }
        Ok(())
    }

    // The check on a board.
    fn checked(&self, hart: Hart) -> Checked {
        let head = self.head;
        let registers = &self.registers[..head.registers];
        let scalars = &self.scalars[..head.scalars];
        let memory = &self.memory[..head.memory];
        let rights = &self.rights[..head.rights];
        let Head { word, control, .. } = head;
        access_check::check(hart, word, registers, scalars, memory, rights, control)
    }

    // The turn on a board, and what it changed, which is put back but for the scalars, also where it could not be written.
    fn turn(&mut self, hart: Hart, blank: &Case, output: &mut impl Write) -> io::Result<()> {
        let registers_before = self.registers;
        let written = self.print_turn(hart, blank, output);
        if written.is_err() {
            self.registers = registers_before;
            self.memory = blank.memory;
        }
        written
    }

    // The turn on a board, and what it changed, put back as it is written.
    fn print_turn(&mut self, hart: Hart, blank: &Case, output: &mut impl Write) -> io::Result<()> {
        let registers_before = self.registers;
        let scalars_before = self.scalars;
        let Case {
            head,
            registers,
            scalars,
            memory,
            rights,
        } = self;
        let turned = turned(
            hart,
            *head,
            &mut registers[..head.registers],
            &mut scalars[..head.scalars],
            &mut memory[..head.memory],
            &rights[..head.rights],
        );
        print_turned(output, turned)?;
        // what is not lent does not change; only of memory is it worth leaving out
        print_bytes(output, "v", registers, &registers_before)?;
        print_scalars(output, scalars, &scalars_before)?;
        print_bytes(output, "m", memory, &blank.memory[..head.memory])?;
        writeln!(output)
    }
}

fn turned(
    hart: Hart,
    head: Head,
    registers: &mut [u8],
    scalars: &mut [u64],
    memory: &mut [u8],
    rights: &[u8],
) -> Turned {
    let Head {
        word,
        allowance,
        control,
        ..
    } = head;
    turn::turn(
        hart, word, allowance, registers, scalars, memory, rights, control,
    )
}

// ---- what is written of a turn and of a check

fn print_turned(output: &mut impl Write, turned: Turned) -> io::Result<()> {
    let answer = u64::from(turned.answer);
    let passed = turned.passed;
    let address = turned.place.address;
    let Wanted { page, right } = turned.place.wanted;
    write!(output, "{answer} {passed} {address:x} {page} {right} ")?;
    case_lines::print_control(output, turned.control)
}

// The changed bytes, and the index of the first of those that follow one another. They are as before then.
fn print_bytes(
    output: &mut impl Write,
    label: &str,
    bytes: &mut [u8],
    before: &[u8],
) -> io::Result<()> {
    let mut is_first = true;
    for (k, (byte, old)) in bytes.iter_mut().zip(before).enumerate() {
        let changed = *byte != *old;
        if changed {
            if is_first {
                write!(output, " {label}{k:x}=")?;
            }
            write!(output, "{byte:02x}")?;
            *byte = *old;
        }
        is_first = !changed;
    }
    Ok(())
}

fn print_scalars(output: &mut impl Write, scalars: &[u64], before: &[u64]) -> io::Result<()> {
    for (k, (scalar, old)) in scalars.iter().zip(before).enumerate() {
        if *scalar != *old {
            write!(output, " x{k}={scalar:x}")?;
        }
    }
    Ok(())
}

fn print_checked(output: &mut impl Write, checked: Checked) -> io::Result<()> {
    let answer = u64::from(checked.answer);
    let Checked { element, pages, .. } = checked;
    let Wanted { page, right } = checked.wanted;
    writeln!(output, "{answer} {element} {pages} {page} {right}")
}

// ---- the whole

// The loop is short, and stands in each program that runs cases: a function for all of them would take its two calls as closures.
fn main(rt: HostRuntime) -> io::Result<()> {
    let alloc = rt.alloc();
    let mut input = BufReader::new(alloc, rt.reader())?;
    let mut output = LineWriter::new(alloc, io::writer(&rt))?;
    let blank = Case::new();
    let mut case = Case::new();
    for line in iter::from_fn(|| next_line(&mut input)).take(case_lines::MOST_LINES) {
        // a write that fails is passed over
        let _ = case.follow(line, &blank, &mut output);
    }
    Ok(())
}
