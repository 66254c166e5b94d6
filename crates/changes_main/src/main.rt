// Runs lists of turns with changes between them (document 02, A12) through the public calls, beside the uncut run. Two machines start from
// one state. The first takes the turns, the second one uncut turn before all of them. What is changed is changed in both: between turns of
// the first, after the uncut turn of the second. In the end they must be the same.
//
// Standard input has records of lines: 'c' a case (word and control record; on the smaller board 's'), with registers, scalars and memory 0
// and every page closed; 'v' bytes of the register file from an index on, 'm' bytes of memory, 'x' a scalar; 'p' the right of a range of
// pages for the turns, 'q' for the uncut one; 't' a turn of an allowance, 'u' the uncut turn; and then '.', upon which it writes the last
// answer, the number passed in all turns, a checksum of the state that they leave, and whether the uncut run is the same.

#![tactic(auto)]

use access::FaultPlace;
use answer::Answer;
use case_lines::next_bytes;
use control::{Control, Hart};
use machine::Turned;
use std::io::{self, BufReader, LineWriter, Read, Write};
use std::iter;

const REGISTERS: usize = 512;

const SCALARS: usize = 32;

const MEMORY: usize = 65536;

const PAGES: usize = 256;

// An allowance that no instruction uses up.
const UNCUT: u32 = 0xffff_ffff;

// ---- lines

// A line, by its letter: what follows it, with the newline.
#[derive(Clone, Copy)]
enum Line {
    Case(Hart, [u8; 105]),
    Registers([u8; 40]),
    Memory([u8; 40]),
    Scalar([u8; 19]),
    Rights([u8; 6]),
    UncutRights([u8; 6]),
    Turn([u8; 9]),
    UncutTurn,
    End,
}

// The next line; none at the end of the input, in a line or before one, and where a letter is none of these.
fn next_line(input: &mut impl Read) -> Option<Line> {
    let [letter]: [u8; 1] = next_bytes(input)?;
    let line = match letter {
        b'c' => Line::Case(Hart::BASE, next_bytes(input)?),
        b's' => Line::Case(Hart::SMALL, next_bytes(input)?),
        b'v' => Line::Registers(next_bytes(input)?),
        b'm' => Line::Memory(next_bytes(input)?),
        b'x' => Line::Scalar(next_bytes(input)?),
        b'p' => Line::Rights(next_bytes(input)?),
        b'q' => Line::UncutRights(next_bytes(input)?),
        b't' => Line::Turn(next_bytes(input)?),
        b'u' => Line::UncutTurn,
        b'.' => Line::End,
        _ => return None,
    };
    if matches!(line, Line::UncutTurn | Line::End) {
        // the last line may lack its newline
        let _ = next_bytes::<1, _>(input);
    }
    Some(line)
}

// The bytes of a line, from an index of five digits on.
fn set_bytes(bytes: &mut [u8], line: &[u8]) {
    let first = hexadecimal::number(line, 0, 5) as usize;
    case_lines::set_bytes(bytes, first, line, 5);
}

// ---- a machine

// What the turns of a machine have come to: the last answer, the number passed in all of them, where a fault lies, the control record.
#[derive(Clone, Copy, PartialEq)]
struct Told {
    answer: Answer,
    passed: u64,
    place: FaultPlace,
    control: Control,
}

impl Told {
    // Of no turn yet.
    fn new(control: Control) -> Told {
        Told {
            answer: Answer::Finished,
            passed: 0,
            place: FaultPlace::nowhere(),
            control,
        }
    }

    // With one turn more.
    fn with(self, turned: Turned) -> Told {
        Told {
            answer: turned.answer,
            passed: self.passed.wrapping_add(turned.passed),
            place: turned.place,
            control: turned.control,
        }
    }
}

// A machine, and what its turns have come to.
#[derive(Clone, Copy, PartialEq)]
struct Machine {
    registers: [u8; REGISTERS],
    scalars: [u64; SCALARS],
    memory: [u8; MEMORY],
    rights: [u8; PAGES],
    told: Told,
}

impl Machine {
    // Registers, scalars and memory 0, and every page closed.
    fn new(control: Control) -> Machine {
        Machine {
            registers: [0; REGISTERS],
            scalars: [0; SCALARS],
            memory: [0; MEMORY],
            rights: [0; PAGES],
            told: Told::new(control),
        }
    }

    fn set_rights(&mut self, line: &[u8]) {
        case_lines::set_rights(&mut self.rights, line, 2, 1);
    }

    // A turn on a board.
    fn turn(&mut self, hart: Hart, word: u32, allowance: u32) {
        let turned = turned(
            hart,
            word,
            allowance,
            &mut self.registers,
            &mut self.scalars,
            &mut self.memory,
            &self.rights,
            self.told.control,
        );
        self.told = self.told.with(turned);
    }

    // Of the registers, the scalars, the control record and memory.
    fn checksum(&self) -> u64 {
        let sum = sum_of(0, &self.registers);
        let sum = sum_of(sum, &self.scalars);
        let sum = sum_of(sum, &<[u64; 6]>::from(self.told.control));
        sum_of(sum, &self.memory)
    }
}

// A turn on a board; the smaller one has the first half of the file.
// Not in `turn`: the borrow checker does not cover a part of a field that is cut in the call (tried, with the struct taken apart).
fn turned(
    hart: Hart,
    word: u32,
    allowance: u32,
    registers: &mut [u8; REGISTERS],
    scalars: &mut [u64],
    memory: &mut [u8],
    rights: &[u8],
    control: Control,
) -> Turned {
    let bytes = 32 * hart.board.vlenb as usize;
    turn::turn(
        hart,
        word,
        allowance,
        &mut registers[..bytes],
        scalars,
        memory,
        rights,
        control,
    )
}

// A checksum with some numbers more.
fn sum_of<T: Copy + Into<u64>>(sum: u64, numbers: &[T]) -> u64 {
    numbers.iter().fold(sum, |sum, number| {
        (sum % 65521 * 31 + (*number).into() % 65521) % 65521
    })
}

// ---- a case

// A case as far as its lines have come: its board and word, the machine that takes the turns, and the one that takes the uncut turn.
#[derive(Drop)]
struct Case {
    hart: Hart,
    word: u32,
    cut: Machine,
    whole: Machine,
}

impl Case {
    fn new(hart: Hart, word: u32, control: Control) -> Case {
        Case {
            hart,
            word,
            cut: Machine::new(control),
            whole: Machine::new(control),
        }
    }

    // What a line asks for.
    fn follow(&mut self, line: Line, output: &mut impl Write) -> io::Result<()> {
        match line {
            Line::Case(hart, line) => {
                let word = hexadecimal::number(&line, 0, 8) as u32;
                *self = Case::new(hart, word, case_lines::control_at(&line, 8));
            }
            Line::Registers(line) => {
                set_bytes(&mut self.cut.registers, &line);
                set_bytes(&mut self.whole.registers, &line);
            }
            Line::Memory(line) => {
                set_bytes(&mut self.cut.memory, &line);
                set_bytes(&mut self.whole.memory, &line);
            }
            Line::Scalar(line) => {
                case_lines::set_scalar(&mut self.cut.scalars, &line);
                case_lines::set_scalar(&mut self.whole.scalars, &line);
            }
            Line::Rights(line) => self.cut.set_rights(&line),
            Line::UncutRights(line) => self.whole.set_rights(&line),
            Line::Turn(line) => {
                let allowance = hexadecimal::number(&line, 0, 8) as u32;
                self.cut.turn(self.hart, self.word, allowance);
            }
            Line::UncutTurn => self.whole.turn(self.hart, self.word, UNCUT),
            Line::End => return self.print(output),
        }
        Ok(())
    }

    // What is left of both, in one line.
    fn print(&self, output: &mut impl Write) -> io::Result<()> {
        let Told { answer, passed, .. } = self.cut.told;
        let answer = u64::from(answer);
        let sum = self.cut.checksum();
        let outcome = if self.cut == self.whole {
            "same"
        } else {
            "differs"
        };
        writeln!(output, "{answer} {passed} {sum} {outcome}")
    }
}

// ---- the whole

// The loop is short, and stands in each program that runs cases: a function for all of them would take its two calls as closures.
fn main(rt: HostRuntime) -> io::Result<()> {
    let alloc = rt.alloc();
    let mut input = BufReader::new(alloc, rt.reader())?;
    let mut output = LineWriter::new(alloc, io::writer(&rt))?;
    let mut case = Case::new(Hart::BASE, 0, Control::RESET);
    for line in iter::from_fn(|| next_line(&mut input)).take(case_lines::MOST_LINES) {
        // a write that fails is passed over
        let _ = case.follow(line, &mut output);
    }
    Ok(())
}
