// Runs a sheet on a machine of its own, and prints into a lent buffer.

#![tactic(auto)]

ghost use Rattle.std.specs.Prelude.{◌≡◌, ◌+◌, ◌≤◌, ◌^◌, length};
ghost use Rattle.answer.specs.Answer.{number_of};
ghost use Rattle.control.specs.Board.{base};
ghost use Rattle.text.specs.Text.{Wrote, Adds};
ghost use Rattle.sheet_read.specs.Sheet.{word_at, words_at, sheet_of};
ghost use Rattle.sheet_read.specs.Listed.{Listed};
ghost use Rattle.sheet.specs.Run.{memory_to, scalars_of, state_at_first, from, report_wanted, report_control, report, turned, word_of};
ghost use Rattle.sheet.specs.Run.{run_of, value_text, register_line, register_lines, scalar_lines, final_of, bad_sheet, good_sheet};
ghost use Rattle.sheet.specs.Run.{printed, buffered};
ghost use Rattle.sheet.specs.Bounds.{wanted_bound, control_bound, report_bound, word_bound, words_bound, scalars_length, value_length};
ghost use Rattle.sheet.specs.Bounds.{register_bound, registers_bound, final_bound, sheet_bound};
ghost use Rattle.sheet.specs.Left.{held, Leaves};

use access::Wanted;
use answer::Answer;
use control::{Control, Hart};
use machine::Turned;
use sheet_read::Words;
use text::Text;

// A word's turns, at most.
const MOST_TURNS: u64 = 129;

// The length of the longest text that a sheet prints, at most.
pub const SHEET_MAX: usize = 1660000;

// ---- the report of a turn

// How far the index of a text may be is a clause, and no ghost field of a type: it differs by what is still to be printed.

// The page and the right that were wanted, in the report of a turn with this answer: of a trap.
fn report_wanted(text: &mut Text, answer: Answer, wanted: Wanted)
    requires { text.old.at ≤ 2 ^ 25 }
    ensures { Adds text.old (report_wanted (number_of answer) wanted) text.new × (text.new.at ≤ text.old.at + wanted_bound) }
{
    match answer {
        Answer::LoadMisaligned
        | Answer::LoadAccess
        | Answer::StoreMisaligned
        | Answer::StoreAccess => {
            text.decimal_line(b"page=", wanted.page);
            text.decimal_line(b"right=", wanted.right as u64);
        }
        _ => {}
    }
}

// The control record in a report.
fn report_control(text: &mut Text, control: Control)
    requires { text.old.at ≤ 2 ^ 25 }
    ensures { Adds text.old (report_control control) text.new × (text.new.at ≤ text.old.at + control_bound) }
{
    text.decimal_line(b"vstart=", control.vstart);
    text.decimal_line(b"vl=", control.vl);
    text.hex_line(b"vtype=", 16, control.vtype);
    text.decimal_line(b"vs=", control.vs);
}

// The report of a turn.
fn report_turn(text: &mut Text, word: u32, turned: Turned)
    requires { text.old.at ≤ 2 ^ 24 }
    ensures { Adds text.old (report word turned.answer turned.place.wanted turned.control) text.new
        × (text.new.at ≤ text.old.at + report_bound) }
{
    text.hex_line(b"word=", 8, word as u64);
    text.decimal_line(b"answer=", u64::from(turned.answer));
    report_wanted(text, turned.answer, turned.place.wanted);
    report_control(text, turned.control);
}

// ---- what stands at the end

// The value of a register, of which the high and the low eight bytes are given.
fn print_value(text: &mut Text, high: u64, low: u64)
    requires { text.old.at ≤ 2 ^ 25 }
    ensures { Adds text.old (value_text high low) text.new × (text.new.at ≤ text.old.at + value_length) }
{
    text.put(b"=");
    text.put_hex(16, high);
    text.put_hex(16, low);
    text.put(b"\n");
}

// The line of register n.
fn print_register(text: &mut Text, n: u64, high: u64, low: u64)
    requires { text.old.at ≤ 2 ^ 24 }
    ensures { Adds text.old (register_line n high low) text.new × (text.new.at ≤ text.old.at + register_bound) }
{
    // `&`: with `&&` the end is reached in two ways, and the answer there (`search register-wrote`) was tried and did not close
    if (high == 0) & (low == 0) {
        return;
    }
    text.put(b"v");
    text.put_decimal(n);
    print_value(text, high, low);
}

// The lines of all registers. By number and not by chunks of the file: the number is printed, and `register_lines` goes by it.
fn print_registers(text: &mut Text, registers: &[u8; 512])
    requires { text.old.at ≤ 2 ^ 22 }
    ensures { Adds text.old (register_lines registers.now 32) text.new × (text.new.at ≤ text.old.at + registers_bound) }
{
    for n in 0..32usize {
        let high = layout::read_bytes(registers, 16 * n + 8, 8);
        let low = layout::read_bytes(registers, 16 * n, 8);
        print_register(text, n as u64, high, low);
    }
}

// x10, x11, x12.
fn print_scalars(text: &mut Text, scalars: &[u64; 32])
    requires { text.old.at ≤ 2 ^ 21 }
    ensures { Adds text.old (scalar_lines scalars.now) text.new × (text.new.at ≡ text.old.at + scalars_length) }
{
    text.hex_line(b"x10=", 16, scalars[10]);
    text.hex_line(b"x11=", 16, scalars[11]);
    text.hex_line(b"x12=", 16, scalars[12]);
}

// ---- the machine at first

// Byte a holds a mod 256.
fn count_up(memory: &mut [u8])
    ensures { memory.new ≡ memory_to (length memory.old) }
{
    for (a, byte) in memory.iter_mut().enumerate() {
        *byte = (a % 256) as u8;
    }
}

// The scalars that the sheet gives; the others are 0.
fn scalars(sheet: &[u8]) -> [u64; 32]
    ensures { result ≡ scalars_of (sheet_of sheet.now) }
{
    let mut scalars = [0; 32];
    scalars[10] = hexadecimal::number(sheet, sheet_read::X10_FROM, 16);
    scalars[11] = hexadecimal::number(sheet, sheet_read::X11_FROM, 16);
    scalars[12] = hexadecimal::number(sheet, sheet_read::X12_FROM, 16);
    scalars
}

// ---- the machine, and its run

// The machine that a sheet runs on.
#[derive(Drop)]
struct Machine {
    registers: [u8; 512],
    scalars: [u64; 32],
    memory: [u8; 4096],
    rights: [u8; 256],
    control: Control,
}

impl Machine {
    // The machine as a sheet sets it up.
    fn set_up(sheet: &[u8]) -> Machine
        ensures { held result ≡ state_at_first (sheet_of sheet.now) }
    {
        let mut memory = [0; 4096];
        count_up(&mut memory);
        let mut rights = [0; 256];
        sheet_read::open(sheet, &mut rights);
        Machine {
            registers: [0; 512],
            scalars: scalars(sheet),
            memory,
            rights,
            control: Control::RESET,
        }
    }

    // One turn and its report.
    fn take_turn(&mut self, text: &mut Text, word: u32, allow: u32) -> Answer
        requires { text.old.at ≤ 2 ^ 24 }
        ensures { let p = turned word allow (held self.old) in
            Leaves p text.old text.new self.new × ((result ≡ p.answer) × (text.new.at ≤ text.old.at + report_bound)) }
    {
        let turned = turn::turn(
            Hart::base(),
            word,
            allow,
            &mut self.registers,
            &mut self.scalars,
            &mut self.memory,
            &self.rights,
            self.control,
        );
        self.control = turned.control;
        report_turn(text, word, turned);
        turned.answer
    }

    // One word: turns until it no longer pauses, for which 129 are always enough.
    fn run_word(&mut self, text: &mut Text, word: u32, allow: u32) -> Answer
        requires { text.old.at ≤ 2 ^ 23 }
        ensures { let p = word_of word allow (held self.old) in
            Leaves p text.old text.new self.new × ((result ≡ p.answer) × (text.new.at ≤ text.old.at + word_bound)) }
    {
        for _turn in 0..MOST_TURNS {
            match self.take_turn(text, word, allow) {
                Answer::Paused => {}
                answer => return answer,
            }
        }
        Answer::Paused
    }

    // The word whose line begins at an index.
    fn run_line(&mut self, text: &mut Text, sheet: &[u8], line: u32, allow: u32) -> Answer
        requires { (text.old.at ≤ 2 ^ 23) × (line ≤ 2 ^ 16) }
        ensures { let p = word_of (word_at sheet.now line) allow (held self.old) in
            Leaves p text.old text.new self.new × ((result ≡ p.answer) × (text.new.at ≤ text.old.at + word_bound)) }
    {
        let word = hexadecimal::number(sheet, line + sheet_read::WORD_FROM, 8) as u32;
        self.run_word(text, word, allow)
    }

    // The words of a good sheet, until one does not finish.
    fn run_words(&mut self, text: &mut Text, sheet: &[u8], words: Words)
        requires { (text.old.at ≡ 0) × Listed sheet.now words }
        ensures { Leaves (run_of (words_at sheet.now words.first words.count) words.allow (from (held self.old))) text.old text.new self.new
            × (text.new.at ≤ words_bound) }
    {
        for k in 0..words.count {
            let line = words.first + sheet_read::WORD_LENGTH * k;
            match self.run_line(text, sheet, line, words.allow) {
                Answer::Finished => {}
                _ => return,
            }
        }
    }

    // What stands at the end.
    fn print_final(&self, text: &mut Text)
        requires { text.old.at ≤ 2 ^ 21 }
        ensures { Adds text.old (final_of self.now.registers self.now.scalars) text.new
            × (text.new.at ≤ text.old.at + final_bound) }
    {
        print_scalars(text, &self.scalars);
        print_registers(text, &self.registers);
    }
}

// ---- the sheet

// The words of a good sheet, and what stands at the end.
fn print_good(text: &mut Text, sheet: &[u8], words: Words)
    requires { (text.old.at ≡ 0) × Listed sheet.now words }
    ensures { Adds text.old (good_sheet (sheet_of sheet.now)) text.new × (text.new.at ≤ sheet_bound) }
{
    let mut machine = Machine::set_up(sheet);
    machine.run_words(text, sheet, words);
    machine.print_final(text);
}

// The two lines of a bad sheet.
fn print_bad(text: &mut Text, line: u64)
    requires { text.old.at ≡ 0 }
    ensures { Adds text.old (bad_sheet line) text.new × (text.new.at ≤ sheet_bound) }
{
    text.put(b"sheet=bad\n");
    text.decimal_line(b"line=", line);
}

// What the sheet prints.
fn print_sheet(text: &mut Text, sheet: &[u8])
    requires { text.old.at ≡ 0 }
    ensures { Adds text.old (printed sheet.now) text.new × (text.new.at ≤ sheet_bound) }
{
    match sheet_read::read(sheet) {
        Ok(words) => print_good(text, sheet, words),
        Err(bad) => print_bad(text, bad.0),
    }
}

// The same, as far as the buffer reaches, and its whole length.
fn print(out: &mut [u8], sheet: &[u8]) -> usize
    ensures { Wrote out.old 0 (printed sheet.now) out.new result × (result ≤ sheet_bound) }
{
    let mut text = Text { out, at: 0 };
    print_sheet(&mut text, sheet);
    text.at
}

// The length of what the sheet prints; it stands in the buffer where the buffer is as long, and otherwise nothing is written.
pub fn run(sheet: &[u8], out: &mut [u8]) -> usize
    ensures { (result ≡ length (printed sheet.now))
        × ((out.new ≡ buffered (printed sheet.now) out.old) × (result ≤ sheet_bound)) }
{
    let needed = print(&mut [], sheet);
    if needed <= out.len() {
        print(out, sheet);
    }
    needed
}
