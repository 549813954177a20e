//! The line with which a call reports how it ended.
ghost use Rattle.std.specs.Prelude.{◌≡◌, ◌<◌, ◌++◌, codes, decimal, OnOk, OnErr};
ghost use Rattle.std.specs.Fmt.{signed_decimal};
ghost use Rattle.std.specs.Io.KnownBytes.{Appends};
ghost use Rattle.lcc_base.specs.Faults.{HasCause};
ghost use Rattle.lcc_base.specs.Taken.{TookPrefix};
ghost use Rattle.asm_text.specs.StuckCause.{cause_name};
ghost use Rattle.outcomes.specs.Outcome.{hex_digit, hex_word, at_line, end_line, refusal_line, line_of, place_line, undefined_line};

use asm_text::StuckCause;
use itoa::Buffer;
use lcc_base::{Cause, Failed, Sink, write_all};
use outcomes::{End, Outcome, Refusal};

/// Writes three pieces, one behind another.
#[tactic(auto, using(crate::proofs::Pieces::first_of, crate::proofs::Pieces::next_of))]
fn write_three<E: Sink>(report: &mut E, a: &[u8], b: &[u8], c: &[u8]) -> Result<(), Failed>
    ensures all { OnOk result (Appends (E.taken report.old) (E.taken report.new) (a.now ++ b.now ++ c.now)) }
    ensures prefix { OnErr result (TookPrefix (E.taken report.old) (E.taken report.new) (a.now ++ b.now ++ c.now)) }
    ensures cause { HasCause (E.faults report.old) (E.faults report.new) result }
{
    match write_all(report, a) {
        Err(fault) => Err(fault),
        Ok(()) => match write_all(report, b) {
            Err(fault) => Err(fault),
            Ok(()) => write_all(report, c),
        },
    }
}

/// A number behind some text, and a line feed.
fn write_number<E: Sink>(report: &mut E, text: &[u8], number: u64) -> Result<(), Failed>
    ensures all { OnOk result (Appends (E.taken report.old) (E.taken report.new) (text.now ++ decimal number ++ codes "\n")) }
    ensures prefix { OnErr result (TookPrefix (E.taken report.old) (E.taken report.new) (text.now ++ decimal number ++ codes "\n")) }
    ensures cause { HasCause (E.faults report.old) (E.faults report.new) result }
{
    let mut buffer = Buffer::new();
    write_three(report, text, buffer.format(number).as_bytes(), b"\n")
}

/// `exit N` and a line feed.
fn write_exit<E: Sink>(report: &mut E, status: i32) -> Result<(), Failed>
    ensures all { OnOk result (Appends (E.taken report.old) (E.taken report.new) (codes "exit " ++ signed_decimal status ++ codes "\n")) }
    ensures prefix { OnErr result (TookPrefix (E.taken report.old) (E.taken report.new) (codes "exit " ++ signed_decimal status ++ codes "\n")) }
    ensures cause { HasCause (E.faults report.old) (E.faults report.new) result }
{
    let mut buffer = Buffer::new();
    write_three(report, b"exit ", buffer.format(status).as_bytes(), b"\n")
}

fn hex_byte(digit: u32) -> u8
    requires { digit < 16 }
    ensures { result ≡ hex_digit digit }
{
    if digit < 10 {
        b'0' + digit as u8
    } else {
        b'a' + (digit - 10) as u8
    }
}

/// The eight hexadecimal digits of a word, the most significant first.
fn hex_bytes(word: u32) -> [u8; 8]
    ensures { result ≡ hex_word word }
{
    [
        hex_byte(word >> 28),
        hex_byte((word >> 24) % 16),
        hex_byte((word >> 20) % 16),
        hex_byte((word >> 16) % 16),
        hex_byte((word >> 12) % 16),
        hex_byte((word >> 8) % 16),
        hex_byte((word >> 4) % 16),
        hex_byte(word % 16),
    ]
}

/// What stopped a run, with the address and the step, and a line feed.
#[tactic(auto, using(crate::proofs::Pieces::first_of))]
fn write_place<E: Sink>(report: &mut E, what: &[u8], pc: u32, step: u32) -> Result<(), Failed>
    ensures all { OnOk result (Appends (E.taken report.old) (E.taken report.new) (place_line what.now pc step)) }
    ensures prefix { OnErr result (TookPrefix (E.taken report.old) (E.taken report.new) (place_line what.now pc step)) }
    ensures cause { HasCause (E.faults report.old) (E.faults report.new) result }
{
    match write_three(report, what, b" at 0x", &hex_bytes(pc)) {
        Err(fault) => Err(fault),
        Ok(()) => write_number(report, b", step ", step as u64),
    }
}

fn write_stuck<E: Sink>(report: &mut E, cause: StuckCause, pc: u32, step: u32) -> Result<(), Failed>
    ensures all { OnOk result (Appends (E.taken report.old) (E.taken report.new) (place_line (codes "stuck: " ++ cause_name cause) pc step)) }
    ensures prefix { OnErr result (TookPrefix (E.taken report.old) (E.taken report.new) (place_line (codes "stuck: " ++ cause_name cause) pc step)) }
    ensures cause { HasCause (E.faults report.old) (E.faults report.new) result }
{
    match write_all(report, b"stuck: ") {
        Err(fault) => Err(fault),
        Ok(()) => write_place(report, cause.name().as_bytes(), pc, step),
    }
}

/// `undefined: `, the cause and its line, and a line feed.
fn write_undefined<E: Sink>(report: &mut E, cause: Cause, line: u32) -> Result<(), Failed>
    ensures all { OnOk result (Appends (E.taken report.old) (E.taken report.new) (undefined_line cause line)) }
    ensures prefix { OnErr result (TookPrefix (E.taken report.old) (E.taken report.new) (undefined_line cause line)) }
    ensures cause { HasCause (E.faults report.old) (E.faults report.new) result }
{
    match write_three(
        report,
        b"undefined: ",
        cause.name().as_bytes(),
        b" at line ",
    ) {
        Err(fault) => Err(fault),
        Ok(()) => write_number(report, b"", line as u64),
    }
}

/// Writes the line of work that ended so, or nothing where it has none.
fn write_end<E: Sink>(report: &mut E, end: End) -> Result<(), Failed>
    ensures all { OnOk result (Appends (E.taken report.old) (E.taken report.new) (end_line end)) }
    ensures prefix { OnErr result (TookPrefix (E.taken report.old) (E.taken report.new) (end_line end)) }
    ensures cause { HasCause (E.faults report.old) (E.faults report.new) result }
{
    match end {
        End::Finished => write_all(report, b""),
        End::NoCover(number) => write_number(report, b"no cover: ", number),
        End::Exited(status) => write_exit(report, status),
        End::Stuck(cause, pc, step) => write_stuck(report, cause, pc, step),
        End::StackOut(pc, step) => write_place(report, b"stack out", pc, step),
        End::OutOfSteps(steps) => write_number(report, b"out of steps: ", steps as u64),
        End::Undefined(cause, line) => write_undefined(report, cause, line),
        End::OutOfTurns(turns) => write_number(report, b"out of turns: ", turns as u64),
    }
}

/// `line L: `, what the name is of, the name, and a line feed.
fn write_at_line<E: Sink>(report: &mut E, line: u32, kind: &[u8], name: &str) -> Result<(), Failed>
    ensures all { OnOk result (Appends (E.taken report.old) (E.taken report.new) (at_line line (kind.now ++ name.now))) }
    ensures prefix { OnErr result (TookPrefix (E.taken report.old) (E.taken report.new) (at_line line (kind.now ++ name.now))) }
    ensures cause { HasCause (E.faults report.old) (E.faults report.new) result }
{
    let mut buffer = Buffer::new();
    match write_three(report, b"line ", buffer.format(line).as_bytes(), b": ") {
        Err(fault) => Err(fault),
        Ok(()) => write_three(report, kind, name.as_bytes(), b"\n"),
    }
}

/// `line L: constraint `, the constraint's number, and a line feed.
fn write_constraint<E: Sink>(report: &mut E, line: u32, number: u8) -> Result<(), Failed>
    ensures all { OnOk result (Appends (E.taken report.old) (E.taken report.new) (at_line line (codes "constraint " ++ decimal number))) }
    ensures prefix { OnErr result (TookPrefix (E.taken report.old) (E.taken report.new) (at_line line (codes "constraint " ++ decimal number))) }
    ensures cause { HasCause (E.faults report.old) (E.faults report.new) result }
{
    let mut buffer = Buffer::new();
    write_at_line(report, line, b"constraint ", buffer.format(number))
}

/// Writes the line of a refusal.
fn write_refusal<E: Sink>(report: &mut E, refusal: &Refusal) -> Result<(), Failed>
    ensures all { OnOk result (Appends (E.taken report.old) (E.taken report.new) (refusal_line refusal.now)) }
    ensures prefix { OnErr result (TookPrefix (E.taken report.old) (E.taken report.new) (refusal_line refusal.now)) }
    ensures cause { HasCause (E.faults report.old) (E.faults report.new) result }
{
    match refusal {
        Refusal::BadText => write_all(report, b"bad text\n"),
        Refusal::NoMain => write_all(report, b"no main\n"),
        Refusal::Fault { line, name } => write_at_line(report, *line, b"", name.text()),
        Refusal::Constraint { line, number } => write_constraint(report, *line, *number),
        Refusal::Limit { line, which } => write_at_line(report, *line, b"limit ", which.name()),
    }
}

/// Writes the line of an outcome, or nothing where it has none.
pub(crate) fn write_line<E: Sink>(report: &mut E, outcome: &Outcome) -> Result<(), Failed>
    ensures all { OnOk result (Appends (E.taken report.old) (E.taken report.new) (line_of outcome.now)) }
    ensures prefix { OnErr result (TookPrefix (E.taken report.old) (E.taken report.new) (line_of outcome.now)) }
    ensures cause { HasCause (E.faults report.old) (E.faults report.new) result }
{
    match outcome {
        Outcome::Done(end) => write_end(report, *end),
        Outcome::Refused(refusal) => write_refusal(report, refusal),
        Outcome::Usage => write_all(report, b"lcc: wrong words\n"),
        Outcome::InputTooLong => write_all(report, b"input too long\n"),
        Outcome::ReadFault => write_all(report, b""),
        Outcome::WriteFault => write_all(report, b""),
        Outcome::Memory => write_all(report, b""),
    }
}
