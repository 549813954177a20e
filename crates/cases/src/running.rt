//! Running a case, and telling what differs.
ghost use Rattle.std.specs.Prelude.{◌≡◌, ◌↔◌, IsTrue, IfSome};

use crate::case::{Case, Step};
use lcc_base::{MemSink, MemSource};
use lcc_top::top;
use std::alloc::{AllocError, Global};
use std::str;

/// The longest bytes that are told in full.
const SHORT: usize = 80;

/// What a call gave: the number of its status, and what output and report took.
#[derive(Drop)]
struct Ran {
    status: u8,
    output: Vec<u8>,
    report: Vec<u8>,
}

/// Calls `top` with these words on these bytes; no read and no write fails.
fn run(alloc: Global, words: &[String], input: Vec<u8>) -> Result<Ran, AllocError> {
    let mut input = MemSource::new(input, Vec::new(alloc));
    let mut output = MemSink::new(alloc, Vec::new(alloc));
    let mut report = MemSink::new(alloc, Vec::new(alloc));
    let status = top(alloc, words, &mut input, &mut output, &mut report);
    Ok(Ran {
        status: status.number(),
        output: output.taken().to_vec(alloc)?,
        report: report.taken().to_vec(alloc)?,
    })
}

/// Whether the output is the wanted one, where one is wanted.
fn is_wanted_output(wanted: &Option<Vec<u8>>, output: &Vec<u8>) -> bool
    ensures { IsTrue result ↔ IfSome wanted.now (λ bytes. output.now.items ≡ bytes.items) }
{
    match wanted {
        Some(bytes) => output.as_slice() == bytes.as_slice(),
        None => true,
    }
}

/// Whether a call gave all that its step wants.
fn is_wanted(step: &Step, ran: &Ran) -> bool
    ensures { IsTrue result ↔ (ran.now.status ≡ step.now.status)
        × IfSome step.now.output (λ bytes. ran.now.output.items ≡ bytes.items)
        × (ran.now.report.items ≡ step.now.report.items) }
{
    ran.status == step.status
        && is_wanted_output(&step.output, &ran.output)
        && ran.report.as_slice() == step.report.as_slice()
}

/// Adds ` NAME "TEXT"` where the bytes are a short text, and else ` NAME of N bytes`.
fn tell(into: &mut String, name: &str, bytes: &[u8]) -> Result<(), AllocError> {
    if bytes.len() <= SHORT {
        if let Ok(text) = str::from_utf8(bytes) {
            return write!(into, " {name} {text:?}");
        }
    }
    let length = bytes.len();
    write!(into, " {name} of {length} bytes")
}

/// Adds the number of a step, and what its call gave otherwise than it wants.
fn tell_step(into: &mut String, number: usize, step: &Step, ran: &Ran) -> Result<(), AllocError> {
    write!(into, " step {number}:")?;
    if ran.status != step.status {
        let status = ran.status;
        let wanted = step.status;
        write!(into, " status {status} for {wanted}")?;
    }
    if !is_wanted_output(&step.output, &ran.output) {
        tell(into, "output", &ran.output)?;
    }
    if ran.report.as_slice() != step.report.as_slice() {
        tell(into, "report", &ran.report)?;
    }
    Ok(())
}

/// Runs a case, and tells what differed: an empty text where nothing did.
pub fn run_case(alloc: Global, case: &Case) -> Result<String, AllocError> {
    let mut told = String::new(alloc);
    let mut input = case.input.clone()?;
    for (i, step) in case.steps.iter().enumerate() {
        let ran = run(alloc, &step.words, input)?;
        if !is_wanted(step, &ran) {
            tell_step(&mut told, i + 1, step, &ran)?;
        }
        input = ran.output;
    }
    Ok(told)
}
