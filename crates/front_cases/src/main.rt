//! Runs the cases of C's front end that stand in the files which its words name, and tells which of them
//! differ.
//!
//! It prints a line for each file with the number of its cases, a line for each case that differs,
//! and a last line with both numbers. It ends with status 0 where no case differs and each file is
//! read, and else with 1. `docs/CASES.md` has the form of the files.
#![tactic(auto)]

mod answers;
mod case;
mod checking;
mod pieces;
mod reading;
mod telling;
mod tokens;
mod units;

use answers::answer;
use case::Case;
use case_files::{CaseForm, Outcome, Refused, run_files};
use reading::read_cases;
use std::alloc::{AllocError, Global};
use std::process::ExitCode;
use std::{io, str};

/// The longest answer that is told in full.
const SHORT: usize = 400;

/// Cases of the front end: a source, and what has to be told of it.
struct Sources;

/// What a case gave otherwise than it has to: an empty text where nothing.
fn difference(alloc: Global, case: &Case) -> Result<String, AllocError> {
    let told = answer(alloc, case.question, &case.source)?;
    let mut text = String::new(alloc);
    if told.as_slice() == case.told.as_slice() {
        return Ok(text);
    }
    if told.len() <= SHORT {
        if let Ok(short) = str::from_utf8(&told) {
            write!(&mut text, "told {short:?}")?;
            return Ok(text);
        }
    }
    let length = told.len();
    write!(&mut text, "told {length} bytes")?;
    Ok(text)
}

/// Runs the cases of a file.
fn run_cases(alloc: Global, cases: &[Case]) -> Result<Outcome, AllocError> {
    let mut differing = Vec::new(alloc);
    for case in cases {
        let difference = difference(alloc, case)?;
        if !difference.is_empty() {
            let name = &case.name;
            differing.push(format!(in alloc; " {name}: {difference}")?)?;
        }
    }
    Ok(Outcome {
        cases: cases.len() as u64,
        differing,
    })
}

impl CaseForm for Sources {
    fn run(&self, alloc: Global, text: &str) -> Result<Outcome, Refused> {
        let cases = read_cases(alloc, text)?;
        Ok(run_cases(alloc, &cases)?)
    }
}

fn main(rt: HostRuntime) -> io::Result<ExitCode> {
    run_files(&rt, &Sources)
}
