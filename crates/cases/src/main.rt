//! Runs the cases of the files that its words name, and tells which of them differ.
//!
//! It prints a line for each file with the number of its cases, a line for each case that differs,
//! and a last line with both numbers. It ends with status 0 where no case differs and each file is
//! read, and else with 1. `docs/CASES.md` has the form of the files.
#![tactic(auto)]

mod case;
mod reading;
mod running;
#[cfg(test)]
mod statuses;
#[cfg(test)]
mod tests;

use case::Case;
use case_files::{CaseForm, Outcome, Refused, run_files};
use reading::read_cases;
use running::run_case;
use std::alloc::{AllocError, Global};
use std::io;
use std::process::ExitCode;

/// Cases of commands: words and an input, and what has to come of them.
struct Commands;

/// Runs the cases of a file.
fn run_cases(alloc: Global, cases: &[Case]) -> Result<Outcome, AllocError> {
    let mut differing = Vec::new(alloc);
    for case in cases {
        let told = run_case(alloc, case)?;
        if !told.is_empty() {
            let name = &case.name;
            differing.push(format!(in alloc; " {name}:{told}")?)?;
        }
    }
    Ok(Outcome {
        cases: cases.len() as u64,
        differing,
    })
}

impl CaseForm for Commands {
    fn run(&self, alloc: Global, text: &str) -> Result<Outcome, Refused> {
        let cases = read_cases(alloc, text)?;
        Ok(run_cases(alloc, &cases)?)
    }
}

fn main(rt: HostRuntime) -> io::Result<ExitCode> {
    run_files(&rt, &Commands)
}
