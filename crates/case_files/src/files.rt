//! The files that a program's words name, one after the other.
use crate::fault::Refused;
use std::alloc::Global;
use std::process::ExitCode;
use std::rt::{Env, Files};
use std::{env, fs, io};

/// What the cases of a file gave: how many there are, and for each that differs, in order, what is told
/// of it.
#[derive(Drop)]
pub struct Outcome {
    pub cases: u64,
    pub differing: Vec<String>,
}

/// A form of case files.
pub trait CaseForm {
    /// Reads the cases of a file with this text and runs them.
    fn run(&self, alloc: Global, text: &str) -> Result<Outcome, Refused>;
}

/// How many cases there were, how many of them differed, and how many files weren't read.
#[derive(Clone, Copy, Debug, PartialEq, Eq)]
struct Tally {
    cases: u64,
    differ: u64,
    unread: u64,
}

impl Tally {
    fn is_good(self) -> bool {
        self.differ == 0 && self.unread == 0
    }
}

/// Prints what the cases of a file gave, and adds to the tally.
fn print_outcome<R: Print>(
    rt: &R,
    file: &str,
    outcome: &Outcome,
    tally: &mut Tally,
) -> io::Result<()> {
    let cases = outcome.cases;
    println!(rt; "{file}: {cases} cases")?;
    for told in &outcome.differing {
        println!(rt; "{file}:{told}")?;
        tally.differ = tally.differ.saturating_add(1);
    }
    tally.cases = tally.cases.saturating_add(cases);
    Ok(())
}

/// Reads a file and runs its cases, and adds to the tally.
fn run_file<R: Print + Files + AllocGlobal, F: CaseForm>(
    rt: &R,
    form: &F,
    file: &str,
    tally: &mut Tally,
) -> io::Result<()> {
    let text = match fs::read_to_string(rt, file) {
        Ok(text) => text,
        Err(error) => {
            tally.unread = tally.unread.saturating_add(1);
            return println!(rt; "{file}: {error}");
        }
    };
    match form.run(rt.alloc(), text.as_str()) {
        Ok(outcome) => print_outcome(rt, file, &outcome, tally),
        Err(Refused { line, fault }) => {
            tally.unread = tally.unread.saturating_add(1);
            println!(rt; "{file}:{line}: {fault}")
        }
    }
}

/// Runs the cases of the files that the program's words name. It prints a line for each file with the
/// number of its cases, a line for each case that differs, and a last line with both numbers. It is a
/// success where no case differs and each file is read.
pub fn run_files<R: Print + Files + Env + AllocGlobal, F: CaseForm>(
    rt: &R,
    form: &F,
) -> io::Result<ExitCode> {
    let mut tally = Tally {
        cases: 0,
        differ: 0,
        unread: 0,
    };
    for file in env::args(rt)?.skip(1) {
        run_file(rt, form, file.as_str(), &mut tally)?;
    }
    let Tally { cases, differ, .. } = tally;
    println!(rt; "{cases} cases, {differ} differ")?;
    if tally.is_good() {
        Ok(ExitCode::SUCCESS)
    } else {
        Ok(ExitCode::FAILURE)
    }
}
