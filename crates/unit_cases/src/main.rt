//! Runs the C programs of the case files that its words name as lowered units, and tells which of them do otherwise than
//! they have to.
//!
//! Each is checked, lowered in the orders of bytes of its case, and its forests are run. It prints a line for each file
//! with the number of its cases, a line for each case that differs, and a last line with both numbers. It ends with status
//! 0 where no case differs and each file is read, and else with 1. `docs/CASES.md` has the form of the files.
#![tactic(auto)]

mod case;
mod reading;
mod running;

use case::Case;
use case_files::{CaseForm, Outcome, Refused, run_files};
use lcc_base::Order;
use reading::read_cases;
use running::told_of;
use std::alloc::{AllocError, Global};
use std::process::ExitCode;
use std::{io, str};

/// The longest answer that is told in full.
const SHORT: usize = 400;

/// The longest program.
const LONGEST: usize = 16_777_216;

/// Cases of lowered units: programs, and what comes of them.
struct Programs;

/// Adds what a case tells otherwise than it has to in this order of bytes, if it does.
fn compare(alloc: Global, into: &mut String, case: &Case, order: Order) -> Result<(), AllocError> {
    if !case.orders.has(order) || case.program.len() > LONGEST {
        return Ok(());
    }
    let told = told_of(alloc, order, &case.program)?;
    if told.as_slice() == case.told.as_slice() {
        return Ok(());
    }
    if told.len() <= SHORT {
        if let Ok(short) = str::from_utf8(&told) {
            return write!(into, " {order:?} told {short:?}");
        }
    }
    let length = told.len();
    write!(into, " {order:?} told {length} bytes")
}

/// What a case tells otherwise than it has to: an empty text where nothing.
fn difference(alloc: Global, case: &Case) -> Result<String, AllocError> {
    let mut text = String::new(alloc);
    compare(alloc, &mut text, case, Order::Big)?;
    compare(alloc, &mut text, case, Order::Little)?;
    if case.program.len() > LONGEST {
        write!(&mut text, " is too long")?;
    }
    Ok(text)
}

/// Runs the cases of a file.
fn run_cases(alloc: Global, cases: &[Case]) -> Result<Outcome, AllocError> {
    let mut differing = Vec::new(alloc);
    for case in cases {
        let difference = difference(alloc, case)?;
        if !difference.is_empty() {
            let name = &case.name;
            differing.push(format!(in alloc; " {name}:{difference}")?)?;
        }
    }
    Ok(Outcome {
        cases: cases.len() as u64,
        differing,
    })
}

impl CaseForm for Programs {
    fn run(&self, alloc: Global, text: &str) -> Result<Outcome, Refused> {
        let cases = read_cases(alloc, text)?;
        Ok(run_cases(alloc, &cases)?)
    }
}

fn main(rt: HostRuntime) -> io::Result<ExitCode> {
    run_files(&rt, &Programs)
}
