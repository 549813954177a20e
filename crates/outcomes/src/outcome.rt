//! The outcomes of a command, done or refused or failed, and the exit status of each.
ghost use Rattle.std.specs.Prelude.{◌≡◌};
ghost use Rattle.outcomes.specs.Outcome.{end_status, refusal_status};

use crate::fault_name::FaultName;
use crate::status::Status;
use asm_text::StuckCause;
use lcc_base::{Cause, Which};

/// How a command's work on its input ended, with what its line on the report tells.
#[derive(Clone, Copy, Debug, PartialEq, Eq)]
pub enum End {
    /// All is done, and there is nothing to report.
    Finished,
    /// So many trees have no derivation.
    NoCover(u64),
    /// The run has ended with this status.
    Exited(i32),
    /// The run is stuck, at this address and in this step.
    Stuck(StuckCause, u32, u32),
    /// The run is out of stack, at this address and in this step.
    StackOut(u32, u32),
    /// The run was still going after so many steps.
    OutOfSteps(u32),
    /// The program's run is undefined, for this cause at this line.
    Undefined(Cause, u32),
    /// The program's run was still going after so many turns.
    OutOfTurns(u32),
}

/// Why a command refuses its input.
#[derive(Debug, PartialEq, Eq, Drop)]
pub enum Refusal {
    /// The input isn't of the command's form.
    BadText,
    /// No code label is `main`.
    NoMain,
    /// A line of the input has a fault.
    Fault { line: u32, name: FaultName },
    /// A construct of the program, which begins on this line, breaks the constraint of this number.
    Constraint { line: u32, number: u8 },
    /// A line of the input passes a limit.
    Limit { line: u32, which: Which },
}

/// How a call ended.
#[derive(Debug, PartialEq, Eq, Drop)]
pub enum Outcome {
    /// The command has done its work on the input.
    Done(End),
    /// The command refuses its input.
    Refused(Refusal),
    /// The words are no command.
    Usage,
    /// A read of the input failed.
    ReadFault,
    /// A write of the output failed.
    WriteFault,
    /// An allocation was refused.
    Memory,
    /// The input is too long.
    InputTooLong,
}

/// The status of work that ended so.
fn status_of_end(end: End) -> Status
    ensures { result ≡ end_status end }
{
    match end {
        End::Finished => Status::Ok,
        End::NoCover(_) => Status::NoCover,
        End::Exited(_) => Status::Ok,
        End::Stuck(_, _, _) => Status::Stuck,
        End::StackOut(_, _) => Status::StackOut,
        End::OutOfSteps(_) => Status::OutOfSteps,
        End::Undefined(_, _) => Status::Undefined,
        End::OutOfTurns(_) => Status::OutOfTurns,
    }
}

/// The status of a refusal.
fn status_of_refusal(refusal: &Refusal) -> Status
    ensures { result ≡ refusal_status refusal.now }
{
    match refusal {
        Refusal::BadText => Status::BadText,
        Refusal::NoMain => Status::BadText,
        Refusal::Fault { line: _, name: _ } => Status::BadText,
        Refusal::Constraint { line: _, number: _ } => Status::BadProgram,
        Refusal::Limit { line: _, which: _ } => Status::Limit,
    }
}

impl Outcome {
    ghost use Rattle.outcomes.specs.Outcome.{status_of};

    /// The status that it gives.
    pub fn status(&self) -> Status
        ensures { result ≡ status_of self.now }
    {
        match self {
            Outcome::Done(end) => status_of_end(*end),
            Outcome::Refused(refusal) => status_of_refusal(refusal),
            Outcome::Usage => Status::Usage,
            Outcome::ReadFault => Status::ReadFault,
            Outcome::WriteFault => Status::WriteFault,
            Outcome::Memory => Status::Memory,
            Outcome::InputTooLong => Status::InputTooLong,
        }
    }
}
