//! The statuses with which a call ends, and their numbers as exit statuses.
ghost use Rattle.std.specs.Prelude.{◌≡◌};

/// How a call of `top` ended.
#[derive(Clone, Copy, Debug, PartialEq, Eq)]
pub enum Status {
    /// The command did all its work.
    Ok,
    /// The words are no command.
    Usage,
    /// A read of the input failed.
    ReadFault,
    /// A write of the output or of the report failed.
    WriteFault,
    /// An allocation was refused.
    Memory,
    /// The input has more than 16,777,216 bytes.
    InputTooLong,
    /// The input isn't of the command's form.
    BadText,
    /// The program breaks a constraint of the language.
    BadProgram,
    /// The input passes a limit.
    Limit,
    /// A tree has no derivation from the start symbol.
    NoCover,
    /// The program's behaviour is undefined.
    Undefined,
    /// A run is stuck.
    Stuck,
    /// A run is out of stack.
    StackOut,
    /// A run was still going after all its steps.
    OutOfSteps,
    /// A program's run was still going after all its turns.
    OutOfTurns,
}

impl Status {
    ghost use Rattle.outcomes.specs.Status.{number_of};

    /// The program's exit status.
    pub fn number(self) -> u8
        ensures { result ≡ number_of self }
    {
        match self {
            Status::Ok => 0,
            Status::Usage => 1,
            Status::ReadFault => 2,
            Status::WriteFault => 3,
            Status::Memory => 4,
            Status::InputTooLong => 5,
            Status::BadText => 6,
            Status::BadProgram => 7,
            Status::Limit => 8,
            Status::NoCover => 9,
            Status::Undefined => 10,
            Status::Stuck => 11,
            Status::StackOut => 12,
            Status::OutOfSteps => 13,
            Status::OutOfTurns => 14,
        }
    }
}
