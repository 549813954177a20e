//! What machines share as they run a program: what a step comes to, causes of faults, and input.
ghost use Rattle.std.specs.Prelude.{◌≡◌};

use lcc_base::Bytes;

/// What a step of a machine does.
#[derive(Clone, Copy, Debug, PartialEq, Eq)]
pub enum Step {
    /// It went.
    Went,
    /// The run has ended with this status.
    Ended(i32),
    /// It can't go, at this address.
    Stuck(StuckCause, u32),
    /// A stack pointer would leave the stack, at this address.
    StackOut(u32),
    /// The output failed.
    Failed,
}

/// Why a step can't go. Where several are true the first is told.
#[derive(Clone, Copy, Debug, PartialEq, Eq)]
pub enum StuckCause {
    /// The place is neither code, a built-in function nor the end.
    BadJump,
    /// An access isn't wholly in the data or the stack.
    Outside,
    /// An access isn't at a multiple of its size.
    Misaligned,
    /// A divisor is 0.
    ZeroDivisor,
    /// -2^31 is divided by -1.
    DivideOverflow,
    /// No register window is left.
    NoWindow,
}

impl StuckCause {
    ghost use Rattle.asm_text.specs.StuckCause.{cause_name};

    /// Its name in a report.
    pub fn name(self) -> &'static str
        ensures { result.now ≡ cause_name self }
    {
        match self {
            StuckCause::BadJump => "BadJump",
            StuckCause::Outside => "Outside",
            StuckCause::Misaligned => "Misaligned",
            StuckCause::ZeroDivisor => "ZeroDivisor",
            StuckCause::DivideOverflow => "DivideOverflow",
            StuckCause::NoWindow => "NoWindow",
        }
    }
}

/// The bytes that a program reads, and how many of them it has read.
#[derive(Debug, Drop)]
pub struct Input {
    pub bytes: Bytes,
    pub place: usize,
}
