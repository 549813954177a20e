//! The interface of machines that are run step by step, and the outcomes of a step.
ghost use Rattle.std.specs.Prelude.{◌≡◌, ℕ, List};
ghost use Rattle.asm_text.specs.Runs.{MStep};
ghost use Rattle.machine_runs.specs.Turns.{IsTurned};

use asm_text::{Input, StuckCause};

/// What a step of a machine does. What it prints is left to the caller.
#[derive(Clone, Copy, Debug, PartialEq, Eq)]
pub enum Turn {
    /// It went, and prints nothing.
    Went,
    /// It went, and prints this byte.
    Prints(u8),
    /// The run has ended with this status.
    Ended(i32),
    /// It can't go, at this address.
    Stuck(StuckCause, u32),
    /// A stack pointer would leave the stack, at this address.
    StackOut(u32),
}

/// A machine with its program, which is turned step by step.
pub trait Turning {
    /// The states of the machine.
    ghost State: { Type 0 };

    /// The state that it is in.
    ghost state: { Self → State };

    /// What a step does in a state with this input left.
    ghost step: { Self → State → List ℕ → MStep State };

    /// Does one step. After a step that doesn't go on, the machine and the input may be any.
    fn turn(&mut self, input: &mut Input) -> Turn
        ensures turned { IsTurned (step self.old) (state self.old) input.old (state self.new) input.new result }
        ensures same { step self.new ≡ step self.old };
}
