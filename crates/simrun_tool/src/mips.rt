//! The MIPS machine, as runs turn it.
ghost use Rattle.mips_machine.specs.StepTable.{step};
ghost use Rattle.mips_machine.specs.State.{Cpu};

use asm_text::{Input, Step};
use machine_runs::{Turn, Turning};
use mips_machine::{Machine, Turn as Turned};

/// A loaded machine.
#[derive(Drop)]
pub(crate) struct Mips {
    pub(crate) machine: Machine,
}

impl Turning for Mips {
    ghost State = { Cpu };

    ghost state = { λ m. m.machine.cpu };

    ghost step = { λ m. step m.machine.code m.machine.order };

    #[inline(always)]
    fn turn(&mut self, input: &mut Input) -> Turn {
        match self.machine.turn(input) {
            Turned::Prints(byte) => Turn::Prints(byte),
            Turned::Quiet(Step::Went) => Turn::Went,
            Turned::Quiet(Step::Ended(status)) => Turn::Ended(status),
            Turned::Quiet(Step::Stuck(cause, pc)) => Turn::Stuck(cause, pc),
            Turned::Quiet(Step::StackOut(pc)) => Turn::StackOut(pc),
            Turned::Quiet(Step::Failed) => unreachable!(),
        }
    }
}
