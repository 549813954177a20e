//! Runs of so many steps.
ghost use Rattle.std.specs.Prelude.{◌≡◌, ◌≤◌, ◌++◌, List, ℕ, [], IfOk, OnErr};
ghost use Rattle.std.specs.Io.KnownBytes.{Appends};
ghost use Rattle.lcc_base.specs.Faults.{HasCause};
ghost use Rattle.lcc_base.specs.Taken.{TookPrefix};
ghost use Rattle.machine_runs.specs.Turns.{run_with};
ghost use Rattle.machine_runs.specs.Endings.{RunEnds, HasRun};

use crate::gathered::Gathered;
use crate::turning::{Turn, Turning};
use asm_text::Input;
use lcc_base::{Failed, Sink};
use outcomes::{End, Outcome};

/// Runs a machine for so many steps, or until it stops. What it prints is gathered, and handed over where there is no room
/// for more, or else is still gathered at the end. An error is a failed write.
fn run_steps<M: Turning, K: Sink>(
    machine: &mut M,
    steps: u32,
    input: &mut Input,
    gathered: &mut Gathered,
    output: &mut K,
) -> Result<End, Failed>
    requires { gathered.old ≡ [] }
    ensures ran { IfOk result (λ end. (text piece : List ℕ) × RunEnds (run_with (M.step machine.old) (M.state machine.old) input.old) steps text end × Appends (K.taken output.old) (K.taken output.new) piece × (piece ++ gathered.new ≡ text)) }
    ensures part { OnErr result (TookPrefix (K.taken output.old) (K.taken output.new) (run_with (M.step machine.old) (M.state machine.old) input.old steps).printed) }
    ensures cause { HasCause (K.faults output.old) (K.faults output.new) result }
{
    for behind in 0..steps {
        match machine.turn(input) {
            Turn::Went => {}
            Turn::Prints(byte) => gathered.add(byte, output)?,
            Turn::Ended(status) => return Ok(End::Exited(status)),
            Turn::Stuck(cause, pc) => return Ok(End::Stuck(cause, pc, behind + 1)),
            Turn::StackOut(pc) => return Ok(End::StackOut(pc, behind + 1)),
        }
    }
    Ok(End::OutOfSteps(steps))
}

/// Runs a machine for so many steps, or until it stops, and the output takes all that it printed.
pub fn run_machine<M: Turning, K: Sink>(
    machine: &mut M,
    steps: u32,
    input: &mut Input,
    output: &mut K,
) -> Outcome
    ensures ran { HasRun (run_with (M.step machine.old) (M.state machine.old) input.old) steps (K.taken output.old) (K.taken output.new) (K.faults output.old) (K.faults output.new) result }
    ensures later { K.faults output.old ≤ K.faults output.new }
{
    let mut gathered = Gathered::new();
    let Ok(end) = run_steps(machine, steps, input, &mut gathered, output) else {
        return Outcome::WriteFault;
    };
    match gathered.hand_over(output) {
        Ok(()) => Outcome::Done(end),
        Err(Failed) => Outcome::WriteFault,
    }
}
