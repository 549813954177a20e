//! Runs of C programs. Each stage's value is given up once the next stands.
ghost use Rattle.std.specs.Prelude.{◌≡◌, ◌≤◌, length, IfOk, IsErrOf};
ghost use Rattle.c_eval.specs.Ends.{Final};
ghost use Rattle.c_eval.specs.Outcomes.{IsOutcome};
ghost use Rattle.outcomes.specs.declared.outcome.Refusal.{Refusal as Refusals};
ghost use Rattle.outcomes.specs.Work.{HasWritten, IsWorked};
ghost use Rattle.ceval_tool.specs.Evaluation.{IsCoreOf, RefusesSource, ceval_behaviour, end_of};
ghost use Rattle.ceval_tool.specs.ProgramRan.{ProgramRan};
ghost use Rattle.ceval_tool.specs.declared.source_fault.SourceFault.TheVariants.{Refused};

use crate::laws::ceval_laws;
use crate::source_fault::SourceFault;
use c_check_unit::check_unit;
use c_eval::{Outcome as Run, evaluate};
use c_meaning::Core;
use c_stmt::unit;
use c_tree_names::denoted_units_are_grammatical;
use command_words::CevalOptions;
use input_parts::parted;
use lcc_base::{Memory, Sink};
use outcomes::{End, Outcome, write_text};
use std::alloc::Global;

/// The checked program of a source.
fn core_of(alloc: Global, source: &[u8]) -> Result<Core, SourceFault>
    requires { length source.now ≤ 16777216 }
    ensures found { IfOk result (λ core. IsCoreOf source.now core) }
    ensures refused { (why : Refusals) → IsErrOf result (Refused why) → RefusesSource source.now why }
{
    denoted_units_are_grammatical();
    let unit = unit(alloc, source)?;
    Ok(check_unit(alloc, &unit)?)
}

/// Writes what a run with so many turns wrote.
fn write_run<K: Sink>(run: Run, turns: u32, output: &mut K) -> Outcome
    ensures written { (e : Final) → IsOutcome run e → HasWritten (end_of turns e.how) e.output (K.taken output.old) (K.taken output.new) (K.faults output.old) (K.faults output.new) result }
    ensures later { K.faults output.old ≤ K.faults output.new }
{
    match run {
        Run::Done {
            output: text,
            status,
        } => write_text(text.as_slice(), End::Exited(status), output),
        Run::Undefined {
            output: text,
            cause,
            line,
        } => write_text(text.as_slice(), End::Undefined(cause, line), output),
        Run::OutOfTurns { output: text } => {
            write_text(text.as_slice(), End::OutOfTurns(turns), output)
        }
    }
}

/// Runs a program with the bytes that it reads.
fn run_program<K: Sink>(
    alloc: Global,
    options: CevalOptions,
    core: Core,
    bytes: &[u8],
    output: &mut K,
) -> Outcome
    ensures ran { ProgramRan options core bytes.now (K.taken output.old) (K.taken output.new) (K.faults output.old) (K.faults output.new) result }
    ensures later { K.faults output.old ≤ K.faults output.new }
{
    let run = evaluate(alloc, &core, options.order, bytes, options.turns as u64);
    drop(core);
    match run {
        Ok(run) => write_run(run, options.turns, output),
        Err(Memory) => Outcome::Memory,
    }
}

/// Runs the program that the input is the source of, with what stands behind a line `%%` as what it reads. What it wrote
/// is written once the run has ended.
pub fn evaluate_input<K: Sink>(
    alloc: Global,
    options: CevalOptions,
    input: &[u8],
    output: &mut K,
) -> Outcome
    requires within { length input.now ≤ 16777216 }
    ensures worked { IsWorked (ceval_behaviour options) input.now (K.taken output.old) (K.taken output.new) (K.faults output.old) (K.faults output.new) result }
    ensures later { K.faults output.old ≤ K.faults output.new }
{
    ceval_laws();
    let (source, bytes) = parted(input);
    match core_of(alloc, source) {
        Ok(core) => run_program(alloc, options, core, bytes, output),
        Err(SourceFault::Refused(why)) => Outcome::Refused(why),
        Err(SourceFault::Memory) => Outcome::Memory,
    }
}
