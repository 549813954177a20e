//! Runs of programs of assembly.
ghost use Rattle.std.specs.Prelude.{◌≡◌, ◌≤◌, length, IfOk, IsErrOf};
ghost use Rattle.asm_text.specs.AssemblyText.{IsAssembly};
ghost use Rattle.asm_text.specs.IsProgram.{IsProgram};
ghost use Rattle.outcomes.specs.declared.outcome.Outcome.{Outcome as Outcomes};
ghost use Rattle.outcomes.specs.Work.{IsWorked};
ghost use Rattle.simrun_tool.specs.Simulation.{RefusesAssembly, simrun_behaviour};
ghost use Rattle.simrun_tool.specs.AssemblyFaults.{of_assembly};
ghost use Rattle.simrun_tool.specs.ProgramRan.{ProgramRan};

use crate::laws::simrun_laws;
use crate::mips::Mips;
use asm_text::{AsmFault, Input, Isa, Program, read};
use command_words::RunOptions;
use input_parts::parted;
use lcc_base::{Bytes, Memory, Sink, Which};
use machine_runs::run_machine;
use mips_machine::{LoadFault, load};
use outcomes::{FaultName, Outcome, Refusal};
use std::alloc::Global;

/// Runs a program with the bytes that it reads.
fn run_program<K: Sink>(
    alloc: Global,
    options: RunOptions,
    program: Program,
    bytes: Bytes,
    output: &mut K,
) -> Outcome
    requires program { IsProgram program }
    ensures ran { ProgramRan options program bytes (K.taken output.old) (K.taken output.new) (K.faults output.old) (K.faults output.new) result }
    ensures later { K.faults output.old ≤ K.faults output.new }
{
    let mut input = Input { bytes, place: 0 };
    match load(alloc, program, options.order, options.stack) {
        Ok(machine) => {
            let mut mips = Mips { machine };
            run_machine(&mut mips, options.steps, &mut input, output)
        }
        Err(LoadFault::NoMain) => Outcome::Refused(Refusal::NoMain),
        Err(LoadFault::Memory) => Outcome::Memory,
    }
}

/// The answer to a fault in a line.
fn at(line: u32, name: FaultName) -> Outcome
    ensures { result ≡ Outcomes.Refused (Refusal.Fault line name) }
{
    Outcome::Refused(Refusal::Fault { line, name })
}

/// The answer to an assembly text with this fault.
fn refused(fault: AsmFault) -> Outcome
    ensures { result ≡ of_assembly fault }
{
    match fault {
        AsmFault::BadLine { line } => at(line, FaultName::BadLine),
        AsmFault::UnknownInstruction { line } => at(line, FaultName::UnknownInstruction),
        AsmFault::BadOperand { line } => at(line, FaultName::BadOperand),
        AsmFault::DoubleLabel { line } => at(line, FaultName::DoubleLabel),
        AsmFault::UnknownLabel { line } => at(line, FaultName::UnknownLabel),
        AsmFault::TooLarge { line, which } => Outcome::Refused(Refusal::Limit { line, which }),
        AsmFault::Memory => Outcome::Memory,
    }
}

/// Runs the program that the input is the text of, with what stands behind a line `%%` as what it reads.
pub fn run_input<K: Sink>(
    alloc: Global,
    options: RunOptions,
    input: &[u8],
    output: &mut K,
) -> Outcome
    requires within { length input.now ≤ 16777216 }
    ensures worked { IsWorked (simrun_behaviour options) input.now (K.taken output.old) (K.taken output.new) (K.faults output.old) (K.faults output.new) result }
    ensures later { K.faults output.old ≤ K.faults output.new }
{
    simrun_laws();
    let (assembly, rest) = parted(input);
    match read(alloc, Isa::Mips, assembly) {
        Ok(program) => match Bytes::copied(alloc, rest) {
            Ok(bytes) => run_program(alloc, options, program, bytes, output),
            Err(Memory) => Outcome::Memory,
        },
        Err(fault) => refused(fault),
    }
}
