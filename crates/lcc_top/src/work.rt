//! Running a command: its input is read within the limit, and its work is done on it.
ghost use Rattle.std.specs.Prelude.{◌≤◌, length, map, string_bytes};
ghost use Rattle.command_words.specs.Commands.{reads};
ghost use Rattle.outcomes.specs.Call.{Call, IsCausedBy};
ghost use Rattle.outcomes.specs.Work.{IsWorked};
ghost use Rattle.lcc_top.specs.Commands.{behaviour_of};
ghost use Rattle.lcc_top.specs.Causes.{IsCaused};

use ceval_tool::evaluate_input;
use command_words::{Command, command_of};
use lburg_tool::{cover_input, tables_input};
use lcc_base::{Memory, ReadEnd, Sink, Source, read_all};
use outcomes::Outcome;
use rcc_tool::compile_input;
use simrun_tool::run_input;
use std::alloc::Global;

/// The most bytes that an input has.
const INPUT_LIMIT: usize = 16_777_216;

/// Does a command's work on the input.
fn work<K: Sink>(alloc: Global, command: Command, input: &[u8], output: &mut K) -> Outcome
    requires within { length input.now ≤ 16777216 }
    ensures worked { IsWorked (behaviour_of command) input.now (K.taken output.old) (K.taken output.new) (K.faults output.old) (K.faults output.new) result }
    ensures later { K.faults output.old ≤ K.faults output.new }
{
    match command {
        Command::Cover => cover_input(alloc, input, output),
        Command::Tables => tables_input(alloc, input, output),
        Command::Simrun(options) => run_input(alloc, options, input, output),
        Command::Rcc => compile_input(alloc, input, output),
        Command::Ceval(options) => evaluate_input(alloc, options, input, output),
    }
}

/// Reads what the command works on, if it reads, and does its work.
fn perform<S: Source, K: Sink>(
    alloc: Global,
    command: Command,
    input: &mut S,
    output: &mut K,
) -> Outcome
    ensures caused { let call : Call = record {
      left = S.left input.old;
      left_after = S.left input.new;
      read_faults = S.faults input.old;
      read_faults_after = S.faults input.new;
      taken = K.taken output.old;
      taken_after = K.taken output.new;
      write_faults = K.faults output.old;
      write_faults_after = K.faults output.new;
    } in IsCausedBy (reads command) (behaviour_of command) call result }
    ensures later { K.faults output.old ≤ K.faults output.new }
{
    if !command.reads() {
        return work(alloc, command, &[], output);
    }
    match read_all(alloc, input, INPUT_LIMIT) {
        Ok(bytes) => work(alloc, command, bytes.as_slice(), output),
        Err(ReadEnd::Failed) => Outcome::ReadFault,
        Err(ReadEnd::TooLong) => Outcome::InputTooLong,
        Err(ReadEnd::Memory) => Outcome::Memory,
    }
}

/// Does what the words ask, without the report.
pub(crate) fn run<S: Source, K: Sink>(
    alloc: Global,
    words: &[String],
    input: &mut S,
    output: &mut K,
) -> Outcome
    ensures caused { let call : Call = record {
      left = S.left input.old;
      left_after = S.left input.new;
      read_faults = S.faults input.old;
      read_faults_after = S.faults input.new;
      taken = K.taken output.old;
      taken_after = K.taken output.new;
      write_faults = K.faults output.old;
      write_faults_after = K.faults output.new;
    } in IsCaused (map string_bytes words.now) call result }
    ensures later { K.faults output.old ≤ K.faults output.new }
{
    match command_of(alloc, words) {
        Ok(Some(command)) => perform(alloc, command, input, output),
        Ok(None) => Outcome::Usage,
        Err(Memory) => Outcome::Memory,
    }
}
