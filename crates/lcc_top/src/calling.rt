//! The entry to the commands: from the words of a call to its output, report and exit status.
ghost use Rattle.std.specs.Prelude.{◌≡◌, ◌<◌, ◌≤◌, ◌⊎◌, ℕ, List, Some, true, map, string_bytes, length};
ghost use Rattle.std.specs.Io.KnownBytes.{Keeps};
ghost use Rattle.lcc_base.specs.Faults.{Rose};
ghost use Rattle.command_words.specs.declared.words.Command.{Command};
ghost use Rattle.command_words.specs.declared.ceval_options.CevalOptions.{CevalOptions};
ghost use Rattle.command_words.specs.declared.run_options.RunOptions.{RunOptions};
ghost use Rattle.command_words.specs.Commands.{AreWordsOf, AreAccepted, reads};
ghost use Rattle.outcomes.specs.declared.outcome.Refusal.{Refusal};
ghost use Rattle.outcomes.specs.declared.outcome.Outcome.{Outcome};
ghost use Rattle.outcomes.specs.Status.{IsEndStatus, IsRunStatus, IsFree};
ghost use Rattle.outcomes.specs.Answers.{HasDone, IsTold};
ghost use Rattle.outcomes.specs.Call.{Call, IsInput, IsReported, NoFault};
ghost use Rattle.simrun_tool.specs.Runnable.{IsRunnable};
ghost use Rattle.lcc_top.specs.Commands.{behaviour_of, Refuses, Accepts};
ghost use Rattle.lcc_top.specs.Causes.{IsCaused};
ghost use Rattle.lcc_top.specs.RunAnswer.{RunAnswer};
ghost use Rattle.lcc_top.specs.Headline.{CoverHeadline, RunHeadline, CompilerHeadline, EvaluationHeadline};

use crate::report::write_line;
use crate::work::run;
use lcc_base::{Failed, Sink, Source};
use outcomes::Status;
use std::alloc::Global;

/// All the work of the program: does what the words behind the program's name ask, with the
/// input, the output and the report that it is given.
///
/// It knows five commands so far. `lburg cover` reads a description with trees in its tail, at most
/// 16,777,216 bytes, and writes a line for each tree: its least-cost derivation from the start
/// symbol, or that it has none. `lburg tables` reads a description, whatever its tail is, and writes the
/// text of its tables. `simrun` reads MIPS assembly, with what its program reads behind a line `%%`, and
/// runs it; what it prints is written. `--target mipseb` or `mipsel` gives the order of bytes, big-endian or
/// little-endian; `--steps N` the most steps, 1 to 4,294,967,295 (10,000,000); and `--stack N` the bytes of
/// the stack, 4,096 to 16,777,216 (1,048,576). `rcc --target mipseb` reads a program of the first form of C
/// and writes its MIPS assembly. `ceval` reads a C source, with what its program reads behind a line `%%`, and
/// runs it as the meaning of C says; what it writes is written once the run has ended. `--order big` or `little`
/// gives the order of bytes, and `--turns N` the most turns, 1 to 4,294,967,295 (10,000,000); a repetition of a
/// loop, a goto and a call each spend one. Options stand in any order behind a command's first words, as
/// `--name value` or `--name=value`. Nothing is written before all memory is taken. The report takes one line that
/// tells how the call ended, or nothing.
pub fn top<S: Source, K: Sink, E: Sink>(
    alloc: Global,
    words: &[String],
    input: &mut S,
    output: &mut K,
    report: &mut E,
) -> Status
    // Each answer has its cause, and the report its line.
    ensures caused { let call : Call = record {
      left = S.left input.old;
      left_after = S.left input.new;
      read_faults = S.faults input.old;
      read_faults_after = S.faults input.new;
      taken = K.taken output.old;
      taken_after = K.taken output.new;
      write_faults = K.faults output.old;
      write_faults_after = K.faults output.new;
    } in (outcome : Outcome) × IsCaused (map string_bytes words.now) call outcome
        × IsReported (E.taken report.old) (E.taken report.new) (E.faults report.old) (E.faults report.new) outcome result }

    // Where the status tells that the command's work is done, it is: the output took the text that the
    // command writes for what the input had left, where that is told. A command that reads nothing works on no bytes.
    ensures done { (c : Command) (bytes : List ℕ) → AreWordsOf c (map string_bytes words.now) → IsInput (reads c) (S.left input.old) bytes
        → IsEndStatus result
        → HasDone (behaviour_of c) bytes (K.taken output.old) (K.taken output.new) (E.taken report.old) (E.taken report.new) result }

    // The headline of `lburg cover`, where the input tells what it had left.
    ensures cover_headline { (bytes : List ℕ) → AreWordsOf Command.Cover (map string_bytes words.now) → S.left input.old ≡ Some bytes
        → (result ≡ Status.Ok) ⊎ (result ≡ Status.NoCover)
        → CoverHeadline bytes (K.taken output.old) (K.taken output.new) (E.taken report.old) (E.taken report.new) result }

    // The headline of `simrun`, where the input tells what it had left.
    ensures simrun_headline { (o : RunOptions) (bytes : List ℕ) → AreWordsOf (Command.Simrun o) (map string_bytes words.now) → S.left input.old ≡ Some bytes
        → IsRunStatus result
        → RunHeadline o bytes (K.taken output.old) (K.taken output.new) (E.taken report.old) (E.taken report.new) result }

    // What `simrun` answers to a program's text with a label `main`: output, status and report are those of its run's end,
    // or a write failed, or memory was wanted. A run that has begun doesn't want memory: where it is wanted neither the output nor
    // the report took anything.
    ensures simrun_answers { (o : RunOptions) (bytes : List ℕ) → AreWordsOf (Command.Simrun o) (map string_bytes words.now) → S.left input.old ≡ Some bytes
        → length bytes ≤ 16777216 → IsRunnable bytes → NoFault (S.faults input.old) (S.faults input.new)
        → RunAnswer o bytes (K.taken output.old) (K.taken output.new) (E.taken report.old) (E.taken report.new) result }
    // Once the run has written, it ends with a status of its own, unless a write fails.
    ensures simrun_begun { (o : RunOptions) → AreWordsOf (Command.Simrun o) (map string_bytes words.now) → (Keeps (K.taken output.old) (K.taken output.new) → ⊥)
        → IsRunStatus result ⊎ (result ≡ Status.WriteFault) }

    // The headline of `rcc`, where the input tells what it had left.
    ensures compiler_headline { (bytes : List ℕ) → AreWordsOf Command.Rcc (map string_bytes words.now) → S.left input.old ≡ Some bytes
        → result ≡ Status.Ok → CompilerHeadline bytes (K.taken output.old) (K.taken output.new) }

    // The headline of `ceval`, where the input tells what it had left.
    ensures ceval_headline { (o : CevalOptions) (bytes : List ℕ) → AreWordsOf (Command.Ceval o) (map string_bytes words.now) → S.left input.old ≡ Some bytes
        → (result ≡ Status.Ok) ⊎ (result ≡ Status.Undefined) ⊎ (result ≡ Status.OutOfTurns)
        → EvaluationHeadline o bytes (K.taken output.old) (K.taken output.new) (E.taken report.old) (E.taken report.new) result }

    // Only a rising count of faults gives an answer of reading or writing, and a fault of the input
    // gives no other.
    ensures read_fault { result ≡ Status.ReadFault → Rose (S.faults input.old) (S.faults input.new) }
    ensures unbroken { S.faults input.old < S.faults input.new
        → (result ≡ Status.ReadFault) ⊎ (result ≡ Status.WriteFault) }
    // A fault of the output or of the report gives no other answer than that of writing.
    ensures output_unbroken { K.faults output.old < K.faults output.new → result ≡ Status.WriteFault }
    ensures report_unbroken { E.faults report.old < E.faults report.new → result ≡ Status.WriteFault }
    ensures write_fault { result ≡ Status.WriteFault
        → Rose (K.faults output.old) (K.faults output.new) ⊎ Rose (E.faults report.old) (E.faults report.new) }

    // Where memory was wanted, nothing was written. The run of a loaded program takes none: it is wanted
    // before the first step, or never.
    ensures memory { result ≡ Status.Memory
        → Keeps (K.taken output.old) (K.taken output.new) × (K.faults output.new ≡ K.faults output.old) }

    // The other refusals come wherever they have to, unless memory was wanted or a write failed.
    // Words of no command, or of one that reads nothing, leave the input as it was.
    ensures wrong_words { (AreAccepted (map string_bytes words.now) → ⊥) → (result ≡ Status.Usage) ⊎ IsFree result }
    ensures unread { ((c : Command) → AreWordsOf c (map string_bytes words.now) → reads c ≡ true → ⊥)
        → Keeps (S.left input.old) (S.left input.new) × (S.faults input.new ≡ S.faults input.old) }
    ensures too_long { (c : Command) (bytes : List ℕ) → AreWordsOf c (map string_bytes words.now) → reads c ≡ true → S.left input.old ≡ Some bytes
        → 16777216 < length bytes → NoFault (S.faults input.old) (S.faults input.new)
        → (result ≡ Status.InputTooLong) ⊎ IsFree result }

    // A refused input: nothing is written, and a refusal that stands is told by its status and its line.
    ensures refused { (c : Command) (bytes : List ℕ) (why : Refusal) → AreWordsOf c (map string_bytes words.now)
        → IsInput (reads c) (S.left input.old) bytes → length bytes ≤ 16777216 → Refuses c bytes why
        → NoFault (S.faults input.old) (S.faults input.new)
        → Keeps (K.taken output.old) (K.taken output.new)
        × (IsTold (behaviour_of c) bytes (E.taken report.old) (E.taken report.new) result ⊎ IsFree result) }

    // An accepted input: the command's work is done, unless memory was wanted or a stream failed.
    ensures complete { (c : Command) (bytes : List ℕ) → AreWordsOf c (map string_bytes words.now)
        → IsInput (reads c) (S.left input.old) bytes → length bytes ≤ 16777216 → Accepts c bytes
        → NoFault (S.faults input.old) (S.faults input.new) → NoFault (K.faults output.old) (K.faults output.new)
        → NoFault (E.faults report.old) (E.faults report.new)
        → HasDone (behaviour_of c) bytes (K.taken output.old) (K.taken output.new) (E.taken report.old) (E.taken report.new) result
        ⊎ (result ≡ Status.Memory) }
{
    let outcome = run(alloc, words, input, output);
    match write_line(report, &outcome) {
        Ok(()) => outcome.status(),
        Err(Failed) => Status::WriteFault,
    }
}
