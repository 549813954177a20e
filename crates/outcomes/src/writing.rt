//! The writing of a command's text to its output, and the outcome of that.
ghost use Rattle.std.specs.Prelude.{◌≤◌};
ghost use Rattle.outcomes.specs.Work.{HasWritten};

use crate::outcome::{End, Outcome};
use lcc_base::{Failed, Sink, write_all};

/// Writes the whole text that a command has made, whose work on its input ends so.
pub fn write_text<K: Sink>(text: &[u8], end: End, output: &mut K) -> Outcome
    ensures written { HasWritten end text.now (K.taken output.old) (K.taken output.new) (K.faults output.old) (K.faults output.new) result }
    ensures later { K.faults output.old ≤ K.faults output.new }
{
    match write_all(output, text) {
        Ok(()) => Outcome::Done(end),
        Err(Failed) => Outcome::WriteFault,
    }
}
