//! The tables of a description.
ghost use Rattle.std.specs.Prelude.{◌≡◌, ◌≤◌, length, IfOk, IsErrOf};
ghost use Rattle.lburg_tool.specs.Cover.{RefusesDescription};
ghost use Rattle.lburg_tool.specs.Tables.{IsTables, tables_behaviour};
ghost use Rattle.outcomes.specs.Work.{IsWorked};
ghost use Rattle.lburg_tool.specs.declared.text_fault.TextFault.TheVariants.{Refused};
ghost use Rattle.outcomes.specs.declared.outcome.Refusal.{Refusal as Refusals};

use crate::laws::tables_laws;
use crate::text_fault::TextFault;
use lburg_grammar::read;
use lburg_tables::{build, text};
use lcc_base::{Bytes, Sink};
use outcomes::{End, Outcome, write_text};
use std::alloc::Global;

/// The text of the tables of the input's description.
pub(crate) fn tables_of(alloc: Global, input: &[u8]) -> Result<Bytes, TextFault>
    requires { length input.now ≤ 16777216 }
    ensures found { IfOk result (λ text. IsTables input.now text) }
    ensures refused { (why : Refusals) → IsErrOf result (Refused why) → RefusesDescription input.now why }
{
    let description = read(alloc, input)?;
    let tables = build(alloc, &description)?;
    Ok(text(alloc, &tables)?)
}

/// Writes the text of the tables of the input's description.
pub fn tables_input<K: Sink>(alloc: Global, input: &[u8], output: &mut K) -> Outcome
    requires { length input.now ≤ 16777216 }
    ensures worked { IsWorked tables_behaviour input.now (K.taken output.old) (K.taken output.new) (K.faults output.old) (K.faults output.new) result }
    ensures later { K.faults output.old ≤ K.faults output.new }
{
    tables_laws();
    match tables_of(alloc, input) {
        Ok(text) => write_text(text.as_slice(), End::Finished, output),
        Err(TextFault::Refused(why)) => Outcome::Refused(why),
        Err(TextFault::Memory) => Outcome::Memory,
    }
}
