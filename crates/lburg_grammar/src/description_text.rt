//! The reading of a whole description: its text is checked, then its names are resolved.
ghost use Rattle.std.specs.Prelude.{◌≡◌, ◌≤◌, ◌⊎◌, length, IfOk, IfErr};
ghost use Rattle.lburg_faults.specs.declared.desc_fault.DescFault.{DescFault as DescFaults};
ghost use Rattle.lburg_faults.specs.FirstFault.{FirstFault};
ghost use Rattle.lburg_model.specs.Description.{MDescription};
ghost use Rattle.lburg_model.specs.SameParts.{SameParts};
ghost use Rattle.lburg_grammar.specs.DescriptionText.{IsText};

use crate::resolve::resolved;
use lburg_faults::{DescFault, read_checked};
use lburg_lines::{one_line, one_text, one_tree};
use lburg_model::Description;
use lcc_base::Memory;
use std::alloc::Global;

/// The description that the text before its tail spells, or its first fault: the first in the text, within a
/// line the first from the left, at one place the first of `DescFault`'s order.
pub fn read(alloc: Global, text: &[u8]) -> Result<Description, DescFault>
    requires { length text.now ≤ 16777216 }
    // It is what the text spells.
    ensures found { IfOk result (λ d. IsText d text.now) }
    // A text is one description's, wherever its patterns stand in memory.
    ensures one { (d : MDescription) → IsText d text.now → IfOk result (λ r. SameParts r d) }
    // A description's text is read, unless memory ran out.
    ensures only { (d : MDescription) → IsText d text.now → IfErr result (λ e. e ≡ DescFault.Memory) }
    // No fault stands in what is read.
    ensures fine { IfOk result (λ _. (f : DescFaults) → FirstFault text.now f → ⊥) }
    // A fault is the first.
    ensures fault { IfErr result (λ f. (f ≡ DescFault.Memory) ⊎ FirstFault text.now f) }
{
    one_text();
    one_line();
    one_tree();
    let checked = read_checked(alloc, text)?;
    match resolved(alloc, &checked) {
        Ok(description) => Ok(description),
        Err(Memory) => Err(DescFault::Memory),
    }
}
