//! The assembly of a program of the first form of C. Each stage's value is given up once the next
//! stands.
ghost use Rattle.std.specs.Prelude.{◌≡◌, ◌≤◌, ℕ, List, length, IfOk, IsErrOf};
ghost use Rattle.first_form.specs.FirstProgram.{MProgram};
ghost use Rattle.first_form.specs.FirstForm.{IsFirst};
ghost use Rattle.first_forest.specs.FirstForest.{unit_of};
ghost use Rattle.rcc_tool.specs.Compilation.{IsCompiled, IsCompilation, IsBadProgram, rcc_behaviour};
ghost use Rattle.outcomes.specs.Work.{IsWorked};

use crate::input_fault::InputFault;
use crate::laws::rcc_laws;
use asm_text::print;
use first_forest::lower;
use first_form::read;
use lcc_base::{Bytes, Memory, Sink};
use mips_programs::programs_agree;
use mips_target::generate;
use op_forest::Lowered;
use outcomes::{End, Outcome, Refusal, write_text};
use std::alloc::Global;

/// The unit of the input's program.
fn unit_of_input(alloc: Global, input: &[u8]) -> Result<Lowered, InputFault>
    ensures found { IfOk result (λ u. (p : MProgram) × IsFirst input.now p × (u ≡ unit_of p)) }
    ensures bad { IsErrOf result InputFault.BadText → IsBadProgram input.now }
{
    let program = read(alloc, input)?;
    Ok(lower(alloc, &program)?)
}

/// The text of the assembly of a program's unit.
fn assembly_text(alloc: Global, unit: Lowered) -> Result<Bytes, Memory>
    requires { (input : List ℕ) × (p : MProgram) × IsFirst input p × (length input ≤ 16777216) × (unit ≡ unit_of p) }
    ensures { (input : List ℕ) (p : MProgram) → IsFirst input p → length input ≤ 16777216 → unit ≡ unit_of p → IfOk result (λ text. IsCompiled p text) }
{
    let lines = generate(alloc, &unit)?;
    drop(unit);
    programs_agree();
    print(alloc, &lines)
}

/// The text of the assembly of the input's program.
fn compile(alloc: Global, input: &[u8]) -> Result<Bytes, InputFault>
    requires { length input.now ≤ 16777216 }
    ensures found { IfOk result (λ text. IsCompilation input.now text) }
    ensures bad { IsErrOf result InputFault.BadText → IsBadProgram input.now }
{
    let unit = unit_of_input(alloc, input)?;
    Ok(assembly_text(alloc, unit)?)
}

/// Compiles the program that the input is the text of.
pub fn compile_input<K: Sink>(alloc: Global, input: &[u8], output: &mut K) -> Outcome
    requires { length input.now ≤ 16777216 }
    ensures worked { IsWorked rcc_behaviour input.now (K.taken output.old) (K.taken output.new) (K.faults output.old) (K.faults output.new) result }
    ensures later { K.faults output.old ≤ K.faults output.new }
{
    rcc_laws();
    match compile(alloc, input) {
        Ok(text) => write_text(text.as_slice(), End::Finished, output),
        Err(InputFault::BadText) => Outcome::Refused(Refusal::BadText),
        Err(InputFault::Memory) => Outcome::Memory,
    }
}
