//! The reader of assembly: a text becomes a program, or its first fault is told.
ghost use Rattle.std.specs.Prelude.{◌≡◌, ◌<◌, ◌^◌, ◌⊎◌, List, [], length, IfOk, IfErr};
ghost use Rattle.asm_text.specs.AssemblyText.{IsAssembly};
ghost use Rattle.asm_text.specs.FirstFault.{BeginsWith, StandsFirst, FirstFault};
ghost use Rattle.asm_text.specs.IsProgram.{IsProgram};
ghost use Rattle.asm_text.specs.Lines.{MLine};
ghost use Rattle.asm_text.specs.Made.{made_of};
ghost use Rattle.asm_text.specs.Program.{MProgram};

use crate::asm_fault::AsmFault;
use crate::assembly::Assembly;
use crate::isa::Isa;
use crate::laws::{one_fault, one_program};
use crate::program::Program;
use asm_lines::add_tokens;
use lcc_text::next_line;
use std::alloc::Global;

/// What the lines of the text make.
fn read_lines<'a>(alloc: Global, text: &'a [u8]) -> Result<Assembly<'a>, AsmFault>
    requires { length text.now < 2 ^ 32 }
    ensures made { IfOk result (λ a. (lines : List MLine) × BeginsWith text.now lines [] × (a ≡ made_of lines)) }
    ensures fault { IfErr result (λ f. (f ≡ AsmFault.Memory) ⊎ StandsFirst text.now f) }
{
    let mut assembly = Assembly::new(alloc);
    let mut tokens = Vec::new(alloc);
    let mut rest = text;
    let mut before = 0u32;
    while let Some((line, behind)) = next_line(rest) {
        tokens.clear();
        add_tokens(&mut tokens, line)?;
        let number = before + 1;
        assembly.add_line(alloc, &tokens, number)?;
        rest = behind;
        before = number;
    }
    Ok(assembly)
}

/// The program of a text of MIPS assembly.
fn mips_program(alloc: Global, text: &[u8]) -> Result<Program, AsmFault>
    requires { length text.now < 2 ^ 32 }
    ensures found { IfOk result (λ p. IsAssembly text.now p) }
    ensures program { IfOk result (λ p. IsProgram p) }
    ensures fault { IfErr result (λ f. (f ≡ AsmFault.Memory) ⊎ FirstFault text.now f) }
{
    let assembly = read_lines(alloc, text)?;
    assembly.into_program(alloc)
}

/// The program of a text of assembly, or the text's first fault.
///
/// Each fault has its line, from 1, and comes where the lines before make a part of a program. On one line the faults come
/// in this order: `DoubleLabel` where a label's name is one of a label before, `BadLine` where something stands behind the
/// labels that is no statement, has no place in its section or has no blank before its operands, `UnknownInstruction` where
/// its word is neither an instruction's nor a directive's, `BadOperand` where the operands have another form than the
/// word asks for, and `TooLarge` where it is the instruction behind 4,194,304 or the data pass 33,554,432 bytes.
/// `UnknownLabel` comes only where the text has no other fault, at the first use of a name that is neither a label nor a
/// built-in function. `Memory` comes where an allocation is refused.
/// Source: G. Kane and J. Heinrich, MIPS RISC Architecture, 1992.
pub fn read(alloc: Global, isa: Isa, text: &[u8]) -> Result<Program, AsmFault>
    requires { length text.now < 2 ^ 32 }
    // What is read is the program of the text.
    ensures found { IfOk result (λ p. IsAssembly text.now p) }
    // It is fit for a machine.
    ensures program { IfOk result (λ p. IsProgram p) }
    // The program of a text is read, unless memory runs out.
    ensures one { (p : MProgram) → IsAssembly text.now p → IfOk result (λ r. r ≡ p) }
    ensures only { (p : MProgram) → IsAssembly text.now p → IfErr result (λ f. f ≡ AsmFault.Memory) }
    // A fault is the first of the text.
    ensures fault { IfErr result (λ f. (f ≡ AsmFault.Memory) ⊎ FirstFault text.now f) }
{
    one_program();
    one_fault();
    match isa {
        Isa::Mips => mips_program(alloc, text),
    }
}
