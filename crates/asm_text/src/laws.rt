//! What texts of assembly keep.
ghost use Rattle.std.specs.Prelude.{◌≡◌, List, ℕ};
ghost use Rattle.asm_text.specs.declared.asm_fault.AsmFault.{AsmFault};
ghost use Rattle.asm_text.specs.AssemblyText.{IsText, IsAssembly};
ghost use Rattle.asm_text.specs.FirstFault.{FirstFault};
ghost use Rattle.asm_text.specs.Program.{MProgram};

use asm_lines::{one_spelling, one_statement};

/// A text is one program's at most.
pub fn one_program()
    ensures { (text : List ℕ) (p q : MProgram) → IsText text p → IsText text q → p ≡ q }
{
    one_spelling();
    one_statement();
}

/// A text has one first fault at most, and that of a program within the limits has none.
pub fn one_fault()
    ensures one { (text : List ℕ) (f g : AsmFault) → FirstFault text f → FirstFault text g → f ≡ g }
    ensures fine { (text : List ℕ) (p : MProgram) (f : AsmFault) → IsAssembly text p → FirstFault text f → ⊥ }
{
    one_spelling();
    one_statement();
}
