//! The reader of statements: what the tokens behind a line's labels say in their section.
ghost use Rattle.std.specs.Prelude.{◌≡◌, ◌⊎◌, IsTrue, false, IfOk, IfErr, IfSome, IfNone};
ghost use Rattle.asm_lines.specs.Tokens.{views};
ghost use Rattle.asm_lines.specs.KnownWords.{text_of};
ghost use Rattle.asm_lines.specs.Statements.{MStatement, IsApart, IsRow, IsStatement, told};
ghost use Rattle.asm_lines.specs.Sections.{IsOfData, IsElsewhere, StandsIn};
ghost use Rattle.asm_lines.specs.Faults.{IsKnown, FaultStands};

use crate::directive_reader::directive;
use crate::fault::StatementFault;
use crate::instruction_reader::instruction;
use crate::mnemonic::{DirectiveWord, Mnemonic, directive_at, mnemonic_at};
use crate::section::Section;
use crate::statement::Statement;
use crate::token::{Kind, Token};
use std::alloc::Global;

/// What a word stands for.
#[derive(Clone, Copy, Debug)]
enum Word {
    Instruction(Mnemonic),
    Directive(DirectiveWord),
}

/// What the word stands for, if it is known.
fn known(word: &[u8]) -> Option<Word>
    ensures some { IfSome result (λ w. word.now ≡ text_of w) }
    ensures none { IfNone result (IsKnown word.now → ⊥) }
{
    match mnemonic_at(word) {
        Some(mnemonic) => Some(Word::Instruction(mnemonic)),
        None => match directive_at(word) {
            Some(directive) => Some(Word::Directive(directive)),
            None => None,
        },
    }
}

/// Whether blanks stand before the first operand, if there is one.
fn is_apart(operands: &[Token]) -> bool
    ensures yes { IsTrue result → IsApart (views operands.now) }
    ensures no { result ≡ false → IsApart (views operands.now) → ⊥ }
{
    match operands.split_first() {
        Some((first, _)) => first.is_spaced,
        None => true,
    }
}

/// Whether a directive writes data.
fn is_of_data(directive: DirectiveWord) -> bool
    ensures yes { IsTrue result → IsOfData directive }
    ensures no { result ≡ false → IsOfData directive → ⊥ }
{
    match directive {
        DirectiveWord::Text | DirectiveWord::Data | DirectiveWord::Global => false,
        DirectiveWord::Align
        | DirectiveWord::Word
        | DirectiveWord::Half
        | DirectiveWord::Byte
        | DirectiveWord::Space => true,
    }
}

/// Whether what a word stands for has no place in the section.
fn is_elsewhere(section: Section, word: Word) -> bool
    ensures yes { IsTrue result → IsElsewhere section (text_of word) }
    ensures no { result ≡ false → IsElsewhere section (text_of word) → ⊥ }
{
    match word {
        Word::Instruction(_) => section == Section::Data,
        Word::Directive(directive) => section == Section::Text && is_of_data(directive),
    }
}

/// The statement of a word with the operands that are all there is.
fn row<'a>(
    alloc: Global,
    word: Word,
    operands: &[Token<'a>],
) -> Result<Statement<&'a [u8]>, StatementFault>
    ensures found { IfOk result (λ s. IsRow (text_of word) (views operands.now) (told s)) }
    ensures only { (s : MStatement) → IsRow (text_of word) (views operands.now) s → IfErr result (λ e. e ≡ StatementFault.Memory) }
    ensures fault { IfErr result (λ e. (e ≡ StatementFault.Memory) ⊎ (e ≡ StatementFault.BadOperand)) }
{
    match word {
        Word::Directive(word) => directive(alloc, word, operands),
        Word::Instruction(mnemonic) => match instruction(mnemonic, operands) {
            Some(instruction) => Ok(Statement::Instruction(instruction)),
            None => Err(StatementFault::BadOperand),
        },
    }
}

/// The statement that all of the tokens write, those behind the labels of a line that stands in the section.
///
/// `BadLine`: no word stands first, or a known one without blanks before its operands, or one that has no place in the
/// section. `UnknownInstruction`: the word is neither an instruction's nor a directive's. `BadOperand`: the word has its
/// place in the section, and what stands behind it, after blanks, are not the operands that it asks for. `Memory` comes
/// where an allocation is refused.
pub fn read_statement<'a>(
    alloc: Global,
    section: Section,
    tokens: &[Token<'a>],
) -> Result<Statement<&'a [u8]>, StatementFault>
    // It is what the tokens write.
    ensures found { IfOk result (λ s. IsStatement (views tokens.now) (told s)) }
    // It has its place in the section.
    ensures here { IfOk result (λ s. StandsIn section (told s)) }
    // A statement that has its place in the section is read, unless memory ran out.
    ensures only { (s : MStatement) → IsStatement (views tokens.now) s → StandsIn section s → IfErr result (λ e. e ≡ StatementFault.Memory) }
    // A fault stands there.
    ensures fault { IfErr result (λ f. (f ≡ StatementFault.Memory) ⊎ FaultStands section (views tokens.now) f) }
{
    let Some((first, operands)) = tokens.split_first() else {
        return Ok(Statement::Nothing);
    };
    if first.kind != Kind::Word {
        return Err(StatementFault::BadLine);
    }
    let Some(word) = known(first.text) else {
        return Err(StatementFault::UnknownInstruction);
    };
    if !is_apart(operands) {
        return Err(StatementFault::BadLine);
    }
    let is_misplaced = is_elsewhere(section, word);
    if is_misplaced {
        return Err(StatementFault::BadLine);
    }
    row(alloc, word, operands)
}
