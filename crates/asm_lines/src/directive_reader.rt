//! Readers of directives.
ghost use Rattle.std.specs.Prelude.{◌≡◌, ◌⊎◌, [], IfOk, IfErr};
ghost use Rattle.asm_lines.specs.Tokens.{views};
ghost use Rattle.asm_lines.specs.Words.{directive_text};
ghost use Rattle.asm_lines.specs.Statements.{MStatement, IsRow, told};

use crate::fault::StatementFault;
use crate::item_reader::{bytes, halves, words};
use crate::mnemonic::DirectiveWord;
use crate::number_reader::count;
use crate::operand_reader::only_name;
use crate::statement::Statement;
use crate::token::Token;
use std::alloc::Global;

/// The most that `.align` takes.
const MOST_ALIGNED: u32 = 4;

/// That there are no operands.
fn nothing(operands: &[Token]) -> Result<(), StatementFault>
    ensures found { IfOk result (λ _. views operands.now ≡ []) }
    ensures fault { IfErr result (λ e. (e ≡ StatementFault.BadOperand) × (views operands.now ≡ [] → ⊥)) }
{
    if operands.is_empty() {
        Ok(())
    } else {
        Err(StatementFault::BadOperand)
    }
}

fn global<'a>(operands: &[Token<'a>]) -> Result<Statement<&'a [u8]>, StatementFault>
    ensures found { IfOk result (λ s. IsRow (directive_text DirectiveWord.Global) (views operands.now) (told s)) }
    ensures fault { IfErr result (λ e. (e ≡ StatementFault.BadOperand) × ((s : MStatement) → IsRow (directive_text DirectiveWord.Global) (views operands.now) s → ⊥)) }
{
    match only_name(operands) {
        Some(name) => Ok(Statement::Global(name)),
        None => Err(StatementFault::BadOperand),
    }
}

fn align<'a>(operands: &[Token<'a>]) -> Result<Statement<&'a [u8]>, StatementFault>
    ensures found { IfOk result (λ s. IsRow (directive_text DirectiveWord.Align) (views operands.now) (told s)) }
    ensures fault { IfErr result (λ e. (e ≡ StatementFault.BadOperand) × ((s : MStatement) → IsRow (directive_text DirectiveWord.Align) (views operands.now) s → ⊥)) }
{
    match count(operands) {
        Some(n) => {
            if n <= MOST_ALIGNED {
                Ok(Statement::Align(n as u8))
            } else {
                Err(StatementFault::BadOperand)
            }
        }
        None => Err(StatementFault::BadOperand),
    }
}

fn space<'a>(operands: &[Token<'a>]) -> Result<Statement<&'a [u8]>, StatementFault>
    ensures found { IfOk result (λ s. IsRow (directive_text DirectiveWord.Space) (views operands.now) (told s)) }
    ensures fault { IfErr result (λ e. (e ≡ StatementFault.BadOperand) × ((s : MStatement) → IsRow (directive_text DirectiveWord.Space) (views operands.now) s → ⊥)) }
{
    match count(operands) {
        Some(n) => Ok(Statement::Space(n)),
        None => Err(StatementFault::BadOperand),
    }
}

/// The directive of a word with the operands that are all there is.
pub(crate) fn directive<'a>(
    alloc: Global,
    word: DirectiveWord,
    operands: &[Token<'a>],
) -> Result<Statement<&'a [u8]>, StatementFault>
    ensures found { IfOk result (λ s. IsRow (directive_text word) (views operands.now) (told s)) }
    ensures only { (s : MStatement) → IsRow (directive_text word) (views operands.now) s → IfErr result (λ e. e ≡ StatementFault.Memory) }
    ensures fault { IfErr result (λ e. (e ≡ StatementFault.Memory) ⊎ (e ≡ StatementFault.BadOperand)) }
{
    match word {
        DirectiveWord::Text => {
            nothing(operands)?;
            Ok(Statement::Text)
        }
        DirectiveWord::Data => {
            nothing(operands)?;
            Ok(Statement::Data)
        }
        DirectiveWord::Global => global(operands),
        DirectiveWord::Align => align(operands),
        DirectiveWord::Word => Ok(Statement::Words(words(alloc, operands)?)),
        DirectiveWord::Half => Ok(Statement::Halves(halves(alloc, operands)?)),
        DirectiveWord::Byte => Ok(Statement::Bytes(bytes(alloc, operands)?)),
        DirectiveWord::Space => space(operands),
    }
}
