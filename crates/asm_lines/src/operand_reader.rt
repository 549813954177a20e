//! Readers of registers, names, values and targets.
ghost use Rattle.std.specs.Prelude.{◌≡◌, [], ℕ, List, IfSome, IfNone};
ghost use Rattle.asm_lines.specs.declared.instruction.Value.{Value as Values};
ghost use Rattle.asm_lines.specs.declared.instruction.Target.{Target as Targets};
ghost use Rattle.asm_lines.specs.Tokens.{Dollar, Spaced, views};
ghost use Rattle.asm_lines.specs.Operands.{IsRegister, RegisterThen, NameThen, CommaThen, RegisterComma, ValueThen, IsTarget};
ghost use Rattle.asm_lines.specs.Statements.{target_with};

use crate::instruction::{Target, Value};
use crate::number_reader::number;
use crate::register::Register;
use crate::token::{Kind, Token};
use itoa::Buffer;
use lcc_text::decimal_value;

/// `$sp`.
const STACK_POINTER: u8 = 29;

/// The number of the register of this name.
fn register_number(name: &[u8]) -> Option<u8>
    ensures some { IfSome result (λ r. IsRegister (Dollar name.now) r) }
    ensures none { IfNone result ((r : ℕ) → IsRegister (Dollar name.now) r → ⊥) }
{
    if name == b"sp".as_slice() {
        return Some(STACK_POINTER);
    }
    let number = decimal_value(name, 31)?;
    let mut buffer = Buffer::new();
    if buffer.format(number).as_bytes() == name {
        Some(number as u8)
    } else {
        None
    }
}

/// The register at the front, and what stands behind it.
pub(crate) fn register<'t, 'a>(tokens: &'t [Token<'a>]) -> Option<(Register, &'t [Token<'a>])>
    ensures some { IfSome result (λ x. RegisterThen (views tokens.now) x.0 (views x.1.now)) }
    ensures none { IfNone result ((r : ℕ) (rest : List Spaced) → RegisterThen (views tokens.now) r rest → ⊥) }
{
    let (first, rest) = tokens.split_first()?;
    if first.kind != Kind::Dollar {
        return None;
    }
    let number = register_number(first.text)?;
    Some((Register::new(number)?, rest))
}

/// The name at the front, and what stands behind it.
pub(crate) fn name<'t, 'a>(tokens: &'t [Token<'a>]) -> Option<(&'a [u8], &'t [Token<'a>])>
    ensures some { IfSome result (λ x. NameThen (views tokens.now) x.0.now (views x.1.now)) }
    ensures none { IfNone result ((n : List ℕ) (rest : List Spaced) → NameThen (views tokens.now) n rest → ⊥) }
{
    let (first, rest) = tokens.split_first()?;
    if first.kind != Kind::Word {
        return None;
    }
    Some((first.text, rest))
}

/// What stands behind the comma at the front.
pub(crate) fn comma<'t, 'a>(tokens: &'t [Token<'a>]) -> Option<&'t [Token<'a>]>
    ensures some { IfSome result (λ rest. CommaThen (views tokens.now) (views rest.now)) }
    ensures none { IfNone result ((rest : List Spaced) → CommaThen (views tokens.now) rest → ⊥) }
{
    let (first, rest) = tokens.split_first()?;
    if first.kind == Kind::Comma {
        Some(rest)
    } else {
        None
    }
}

/// The register before the comma at the front, and what stands behind the comma.
pub(crate) fn register_comma<'t, 'a>(tokens: &'t [Token<'a>]) -> Option<(Register, &'t [Token<'a>])>
    ensures some { IfSome result (λ x. RegisterComma (views tokens.now) x.0 (views x.1.now)) }
    ensures none { IfNone result ((r : ℕ) (rest : List Spaced) → RegisterComma (views tokens.now) r rest → ⊥) }
{
    let Some((register, rest)) = register(tokens) else {
        return None;
    };
    Some((register, comma(rest)?))
}

/// The register that is all there is.
pub(crate) fn only_register(tokens: &[Token]) -> Option<Register>
    ensures some { IfSome result (λ r. RegisterThen (views tokens.now) r []) }
    ensures none { IfNone result ((r : ℕ) → RegisterThen (views tokens.now) r [] → ⊥) }
{
    let Some((register, rest)) = register(tokens) else {
        return None;
    };
    if rest.is_empty() {
        Some(register)
    } else {
        None
    }
}

/// The name that is all there is.
pub(crate) fn only_name<'a>(tokens: &[Token<'a>]) -> Option<&'a [u8]>
    ensures some { IfSome result (λ n. NameThen (views tokens.now) n.now []) }
    ensures none { IfNone result ((n : List ℕ) → NameThen (views tokens.now) n [] → ⊥) }
{
    let (name, rest) = name(tokens)?;
    if rest.is_empty() { Some(name) } else { None }
}

/// The register or number at the front, and what stands behind it.
pub(crate) fn value<'t, 'a>(tokens: &'t [Token<'a>]) -> Option<(Value, &'t [Token<'a>])>
    ensures some { IfSome result (λ x. ValueThen (views tokens.now) x.0 (views x.1.now)) }
    ensures none { IfNone result ((v : Values) (rest : List Spaced) → ValueThen (views tokens.now) v rest → ⊥) }
{
    match register(tokens) {
        Some((register, rest)) => Some((Value::Register(register), rest)),
        None => {
            let (number, rest) = number(tokens)?;
            Some((Value::Number(number), rest))
        }
    }
}

/// The name or register that is all there is.
pub(crate) fn target<'a>(tokens: &[Token<'a>]) -> Option<Target<&'a [u8]>>
    ensures some { IfSome result (λ t. IsTarget (views tokens.now) (target_with (λ n. n.now) t)) }
    ensures none { IfNone result ((t : Targets (List ℕ)) → IsTarget (views tokens.now) t → ⊥) }
{
    match only_name(tokens) {
        Some(name) => Some(Target::Label(name)),
        None => Some(Target::Register(only_register(tokens)?)),
    }
}
