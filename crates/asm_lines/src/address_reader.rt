//! Readers of addresses.
ghost use Rattle.std.specs.Prelude.{ℕ, List, Option, Some, option_map, IfSome, IfNone};
ghost use Rattle.asm_lines.specs.declared.instruction.Address.{Address as Addresses};
ghost use Rattle.asm_lines.specs.Tokens.{Spaced, views};
ghost use Rattle.asm_lines.specs.Numbers.{NoLink};
ghost use Rattle.asm_lines.specs.Operands.{IsBase, PlaceThen, IsAddress};
ghost use Rattle.asm_lines.specs.Statements.{address_with};

use crate::instruction::Address;
use crate::number_reader::{links, sum};
use crate::operand_reader::{name, register};
use crate::register::Register;
use crate::token::{Kind, Token};

/// A name with its sum, or a sum, and what stands behind it.
#[derive(Clone, Copy, Debug)]
pub(crate) struct Placed<'t, 'a> {
    pub(crate) name: Option<&'a [u8]>,
    pub(crate) offset: u32,
    pub(crate) rest: &'t [Token<'a>],
}

/// The name with its sum, or the sum, at the front.
pub(crate) fn place<'t, 'a>(tokens: &'t [Token<'a>]) -> Option<Placed<'t, 'a>>
    ensures some { IfSome result (λ x. PlaceThen (views tokens.now) (option_map (λ n. n.now) x.name) x.offset (views x.rest.now) × NoLink (views x.rest.now)) }
    ensures none { IfNone result ((n : Option (List ℕ)) (offset : ℕ) (rest : List Spaced) → PlaceThen (views tokens.now) n offset rest → NoLink rest → ⊥) }
{
    match name(tokens) {
        Some((name, behind)) => {
            let (offset, rest) = links(behind, 0)?;
            Some(Placed {
                name: Some(name),
                offset,
                rest,
            })
        }
        None => {
            let (offset, rest) = sum(tokens)?;
            Some(Placed {
                name: None,
                offset,
                rest,
            })
        }
    }
}

/// The register between parentheses that is all there is.
fn base(tokens: &[Token]) -> Option<Register>
    ensures some { IfSome result (λ r. IsBase (views tokens.now) (Some r)) }
    ensures none { IfNone result ((r : ℕ) → IsBase (views tokens.now) (Some r) → ⊥) }
{
    let (open, behind) = tokens.split_first()?;
    if open.kind != Kind::Open {
        return None;
    }
    let Some((register, rest)) = register(behind) else {
        return None;
    };
    let (close, end) = rest.split_first()?;
    if close.kind != Kind::Close {
        return None;
    }
    if end.is_empty() { Some(register) } else { None }
}

/// The register between parentheses that is all there is, or none where there is nothing; no answer for anything else.
fn some_base(tokens: &[Token]) -> Option<Option<Register>>
    ensures some { IfSome result (λ b. IsBase (views tokens.now) b) }
    ensures none { IfNone result ((b : Option ℕ) → IsBase (views tokens.now) b → ⊥) }
{
    if tokens.is_empty() {
        return Some(None);
    }
    Some(Some(base(tokens)?))
}

/// The address that is all there is.
pub(crate) fn address<'a>(tokens: &[Token<'a>]) -> Option<Address<&'a [u8]>>
    ensures some { IfSome result (λ a. IsAddress (views tokens.now) (address_with (λ n. n.now) a)) }
    ensures none { IfNone result ((a : Addresses (List ℕ)) → IsAddress (views tokens.now) a → ⊥) }
{
    if let Some(register) = base(tokens) {
        return Some(Address {
            name: None,
            offset: 0,
            base: Some(register),
        });
    }
    let placed = place(tokens)?;
    let base = some_base(placed.rest)?;
    Some(Address {
        name: placed.name,
        offset: placed.offset,
        base,
    })
}
