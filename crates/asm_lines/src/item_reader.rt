//! Readers of the items of data.
ghost use Rattle.std.specs.Prelude.{◌≡◌, ◌⊎◌, ℕ, List, Option, map, IfOk, IfErr};
ghost use Rattle.asm_lines.specs.Tokens.{views};
ghost use Rattle.asm_lines.specs.Operands.{Listed, IsWordItem, IsPartItem};
ghost use Rattle.asm_lines.specs.Statements.{item_of};

use crate::address_reader::place;
use crate::fault::StatementFault;
use crate::number_reader::sum;
use crate::operand_reader::comma;
use crate::statement::Item;
use crate::token::Token;
use lcc_base::{Bytes, Items};
use std::alloc::Global;

/// The words that are all there is.
pub(crate) fn words<'a>(
    alloc: Global,
    tokens: &[Token<'a>],
) -> Result<Items<Item<&'a [u8]>>, StatementFault>
    ensures found { IfOk result (λ items. Listed IsWordItem (views tokens.now) (map item_of items)) }
    ensures only { (items : List (Option (List ℕ) × ℕ)) → Listed IsWordItem (views tokens.now) items → IfErr result (λ e. e ≡ StatementFault.Memory) }
    ensures fault { IfErr result (λ e. (e ≡ StatementFault.Memory) ⊎ (e ≡ StatementFault.BadOperand)) }
{
    let mut items = Items::new(alloc);
    let mut at = 0;
    loop {
        let (_, left) = tokens.split_at(at);
        let Some(placed) = place(left) else {
            return Err(StatementFault::BadOperand);
        };
        items.push(Item {
            name: placed.name,
            value: placed.offset,
        })?;
        if placed.rest.is_empty() {
            return Ok(items);
        }
        let Some(behind) = comma(placed.rest) else {
            return Err(StatementFault::BadOperand);
        };
        at = tokens.len() - behind.len();
    }
}

/// The low halves of the sums that are all there is.
pub(crate) fn halves(alloc: Global, tokens: &[Token]) -> Result<Items<u16>, StatementFault>
    ensures found { IfOk result (λ halves. Listed (IsPartItem 16) (views tokens.now) halves) }
    ensures only { (halves : List ℕ) → Listed (IsPartItem 16) (views tokens.now) halves → IfErr result (λ e. e ≡ StatementFault.Memory) }
    ensures fault { IfErr result (λ e. (e ≡ StatementFault.Memory) ⊎ (e ≡ StatementFault.BadOperand)) }
{
    let mut halves = Items::new(alloc);
    let mut at = 0;
    loop {
        let (_, left) = tokens.split_at(at);
        let Some((value, rest)) = sum(left) else {
            return Err(StatementFault::BadOperand);
        };
        halves.push((value % 0x1_0000) as u16)?;
        if rest.is_empty() {
            return Ok(halves);
        }
        let Some(behind) = comma(rest) else {
            return Err(StatementFault::BadOperand);
        };
        at = tokens.len() - behind.len();
    }
}

/// The low bytes of the sums that are all there is.
pub(crate) fn bytes(alloc: Global, tokens: &[Token]) -> Result<Bytes, StatementFault>
    ensures found { IfOk result (λ bytes. Listed (IsPartItem 8) (views tokens.now) bytes) }
    ensures only { (bytes : List ℕ) → Listed (IsPartItem 8) (views tokens.now) bytes → IfErr result (λ e. e ≡ StatementFault.Memory) }
    ensures fault { IfErr result (λ e. (e ≡ StatementFault.Memory) ⊎ (e ≡ StatementFault.BadOperand)) }
{
    let mut bytes = Bytes::new(alloc);
    let mut at = 0;
    loop {
        let (_, left) = tokens.split_at(at);
        let Some((value, rest)) = sum(left) else {
            return Err(StatementFault::BadOperand);
        };
        bytes.push((value % 0x100) as u8)?;
        if rest.is_empty() {
            return Ok(bytes);
        }
        let Some(behind) = comma(rest) else {
            return Err(StatementFault::BadOperand);
        };
        at = tokens.len() - behind.len();
    }
}
