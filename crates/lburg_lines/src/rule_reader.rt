//! The parser of a rule, with its pattern, template and cost.
ghost use Rattle.std.specs.Prelude.{◌≡◌, IfOk, IfErr};
ghost use Rattle.lburg_lines.specs.Tokens.{views};
ghost use Rattle.lburg_lines.specs.Grammar.{IsCost, cost_of, cost_tokens, rule_of, rule_tokens};
ghost use Rattle.lburg_lines.specs.Readings.{CostFault, RangeFault, RuleFault};

use crate::read_error::ReadError;
use crate::readers::{after_name, after_sign, digits_at, end_of, name_at, number_at, template_at};
use crate::rule_line::{CostWritten, RuleLine};
use crate::token::{Sign, Token};
use crate::tree_reader::tree_at;
use std::alloc::Global;

/// The range that all of the tokens spell: `range(a,LOW,HIGH)`.
fn range_at<'t, 'a>(tokens: &'t [Token<'a>]) -> Result<CostWritten<'a>, ReadError>
    ensures ok { IfOk result (λ cost. IsCost (cost_of cost) × (views tokens.now ≡ cost_tokens (cost_of cost))) }
    ensures stuck { IfErr result (λ e. RangeFault e (views tokens.now)) }
{
    let rest = after_name(tokens, b"range")?;
    let rest = after_sign(rest, Sign::Open)?;
    let rest = after_name(rest, b"a")?;
    let rest = after_sign(rest, Sign::Comma)?;
    let (low, rest) = number_at(rest)?;
    let rest = after_sign(rest, Sign::Comma)?;
    let (high, rest) = number_at(rest)?;
    let rest = after_sign(rest, Sign::Close)?;
    end_of(rest)?;
    Ok(CostWritten::Range { low, high })
}

/// The cost, or none, that all of the tokens spell.
fn cost_at<'t, 'a>(tokens: &'t [Token<'a>]) -> Result<CostWritten<'a>, ReadError>
    ensures ok { IfOk result (λ cost. IsCost (cost_of cost) × (views tokens.now ≡ cost_tokens (cost_of cost))) }
    ensures stuck { IfErr result (λ e. CostFault e (views tokens.now)) }
{
    if tokens.is_empty() {
        return Ok(CostWritten::Omitted);
    }
    match digits_at(tokens) {
        Ok((digits, rest)) => {
            end_of(rest)?;
            Ok(CostWritten::Fixed(digits))
        }
        Err(_) => range_at(tokens),
    }
}

/// The rule that all of the tokens spell, of any size. It is called as deep as the parentheses of
/// its pattern nest, so a caller looks first that there are few.
pub(crate) fn rule_at<'t, 'a>(
    alloc: Global,
    tokens: &'t [Token<'a>],
) -> Result<RuleLine<'a>, ReadError>
    ensures found { IfOk result (λ r. IsCost (rule_of r).cost × (views tokens.now ≡ rule_tokens (rule_of r))) }
    ensures stuck { IfErr result (λ e. RuleFault e (views tokens.now)) }
{
    let (left, rest) = name_at(tokens)?;
    let rest = after_sign(rest, Sign::Colon)?;
    let (tree, rest) = tree_at(alloc, rest)?;
    let (template, rest) = template_at(rest)?;
    let cost = cost_at(rest)?;
    Ok(RuleLine {
        left,
        tree,
        template,
        cost,
    })
}
