//! The reader of programs of the first form.
ghost use Rattle.std.specs.Prelude.{◌≡◌, ◌<◌, ℕ, List, length, map, codes, ◌∷◌, [], IfOk, IfErr};
ghost use Rattle.first_form.specs.Tokens.{AreTokens};
ghost use Rattle.first_form.specs.Expression.{MExpression, expression_of};
ghost use Rattle.first_form.specs.FirstProgram.{MProgram, program_of};
ghost use Rattle.first_form.specs.FirstForm.{IsFirst, IsExpression, result_tokens};
ghost use Rattle.first_form.specs.Readings.{ReadsWithin, IsWithin, ReadsPrints, ArePrints, ReadsResult};

use crate::expression::Expression;
use crate::expression_reader::expression_at;
use crate::first_fault::FirstFault;
use crate::first_program::FirstProgram;
use crate::lexing::{after, after_all, are_blank};
use lcc_base::Items;
use std::alloc::Global;

/// The expression that stands between this token, which is the first, and these, and what
/// stands behind them.
fn within<'a>(
    alloc: Global,
    bytes: &'a [u8],
    before: &[u8],
    behind: &[&[u8]],
) -> Result<(Expression, &'a [u8]), FirstFault>
    ensures ok { IfOk result (λ x. ReadsWithin before.now (map (λ t. t.now) behind.now) bytes.now (expression_of x.0) x.1.now) }
    ensures shorter { IfOk result (λ x. length x.1.now < length bytes.now) }
    ensures only { IsWithin before.now (map (λ t. t.now) behind.now) bytes.now → IfErr result (λ e. e ≡ FirstFault.Memory) }
{
    let Some(rest) = after(bytes, before) else {
        return Err(FirstFault::BadText);
    };
    let (expression, rest) = expression_at(alloc, rest)?;
    match after_all(rest, behind) {
        Some(rest) => Ok((expression, rest)),
        None => Err(FirstFault::BadText),
    }
}

/// What is printed by the statements that are next, and what stands behind them.
fn prints_at<'a>(
    alloc: Global,
    bytes: &'a [u8],
) -> Result<(Items<Expression>, &'a [u8]), FirstFault>
    ensures ok { IfOk result (λ x. ReadsPrints bytes.now (map expression_of x.0) x.1.now) }
    ensures only { ArePrints bytes.now → IfErr result (λ e. e ≡ FirstFault.Memory) }
{
    let close: [&[u8]; 2] = [b")", b";"];
    let mut prints = Items::new(alloc);
    let mut rest = bytes;
    while let Some(behind) = after(rest, b"putchar") {
        let (expression, others) = within(alloc, behind, b"(", &close)?;
        prints.push(expression)?;
        rest = others;
    }
    Ok((prints, rest))
}

/// What the last statement returns, behind which only `}` stands.
fn result_at(alloc: Global, bytes: &[u8]) -> Result<Expression, FirstFault>
    ensures ok { IfOk result (λ e. ReadsResult bytes.now (expression_of e)) }
    ensures only { (e : MExpression) → IsExpression e → AreTokens (result_tokens e) bytes.now → IfErr result (λ e. e ≡ FirstFault.Memory) }
{
    let end: [&[u8]; 2] = [b";", b"}"];
    let (expression, rest) = within(alloc, bytes, b"return", &end)?;
    if are_blank(rest) {
        Ok(expression)
    } else {
        Err(FirstFault::BadText)
    }
}

/// The program of a text of the first form: `BadText` where the text is none, as where an
/// expression is more than 200 nodes high, or a number is greater than 2,147,483,647.
pub fn read(alloc: Global, text: &[u8]) -> Result<FirstProgram, FirstFault>
    // What is read is the program of the text.
    ensures found { IfOk result (λ p. IsFirst text.now (program_of p)) }
    // The program of a text is read, unless memory runs out.
    ensures one { (p : MProgram) → IsFirst text.now p → IfOk result (λ r. program_of r ≡ p) }
    ensures only { (p : MProgram) → IsFirst text.now p → IfErr result (λ e. e ≡ FirstFault.Memory) }
{
    let head: [&[u8]; 6] = [b"int", b"main", b"(", b"void", b")", b"{"];
    let Some(rest) = after_all(text, &head) else {
        return Err(FirstFault::BadText);
    };
    let (prints, rest) = prints_at(alloc, rest)?;
    let result = result_at(alloc, rest)?;
    Ok(FirstProgram { prints, result })
}

/// A text is of one program at most.
pub fn one_program()
    ensures { (text : List ℕ) (p q : MProgram) → IsFirst text p → IsFirst text q → p ≡ q }
{}
