//! Expressions and names in statements.
ghost use Rattle.std.specs.Prelude.{◌≡◌, ◌≤◌, None, Some, IfOk, IfErr};
ghost use Rattle.c_ast.specs.Seen.{expr_seen, maybe_expr_seen};
ghost use Rattle.c_readings.specs.Readers.{readers};
ghost use Rattle.c_readings.specs.StatementReaders as reader;
ghost use Rattle.c_expr.specs.State.{ahead};
ghost use Rattle.c_decl.specs.Going.{Goes, Breaks, Fails};

use c_ast::{Expr, sign};
use c_decl::{expect, low_expression, take_name, takes};
use c_expr::{Parser, SyntaxFault};
use lcc_base::Bytes;

/// An expression in parentheses.
#[tactic(auto, unfolding(c_readings::specs::StatementReaders::condition))]
pub(crate) fn condition_at(p: &mut Parser, limit: u32) -> Result<Expr, SyntaxFault>
    requires sound { p.old.fault ≡ None }
    requires limit { limit ≤ 500 }
    ensures ok { IfOk result (λ e. reader.condition readers limit (ahead p.old) ≡ Some (expr_seen e, ahead p.new)) }
    ensures none { IfErr result (λ e. Fails e (reader.condition readers limit (ahead p.old))) }
    ensures going { IfOk result (λ e. Goes 1 p.old p.new) }
    ensures broken { IfErr result (λ e. Breaks p.old p.new e) }
{
    expect(p, sign::OPEN)?;
    let expression = low_expression(p, limit)?;
    expect(p, sign::CLOSE)?;
    Ok(expression)
}

/// An expression or none, and the sign of this number.
#[tactic(auto, unfolding(c_readings::specs::StatementReaders::maybe_before))]
pub(crate) fn maybe_before(
    p: &mut Parser,
    limit: u32,
    number: u8,
) -> Result<Option<Expr>, SyntaxFault>
    requires sound { p.old.fault ≡ None }
    requires limit { limit ≤ 500 }
    ensures ok { IfOk result (λ o. reader.maybe_before readers limit number (ahead p.old) ≡ Some (maybe_expr_seen o, ahead p.new)) }
    ensures none { IfErr result (λ e. Fails e (reader.maybe_before readers limit number (ahead p.old))) }
    ensures going { IfOk result (λ o. Goes 1 p.old p.new) }
    ensures broken { IfErr result (λ e. Breaks p.old p.new e) }
{
    if takes(p, number) {
        return Ok(None);
    }
    let expression = low_expression(p, limit)?;
    expect(p, number)?;
    Ok(Some(expression))
}

/// A name, and the sign of this number.
pub(crate) fn name_before(p: &mut Parser, number: u8) -> Result<Bytes, SyntaxFault>
    requires sound { p.old.fault ≡ None }
    ensures ok { IfOk result (λ n. reader.name_before number (ahead p.old) ≡ Some (n, ahead p.new)) }
    ensures none { IfErr result (λ e. Fails e (reader.name_before number (ahead p.old))) }
    ensures going { IfOk result (λ n. Goes 1 p.old p.new) }
    ensures broken { IfErr result (λ e. Breaks p.old p.new e) }
{
    let name = take_name(p)?;
    expect(p, number)?;
    Ok(name)
}
