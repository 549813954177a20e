//! Expressions, specifiers and declarators that are no higher than a limit.
ghost use Rattle.std.specs.Prelude.{◌≡◌, ◌≤◌, None, Some, IfOk, IfErr};
ghost use Rattle.c_ast.specs.Seen.{declarator_seen, expr_seen, specifiers_seen};
ghost use Rattle.c_readings.specs.Readers.{readers};
ghost use Rattle.c_readings.specs.DeclarationReaders.{low_specifiers, whole_declarator};
ghost use Rattle.c_readings.specs.StatementReaders.{low_expression};
ghost use Rattle.c_expr.specs.State.{ahead};
ghost use Rattle.c_decl.specs.Going.{Goes, Breaks, Fails};

use crate::steps::put;
use c_ast::{Declarator, Expr, Specifiers};
use c_expr::{Parser, SyntaxFault, declared_name};

/// The expression at the place, perhaps with commas, if it is no higher than the limit.
pub fn low_expression(p: &mut Parser, limit: u32) -> Result<Expr, SyntaxFault>
    requires sound { p.old.fault ≡ None }
    requires limit { limit ≤ 500 }
    ensures ok { IfOk result (λ e. low_expression readers limit (ahead p.old) ≡ Some (expr_seen e, ahead p.new)) }
    ensures none { IfErr result (λ e. Fails e (low_expression readers limit (ahead p.old))) }
    ensures going { IfOk result (λ e. Goes 1 p.old p.new) }
    ensures broken { IfErr result (λ e. Breaks p.old p.new e) }
{
    p.expression_to(limit)
}

/// The assignment expression at the place, if it is no higher than the limit.
pub(crate) fn low_assignment(p: &mut Parser, limit: u32) -> Result<Expr, SyntaxFault>
    requires sound { p.old.fault ≡ None }
    requires limit { limit ≤ 500 }
    ensures ok { IfOk result (λ e. (readers limit).piece 1 (ahead p.old) ≡ Some (expr_seen e, ahead p.new)) }
    ensures none { IfErr result (λ e. Fails e ((readers limit).piece 1 (ahead p.old))) }
    ensures going { IfOk result (λ e. Goes 1 p.old p.new) }
    ensures broken { IfErr result (λ e. Breaks p.old p.new e) }
{
    p.assignment_to(limit)
}

/// The constant expression at the place, if it is no higher than the limit.
pub fn low_constant(p: &mut Parser, limit: u32) -> Result<Expr, SyntaxFault>
    requires sound { p.old.fault ≡ None }
    requires limit { limit ≤ 500 }
    ensures ok { IfOk result (λ e. (readers limit).piece 2 (ahead p.old) ≡ Some (expr_seen e, ahead p.new)) }
    ensures none { IfErr result (λ e. Fails e ((readers limit).piece 2 (ahead p.old))) }
    ensures going { IfOk result (λ e. Goes 1 p.old p.new) }
    ensures broken { IfErr result (λ e. Breaks p.old p.new e) }
{
    p.constant_to(limit)
}

/// The specifiers at the place, if they are no higher than the limit.
pub fn low_specifiers(p: &mut Parser, limit: u32) -> Result<Specifiers, SyntaxFault>
    requires sound { p.old.fault ≡ None }
    requires limit { limit ≤ 500 }
    ensures ok { IfOk result (λ s. low_specifiers readers limit (ahead p.old) ≡ Some (specifiers_seen s, ahead p.new)) }
    ensures none { IfErr result (λ e. Fails e (low_specifiers readers limit (ahead p.old))) }
    ensures going { IfOk result (λ s. Goes 1 p.old p.new) }
    ensures broken { IfErr result (λ e. Breaks p.old p.new e) }
{
    p.specifiers_to(limit)
}

/// The declarator at the place that declares a name and is no part of another, if it is no higher
/// than the limit. Its name is in force from its end, as a typedef name or as another.
#[tactic(auto, unfolding(c_readings::specs::DeclarationReaders::whole_declarator))]
pub fn whole_declarator(
    p: &mut Parser,
    limit: u32,
    typedef: bool,
) -> Result<Declarator, SyntaxFault>
    requires sound { p.old.fault ≡ None }
    requires limit { limit ≤ 500 }
    ensures ok { IfOk result (λ d. whole_declarator readers limit typedef (ahead p.old) ≡ Some (declarator_seen d, ahead p.new)) }
    ensures none { IfErr result (λ e. Fails e (whole_declarator readers limit typedef (ahead p.old))) }
    ensures going { IfOk result (λ d. Goes 0 p.old p.new) }
    ensures broken { IfErr result (λ e. Breaks p.old p.new e) }
{
    let declarator = p.declarator_to(limit)?;
    if let Some(name) = declared_name(&declarator) {
        put(p, name.as_slice(), typedef)?;
    }
    Ok(declarator)
}
