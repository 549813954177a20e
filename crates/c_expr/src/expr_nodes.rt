//! Expressions made of their parts.
ghost use Rattle.std.specs.Prelude.{◌≡◌, map, IfOk};
ghost use Rattle.c_ast.specs.Trees.{Enclosed};
ghost use Rattle.c_ast.specs.Trees as tree;
ghost use Rattle.c_ast.specs.Views.{exprs_of};
ghost use Rattle.c_readings.specs.Links.{linked};
ghost use Rattle.c_expr.specs.Links.{link_of};
ghost use Rattle.c_ast.specs.Seen.{expr_seen, type_name_seen};

use crate::link::Link;
use c_ast::{Expr, ExprForm, IntKind, PrefixOperator, TypeName};
use lcc_base::{Bytes, Items, Memory};
use std::alloc::Global;

/// A name.
#[tactic(auto, using(c_ast::proofs::lemmas::SeenExprs::expr_forms))]
pub(crate) fn variable(line: u32, name: Bytes) -> Expr
    ensures { expr_seen result ≡ tree.Name line name }
{
    Expr {
        line,
        form: ExprForm::Name(name),
    }
}

/// An integer constant.
#[tactic(auto, using(c_ast::proofs::lemmas::SeenExprs::expr_forms))]
pub(crate) fn integer(line: u32, value: u32, kind: IntKind) -> Expr
    ensures { expr_seen result ≡ tree.Integer line value kind }
{
    Expr {
        line,
        form: ExprForm::Integer { value, kind },
    }
}

/// A character constant.
#[tactic(auto, using(c_ast::proofs::lemmas::SeenExprs::expr_forms))]
pub(crate) fn character(line: u32, value: i32) -> Expr
    ensures { expr_seen result ≡ tree.Character line value }
{
    Expr {
        line,
        form: ExprForm::Character(value),
    }
}

/// String literals side by side.
#[tactic(auto, using(c_ast::proofs::lemmas::SeenExprs::expr_forms))]
pub(crate) fn literal(line: u32, texts: Items<Bytes>) -> Expr
    ensures { expr_seen result ≡ tree.Text line texts }
{
    Expr {
        line,
        form: ExprForm::Text(texts),
    }
}

/// Expressions with commas between.
#[tactic(auto, using(c_ast::proofs::lemmas::SeenExprs::expr_forms))]
pub(crate) fn sequence(line: u32, parts: Items<Expr>) -> Expr
    ensures { expr_seen result ≡ tree.Comma line (exprs_of (map expr_seen parts)) }
{
    Expr {
        line,
        form: ExprForm::Comma(parts),
    }
}

/// An expression in parentheses.
#[tactic(auto, using(c_ast::proofs::lemmas::SeenExprs::expr_forms))]
pub(crate) fn enclosed(alloc: Global, line: u32, inside: Expr) -> Result<Expr, Memory>
    ensures { IfOk result (λ e. expr_seen e ≡ Enclosed line (expr_seen inside)) }
{
    let form = ExprForm::Enclosed(Box::new(alloc, inside)?);
    Ok(Expr { line, form })
}

/// An operator before an operand.
#[tactic(auto, using(c_ast::proofs::lemmas::SeenExprs::expr_forms))]
pub(crate) fn prefixed(
    alloc: Global,
    line: u32,
    operator: PrefixOperator,
    inside: Expr,
) -> Result<Expr, Memory>
    ensures { IfOk result (λ e. expr_seen e ≡ tree.Prefix line operator (expr_seen inside)) }
{
    let form = ExprForm::Prefix(operator, Box::new(alloc, inside)?);
    Ok(Expr { line, form })
}

/// `sizeof` before an operand.
#[tactic(auto, using(c_ast::proofs::lemmas::SeenExprs::expr_forms))]
pub(crate) fn sized_expr(alloc: Global, line: u32, inside: Expr) -> Result<Expr, Memory>
    ensures { IfOk result (λ e. expr_seen e ≡ tree.SizeofExpr line (expr_seen inside)) }
{
    let form = ExprForm::SizeofExpr(Box::new(alloc, inside)?);
    Ok(Expr { line, form })
}

/// `sizeof` before a type's name in parentheses.
#[tactic(auto, using(c_ast::proofs::lemmas::SeenExprs::expr_forms))]
pub(crate) fn sized_type(alloc: Global, line: u32, name: TypeName) -> Result<Expr, Memory>
    ensures { IfOk result (λ e. expr_seen e ≡ tree.SizeofType line (type_name_seen name)) }
{
    let form = ExprForm::SizeofType(Box::new(alloc, name)?);
    Ok(Expr { line, form })
}

/// A cast.
#[tactic(auto, using(c_ast::proofs::lemmas::SeenExprs::expr_forms))]
pub(crate) fn cast(alloc: Global, line: u32, name: TypeName, inside: Expr) -> Result<Expr, Memory>
    ensures { IfOk result (λ e. expr_seen e ≡ tree.Cast line (type_name_seen name) (expr_seen inside)) }
{
    let name = Box::new(alloc, name)?;
    let form = ExprForm::Cast(name, Box::new(alloc, inside)?);
    Ok(Expr { line, form })
}

/// What an expression and what stands behind it make.
#[tactic(auto, using(c_ast::proofs::lemmas::SeenExprs::expr_forms))]
pub(crate) fn linked(alloc: Global, line: u32, left: Expr, link: Link) -> Result<Expr, Memory>
    ensures { IfOk result (λ e. expr_seen e ≡ linked line (expr_seen left) (link_of link)) }
{
    let left = Box::new(alloc, left)?;
    let form = match link {
        Link::Index(inside) => ExprForm::Index(left, Box::new(alloc, inside)?),
        Link::Call(arguments) => ExprForm::Call(left, Box::new(alloc, arguments)?),
        Link::Select(operator, name) => { ExprForm::Member(operator, left, Box::new(alloc, name)?) }
        Link::Step(operator) => ExprForm::Postfix(operator, left),
        Link::Operate(operator, right) => {
            ExprForm::Binary(operator, left, Box::new(alloc, right)?)
        }
        Link::Choose(yes, no) => {
            let yes = Box::new(alloc, yes)?;
            ExprForm::Conditional(left, yes, Box::new(alloc, no)?)
        }
        Link::Assign(operator, right) => {
            ExprForm::Assign(operator, left, Box::new(alloc, right)?)
        }
    };
    Ok(Expr { line, form })
}
