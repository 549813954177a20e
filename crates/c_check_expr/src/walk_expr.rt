//! The walk over expressions: their parts in order, and then they themselves (C89 3.3). It goes as deep as
//! an expression is high.
ghost use Rattle.std.specs.Prelude.{◌≡◌, Some, None, length, map, IfErr, IfNone, IfOk, IfSome};
ghost use Rattle.c_ast.specs.Trees.{ExprTree};
ghost use Rattle.c_ast.specs.Trees as tree;
ghost use Rattle.c_ast.specs.Views.{exprs_of};
ghost use Rattle.c_ast.specs.declared.expr.Expr.{out-Expr};
ghost use Rattle.c_ast.specs.Seen.{expr_seen, maybe_expr_seen, type_name_seen};
ghost use Rattle.c_meaning.specs.CoreTrees.{IsIn};
ghost use Rattle.c_meaning.specs.Nodes as node;
ghost use Rattle.c_meaning.specs.State.{State};
ghost use Rattle.c_meaning.specs.Typing.{Outcome, callee as callee_typed};
ghost use Rattle.c_meaning.specs.Values.{CoreTree};
ghost use Rattle.c_check_expr.specs.AtNode.{Becomes, IsRefused};
ghost use Rattle.c_check_expr.specs.Known.{AreSymbolsIn};
ghost use Rattle.c_check_expr.specs.PartsSeen.{IsSizeIn, size_seen};
ghost use Rattle.c_check_expr.specs.TypedIn.{callee_in, expr_in, exprs_in, maybe_expr_in, pair_in};
ghost use Rattle.c_check_expr.specs.Walks.{AreCoresIn, IsPairIn, Walks, core, cores, pair};

use crate::binary::binary;
use crate::conditional::conditional;
use crate::walk_types::type_name;
use crate::{access, assign, calls, names, unary};
use c_ast::{Expr, ExprForm, PostfixOperator, PrefixOperator, TypeName};
use c_meaning::CoreExpr;
use c_symbols::Scopes;
use c_types::TypeTable;
use c_values::CheckFault;
use lcc_base::{Bytes, Items};
use std::alloc::Global;

/// An expression, checked: what `check_expr` gives, with a contract that walks around it go on from (C89
/// 3.3).
#[cycle(walk)]
pub fn expression(
    alloc: Global,
    scopes: &mut Scopes,
    types: &mut TypeTable,
    e: &Expr,
) -> Result<CoreExpr, CheckFault>
    requires { AreSymbolsIn (length types.old.forms) scopes.old.symbols }
    ensures { Walks core IsIn (expr_in scopes.old types.old (expr_seen e.now)) scopes.old types.old scopes.new types.new result }
{
    let line = e.line;
    match &e.form {
        ExprForm::Name(name) => names::name(alloc, scopes, types, line, name.as_slice()),
        ExprForm::Integer { value, kind } => names::integer(alloc, types, line, *value, *kind),
        ExprForm::Character(value) => character(alloc, types, line, value),
        ExprForm::Text(texts) => names::text(alloc, types, line, texts),
        ExprForm::Enclosed(a) => expression(alloc, scopes, types, a),
        ExprForm::Index(a, i) => subscript(alloc, scopes, types, line, a, i),
        ExprForm::Call(f, arguments) => {
            call(alloc, scopes, types, line, f, arguments.as_slice())
        }
        ExprForm::Member(op, a, name) => {
            let a = expression(alloc, scopes, types, a)?;
            access::select(alloc, types, line, *op, a, name.as_slice())
        }
        ExprForm::Postfix(op, a) => postfix(alloc, scopes, types, line, *op, a),
        ExprForm::Prefix(op, a) => prefix(alloc, scopes, types, line, *op, a),
        ExprForm::SizeofExpr(a) => sizeof_expr(alloc, scopes, types, line, a),
        ExprForm::SizeofType(of) => sizeof_type(alloc, scopes, types, line, of),
        ExprForm::Cast(to, a) => cast(alloc, scopes, types, line, to, a),
        ExprForm::Binary(op, a, b) => {
            let (a, b) = two(alloc, scopes, types, a, b)?;
            binary(alloc, types, line, *op, a, b)
        }
        ExprForm::Conditional(a, b, c) => {
            let a = expression(alloc, scopes, types, a)?;
            let (b, c) = two(alloc, scopes, types, b, c)?;
            conditional(alloc, types, line, a, b, c)
        }
        ExprForm::Assign(op, a, b) => {
            let (a, b) = two(alloc, scopes, types, a, b)?;
            assign::assign(alloc, types, line, *op, a, b)
        }
        ExprForm::Comma(parts) => comma(alloc, scopes, types, line, parts.as_slice()),
    }
}

/// A character constant.
#[tactic(auto, using(crate::proofs::lemmas::Walking::signed_rules))]
fn character(
    alloc: Global,
    types: &TypeTable,
    line: u32,
    value: &i32,
) -> Result<CoreExpr, CheckFault>
    ensures ok { IfOk result (λ core. Becomes types.now line (node.Character value.now) types.now core) }
    ensures err { IfErr result (λ e. IsRefused types.now line (node.Character value.now) e) }
    ensures within { IfOk result (λ core. IsIn (length types.now.forms) core) }
{
    let value = *value;
    names::character(alloc, types, line, value)
}

/// Two expressions, one behind the other.
#[cycle(walk)]
fn two(
    alloc: Global,
    scopes: &mut Scopes,
    types: &mut TypeTable,
    a: &Expr,
    b: &Expr,
) -> Result<(CoreExpr, CoreExpr), CheckFault>
    requires { AreSymbolsIn (length types.old.forms) scopes.old.symbols }
    ensures { Walks pair IsPairIn (pair_in scopes.old types.old (expr_seen a.now) (expr_seen b.now)) scopes.old types.old scopes.new types.new result }
{
    let first = expression(alloc, scopes, types, a)?;
    let second = expression(alloc, scopes, types, b)?;
    Ok((first, second))
}

/// Expressions, one behind the other.
#[cycle(walk)]
fn expressions(
    alloc: Global,
    scopes: &mut Scopes,
    types: &mut TypeTable,
    list: &[Expr],
) -> Result<Items<CoreExpr>, CheckFault>
    requires { AreSymbolsIn (length types.old.forms) scopes.old.symbols }
    ensures { Walks cores AreCoresIn (exprs_in scopes.old types.old (exprs_of (map expr_seen list.now))) scopes.old types.old scopes.new types.new result }
{
    let mut all = Items::with_capacity(alloc, list.len())?;
    for e in list {
        let c = expression(alloc, scopes, types, e)?;
        all.push(c)?;
    }
    Ok(all)
}

/// An expression, checked, if there is one.
#[cycle(walk)]
pub fn maybe_expression(
    alloc: Global,
    scopes: &mut Scopes,
    types: &mut TypeTable,
    e: &Option<Expr>,
) -> Result<Option<CoreExpr>, CheckFault>
    requires { AreSymbolsIn (length types.old.forms) scopes.old.symbols }
    ensures { Walks size_seen IsSizeIn (maybe_expr_in scopes.old types.old (maybe_expr_seen e.now)) scopes.old types.old scopes.new types.new result }
{
    match e {
        Some(e) => {
            let c = expression(alloc, scopes, types, e)?;
            Ok(Some(c))
        }
        None => Ok(None),
    }
}

/// `a[i]`.
#[cycle(walk)]
fn subscript(
    alloc: Global,
    scopes: &mut Scopes,
    types: &mut TypeTable,
    line: u32,
    a: &Expr,
    i: &Expr,
) -> Result<CoreExpr, CheckFault>
    requires { AreSymbolsIn (length types.old.forms) scopes.old.symbols }
    ensures { Walks core IsIn (expr_in scopes.old types.old (tree.Index line (expr_seen a.now) (expr_seen i.now))) scopes.old types.old scopes.new types.new result }
{
    let (a, i) = two(alloc, scopes, types, a, i)?;
    access::subscript(alloc, types, line, a, i)
}

/// The name that the expression is, where it is just a name.
#[tactic(auto, using(c_ast::proofs::lemmas::SeenExprs::expr_forms))]
fn bare_name(e: &Expr) -> Option<&Bytes>
    ensures name { IfSome result (λ x. expr_seen e.now ≡ tree.Name (out-Expr e.now).line x.now) }
    ensures none { IfNone result ((s : State) → (o : Outcome CoreTree) → callee_typed s (expr_seen e.now) o ≡ o) }
{
    match &e.form {
        ExprForm::Name(name) => Some(name),
        ExprForm::Integer { .. } => None,
        ExprForm::Character(_) => None,
        ExprForm::Text(_) => None,
        ExprForm::Enclosed(_) => None,
        ExprForm::Index(_, _) => None,
        ExprForm::Call(_, _) => None,
        ExprForm::Member(_, _, _) => None,
        ExprForm::Postfix(_, _) => None,
        ExprForm::Prefix(_, _) => None,
        ExprForm::SizeofExpr(_) => None,
        ExprForm::SizeofType(_) => None,
        ExprForm::Cast(_, _) => None,
        ExprForm::Binary(_, _, _) => None,
        ExprForm::Conditional(_, _, _) => None,
        ExprForm::Assign(_, _, _) => None,
        ExprForm::Comma(_) => None,
    }
}

/// What is called, which may be a name that no scope has.
#[cycle(walk)]
fn callee(
    alloc: Global,
    scopes: &mut Scopes,
    types: &mut TypeTable,
    f: &Expr,
) -> Result<CoreExpr, CheckFault>
    requires { AreSymbolsIn (length types.old.forms) scopes.old.symbols }
    ensures { Walks core IsIn (callee_in scopes.old types.old (expr_seen f.now)) scopes.old types.old scopes.new types.new result }
{
    match bare_name(f) {
        Some(name) => named_callee(alloc, scopes, types, f, name),
        None => expression(alloc, scopes, types, f),
    }
}

/// What is called by a name, which may be one that no scope has.
fn named_callee(
    alloc: Global,
    scopes: &mut Scopes,
    types: &mut TypeTable,
    f: &Expr,
    name: &Bytes,
) -> Result<CoreExpr, CheckFault>
    requires symbols { AreSymbolsIn (length types.old.forms) scopes.old.symbols }
    requires name { expr_seen f.now ≡ tree.Name (out-Expr f.now).line name.now }
    ensures { Walks core IsIn (callee_in scopes.old types.old (expr_seen f.now)) scopes.old types.old scopes.new types.new result }
{
    match scopes.find(name.as_slice()) {
        Some(_) => names::name(alloc, scopes, types, f.line, name.as_slice()),
        None => names::new_function(alloc, scopes, types, f.line, name.as_slice()),
    }
}

/// `f(a, b)`.
#[cycle(walk)]
fn call(
    alloc: Global,
    scopes: &mut Scopes,
    types: &mut TypeTable,
    line: u32,
    f: &Expr,
    arguments: &[Expr],
) -> Result<CoreExpr, CheckFault>
    requires { AreSymbolsIn (length types.old.forms) scopes.old.symbols }
    ensures { Walks core IsIn (expr_in scopes.old types.old (tree.Call line (expr_seen f.now) (exprs_of (map expr_seen arguments.now)))) scopes.old types.old scopes.new types.new result }
{
    let f = callee(alloc, scopes, types, f)?;
    let arguments = expressions(alloc, scopes, types, arguments)?;
    calls::call(alloc, types, line, f, arguments)
}

/// `a++` or `a--`.
#[cycle(walk)]
fn postfix(
    alloc: Global,
    scopes: &mut Scopes,
    types: &mut TypeTable,
    line: u32,
    op: PostfixOperator,
    a: &Expr,
) -> Result<CoreExpr, CheckFault>
    requires { AreSymbolsIn (length types.old.forms) scopes.old.symbols }
    ensures { Walks core IsIn (expr_in scopes.old types.old (tree.Postfix line op (expr_seen a.now))) scopes.old types.old scopes.new types.new result }
{
    let a = expression(alloc, scopes, types, a)?;
    assign::postfix(alloc, types, line, op, a)
}

/// An operator before its operand.
#[cycle(walk)]
fn prefix(
    alloc: Global,
    scopes: &mut Scopes,
    types: &mut TypeTable,
    line: u32,
    op: PrefixOperator,
    a: &Expr,
) -> Result<CoreExpr, CheckFault>
    requires { AreSymbolsIn (length types.old.forms) scopes.old.symbols }
    ensures { Walks core IsIn (expr_in scopes.old types.old (tree.Prefix line op (expr_seen a.now))) scopes.old types.old scopes.new types.new result }
{
    let a = expression(alloc, scopes, types, a)?;
    unary::prefix(alloc, types, line, op, a)
}

/// `sizeof a`.
#[cycle(walk)]
fn sizeof_expr(
    alloc: Global,
    scopes: &mut Scopes,
    types: &mut TypeTable,
    line: u32,
    a: &Expr,
) -> Result<CoreExpr, CheckFault>
    requires { AreSymbolsIn (length types.old.forms) scopes.old.symbols }
    ensures { Walks core IsIn (expr_in scopes.old types.old (tree.SizeofExpr line (expr_seen a.now))) scopes.old types.old scopes.new types.new result }
{
    let a = expression(alloc, scopes, types, a)?;
    unary::sizeof_expr(alloc, types, line, a)
}

/// `sizeof(T)`.
#[cycle(walk)]
fn sizeof_type(
    alloc: Global,
    scopes: &mut Scopes,
    types: &mut TypeTable,
    line: u32,
    of: &TypeName,
) -> Result<CoreExpr, CheckFault>
    requires { AreSymbolsIn (length types.old.forms) scopes.old.symbols }
    ensures { Walks core IsIn (expr_in scopes.old types.old (tree.SizeofType line (type_name_seen of.now))) scopes.old types.old scopes.new types.new result }
{
    let of = type_name(alloc, scopes, types, of)?;
    unary::sizeof_type(alloc, types, line, of)
}

/// `(T)a`.
#[cycle(walk)]
fn cast(
    alloc: Global,
    scopes: &mut Scopes,
    types: &mut TypeTable,
    line: u32,
    to: &TypeName,
    a: &Expr,
) -> Result<CoreExpr, CheckFault>
    requires { AreSymbolsIn (length types.old.forms) scopes.old.symbols }
    ensures { Walks core IsIn (expr_in scopes.old types.old (tree.Cast line (type_name_seen to.now) (expr_seen a.now))) scopes.old types.old scopes.new types.new result }
{
    let to = type_name(alloc, scopes, types, to)?;
    let a = expression(alloc, scopes, types, a)?;
    unary::cast(alloc, types, line, to, a)
}

/// `a, b, c`.
#[cycle(walk)]
fn comma(
    alloc: Global,
    scopes: &mut Scopes,
    types: &mut TypeTable,
    line: u32,
    parts: &[Expr],
) -> Result<CoreExpr, CheckFault>
    requires { AreSymbolsIn (length types.old.forms) scopes.old.symbols }
    ensures { Walks core IsIn (expr_in scopes.old types.old (tree.Comma line (exprs_of (map expr_seen parts.now)))) scopes.old types.old scopes.new types.new result }
{
    let parts = expressions(alloc, scopes, types, parts)?;
    calls::comma(alloc, types, line, parts)
}
