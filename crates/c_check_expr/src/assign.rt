//! Nodes that change places: assignments, `++` and `--` (C89 3.3.16, 3.3.2.4, 3.3.3.1).
ghost use Rattle.std.specs.Prelude.{◌≡◌, ◌<◌, length, IfOk, IfErr};
ghost use Rattle.c_ast.specs.declared.operator.PrefixOperator.TheVariants as prefix;
ghost use Rattle.c_types.specs.Table.{Grows, tags, type_at};
ghost use Rattle.c_meaning.specs.CoreTrees.{IsIn, seen};
ghost use Rattle.c_meaning.specs.ExprConstraints.{assigns_no_move, can_assign as takes, is_modifiable as modifiable, moves_nowhere as no_moves};
ghost use Rattle.c_meaning.specs.Nodes as node;
ghost use Rattle.c_check_expr.specs.AtNode.{Becomes, IsRefused};
ghost use Rattle.c_check_expr.specs.Changing.{assign_broken, step_broken};
ghost use Rattle.c_values.specs.Valued.{IsValueIn, valued};

use c_ast::{AssignOperator, PostfixOperator};
use c_meaning::CoreExpr;
use c_types::{TypeId, TypeTable};
use c_values::arithmetic::is_pointer;
use c_values::assigning::is_assignable;
use c_values::changes::{Given, assigned, stepped};
use c_values::forming::into_value;
use c_values::places::is_lvalue;
use c_values::values::{is_integer, value_type};
use c_values::{CheckFault, ValueType, kinds};
use std::alloc::Global;

/// Whether it is an lvalue of an object that may be changed: no array, not incomplete, and nothing of it
/// const (C89 3.2.2.1).
fn is_modifiable(types: &TypeTable, a: &CoreExpr) -> bool
    requires { IsIn (length types.now.forms) a.now }
    ensures { result ≡ modifiable (tags types.now) (seen (type_at types.now) a.now) }
{
    is_lvalue(a)
        && types.size(a.of).is_some()
        && !(kinds::element(types, a.of).is_some() || types.has_const(a.of))
}

/// Whether it is a pointer that can't move by elements.
fn moves_nowhere(types: &TypeTable, id: TypeId) -> bool
    requires { id < length types.now.forms }
    ensures { result ≡ no_moves (tags types.now) (type_at types.now id) }
{
    match kinds::target(types, id) {
        Some(to) => types.size(to).is_none(),
        None => false,
    }
}

/// The first constraint that `++` or `--` of this breaks.
fn step_fault(types: &TypeTable, a: &CoreExpr) -> Option<u8>
    requires { IsIn (length types.now.forms) a.now }
    ensures { result ≡ step_broken (tags types.now) (seen (type_at types.now) a.now) }
{
    if !is_modifiable(types, a) {
        Some(34)
    } else if !(kinds::is_integer(types, a.of) || is_pointer(types, a.of)) {
        Some(40)
    } else if moves_nowhere(types, a.of) {
        Some(41)
    } else {
        None
    }
}

/// Whether the operator takes operands of these types.
fn can_assign(types: &TypeTable, op: AssignOperator, to: TypeId, from: ValueType) -> bool
    requires to { to < length types.now.forms }
    requires from { IsValueIn (length types.now.forms) from }
    ensures { result ≡ takes op (type_at types.now to) (valued types.now from) }
{
    match op {
        AssignOperator::Plain => true,
        AssignOperator::Add | AssignOperator::Subtract => {
            is_integer(types, from) && (kinds::is_integer(types, to) || is_pointer(types, to))
        }
        _ => kinds::is_integer(types, to) && is_integer(types, from),
    }
}

/// The first constraint that an assignment breaks.
fn assign_fault(types: &TypeTable, op: AssignOperator, a: &CoreExpr, b: &CoreExpr) -> Option<u8>
    requires a { IsIn (length types.now.forms) a.now }
    requires b { IsIn (length types.now.forms) b.now }
    ensures { result ≡ assign_broken (tags types.now) op (seen (type_at types.now) a.now) (seen (type_at types.now) b.now) }
{
    if !is_modifiable(types, a) {
        Some(34)
    } else if !can_assign(types, op, a.of, value_type(types, b)) {
        Some(40)
    } else if is_no_move(types, op, a.of) {
        Some(41)
    } else if op == AssignOperator::Plain && !is_assignable(types, a.of, b) {
        Some(45)
    } else {
        None
    }
}

/// Whether the operator moves a pointer that can't move by elements.
fn is_no_move(types: &TypeTable, op: AssignOperator, to: TypeId) -> bool
    requires { to < length types.now.forms }
    ensures { result ≡ assigns_no_move (tags types.now) op (type_at types.now to) }
{
    matches!(op, AssignOperator::Add | AssignOperator::Subtract) && moves_nowhere(types, to)
}

/// `a = b` and the like.
pub(crate) fn assign(
    alloc: Global,
    types: &mut TypeTable,
    line: u32,
    op: AssignOperator,
    a: CoreExpr,
    b: CoreExpr,
) -> Result<CoreExpr, CheckFault>
    requires a { IsIn (length types.old.forms) a }
    requires b { IsIn (length types.old.forms) b }
    ensures ok { IfOk result (λ core. Becomes types.old line (node.Assign op (seen (type_at types.old) a) (seen (type_at types.old) b)) types.new core) }
    ensures err { IfErr result (λ e. IsRefused types.old line (node.Assign op (seen (type_at types.old) a) (seen (type_at types.old) b)) e) }
    ensures within { IfOk result (λ core. IsIn (length types.new.forms) core) }
    ensures grows { Grows types.old types.new }
{
    types.types_are_within_limits();
    if let Some(number) = assign_fault(types, op, &a, &b) {
        return Err(CheckFault::Constraint { number, line });
    }
    let w = into_value(alloc, types, line, b)?;
    let core = assigned(alloc, types, line, op, a, w)?;
    Ok(core)
}

/// `a++` or `a--`.
pub(crate) fn postfix(
    alloc: Global,
    types: &mut TypeTable,
    line: u32,
    op: PostfixOperator,
    a: CoreExpr,
) -> Result<CoreExpr, CheckFault>
    requires { IsIn (length types.old.forms) a }
    ensures ok { IfOk result (λ core. Becomes types.old line (node.Postfix op (seen (type_at types.old) a)) types.new core) }
    ensures err { IfErr result (λ e. IsRefused types.old line (node.Postfix op (seen (type_at types.old) a)) e) }
    ensures within { IfOk result (λ core. IsIn (length types.new.forms) core) }
    ensures grows { Grows types.old types.new }
{
    types.types_are_within_limits();
    if let Some(number) = step_fault(types, &a) {
        return Err(CheckFault::Constraint { number, line });
    }
    let back = op == PostfixOperator::Decrement;
    let core = stepped(alloc, types, line, Given::Before, back, a)?;
    Ok(core)
}

/// `++a`.
pub(crate) fn increment(
    alloc: Global,
    types: &mut TypeTable,
    line: u32,
    a: CoreExpr,
) -> Result<CoreExpr, CheckFault>
    requires { IsIn (length types.old.forms) a }
    ensures ok { IfOk result (λ core. Becomes types.old line (node.Prefix prefix.Increment (seen (type_at types.old) a)) types.new core) }
    ensures err { IfErr result (λ e. IsRefused types.old line (node.Prefix prefix.Increment (seen (type_at types.old) a)) e) }
    ensures within { IfOk result (λ core. IsIn (length types.new.forms) core) }
    ensures grows { Grows types.old types.new }
{
    types.types_are_within_limits();
    if let Some(number) = step_fault(types, &a) {
        return Err(CheckFault::Constraint { number, line });
    }
    let core = stepped(alloc, types, line, Given::After, false, a)?;
    Ok(core)
}

/// `--a`.
pub(crate) fn decrement(
    alloc: Global,
    types: &mut TypeTable,
    line: u32,
    a: CoreExpr,
) -> Result<CoreExpr, CheckFault>
    requires { IsIn (length types.old.forms) a }
    ensures ok { IfOk result (λ core. Becomes types.old line (node.Prefix prefix.Decrement (seen (type_at types.old) a)) types.new core) }
    ensures err { IfErr result (λ e. IsRefused types.old line (node.Prefix prefix.Decrement (seen (type_at types.old) a)) e) }
    ensures within { IfOk result (λ core. IsIn (length types.new.forms) core) }
    ensures grows { Grows types.old types.new }
{
    types.types_are_within_limits();
    if let Some(number) = step_fault(types, &a) {
        return Err(CheckFault::Constraint { number, line });
    }
    let core = stepped(alloc, types, line, Given::After, true, a)?;
    Ok(core)
}
