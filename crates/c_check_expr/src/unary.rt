//! Nodes with one operand that give a value: signs, complement, not, sizes and casts (C89 3.3.3.3, 3.3.3.4, 3.3.4).
ghost use Rattle.std.specs.Prelude.{◌≡◌, ◌<◌, length, IfOk, IfErr};
ghost use Rattle.c_ast.specs.declared.operator.PrefixOperator.TheVariants as prefix;
ghost use Rattle.c_types.specs.Table.{Grows, tags, type_at};
ghost use Rattle.c_meaning.specs.CoreTrees.{IsIn, seen};
ghost use Rattle.c_meaning.specs.ExprConstraints.{is_bad_cast as bad_cast};
ghost use Rattle.c_meaning.specs.Nodes as node;
ghost use Rattle.c_meaning.specs.State.{State};
ghost use Rattle.c_check_expr.specs.AtNode.{Becomes, IsRefused};
ghost use Rattle.c_check_expr.specs.Operators.{prefix_of};

use crate::access::{address, indirect};
use crate::assign::{decrement, increment};
use c_ast::PrefixOperator;
use c_meaning::{CoreExpr, CoreKind};
use c_types::{TypeId, TypeTable};
use c_values::basic_places::{INT, UNSIGNED};
use c_values::forming::{converted, into_value, leaf, promoted_type, with_one};
use c_values::places::is_bit_field;
use c_values::values::{is_integer, is_scalar, value_type};
use c_values::{CheckFault, ValueType, kinds};
use objects::Unary;
use std::alloc::Global;

/// An operator before its operand.
pub(crate) fn prefix(
    alloc: Global,
    types: &mut TypeTable,
    line: u32,
    op: PrefixOperator,
    a: CoreExpr,
) -> Result<CoreExpr, CheckFault>
    requires { IsIn (length types.old.forms) a }
    ensures ok { IfOk result (λ core. Becomes types.old line (node.Prefix op (seen (type_at types.old) a)) types.new core) }
    ensures err { IfErr result (λ e. IsRefused types.old line (node.Prefix op (seen (type_at types.old) a)) e) }
    ensures within { IfOk result (λ core. IsIn (length types.new.forms) core) }
    ensures grows { Grows types.old types.new }
{
    match op {
        PrefixOperator::Increment => increment(alloc, types, line, a),
        PrefixOperator::Decrement => decrement(alloc, types, line, a),
        PrefixOperator::Address => address(alloc, types, line, a),
        PrefixOperator::Indirect => indirect(alloc, types, line, a),
        PrefixOperator::Plus => unary(alloc, types, line, Unary::Plus, a),
        PrefixOperator::Minus => unary(alloc, types, line, Unary::Negate, a),
        PrefixOperator::Complement => unary(alloc, types, line, Unary::Complement, a),
        PrefixOperator::Not => not(alloc, types, line, a),
    }
}

/// `+a`, `-a` or `~a`.
fn unary(
    alloc: Global,
    types: &mut TypeTable,
    line: u32,
    op: Unary,
    a: CoreExpr,
) -> Result<CoreExpr, CheckFault>
    requires { IsIn (length types.old.forms) a }
    ensures ok { IfOk result (λ core. Becomes types.old line (node.Prefix (prefix_of op) (seen (type_at types.old) a)) types.new core) }
    ensures err { IfErr result (λ e. IsRefused types.old line (node.Prefix (prefix_of op) (seen (type_at types.old) a)) e) }
    ensures within { IfOk result (λ core. IsIn (length types.new.forms) core) }
    ensures grows { Grows types.old types.new }
{
    if !is_integer(types, value_type(types, &a)) {
        return Err(CheckFault::Constraint { number: 37, line });
    }
    types.types_are_within_limits();
    let v = into_value(alloc, types, line, a)?;
    let of = promoted_type(types, &v);
    let v = converted(alloc, types, of, v)?;
    Ok(with_one(alloc, CoreKind::Unary(op), of, line, v)?)
}

/// `!a`.
fn not(alloc: Global, types: &mut TypeTable, line: u32, a: CoreExpr) -> Result<CoreExpr, CheckFault>
    requires { IsIn (length types.old.forms) a }
    ensures ok { IfOk result (λ core. Becomes types.old line (node.Prefix prefix.Not (seen (type_at types.old) a)) types.new core) }
    ensures err { IfErr result (λ e. IsRefused types.old line (node.Prefix prefix.Not (seen (type_at types.old) a)) e) }
    ensures within { IfOk result (λ core. IsIn (length types.new.forms) core) }
    ensures grows { Grows types.old types.new }
{
    if !is_scalar(types, value_type(types, &a)) {
        return Err(CheckFault::Constraint { number: 37, line });
    }
    types.types_are_within_limits();
    let v = into_value(alloc, types, line, a)?;
    let of = types.basic_type(INT);
    Ok(with_one(alloc, CoreKind::Not, of, line, v)?)
}

/// `sizeof a`.
pub(crate) fn sizeof_expr(
    alloc: Global,
    types: &mut TypeTable,
    line: u32,
    a: CoreExpr,
) -> Result<CoreExpr, CheckFault>
    requires { IsIn (length types.old.forms) a }
    ensures ok { IfOk result (λ core. Becomes types.old line (node.SizeofExpr (seen (type_at types.old) a)) types.new core) }
    ensures err { IfErr result (λ e. IsRefused types.old line (node.SizeofExpr (seen (type_at types.old) a)) e) }
    ensures within { IfOk result (λ core. IsIn (length types.new.forms) core) }
    ensures grows { Grows types.old types.new }
{
    if is_bit_field(&a) {
        return Err(CheckFault::Constraint { number: 38, line });
    }
    sizeof_type(alloc, types, line, a.of)
}

/// `sizeof(T)`.
pub(crate) fn sizeof_type(
    alloc: Global,
    types: &mut TypeTable,
    line: u32,
    of: TypeId,
) -> Result<CoreExpr, CheckFault>
    requires { of < length types.old.forms }
    ensures ok { IfOk result (λ core. Becomes types.old line (node.SizeofType (type_at types.old of)) types.new core) }
    ensures err { IfErr result (λ e. IsRefused types.old line (node.SizeofType (type_at types.old of)) e) }
    ensures within { IfOk result (λ core. IsIn (length types.new.forms) core) }
    ensures grows { Grows types.old types.new }
{
    match types.size(of) {
        Some(size) => {
            let number = types.basic_type(UNSIGNED);
            Ok(leaf(alloc, CoreKind::Number(size), number, line))
        }
        None => Err(CheckFault::Constraint { number: 38, line }),
    }
}

/// Whether a cast is to neither void nor a scalar, or of no scalar to a scalar.
fn is_bad_cast(types: &TypeTable, to: TypeId, a: &CoreExpr) -> bool
    requires to { to < length types.now.forms }
    requires a { IsIn (length types.now.forms) a.now }
    ensures { (s : State) → result ≡ bad_cast s (node.Cast (type_at types.now to) (seen (type_at types.now) a.now)) }
{
    let is_fit = is_scalar(types, ValueType::Own(to)) && is_scalar(types, value_type(types, a));
    !(kinds::is_void(types, to) || is_fit)
}

/// `(T)a`.
pub(crate) fn cast(
    alloc: Global,
    types: &mut TypeTable,
    line: u32,
    to: TypeId,
    a: CoreExpr,
) -> Result<CoreExpr, CheckFault>
    requires to { to < length types.old.forms }
    requires a { IsIn (length types.old.forms) a }
    ensures ok { IfOk result (λ core. Becomes types.old line (node.Cast (type_at types.old to) (seen (type_at types.old) a)) types.new core) }
    ensures err { IfErr result (λ e. IsRefused types.old line (node.Cast (type_at types.old to) (seen (type_at types.old) a)) e) }
    ensures within { IfOk result (λ core. IsIn (length types.new.forms) core) }
    ensures grows { Grows types.old types.new }
{
    if is_bad_cast(types, to, &a) {
        return Err(CheckFault::Constraint { number: 39, line });
    }
    types.types_are_within_limits();
    let what = CoreKind::Convert(kinds::conversion(types, to));
    let of = kinds::unqualified_type(types, to);
    let v = into_value(alloc, types, line, a)?;
    Ok(with_one(alloc, what, of, line, v)?)
}
