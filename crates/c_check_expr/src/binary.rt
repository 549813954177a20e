//! Nodes of operators with two operands that give a value (C89 3.3.5 to 3.3.14).
ghost use Rattle.std.specs.Prelude.{◌≡◌, ◌<◌, length, true, IfOk, IfErr};
ghost use Rattle.c_types.specs.Table.{Grows, tags, type_at};
ghost use Rattle.c_meaning.specs.Constraints.{constraints, first_broken};
ghost use Rattle.c_meaning.specs.CoreTrees.{IsIn, seen, type_of};
ghost use Rattle.c_meaning.specs.Nodes as node;
ghost use Rattle.c_meaning.specs.ExprConstraints.{can_combine as combinable, can_compare as comparable};
ghost use Rattle.c_meaning.specs.Rows.{combined as combination};
ghost use Rattle.c_meaning.specs.State.{State};
ghost use Rattle.c_check_expr.specs.AtNode.{Becomes, IsRefused};

use crate::operand_values::into_two_values;
use c_ast::BinaryOperator;
use c_meaning::{CoreExpr, CoreKind};
use c_types::TypeTable;
use c_values::CheckFault;
use c_values::arithmetic::{arithmetic, shift};
use c_values::basic_places::INT;
use c_values::comparisons::compared;
use c_values::forming::with_two;
use c_values::operand_tests::{can_combine, can_compare, can_test, cannot_move};
use c_values::sums::{less, sum};
use c_values::values::value_type;
use lcc_base::Memory;
use objects::{Binary, Comparison};
use std::alloc::Global;

/// The number of the first constraint that the operands break.
fn broken(types: &TypeTable, op: BinaryOperator, a: &CoreExpr, b: &CoreExpr) -> Option<u8>
    requires a { IsIn (length types.now.forms) a.now }
    requires b { IsIn (length types.now.forms) b.now }
    ensures { (s : State) → s.tags ≡ tags types.now → first_broken constraints s (node.Expression (node.Binary op (seen (type_at types.now) a.now) (seen (type_at types.now) b.now))) ≡ result }
{
    let t = value_type(types, a);
    let u = value_type(types, b);
    if !can_combine(types, op, t, u) {
        Some(40)
    } else if cannot_move(types, op, t, u) {
        Some(41)
    } else if !can_compare(types, op, a, b) {
        Some(42)
    } else if !can_test(types, op, t, u) {
        Some(43)
    } else {
        None
    }
}

/// What the operator makes of two values that it takes.
fn combined(
    alloc: Global,
    types: &TypeTable,
    line: u32,
    op: BinaryOperator,
    v: CoreExpr,
    w: CoreExpr,
) -> Result<CoreExpr, Memory>
    requires first { IsIn (length types.now.forms) v }
    requires second { IsIn (length types.now.forms) w }
    requires kinds { combinable op (type_at types.now (type_of v)) (type_at types.now (type_of w)) ≡ true }
    requires compares { comparable (tags types.now) op (seen (type_at types.now) v) (seen (type_at types.now) w) ≡ true }
    ensures means { IfOk result (λ c. seen (type_at types.now) c ≡ combination (tags types.now) line op (seen (type_at types.now) v) (seen (type_at types.now) w)) }
    ensures within { IfOk result (λ c. IsIn (length types.now.forms) c) }
{
    let int = types.basic_type(INT);
    match op {
        BinaryOperator::Or => with_two(alloc, CoreKind::Or, int, line, (v, w)),
        BinaryOperator::And => with_two(alloc, CoreKind::And, int, line, (v, w)),
        BinaryOperator::BitOr => arithmetic(alloc, types, line, Binary::Or, v, w),
        BinaryOperator::BitXor => arithmetic(alloc, types, line, Binary::Xor, v, w),
        BinaryOperator::BitAnd => arithmetic(alloc, types, line, Binary::And, v, w),
        BinaryOperator::Equal => compared(alloc, types, line, Comparison::Equal, v, w),
        BinaryOperator::NotEqual => compared(alloc, types, line, Comparison::NotEqual, v, w),
        BinaryOperator::Less => compared(alloc, types, line, Comparison::Less, v, w),
        BinaryOperator::Greater => compared(alloc, types, line, Comparison::Greater, v, w),
        BinaryOperator::LessEqual => compared(alloc, types, line, Comparison::LessEqual, v, w),
        BinaryOperator::GreaterEqual => {
            compared(alloc, types, line, Comparison::GreaterEqual, v, w)
        }
        BinaryOperator::ShiftLeft => shift(alloc, types, line, Binary::ShiftLeft, v, w),
        BinaryOperator::ShiftRight => shift(alloc, types, line, Binary::ShiftRight, v, w),
        BinaryOperator::Add => sum(alloc, types, line, v, w),
        BinaryOperator::Subtract => less(alloc, types, line, v, w),
        BinaryOperator::Multiply => arithmetic(alloc, types, line, Binary::Multiply, v, w),
        BinaryOperator::Divide => arithmetic(alloc, types, line, Binary::Divide, v, w),
        BinaryOperator::Remainder => arithmetic(alloc, types, line, Binary::Remainder, v, w),
    }
}

/// `a + b` and the like.
pub(crate) fn binary(
    alloc: Global,
    types: &mut TypeTable,
    line: u32,
    op: BinaryOperator,
    a: CoreExpr,
    b: CoreExpr,
) -> Result<CoreExpr, CheckFault>
    requires a { IsIn (length types.old.forms) a }
    requires b { IsIn (length types.old.forms) b }
    ensures ok { IfOk result (λ core. Becomes types.old line (node.Binary op (seen (type_at types.old) a) (seen (type_at types.old) b)) types.new core) }
    ensures err { IfErr result (λ e. IsRefused types.old line (node.Binary op (seen (type_at types.old) a) (seen (type_at types.old) b)) e) }
    ensures within { IfOk result (λ core. IsIn (length types.new.forms) core) }
    ensures grows { Grows types.old types.new }
{
    types.types_are_within_limits();
    if let Some(number) = broken(types, op, &a, &b) {
        return Err(CheckFault::Constraint { number, line });
    }
    let (v, w) = into_two_values(alloc, types, line, a, b)?;
    let core = combined(alloc, types, line, op, v, w)?;
    types.types_are_within_limits();
    Ok(core)
}
