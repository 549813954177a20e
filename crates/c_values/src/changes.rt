//! How assignments, `++` and `--` change the value of a place (C89 3.3.16.2, 3.3.2.4, 3.3.3.1).
ghost use Rattle.std.specs.Prelude.{◌≡◌, ◌≢◌, ◌<◌, ℕ, length, true, IfOk};
ghost use Rattle.c_ast.specs.declared.operator.AssignOperator.TheVariants as assign;
ghost use Rattle.c_types.specs.Conversions.{is_integer as integer};
ghost use Rattle.c_types.specs.Table.{tags, type_at};
ghost use Rattle.c_meaning.specs.declared.core_expr.Change.{Change};
ghost use Rattle.c_meaning.specs.declared.core_expr.Change.TheVariants as change;
ghost use Rattle.c_meaning.specs.declared.core_expr.CoreKind.{CoreKind};
ghost use Rattle.c_meaning.specs.declared.core_expr.CoreKind.TheVariants as kind;
ghost use Rattle.c_meaning.specs.CoreTrees.{IsIn, seen, type_of};
ghost use Rattle.c_meaning.specs.ExprConstraints.{can_assign, can_be_stepped, can_step};
ghost use Rattle.c_meaning.specs.Rows.{added, assigned as assignment, changes, size_of, stepped as steps, stored as as_stored};
ghost use Rattle.c_meaning.specs.Scalars.{is_signed};
ghost use Rattle.c_meaning.specs.Values.{is_place as place, converted as as_type, promoted_type as promotion, promoted_value as promotion_of, usual_type as common_type, value};
ghost use Rattle.c_values.specs.Giving.{giving};

use crate::basic_places::INT;
use crate::forming::{converted, leaf, promoted, promoted_type, with_two};
use crate::kinds;
use crate::places::width;
use c_ast::AssignOperator;
use c_meaning::{Change, CoreExpr, CoreKind};
use c_types::{TypeId, TypeTable};
use lcc_base::Memory;
use objects::Binary;
use std::alloc::Global;

/// Which value an expression that changes a place gives.
#[derive(Clone, Copy, Debug)]
pub enum Given {
    /// That before the change.
    Before,
    /// That after it.
    After,
}

/// A change of a place, and its right operand.
#[derive(Debug, Drop)]
pub struct Changing {
    pub by: Change,
    pub operand: CoreExpr,
}

/// The type to which the integral promotions bring the value of a place.
fn promoted_place(types: &TypeTable, a: &CoreExpr) -> TypeId
    requires within { IsIn (length types.now.forms) a.now }
    requires integer { integer (type_at types.now (type_of a.now)) ≡ true }
    requires place { place (seen (type_at types.now) a.now) ≡ true }
    ensures means { type_at types.now result ≡ promotion (value (seen (type_at types.now) a.now)) }
    ensures within { result < length types.now.forms }
    ensures integer { integer (type_at types.now result) ≡ true }
{
    let width = width(a);
    if width > 0 && width < 32 {
        types.basic_type(INT)
    } else {
        let promoted = types.promote(a.of);
        types.basic_type(promoted)
    }
}

/// An operator on a number that a place holds, at the type of the usual arithmetic conversions.
fn acting(
    alloc: Global,
    types: &TypeTable,
    operator: Binary,
    a: &CoreExpr,
    w: CoreExpr,
) -> Result<Changing, Memory>
    requires a { IsIn (length types.now.forms) a.now }
    requires a_integer { integer (type_at types.now (type_of a.now)) ≡ true }
    requires place { place (seen (type_at types.now) a.now) ≡ true }
    requires w { IsIn (length types.now.forms) w }
    requires w_integer { integer (type_at types.now (type_of w)) ≡ true }
    ensures by { IfOk result (λ c. c.by ≡ change.Arithmetic operator (is_signed (common_type (value (seen (type_at types.now) a.now)) (seen (type_at types.now) w)))) }
    ensures operand { IfOk result (λ c. seen (type_at types.now) c.operand ≡ as_type (common_type (value (seen (type_at types.now) a.now)) (seen (type_at types.now) w)) (seen (type_at types.now) w)) }
    ensures within { IfOk result (λ c. IsIn (length types.now.forms) c.operand) }
{
    let common = types.usual(promoted_place(types, a), promoted_type(types, &w));
    let usual = types.basic_type(common);
    let signed = kinds::scalar(types, usual).signed;
    let operand = converted(alloc, types, usual, w)?;
    Ok(Changing {
        by: Change::Arithmetic { operator, signed },
        operand,
    })
}

/// A shift of a number that a place holds: each operand is promoted by itself.
fn shifting(
    alloc: Global,
    types: &TypeTable,
    operator: Binary,
    a: &CoreExpr,
    w: CoreExpr,
) -> Result<Changing, Memory>
    requires a { IsIn (length types.now.forms) a.now }
    requires a_integer { integer (type_at types.now (type_of a.now)) ≡ true }
    requires place { place (seen (type_at types.now) a.now) ≡ true }
    requires w { IsIn (length types.now.forms) w }
    requires w_integer { integer (type_at types.now (type_of w)) ≡ true }
    ensures by { IfOk result (λ c. c.by ≡ change.Arithmetic operator (is_signed (promotion (value (seen (type_at types.now) a.now))))) }
    ensures operand { IfOk result (λ c. seen (type_at types.now) c.operand ≡ promotion_of (seen (type_at types.now) w)) }
    ensures within { IfOk result (λ c. IsIn (length types.now.forms) c.operand) }
{
    let signed = kinds::scalar(types, promoted_place(types, a)).signed;
    let operand = promoted(alloc, types, w)?;
    Ok(Changing {
        by: Change::Arithmetic { operator, signed },
        operand,
    })
}

/// A pointer to elements of the type moved by so many.
fn moving(
    alloc: Global,
    types: &TypeTable,
    back: bool,
    element: TypeId,
    w: CoreExpr,
) -> Result<Changing, Memory>
    requires element { element < length types.now.forms }
    requires w { IsIn (length types.now.forms) w }
    requires w_integer { integer (type_at types.now (type_of w)) ≡ true }
    ensures by { IfOk result (λ c. c.by ≡ change.Pointer (size_of (tags types.now) (type_at types.now element)) back) }
    ensures operand { IfOk result (λ c. seen (type_at types.now) c.operand ≡ promotion_of (seen (type_at types.now) w)) }
    ensures within { IfOk result (λ c. IsIn (length types.now.forms) c.operand) }
{
    let size = types.size(element).unwrap_or(0);
    let operand = promoted(alloc, types, w)?;
    Ok(Changing {
        by: Change::Pointer { size, back },
        operand,
    })
}

/// The change of `+=` and `++`, or backwards of `-=` and `--`.
pub fn adding(
    alloc: Global,
    types: &TypeTable,
    back: bool,
    a: &CoreExpr,
    w: CoreExpr,
) -> Result<Changing, Memory>
    requires a { IsIn (length types.now.forms) a.now }
    requires place { place (seen (type_at types.now) a.now) ≡ true }
    requires w { IsIn (length types.now.forms) w }
    requires kinds { can_step (type_at types.now (type_of a.now)) (type_at types.now (type_of w)) ≡ true }
    ensures means { IfOk result (λ c. (line : ℕ) (what : Change → CoreKind) → changes line what c.by (seen (type_at types.now) a.now) (seen (type_at types.now) c.operand) ≡ added (tags types.now) line what back (seen (type_at types.now) a.now) (seen (type_at types.now) w)) }
    ensures within { IfOk result (λ c. IsIn (length types.now.forms) c.operand) }
{
    match kinds::target(types, a.of) {
        Some(element) => moving(alloc, types, back, element, w),
        None => {
            let operator = if back { Binary::Subtract } else { Binary::Add };
            acting(alloc, types, operator, a, w)
        }
    }
}

/// What a compound assignment becomes.
fn compound(
    alloc: Global,
    types: &TypeTable,
    op: AssignOperator,
    a: &CoreExpr,
    w: CoreExpr,
) -> Result<Changing, Memory>
    requires compound { op ≢ assign.Plain }
    requires a { IsIn (length types.now.forms) a.now }
    requires place { place (seen (type_at types.now) a.now) ≡ true }
    requires w { IsIn (length types.now.forms) w }
    requires kinds { can_assign op (type_at types.now (type_of a.now)) (type_at types.now (type_of w)) ≡ true }
    ensures means { IfOk result (λ c. (line : ℕ) → changes line kind.Change c.by (seen (type_at types.now) a.now) (seen (type_at types.now) c.operand) ≡ assignment (tags types.now) line op (seen (type_at types.now) a.now) (seen (type_at types.now) w)) }
    ensures within { IfOk result (λ c. IsIn (length types.now.forms) c.operand) }
{
    let operator = match op {
        AssignOperator::Plain => unreachable!(),
        AssignOperator::Add => return adding(alloc, types, false, a, w),
        AssignOperator::Subtract => return adding(alloc, types, true, a, w),
        AssignOperator::ShiftLeft => return shifting(alloc, types, Binary::ShiftLeft, a, w),
        AssignOperator::ShiftRight => return shifting(alloc, types, Binary::ShiftRight, a, w),
        AssignOperator::Multiply => Binary::Multiply,
        AssignOperator::Divide => Binary::Divide,
        AssignOperator::Remainder => Binary::Remainder,
        AssignOperator::BitAnd => Binary::And,
        AssignOperator::BitXor => Binary::Xor,
        AssignOperator::BitOr => Binary::Or,
    };
    acting(alloc, types, operator, a, w)
}

/// The value that is stored in a place of the type: a structure is assigned from a place.
fn stored(alloc: Global, types: &TypeTable, to: TypeId, w: CoreExpr) -> Result<CoreExpr, Memory>
    requires to { to < length types.now.forms }
    requires w { IsIn (length types.now.forms) w }
    ensures means { IfOk result (λ c. seen (type_at types.now) c ≡ as_stored (type_at types.now to) (seen (type_at types.now) w)) }
    ensures within { IfOk result (λ c. IsIn (length types.now.forms) c) }
{
    if kinds::is_record(types, to) {
        Ok(w)
    } else {
        converted(alloc, types, to, w)
    }
}

/// An assignment to a place.
pub fn assigned(
    alloc: Global,
    types: &TypeTable,
    line: u32,
    op: AssignOperator,
    a: CoreExpr,
    w: CoreExpr,
) -> Result<CoreExpr, Memory>
    requires a { IsIn (length types.now.forms) a }
    requires place { place (seen (type_at types.now) a) ≡ true }
    requires w { IsIn (length types.now.forms) w }
    requires kinds { can_assign op (type_at types.now (type_of a)) (type_at types.now (type_of w)) ≡ true }
    ensures means { IfOk result (λ c. seen (type_at types.now) c ≡ assignment (tags types.now) line op (seen (type_at types.now) a) (seen (type_at types.now) w)) }
    ensures within { IfOk result (λ c. IsIn (length types.now.forms) c) }
{
    let of = kinds::unqualified_type(types, a.of);
    if op == AssignOperator::Plain {
        let w = stored(alloc, types, of, w)?;
        return with_two(alloc, CoreKind::Assign, of, line, (a, w));
    }
    let Changing { by, operand } = compound(alloc, types, op, &a, w)?;
    with_two(alloc, CoreKind::Change(by), of, line, (a, operand))
}

/// `++` or, backwards, `--` of a place.
pub fn stepped(
    alloc: Global,
    types: &TypeTable,
    line: u32,
    given: Given,
    back: bool,
    a: CoreExpr,
) -> Result<CoreExpr, Memory>
    requires a { IsIn (length types.now.forms) a }
    requires place { place (seen (type_at types.now) a) ≡ true }
    requires kind { can_be_stepped (type_at types.now (type_of a)) ≡ true }
    ensures means { IfOk result (λ c. seen (type_at types.now) c ≡ steps (tags types.now) line (giving given) back (seen (type_at types.now) a)) }
    ensures within { IfOk result (λ c. IsIn (length types.now.forms) c) }
{
    let one = leaf(alloc, CoreKind::Number(1), types.basic_type(INT), line);
    let Changing { by, operand } = adding(alloc, types, back, &a, one)?;
    let what = match given {
        Given::Before => CoreKind::Postfix(by),
        Given::After => CoreKind::Change(by),
    };
    let of = kinds::unqualified_type(types, a.of);
    with_two(alloc, what, of, line, (a, operand))
}
