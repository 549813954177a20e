//! What statements take of expressions: tests, switches' values and what is returned (C89 3.6.4 to 3.6.6).
ghost use Rattle.std.specs.Prelude.{◌≡◌, ◌<◌, None, Some, length, IfOk, IfErr, OnOk};
ghost use Rattle.c_types.specs.CType.{unqualified};
ghost use Rattle.c_types.specs.Table.{Grows, tags, type_at};
ghost use Rattle.c_meaning.specs.CoreTrees.{IsIn};
ghost use Rattle.c_meaning.specs.Rows.{stored};
ghost use Rattle.c_meaning.specs.StmtTrees.{IsSomeIn};
ghost use Rattle.c_meaning.specs.Values.{promoted_value, value};
ghost use Rattle.c_values.specs.Valued.{IsValueIn, valued};
ghost use Rattle.c_check_expr.specs.Walks.{core};
ghost use Rattle.c_units.specs.Bodies.{maybe_value, returned as returned_by};
ghost use Rattle.c_units.specs.Statements as node;
ghost use Rattle.c_check_expr.specs.StepFaults.{IsFault};
ghost use Rattle.c_stmt_parts.specs.Asked.{IsSound, IsToldAt, maybe_core, maybe_test_broken, return_broken, test_broken};
ghost use Rattle.c_stmt_parts.specs.Heads.{IsHeadIn, for_node};

use c_meaning::{CoreExpr, CoreForHead};
use c_types::{TypeId, TypeTable};
use c_values::assigning::{is_assignable, is_sized};
use c_values::forming::{converted, into_value, promoted};
use c_values::values::{is_integer, is_record, is_scalar, is_void, value_type};
use c_values::{CheckFault, ValueType, kinds};
use std::alloc::Global;

/// Whether there is no value: the type is void or incomplete.
fn is_nothing(types: &TypeTable, v: ValueType) -> bool
    requires { IsValueIn (length types.now.forms) v }
    ensures { result ≡ node.is_nothing (tags types.now) (valued types.now v) }
{
    is_void(types, v) || (is_record(types, v) && !is_sized(types, v))
}

/// The first constraint that a test breaks.
fn test_fault(types: &TypeTable, e: &CoreExpr) -> Option<u8>
    requires { IsIn (length types.now.forms) e.now }
    ensures { result ≡ test_broken (tags types.now) (core types.now e.now) }
{
    let v = value_type(types, e);
    if is_nothing(types, v) {
        Some(46)
    } else if !is_scalar(types, v) {
        Some(47)
    } else {
        None
    }
}

/// The value that an `if`, a `while` or a `do` on this line tests.
pub fn test(
    alloc: Global,
    types: &mut TypeTable,
    line: u32,
    e: CoreExpr,
) -> Result<CoreExpr, CheckFault>
    requires { IsIn (length types.old.forms) e }
    ensures ok { IfOk result (λ c. core types.new c ≡ value (core types.old e)) }
    ensures sound { OnOk result (IsSound types.old line (node.Test (core types.old e))) }
    ensures told { IfErr result (IsToldAt types.old line (node.Test (core types.old e))) }
    ensures within { IfOk result (IsIn (length types.new.forms)) }
    ensures grows { Grows types.old types.new }
{
    if let Some(number) = test_fault(types, &e) {
        return Err(CheckFault::Constraint { number, line });
    }
    types.types_are_within_limits();
    let own = e.line;
    into_value(alloc, types, own, e)
}

/// The value of an expression that is a statement.
pub fn evaluated(
    alloc: Global,
    types: &mut TypeTable,
    line: u32,
    e: CoreExpr,
) -> Result<CoreExpr, CheckFault>
    requires { IsIn (length types.old.forms) e }
    ensures ok { IfOk result (λ c. core types.new c ≡ value (core types.old e)) }
    ensures sound { OnOk result (IsSound types.old line (node.Expression (core types.old e))) }
    ensures told { IfErr result (IsToldAt types.old line (node.Expression (core types.old e))) }
    ensures within { IfOk result (IsIn (length types.new.forms)) }
    ensures grows { Grows types.old types.new }
{
    types.types_are_within_limits();
    let own = e.line;
    into_value(alloc, types, own, e)
}

/// The promoted value of a `switch` on this line.
pub fn switched(
    alloc: Global,
    types: &mut TypeTable,
    line: u32,
    e: CoreExpr,
) -> Result<CoreExpr, CheckFault>
    requires { IsIn (length types.old.forms) e }
    ensures ok { IfOk result (λ c. core types.new c ≡ promoted_value (value (core types.old e))) }
    ensures sound { OnOk result (IsSound types.old line (node.Switch (core types.old e))) }
    ensures told { IfErr result (IsToldAt types.old line (node.Switch (core types.old e))) }
    ensures within { IfOk result (IsIn (length types.new.forms)) }
    ensures grows { Grows types.old types.new }
{
    let v = value_type(types, &e);
    if is_nothing(types, v) {
        return Err(CheckFault::Constraint { number: 46, line });
    }
    if !is_integer(types, v) {
        return Err(CheckFault::Constraint { number: 47, line });
    }
    types.types_are_within_limits();
    let own = e.line;
    let v = into_value(alloc, types, own, e)?;
    Ok(promoted(alloc, types, v)?)
}

/// The value of an expression, if there is one.
fn maybe_evaluated(
    alloc: Global,
    types: &mut TypeTable,
    e: Option<CoreExpr>,
) -> Result<Option<CoreExpr>, CheckFault>
    requires { IsSomeIn (length types.old.forms) e }
    ensures ok { IfOk result (λ c. maybe_core types.new c ≡ maybe_value (maybe_core types.old e)) }
    ensures sound { OnOk result (node.value_fault (tags types.old) (maybe_core types.old e) ≡ None) }
    ensures told { IfErr result (λ f. IsFault f (node.value_fault (tags types.old) (maybe_core types.old e))) }
    ensures within { IfOk result (IsSomeIn (length types.new.forms)) }
    ensures grows { Grows types.old types.new }
{
    match e {
        Some(e) => {
            types.types_are_within_limits();
            let own = e.line;
            Ok(Some(into_value(alloc, types, own, e)?))
        }
        None => Ok(None),
    }
}

/// The values of the head of a `for` on this line.
pub fn repeated(
    alloc: Global,
    types: &mut TypeTable,
    line: u32,
    head: CoreForHead,
) -> Result<CoreForHead, CheckFault>
    requires { IsHeadIn (length types.old.forms) head }
    ensures first { IfOk result (λ h. maybe_core types.new h.first ≡ maybe_value (maybe_core types.old head.first)) }
    ensures test { IfOk result (λ h. maybe_core types.new h.test ≡ maybe_value (maybe_core types.old head.test)) }
    ensures last { IfOk result (λ h. maybe_core types.new h.last ≡ maybe_value (maybe_core types.old head.last)) }
    ensures sound { OnOk result (IsSound types.old line (for_node types.old head)) }
    ensures told { IfErr result (IsToldAt types.old line (for_node types.old head)) }
    ensures within { IfOk result (IsHeadIn (length types.new.forms)) }
    ensures grows { Grows types.old types.new }
{
    if let Some(number) = maybe_test_fault(types, &head.test) {
        return Err(CheckFault::Constraint { number, line });
    }
    let CoreForHead { first, test, last } = head;
    let first = maybe_evaluated(alloc, types, first)?;
    let test = maybe_evaluated(alloc, types, test)?;
    let last = maybe_evaluated(alloc, types, last)?;
    Ok(CoreForHead { first, test, last })
}

/// The first constraint that the test of a `for` breaks, if it has one.
fn maybe_test_fault(types: &TypeTable, e: &Option<CoreExpr>) -> Option<u8>
    requires { IsSomeIn (length types.now.forms) e.now }
    ensures { result ≡ maybe_test_broken (tags types.now) (maybe_core types.now e.now) }
{
    match e {
        Some(e) => test_fault(types, e),
        None => None,
    }
}

/// The first constraint that a `return` of this value breaks in a function with this result.
fn return_fault(types: &TypeTable, to: TypeId, e: &CoreExpr) -> Option<u8>
    requires to { to < length types.now.forms }
    requires within { IsIn (length types.now.forms) e.now }
    ensures { result ≡ return_broken (tags types.now) (type_at types.now to) (core types.now e.now) }
{
    if is_nothing(types, value_type(types, e)) {
        return Some(46);
    }
    if kinds::is_void(types, to) || !is_assignable(types, kinds::unqualified_type(types, to), e) {
        return Some(51);
    }
    None
}

/// The value that a `return` on this line gives in a function with this result.
fn returned_value(
    alloc: Global,
    types: &mut TypeTable,
    line: u32,
    to: TypeId,
    e: CoreExpr,
) -> Result<CoreExpr, CheckFault>
    requires to { to < length types.old.forms }
    requires within { IsIn (length types.old.forms) e }
    ensures ok { IfOk result (λ c. core types.new c ≡ stored (unqualified (type_at types.old to)) (value (core types.old e))) }
    ensures sound { OnOk result (IsSound types.old line (node.Return (type_at types.old to) (Some (core types.old e)))) }
    ensures told { IfErr result (IsToldAt types.old line (node.Return (type_at types.old to) (Some (core types.old e)))) }
    ensures within { IfOk result (IsIn (length types.new.forms)) }
    ensures grows { Grows types.old types.new }
{
    if let Some(number) = return_fault(types, to, &e) {
        return Err(CheckFault::Constraint { number, line });
    }
    types.types_are_within_limits();
    let own = e.line;
    let v = into_value(alloc, types, own, e)?;
    let to = kinds::unqualified_type(types, to);
    if kinds::is_record(types, to) {
        return Ok(v);
    }
    Ok(converted(alloc, types, to, v)?)
}

/// What a `return` on this line gives in a function with this result.
pub fn returned(
    alloc: Global,
    types: &mut TypeTable,
    line: u32,
    to: TypeId,
    e: Option<CoreExpr>,
) -> Result<Option<CoreExpr>, CheckFault>
    requires to { to < length types.old.forms }
    requires within { IsSomeIn (length types.old.forms) e }
    ensures ok { IfOk result (λ c. maybe_core types.new c ≡ returned_by (type_at types.old to) (maybe_core types.old e)) }
    ensures sound { OnOk result (IsSound types.old line (node.Return (type_at types.old to) (maybe_core types.old e))) }
    ensures told { IfErr result (IsToldAt types.old line (node.Return (type_at types.old to) (maybe_core types.old e))) }
    ensures within { IfOk result (IsSomeIn (length types.new.forms)) }
    ensures grows { Grows types.old types.new }
{
    match e {
        Some(e) => Ok(Some(returned_value(alloc, types, line, to, e)?)),
        None => Ok(None),
    }
}
