//! Arguments as functions take them (C89 3.3.2.2).
ghost use Rattle.std.specs.Prelude.{◌≡◌, ◌<◌, ◌≤◌, length, IfOk};
ghost use Rattle.c_types.specs.Table.{AreBelow, type_at, types as table_types, types_in};
ghost use Rattle.c_meaning.specs.CoreTrees.{AreIn, Cores, IsIn, all_seen, cores_of, seen};
ghost use Rattle.c_meaning.specs.Values.{CoreTrees, all_passed, passed_open as as_open, passed_to as as_parameter};
ghost use Rattle.c_values.specs.Passing.{behind};

use crate::forming::{converted, promoted};
use crate::kinds;
use c_meaning::CoreExpr;
use c_types::{TypeId, TypeTable};
use lcc_base::{Items, Memory};
use std::alloc::Global;

/// A value passed to a parameter of the type. A structure is passed as it is.
pub fn passed_to(
    alloc: Global,
    types: &TypeTable,
    to: TypeId,
    v: CoreExpr,
) -> Result<CoreExpr, Memory>
    requires to { to < length types.now.forms }
    requires v { IsIn (length types.now.forms) v }
    ensures means { IfOk result (λ c. seen (type_at types.now) c ≡ as_parameter (type_at types.now to) (seen (type_at types.now) v)) }
    ensures within { IfOk result (λ c. IsIn (length types.now.forms) c) }
{
    if kinds::is_record(types, to) {
        return Ok(v);
    }
    let of = kinds::unqualified_type(types, to);
    converted(alloc, types, of, v)
}

/// A value passed without a parameter, by the default promotions.
fn passed_open(alloc: Global, types: &TypeTable, v: CoreExpr) -> Result<CoreExpr, Memory>
    requires { IsIn (length types.now.forms) v }
    ensures means { IfOk result (λ c. seen (type_at types.now) c ≡ as_open (seen (type_at types.now) v)) }
    ensures within { IfOk result (λ c. IsIn (length types.now.forms) c) }
{
    if kinds::is_integer(types, v.of) {
        return promoted(alloc, types, v);
    }
    let of = v.of;
    passed_to(alloc, types, of, v)
}

/// A value passed to the first of the parameters that are left, if there is any.
fn passed_first(
    alloc: Global,
    types: &TypeTable,
    left: &[TypeId],
    v: CoreExpr,
) -> Result<CoreExpr, Memory>
    requires left { AreBelow (length types.now.forms) left.now }
    requires v { IsIn (length types.now.forms) v }
    ensures means { IfOk result (λ c. (rest : CoreTrees) → all_passed (types_in (table_types types.now) left.now) (Cores (seen (type_at types.now) v) rest) ≡ Cores (seen (type_at types.now) c) (all_passed (types_in (table_types types.now) (behind left.now)) rest)) }
    ensures within { IfOk result (λ c. IsIn (length types.now.forms) c) }
{
    match left {
        [to, ..] => passed_to(alloc, types, *to, v),
        [] => passed_open(alloc, types, v),
    }
}

/// The parameters behind the first.
fn behind_first(left: &[TypeId]) -> &[TypeId]
    ensures { result.now ≡ behind left.now }
{
    match left {
        [_, others @ ..] => others,
        [] => left,
    }
}

/// A function, and behind it the arguments as its parameters ask. Those for which there is no
/// parameter take the default promotions.
pub fn passed(
    alloc: Global,
    types: &TypeTable,
    function: CoreExpr,
    parameters: &[TypeId],
    arguments: Items<CoreExpr>,
) -> Result<Items<CoreExpr>, Memory>
    requires function { IsIn (length types.now.forms) function }
    requires parameters { AreBelow (length types.now.forms) parameters.now }
    requires arguments { AreIn (length types.now.forms) (cores_of arguments) }
    requires few { length arguments ≤ 127 }
    ensures means { IfOk result (λ ks. all_seen (type_at types.now) (cores_of ks) ≡ Cores (seen (type_at types.now) function) (all_passed (types_in (table_types types.now) parameters.now) (all_seen (type_at types.now) (cores_of arguments)))) }
    ensures within { IfOk result (λ ks. AreIn (length types.now.forms) (cores_of ks)) }
{
    let mut kids = Items::with_capacity(alloc, arguments.len() + 1)?;
    kids.push(function)?;
    let mut left = parameters;
    for v in arguments.into_vec() {
        let argument = passed_first(alloc, types, left, v)?;
        kids.push(argument)?;
        left = behind_first(left);
    }
    Ok(kids)
}
