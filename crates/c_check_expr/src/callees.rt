//! What is called, and whether the arguments fit (C89 3.3.2.2).
ghost use Rattle.std.specs.Prelude.{◌≡◌, ◌<◌, ◌&&◌, ℕ, Bool, length, true, false, IfSome, IfNone};
ghost use Rattle.c_types.specs.CType.{Plain, Function};
ghost use Rattle.c_types.specs.Facts.{IsWithin};
ghost use Rattle.c_types.specs.Layout.{known};
ghost use Rattle.c_types.specs.Table.{AreBelow, AreSomeBelow, Table, parameters_in, tags, type_at, types as table_types, types_in};
ghost use Rattle.c_meaning.specs.Constraints.{count_of};
ghost use Rattle.c_meaning.specs.CoreTrees.{AreIn, IsIn, all_seen, cores_of, seen};
ghost use Rattle.c_meaning.specs.ExprConstraints.{all_assignable, all_passable as all_pass, are_as_many as as_many_as, are_assignable as assignable};
ghost use Rattle.c_meaning.specs.Rows.{called as callee, result_type};
ghost use Rattle.c_meaning.specs.Types.{is_function, is_pointer as pointers, target as pointed};
ghost use Rattle.c_meaning.specs.Values.{CoreTrees, value, values};
ghost use Rattle.c_check_expr.specs.Calling.{call_broken};
ghost use Rattle.c_values.specs.Valued.{IsValueIn, valued};

use c_meaning::CoreExpr;
use c_types::{TypeId, TypeTable};
use c_values::ValueType;
use c_values::assigning::{is_assignable, is_passable};
use c_values::operand_tests::is_open_record;
use c_values::values::{target, value_type};
use lcc_base::Items;

/// The function that a value points to: its result, its parameters where they are listed, and whether
/// `...` stands behind them.
pub(crate) fn called(
    types: &TypeTable,
    v: ValueType,
) -> Option<(TypeId, &Option<Items<TypeId>>, bool)>
    requires { IsValueIn (length types.now.forms) v }
    ensures pointer { IfSome result (λ r. pointers (valued types.now v) ≡ true) }
    ensures function { IfSome result (λ r. (q : ℕ) × (pointed (valued types.now v) ≡ Plain q (Function (type_at types.now r.0) (parameters_in (table_types types.now) r.1.now r.2)))) }
    ensures place { IfSome result (λ r. r.0 < length types.now.forms) }
    ensures places { IfSome result (λ r. AreSomeBelow (length types.now.forms) r.1.now) }
    ensures none { IfNone result ((pointers (valued types.now v) && is_function (pointed (valued types.now v))) ≡ false) }
{
    match target(types, v) {
        Some(to) => {
            let (base, _) = types.unqualified(to.of);
            types.function_of(base)
        }
        None => None,
    }
}

/// Whether there are as many arguments as the parameters ask.
fn are_as_many(parameters: &Option<Items<TypeId>>, more: bool, count: usize) -> bool
    ensures { (t : Table) (vs : CoreTrees) → count_of vs ≡ count → result ≡ as_many_as (parameters_in (table_types t) parameters.now more) vs }
{
    match parameters {
        None => true,
        Some(ids) if more => ids.len() <= count,
        Some(ids) => ids.len() == count,
    }
}

/// Whether the values of the arguments may be assigned to the parameters, as far as there are both.
fn are_assignable(types: &TypeTable, parameters: &[TypeId], arguments: &[CoreExpr]) -> bool
    requires parameters { AreBelow (length types.now.forms) parameters.now }
    requires arguments { AreIn (length types.now.forms) (cores_of arguments.now) }
    ensures { result ≡ all_assignable (types_in (table_types types.now) parameters.now) (values (all_seen (type_at types.now) (cores_of arguments.now))) }
{
    let mut left = arguments;
    for to in parameters {
        let [argument, others @ ..] = left else {
            return true;
        };
        if !is_assignable(types, *to, argument) {
            return false;
        }
        left = others;
    }
    true
}

/// Whether the arguments have values that can be handed over.
fn all_passable(types: &TypeTable, arguments: &[CoreExpr]) -> bool
    requires { AreIn (length types.now.forms) (cores_of arguments.now) }
    ensures { result ≡ all_pass (tags types.now) (values (all_seen (type_at types.now) (cores_of arguments.now))) }
{
    for argument in arguments {
        if !is_passable(types, argument) {
            return false;
        }
    }
    true
}

/// Whether the arguments have values, which may be assigned to the parameters where these are listed.
fn fit(types: &TypeTable, parameters: &Option<Items<TypeId>>, arguments: &[CoreExpr]) -> bool
    requires parameters { AreSomeBelow (length types.now.forms) parameters.now }
    requires arguments { AreIn (length types.now.forms) (cores_of arguments.now) }
    ensures { (more : Bool) → result ≡ (assignable (parameters_in (table_types types.now) parameters.now more) (values (all_seen (type_at types.now) (cores_of arguments.now))) && all_pass (tags types.now) (values (all_seen (type_at types.now) (cores_of arguments.now)))) }
{
    match parameters {
        Some(ids) => {
            are_assignable(types, ids.as_slice(), arguments) && all_passable(types, arguments)
        }
        None => all_passable(types, arguments),
    }
}

/// The first constraint that a call breaks.
pub(crate) fn call_fault(types: &TypeTable, f: &CoreExpr, arguments: &[CoreExpr]) -> Option<u8>
    requires f { IsIn (length types.now.forms) f.now }
    requires arguments { AreIn (length types.now.forms) (cores_of arguments.now) }
    ensures is { result ≡ call_broken (tags types.now) (seen (type_at types.now) f.now) (all_seen (type_at types.now) (cores_of arguments.now)) }
    ensures within { IfNone result (IsWithin (known (tags types.now)) (result_type (callee (value (seen (type_at types.now) f.now))))) }
{
    types.types_are_within_limits();
    let Some((result, parameters, more)) = called(types, value_type(types, f)) else {
        return Some(29);
    };
    if is_open_record(types, ValueType::Own(result)) {
        Some(29)
    } else if !are_as_many(parameters, more, arguments.len()) {
        Some(30)
    } else if !fit(types, parameters, arguments) {
        Some(31)
    } else {
        None
    }
}
