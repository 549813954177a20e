//! Nodes of calls and of the comma (C89 3.3.2.2, 3.3.17).
ghost use Rattle.std.specs.Prelude.{◌≡◌, ◌<◌, ◌≤◌, ◌&&◌, length, true, false, IfOk, IfErr, OnOk};
ghost use Rattle.c_types.specs.Table.{Grows, tags, type_at};
ghost use Rattle.c_meaning.specs.Constraints.{some_deep, value_types};
ghost use Rattle.c_meaning.specs.CoreTrees.{AreIn, IsIn, all_seen, cores_of, seen, type_of};
ghost use Rattle.c_meaning.specs.ExprConstraints.{is_last_open};
ghost use Rattle.c_meaning.specs.Nodes as node;
ghost use Rattle.c_meaning.specs.Rows.{call as call_row, last_type as last};
ghost use Rattle.c_meaning.specs.Types.{is_function, is_pointer, target};
ghost use Rattle.c_meaning.specs.Values.{values};
ghost use Rattle.c_check_expr.specs.AtNode.{Becomes, IsRefused};
ghost use Rattle.c_check_expr.specs.SomeDeep.{AreTooDeep};

use crate::callees::{call_fault, called};
use c_meaning::{CoreExpr, CoreKind};
use c_types::{TypeId, TypeTable};
use c_values::basic_places::VOID;
use c_values::forming::into_value;
use c_values::operand_tests::is_open_record;
use c_values::passing::passed;
use c_values::values::value_type;
use c_values::{CheckFault, ValueType, kinds};
use lcc_base::{Items, Memory, Which};
use std::alloc::Global;

/// Whether the value of the last is an incomplete structure or union.
fn ends_open(types: &TypeTable, parts: &[CoreExpr]) -> bool
    requires { AreIn (length types.now.forms) (cores_of parts.now) }
    ensures { result ≡ is_last_open (tags types.now) (values (all_seen (type_at types.now) (cores_of parts.now))) }
{
    match parts {
        [.., last] => is_open_record(types, value_type(types, last)),
        [] => false,
    }
}

/// The type of the last, without qualifiers.
fn last_type(types: &TypeTable, values: &[CoreExpr]) -> TypeId
    requires { AreIn (length types.now.forms) (cores_of values.now) }
    ensures means { type_at types.now result ≡ last (all_seen (type_at types.now) (cores_of values.now)) }
    ensures within { result < length types.now.forms }
{
    match values {
        [.., last] => kinds::unqualified_type(types, last.of),
        [] => types.basic_type(VOID),
    }
}

/// The values of expressions, in order.
fn into_values(
    alloc: Global,
    types: &mut TypeTable,
    line: u32,
    parts: Items<CoreExpr>,
) -> Result<Items<CoreExpr>, CheckFault>
    requires { AreIn (length types.old.forms) (cores_of parts) }
    ensures means { IfOk result (λ vs. all_seen (type_at types.new) (cores_of vs) ≡ values (all_seen (type_at types.old) (cores_of parts))) }
    ensures within { IfOk result (λ vs. AreIn (length types.new.forms) (cores_of vs)) }
    ensures shallow { OnOk result (some_deep (value_types (all_seen (type_at types.old) (cores_of parts))) ≡ false) }
    ensures deep { IfErr result (λ e. AreTooDeep e line (value_types (all_seen (type_at types.old) (cores_of parts)))) }
    ensures grows { Grows types.old types.new }
{
    let mut vs = Items::with_capacity(alloc, parts.len())?;
    for part in parts.into_vec() {
        let v = into_value(alloc, types, line, part)?;
        vs.push(v)?;
    }
    Ok(vs)
}

/// A call of a value by values, which fit its parameters.
fn called_with(
    alloc: Global,
    types: &TypeTable,
    line: u32,
    f: CoreExpr,
    arguments: Items<CoreExpr>,
) -> Result<CoreExpr, Memory>
    requires f { IsIn (length types.now.forms) f }
    requires function { (is_pointer (type_at types.now (type_of f)) && is_function (target (type_at types.now (type_of f)))) ≡ true }
    requires arguments { AreIn (length types.now.forms) (cores_of arguments) }
    requires few { length arguments ≤ 127 }
    ensures means { IfOk result (λ c. seen (type_at types.now) c ≡ call_row line (seen (type_at types.now) f) (all_seen (type_at types.now) (cores_of arguments))) }
    ensures within { IfOk result (λ c. IsIn (length types.now.forms) c) }
{
    let Some((result, parameters, _)) = called(types, ValueType::Own(f.of)) else {
        unreachable!();
    };
    let parameters = match parameters {
        Some(ids) => ids.as_slice(),
        None => &[],
    };
    let kids = passed(alloc, types, f, parameters, arguments)?;
    Ok(CoreExpr {
        what: CoreKind::Call { copies: 0 },
        of: kinds::unqualified_type(types, result),
        line,
        kids,
    })
}

/// `f(a, b)`.
pub(crate) fn call(
    alloc: Global,
    types: &mut TypeTable,
    line: u32,
    f: CoreExpr,
    arguments: Items<CoreExpr>,
) -> Result<CoreExpr, CheckFault>
    requires f { IsIn (length types.old.forms) f }
    requires arguments { AreIn (length types.old.forms) (cores_of arguments) }
    ensures ok { IfOk result (λ core. Becomes types.old line (node.Call (seen (type_at types.old) f) (all_seen (type_at types.old) (cores_of arguments))) types.new core) }
    ensures err { IfErr result (λ e. IsRefused types.old line (node.Call (seen (type_at types.old) f) (all_seen (type_at types.old) (cores_of arguments))) e) }
    ensures within { IfOk result (λ core. IsIn (length types.new.forms) core) }
    ensures grows { Grows types.old types.new }
{
    types.types_are_within_limits();
    if let Some(number) = call_fault(types, &f, arguments.as_slice()) {
        return Err(CheckFault::Constraint { number, line });
    }
    let f = into_value(alloc, types, line, f)?;
    let arguments = into_values(alloc, types, line, arguments)?;
    if arguments.len() > 127 {
        return Err(CheckFault::Limit {
            which: Which::Parameters,
            line,
        });
    }
    let core = called_with(alloc, types, line, f, arguments)?;
    Ok(core)
}

/// `a, b, c`.
pub(crate) fn comma(
    alloc: Global,
    types: &mut TypeTable,
    line: u32,
    parts: Items<CoreExpr>,
) -> Result<CoreExpr, CheckFault>
    requires { AreIn (length types.old.forms) (cores_of parts) }
    ensures ok { IfOk result (λ core. Becomes types.old line (node.Comma (all_seen (type_at types.old) (cores_of parts))) types.new core) }
    ensures err { IfErr result (λ e. IsRefused types.old line (node.Comma (all_seen (type_at types.old) (cores_of parts))) e) }
    ensures within { IfOk result (λ core. IsIn (length types.new.forms) core) }
    ensures grows { Grows types.old types.new }
{
    types.types_are_within_limits();
    if ends_open(types, parts.as_slice()) {
        return Err(CheckFault::Constraint { number: 46, line });
    }
    let kids = into_values(alloc, types, line, parts)?;
    let of = last_type(types, kids.as_slice());
    Ok(CoreExpr {
        what: CoreKind::Comma,
        of,
        line,
        kids,
    })
}
