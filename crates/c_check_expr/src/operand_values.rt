//! The values of operands, formed one after another (C89 3.2.2.1).
ghost use Rattle.std.specs.Prelude.{◌≡◌, ◌<◌, ◌∷◌, [], length, IfOk, IfErr};
ghost use Rattle.c_types.specs.Table.{Grows, type_at};
ghost use Rattle.c_meaning.specs.CoreTrees.{IsIn, seen};
ghost use Rattle.c_meaning.specs.Values.{value, value_type};
ghost use Rattle.c_check_expr.specs.SomeDeep.{AreTooDeep};

use c_meaning::CoreExpr;
use c_types::TypeTable;
use c_values::CheckFault;
use c_values::forming::into_value;
use std::alloc::Global;

/// The values of two expressions.
pub(crate) fn into_two_values(
    alloc: Global,
    types: &mut TypeTable,
    line: u32,
    a: CoreExpr,
    b: CoreExpr,
) -> Result<(CoreExpr, CoreExpr), CheckFault>
    requires a { IsIn (length types.old.forms) a }
    requires b { IsIn (length types.old.forms) b }
    ensures first { IfOk result (λ r. seen (type_at types.new) r.0 ≡ value (seen (type_at types.old) a)) }
    ensures second { IfOk result (λ r. seen (type_at types.new) r.1 ≡ value (seen (type_at types.old) b)) }
    ensures first_within { IfOk result (λ r. IsIn (length types.new.forms) r.0) }
    ensures second_within { IfOk result (λ r. IsIn (length types.new.forms) r.1) }
    ensures deep { IfErr result (λ e. AreTooDeep e line (value_type (seen (type_at types.old) a) ∷ value_type (seen (type_at types.old) b) ∷ [])) }
    ensures grows { Grows types.old types.new }
{
    let v = into_value(alloc, types, line, a)?;
    let w = into_value(alloc, types, line, b)?;
    Ok((v, w))
}

/// The values of three expressions.
pub(crate) fn into_three_values(
    alloc: Global,
    types: &mut TypeTable,
    line: u32,
    a: CoreExpr,
    b: CoreExpr,
    c: CoreExpr,
) -> Result<(CoreExpr, CoreExpr, CoreExpr), CheckFault>
    requires a { IsIn (length types.old.forms) a }
    requires b { IsIn (length types.old.forms) b }
    requires c { IsIn (length types.old.forms) c }
    ensures first { IfOk result (λ r. seen (type_at types.new) r.0 ≡ value (seen (type_at types.old) a)) }
    ensures second { IfOk result (λ r. seen (type_at types.new) r.1 ≡ value (seen (type_at types.old) b)) }
    ensures third { IfOk result (λ r. seen (type_at types.new) r.2 ≡ value (seen (type_at types.old) c)) }
    ensures first_within { IfOk result (λ r. IsIn (length types.new.forms) r.0) }
    ensures second_within { IfOk result (λ r. IsIn (length types.new.forms) r.1) }
    ensures third_within { IfOk result (λ r. IsIn (length types.new.forms) r.2) }
    ensures deep { IfErr result (λ e. AreTooDeep e line (value_type (seen (type_at types.old) a) ∷ value_type (seen (type_at types.old) b) ∷ value_type (seen (type_at types.old) c) ∷ [])) }
    ensures grows { Grows types.old types.new }
{
    let (u, v) = into_two_values(alloc, types, line, a, b)?;
    let w = into_value(alloc, types, line, c)?;
    Ok((u, v, w))
}
