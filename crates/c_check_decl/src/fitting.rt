//! Whether the type that a declarator forms is compatible with one of the table (C89 3.1.2.6), told without forming it.
ghost use Rattle.std.specs.Prelude.{◌≡◌, ◌<◌, false, length, IfNone, IfSome};
ghost use Rattle.c_types.specs.CType.{CType, qualify};
ghost use Rattle.c_types.specs.Compatible.{compatible, lengths_fit as do_lengths_fit};
ghost use Rattle.c_types.specs.Table.{Table, form_at, is_qualified, type_at};
ghost use Rattle.c_meaning.specs.TypeRows.{formed, formed_by};
ghost use Rattle.c_meaning.specs.Types.{is_function};
ghost use Rattle.c_check_expr.specs.PartsSeen.{AreParametersIn, AreStepsIn, IsSizeIn, IsStepIn, size_seen, step_seen, steps_seen};
ghost use Rattle.c_check_decl.specs.Fitting.{Fits, FitsNone, array_step, function_step, open_step, pointer_step};

use crate::kept_parameters::{are_listed_compatible, are_open_compatible};
use c_check_expr::pieces::{NamedParameter, Step, array_length};
use c_meaning::CoreExpr;
use c_types::{Qualifiers, TypeId, TypeTable};
use c_values::values::{plain, qualifiers_under};
use c_values::{QualifiedType, kinds};

/// Whether what the steps make of the type is a function (C89 3.5.4.3), told without forming it.
pub fn makes_function(types: &TypeTable, base: TypeId, steps: &[Step]) -> bool
    requires base { base < length types.now.forms }
    requires steps { AreStepsIn (length types.now.forms) steps.now }
    ensures { result ≡ is_function (formed (type_at types.now base) (steps_seen types.now steps.now)) }
{
    match steps.split_last() {
        Some((step, _)) => is_function_step(step),
        None => kinds::is_function(types, base),
    }
}

/// Whether the step makes a function.
fn is_function_step(step: &Step) -> bool
    ensures { (t : Table) (base : CType) → result ≡ is_function (formed_by (step_seen t step.now) base) }
{
    matches!(step, Step::Function { .. } | Step::Named(_) | Step::Open)
}

/// Whether what the steps make of the type is compatible with the other type (C89 3.1.2.6), told without
/// forming it.
pub fn fits(types: &TypeTable, base: TypeId, steps: &[Step], other: TypeId) -> bool
    requires base { base < length types.now.forms }
    requires steps { AreStepsIn (length types.now.forms) steps.now }
    requires other { other < length types.now.forms }
    ensures { result ≡ compatible (formed (type_at types.now base) (steps_seen types.now steps.now)) (type_at types.now other) }
{
    let mut left = steps;
    let mut of = (other, Qualifiers::none());
    while let Some((step, before)) = left.split_last() {
        match inside(types, step, of) {
            Some(inner) => {
                left = before;
                of = inner;
            }
            None => return false,
        }
    }
    are_compatible(types, base, of)
}

/// Whether a type is compatible with another one under qualifiers.
fn are_compatible(types: &TypeTable, a: TypeId, b: (TypeId, Qualifiers)) -> bool
    requires a { a < length types.now.forms }
    requires b { b.0 < length types.now.forms }
    ensures { result ≡ compatible (type_at types.now a) (qualify b.1.0 (type_at types.now b.0)) }
{
    let whole = plain(a);
    let other = QualifiedType {
        of: b.0,
        qualifiers: b.1,
    };
    kinds::are_types_alike(types, whole, other)
        && qualifiers_under(types, whole).number() == qualifiers_under(types, other).number()
}

/// What a step would have been made of to be compatible with the type under these qualifiers: a part of
/// that. None where nothing would.
fn inside(types: &TypeTable, step: &Step, of: (TypeId, Qualifiers)) -> Option<(TypeId, Qualifiers)>
    requires step { IsStepIn (length types.now.forms) step.now }
    requires of { of.0 < length types.now.forms }
    ensures some { IfSome result (Fits types.now (formed_by (step_seen types.now step.now)) of) }
    ensures none { IfNone result (FitsNone types.now (formed_by (step_seen types.now step.now)) of) }
    ensures within { IfSome result (λ r. r.0 < length types.now.forms) }
{
    let base = types.under(of.0, of.1);
    match step {
        Step::Pointer(own) => pointed(types, *own, base),
        Step::Array(size) => element(types, size, base),
        Step::Function {
            parameters,
            more,
            ..
        } => listed_result(types, parameters.as_slice(), *more, base),
        Step::Named(_) | Step::Open => open_result(types, base),
    }
}

/// What a pointer with these qualifiers points to.
fn pointed(
    types: &TypeTable,
    own: Qualifiers,
    of: (TypeId, Qualifiers),
) -> Option<(TypeId, Qualifiers)>
    requires of { of.0 < length types.now.forms }
    requires plain { is_qualified (form_at types.now of.0) ≡ false }
    ensures some { IfSome result (Fits types.now (pointer_step own.0) of) }
    ensures none { IfNone result (FitsNone types.now (pointer_step own.0) of) }
    ensures within { IfSome result (λ r. r.0 < length types.now.forms) }
{
    match types.pointer_to(of.0) {
        Some(to) if own.number() == of.1.number() => Some((to, Qualifiers::none())),
        _ => None,
    }
}

/// Whether both sizes of arrays are the same, where both are known.
fn lengths_fit(a: Option<u64>, b: Option<u32>) -> bool
    ensures { result ≡ do_lengths_fit a b }
{
    match (a, b) {
        (Some(a), Some(b)) => a == u64::from(b),
        _ => true,
    }
}

/// The elements of an array whose size fits this one.
fn element(
    types: &TypeTable,
    size: &Option<CoreExpr>,
    of: (TypeId, Qualifiers),
) -> Option<(TypeId, Qualifiers)>
    requires size { IsSizeIn (length types.now.forms) size.now }
    requires of { of.0 < length types.now.forms }
    requires plain { is_qualified (form_at types.now of.0) ≡ false }
    ensures some { IfSome result (Fits types.now (array_step (size_seen types.now size.now)) of) }
    ensures none { IfNone result (FitsNone types.now (array_step (size_seen types.now size.now)) of) }
    ensures within { IfSome result (λ r. r.0 < length types.now.forms) }
{
    match types.array_of(of.0) {
        Some((element, length)) if lengths_fit(array_length(types, size), length) => {
            Some((element, of.1))
        }
        _ => None,
    }
}

/// The result of a function whose parameters fit these.
fn listed_result(
    types: &TypeTable,
    parameters: &[NamedParameter],
    more: bool,
    of: (TypeId, Qualifiers),
) -> Option<(TypeId, Qualifiers)>
    requires parameters { AreParametersIn (length types.now.forms) parameters.now }
    requires of { of.0 < length types.now.forms }
    requires plain { is_qualified (form_at types.now of.0) ≡ false }
    ensures some { IfSome result (Fits types.now (function_step types.now parameters.now more) of) }
    ensures none { IfNone result (FitsNone types.now (function_step types.now parameters.now more) of) }
    ensures within { IfSome result (λ r. r.0 < length types.now.forms) }
{
    match types.function_of(of.0) {
        Some((result, others, and_more))
            if of.1.number() == 0
                && are_listed_compatible(types, parameters, more, others, and_more) => {
            Some((result, Qualifiers::none()))
        }
        _ => None,
    }
}

/// The result of a function whose parameters fit open ones.
fn open_result(types: &TypeTable, of: (TypeId, Qualifiers)) -> Option<(TypeId, Qualifiers)>
    requires of { of.0 < length types.now.forms }
    requires plain { is_qualified (form_at types.now of.0) ≡ false }
    ensures some { IfSome result (Fits types.now open_step of) }
    ensures none { IfNone result (FitsNone types.now open_step of) }
    ensures within { IfSome result (λ r. r.0 < length types.now.forms) }
{
    match types.function_of(of.0) {
        Some((result, others, and_more))
            if of.1.number() == 0 && are_open_compatible(types, others, and_more) => {
            Some((result, Qualifiers::none()))
        }
        _ => None,
    }
}
