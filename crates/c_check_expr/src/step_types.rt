//! The types that a declarator's steps form (C89 3.5.4).
ghost use Rattle.std.specs.Prelude.{◌≡◌, ◌<◌, None, false, true, length, map, IfOk, IfErr, OnOk};
ghost use Rattle.c_types.specs.CType.{Array, Plain, Pointer};
ghost use Rattle.c_types.specs.Facts.{type_of};
ghost use Rattle.c_types.specs.Layout.{extent};
ghost use Rattle.c_types.specs.Table.{Grows, IsOver, element_fault, is_above, is_tagged, tags, type_at};
ghost use Rattle.c_meaning.specs.TypeConstraints.{is_bad_element, some_step};
ghost use Rattle.c_meaning.specs.Types.{has_size};
ghost use Rattle.c_meaning.specs.TypeRows.{formed as all_formed, formed_by as step_formed, length_of};
ghost use Rattle.c_check_expr.specs.PartsSeen.{AreStepsIn, IsSizeIn, IsStepIn, size_seen, step_seen, steps_seen};
ghost use Rattle.c_check_expr.specs.StepFaults.{IsPassedDepth, is_deep, is_deep_step, is_large_step};

use crate::outline::array_length;
use crate::parts::{NamedParameter, Step};
use c_meaning::CoreExpr;
use c_types::{Qualifiers, TypeForm, TypeId, TypeTable};
use c_values::CheckFault;
use c_values::forming::type_refusal;
use lcc_base::{Items, Memory};
use std::alloc::Global;

/// The place of the type that all steps form over this one, at a declarator on this line (C89 3.5.4). Where
/// one of the types that they form passes the limit on depth or nesting, that is told.
pub fn formed(
    alloc: Global,
    types: &mut TypeTable,
    line: u32,
    base: TypeId,
    steps: &[Step],
) -> Result<TypeId, CheckFault>
    requires base { base < length types.old.forms }
    requires steps { AreStepsIn (length types.old.forms) steps.now }
    requires elements { some_step (is_bad_element (tags types.old)) (type_at types.old base) (steps_seen types.old steps.now) ≡ false }
    requires sizes { some_step (is_large_step (tags types.old)) (type_at types.old base) (steps_seen types.old steps.now) ≡ false }
    ensures means { IfOk result (λ id. type_at types.new id ≡ all_formed (type_at types.old base) (steps_seen types.old steps.now)) }
    ensures within { IfOk result (λ id. id < length types.new.forms) }
    ensures shallow { OnOk result (some_step (is_deep_step (tags types.old)) (type_at types.old base) (steps_seen types.old steps.now) ≡ false) }
    ensures deep { IfErr result (λ e. IsPassedDepth e line (some_step (is_deep_step (tags types.old)) (type_at types.old base) (steps_seen types.old steps.now))) }
    ensures grows { Grows types.old types.new }
{
    let mut of = base;
    for step in steps {
        of = formed_by(alloc, types, line, of, step)?;
    }
    Ok(of)
}

/// The type that one step forms over this one.
fn formed_by(
    alloc: Global,
    types: &mut TypeTable,
    line: u32,
    of: TypeId,
    step: &Step,
) -> Result<TypeId, CheckFault>
    requires of { of < length types.old.forms }
    requires step { IsStepIn (length types.old.forms) step.now }
    requires element { is_bad_element (tags types.old) (type_at types.old of) (step_seen types.old step.now) ≡ false }
    requires size { is_large_step (tags types.old) (type_at types.old of) (step_seen types.old step.now) ≡ false }
    ensures means { IfOk result (λ id. type_at types.new id ≡ step_formed (step_seen types.old step.now) (type_at types.old of)) }
    ensures within { IfOk result (λ id. id < length types.new.forms) }
    ensures shallow { OnOk result (is_deep_step (tags types.old) (type_at types.old of) (step_seen types.old step.now) ≡ false) }
    ensures deep { IfErr result (λ e. IsPassedDepth e line (is_deep_step (tags types.old) (type_at types.old of) (step_seen types.old step.now))) }
    ensures grows { Grows types.old types.new }
{
    match step {
        Step::Pointer(qualifiers) => pointer(types, line, of, *qualifiers),
        Step::Array(size) => array(types, line, of, size),
        Step::Function {
            parameters,
            more,
            ..
        } => {
            let ids = places(alloc, parameters.as_slice())?;
            let form = TypeForm::Function {
                result: of,
                parameters: Some(ids),
                more: *more,
            };
            added(types, line, form)
        }
        Step::Named(_) | Step::Open => {
            let form = TypeForm::Function {
                result: of,
                parameters: None,
                more: false,
            };
            added(types, line, form)
        }
    }
}

/// A qualified pointer to the type.
fn pointer(
    types: &mut TypeTable,
    line: u32,
    to: TypeId,
    qualifiers: Qualifiers,
) -> Result<TypeId, CheckFault>
    requires { to < length types.old.forms }
    ensures means { IfOk result (λ id. type_at types.new id ≡ Plain qualifiers.0 (Pointer (type_at types.old to))) }
    ensures within { IfOk result (λ id. id < length types.new.forms) }
    ensures shallow { OnOk result (is_deep (tags types.old) (Plain qualifiers.0 (Pointer (type_at types.old to))) ≡ false) }
    ensures deep { IfErr result (λ e. IsPassedDepth e line (is_deep (tags types.old) (Plain qualifiers.0 (Pointer (type_at types.old to))))) }
    ensures grows { Grows types.old types.new }
{
    let id = added(types, line, TypeForm::Pointer { to })?;
    let of = types.qualified(id, qualifiers)?;
    Ok(of)
}

/// An array of the type, whose size was found to be no constraint's or limit's fault.
fn array(
    types: &mut TypeTable,
    line: u32,
    of: TypeId,
    size: &Option<CoreExpr>,
) -> Result<TypeId, CheckFault>
    requires of { of < length types.old.forms }
    requires size { IsSizeIn (length types.old.forms) size.now }
    requires element { has_size (tags types.old) (type_at types.old of) ≡ true }
    requires bytes { is_above (extent (tags types.old) (Array (type_at types.old of) (length_of (size_seen types.old size.now)))).size ≡ false }
    ensures means { IfOk result (λ id. type_at types.new id ≡ Array (type_at types.old of) (length_of (size_seen types.old size.now))) }
    ensures within { IfOk result (λ id. id < length types.new.forms) }
    ensures shallow { OnOk result (is_deep (tags types.old) (Array (type_at types.old of) (length_of (size_seen types.old size.now))) ≡ false) }
    ensures deep { IfErr result (λ e. IsPassedDepth e line (is_deep (tags types.old) (Array (type_at types.old of) (length_of (size_seen types.old size.now))))) }
    ensures grows { Grows types.old types.new }
{
    let length = match array_length(types, size) {
        None => None,
        // A constant has 32 bits, so that its value fits.
        Some(count) => Some(u32::try_from(count).map_err(|_| CheckFault::Memory)?),
    };
    added(types, line, TypeForm::Array { of, length })
}

/// The place of the type of this form, which has a size within the limit if it has one.
fn added(types: &mut TypeTable, line: u32, form: TypeForm) -> Result<TypeId, CheckFault>
    requires over { IsOver (length types.old.forms) form }
    requires plain { is_tagged form ≡ false }
    requires element { element_fault types.old form ≡ None }
    requires size { is_above (extent (tags types.old) (type_of types.old form)).size ≡ false }
    ensures means { IfOk result (λ id. type_at types.new id ≡ type_of types.old form) }
    ensures within { IfOk result (λ id. id < length types.new.forms) }
    ensures shallow { OnOk result (is_deep (tags types.old) (type_of types.old form) ≡ false) }
    ensures deep { IfErr result (λ e. IsPassedDepth e line (is_deep (tags types.old) (type_of types.old form))) }
    ensures grows { Grows types.old types.new }
{
    match types.add(form) {
        Ok(id) => Ok(id),
        Err(fault) => Err(type_refusal(fault, line)),
    }
}

/// The places of the parameters' types.
fn places(alloc: Global, parameters: &[NamedParameter]) -> Result<Items<TypeId>, Memory>
    ensures { IfOk result (λ ids. ids ≡ map (λ p. p.of) parameters.now) }
{
    let mut ids = Items::with_capacity(alloc, parameters.len())?;
    for parameter in parameters {
        ids.push(parameter.of)?;
    }
    Ok(ids)
}
