//! The constraints and limits of a declarator's steps (C89 3.5.4), told without forming the types.
ghost use Rattle.std.specs.Prelude.{◌≡◌, ◌<◌, ◌&&◌, List, length, not};
ghost use Rattle.c_types.specs.CType.{CType};
ghost use Rattle.c_types.specs.Layout.{Tag};
ghost use Rattle.c_types.specs.Table.{Table, tags, type_at};
ghost use Rattle.c_meaning.specs.Constraints.{has_many as has_more};
ghost use Rattle.c_meaning.specs.TypeConstraints.{is_bad_element, is_bad_result, is_bad_size as is_size_bad, is_function_step as makes_function, is_name_list as lists_names, some_step};
ghost use Rattle.c_meaning.specs.Types.{has_size};
ghost use Rattle.c_check_expr.specs.PartsSeen.{AreStepsIn, IsStepIn, step_seen, steps_seen};
ghost use Rattle.c_check_expr.specs.StepFaults.{is_large_step, is_many_step, steps_broken};

use crate::outline::{after, array_length, is_large as is_above_limit, outline_of};
use crate::parts::Step;
use c_types::{TypeId, TypeTable};

/// How many parameters a function has at most.
const MOST_PARAMETERS: usize = 127;

/// The number of the first constraint that the steps break.
pub(crate) fn broken(types: &TypeTable, base: TypeId, steps: &[Step]) -> Option<u8>
    requires base { base < length types.now.forms }
    requires steps { AreStepsIn (length types.now.forms) steps.now }
    ensures { result ≡ steps_broken (tags types.now) (type_at types.now base) (steps_seen types.now steps.now) }
{
    if has_bad_size(types, steps) {
        Some(13)
    } else if has_bad_element(types, base, steps) {
        Some(14)
    } else if has_bad_result(types, base, steps) {
        Some(15)
    } else if has_name_list(steps) {
        Some(19)
    } else {
        None
    }
}

/// Whether the step makes an array.
fn is_array_step(step: &Step) -> bool
    ensures { (k : Table) (s : List Tag) (t : CType) → is_bad_element s t (step_seen k step.now) ≡ (result && not (has_size s t)) }
{
    matches!(step, Step::Array(_))
}

/// Whether the step makes a function.
fn is_function_step(step: &Step) -> bool
    ensures { (k : Table) → result ≡ makes_function (step_seen k step.now) }
{
    matches!(step, Step::Function { .. } | Step::Named(_) | Step::Open)
}

/// Whether the step is a list of names.
fn is_name_list(step: &Step) -> bool
    ensures { (k : Table) (t : CType) → result ≡ lists_names t (step_seen k step.now) }
{
    matches!(step, Step::Named(_))
}

/// Whether the step makes a function with more parameters than the limit.
fn has_many(step: &Step) -> bool
    ensures { (k : Table) → result ≡ has_more (step_seen k step.now) }
{
    match step {
        Step::Function { parameters, .. } => parameters.len() > MOST_PARAMETERS,
        _ => false,
    }
}

/// Whether the size of an array is no constant above 0.
fn is_bad_size(types: &TypeTable, step: &Step) -> bool
    requires { IsStepIn (length types.now.forms) step.now }
    ensures { (t : CType) → result ≡ is_size_bad t (step_seen types.now step.now) }
{
    match step {
        Step::Array(size) => size.is_some() && array_length(types, size).is_none(),
        _ => false,
    }
}

/// Whether the size of an array that a step makes is no constant above 0 (C89 3.5.4.2).
pub fn has_bad_size(types: &TypeTable, steps: &[Step]) -> bool
    requires { AreStepsIn (length types.now.forms) steps.now }
    ensures { (t : CType) → result ≡ some_step is_size_bad t (steps_seen types.now steps.now) }
{
    for step in steps {
        if is_bad_size(types, step) {
            return true;
        }
    }
    false
}

/// Whether the element of an array that a step makes is a function, void or incomplete (C89 3.5.4.2).
pub fn has_bad_element(types: &TypeTable, base: TypeId, steps: &[Step]) -> bool
    requires base { base < length types.now.forms }
    requires steps { AreStepsIn (length types.now.forms) steps.now }
    ensures { result ≡ some_step (is_bad_element (tags types.now)) (type_at types.now base) (steps_seen types.now steps.now) }
{
    let mut before = outline_of(types, base);
    for step in steps {
        if is_array_step(step) && before.size.is_none() {
            return true;
        }
        before = after(types, before, step);
    }
    false
}

/// Whether a function that a step makes returns a function or an array (C89 3.5.4.3).
pub fn has_bad_result(types: &TypeTable, base: TypeId, steps: &[Step]) -> bool
    requires base { base < length types.now.forms }
    requires steps { AreStepsIn (length types.now.forms) steps.now }
    ensures { result ≡ some_step is_bad_result (type_at types.now base) (steps_seen types.now steps.now) }
{
    let mut before = outline_of(types, base);
    for step in steps {
        if is_function_step(step) && before.is_composed {
            return true;
        }
        before = after(types, before, step);
    }
    false
}

/// Whether a step is a list of names, which only a function's definition has (C89 3.5.4.3).
pub fn has_name_list(steps: &[Step]) -> bool
    ensures { (k : Table) (t : CType) → result ≡ some_step lists_names t (steps_seen k steps.now) }
{
    for step in steps {
        if is_name_list(step) {
            return true;
        }
    }
    false
}

/// Whether a type that a step forms is above the greatest size of an object, 16,777,216 bytes.
pub fn is_large(types: &TypeTable, base: TypeId, steps: &[Step]) -> bool
    requires base { base < length types.now.forms }
    requires steps { AreStepsIn (length types.now.forms) steps.now }
    ensures { result ≡ some_step (is_large_step (tags types.now)) (type_at types.now base) (steps_seen types.now steps.now) }
{
    let mut before = outline_of(types, base);
    for step in steps {
        before = after(types, before, step);
        if is_above_limit(before) {
            return true;
        }
    }
    false
}

/// Whether a function that a step makes has more than 127 parameters.
pub fn has_many_parameters(steps: &[Step]) -> bool
    ensures { (k : Table) (t : CType) → result ≡ some_step is_many_step t (steps_seen k steps.now) }
{
    for step in steps {
        if has_many(step) {
            return true;
        }
    }
    false
}
