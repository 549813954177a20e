//! The last step of a definition's declarator, which is the function's own: the one that its name is nearest to.
ghost use Rattle.std.specs.Prelude.{◌≡◌, Some, length};
ghost use Rattle.c_types.specs.Table.{Table, tags};
ghost use Rattle.c_check_expr.specs.PartsSeen.{AreParametersIn, IsStepIn, parameters_seen, step_seen, steps_seen};
ghost use Rattle.c_units.specs.Definitions.{has_more as takes_more, has_open_parameter as some_open, is_definition_step as defines, is_nameless as some_nameless, names_of as names_in, own_step, takes_open as takes_open_step};

use c_check_expr::pieces::{NamedParameter, Step};
use c_types::TypeTable;
use c_values::kinds;
use c_values::values::plain;
use lcc_base::Bytes;

/// Whether one of the parameters has no name.
fn is_nameless(parameters: &[NamedParameter]) -> bool
    ensures { (t : Table) → result ≡ some_nameless (parameters_seen t parameters.now) }
{
    for p in parameters {
        if p.name.is_none() {
            return true;
        }
    }
    false
}

/// Whether the step makes a function, whose parameters have names.
pub(crate) fn is_definition(step: &Step) -> bool
    ensures { (t : Table) → result ≡ defines (Some (step_seen t step.now)) }
{
    match step {
        Step::Function { parameters, .. } => !is_nameless(parameters.as_slice()),
        Step::Named(_) | Step::Open => true,
        Step::Pointer(_) | Step::Array(_) => false,
    }
}

/// Whether there is `...` behind the parameters.
pub(crate) fn has_more(step: &Step) -> bool
    ensures { (t : Table) → result ≡ takes_more (Some (step_seen t step.now)) }
{
    match step {
        Step::Function { more, .. } => *more,
        Step::Named(_) | Step::Open | Step::Pointer(_) | Step::Array(_) => false,
    }
}

/// The names in the step, none where it has no list of names.
fn listed(step: &Step) -> &[Bytes]
    ensures { (t : Table) → result.now ≡ names_in (Some (step_seen t step.now)) }
{
    match step {
        Step::Named(names) => names.as_slice(),
        Step::Function { .. } | Step::Open | Step::Pointer(_) | Step::Array(_) => &[],
    }
}

/// The names in the last step, none where it has no list of names.
pub(crate) fn names(steps: &[Step]) -> &[Bytes]
    ensures { (t : Table) → result.now ≡ names_in (own_step (steps_seen t steps.now)) }
{
    match steps.split_last() {
        Some((own, _)) => listed(own),
        None => &[],
    }
}

/// Whether one of the parameters has incomplete type.
fn has_open_parameter(types: &TypeTable, parameters: &[NamedParameter]) -> bool
    requires { AreParametersIn (length types.now.forms) parameters.now }
    ensures { result ≡ some_open (tags types.now) (parameters_seen types.now parameters.now) }
{
    for p in parameters {
        if !kinds::has_size(types, plain(p.of)) {
            return true;
        }
    }
    false
}

/// Whether a parameter of the step's function has incomplete type.
pub(crate) fn takes_open(types: &TypeTable, step: &Step) -> bool
    requires { IsStepIn (length types.now.forms) step.now }
    ensures { result ≡ takes_open_step (tags types.now) (Some (step_seen types.now step.now)) }
{
    match step {
        Step::Function { parameters, .. } => has_open_parameter(types, parameters.as_slice()),
        Step::Named(_) | Step::Open | Step::Pointer(_) | Step::Array(_) => false,
    }
}
