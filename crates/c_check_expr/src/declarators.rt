//! Nodes of declarators: the types that their steps form (C89 3.5.4).
ghost use Rattle.std.specs.Prelude.{◌≡◌, ◌<◌, None, false, length, IfOk, IfErr, OnOk};
ghost use Rattle.c_types.specs.Table.{Grows, Table, tags, type_at};
ghost use Rattle.c_meaning.specs.Nodes as node;
ghost use Rattle.c_meaning.specs.State.{State};
ghost use Rattle.c_meaning.specs.Constraints.{passed_fault};
ghost use Rattle.c_meaning.specs.TypeConstraints.{is_bad_element, is_taken as is_name_taken, some_step};
ghost use Rattle.c_meaning.specs.TypeRows.{formed};
ghost use Rattle.c_meaning.specs.Typing.{Fine, at, shaped};
ghost use Rattle.c_values.specs.declared.check_fault.CheckFault.TheVariants.{Limit};
ghost use Rattle.c_check_expr.specs.AtNode.{Tells};
ghost use Rattle.c_check_expr.specs.Known.{AreSymbolsIn, state_of};
ghost use Rattle.c_check_expr.specs.PartsSeen.{AreStepsIn, shaped_seen, steps_seen};
ghost use Rattle.c_check_expr.specs.StepFaults.{IsFault, steps_fault, steps_passed};

use crate::parts::{Declared, Shaped, Step};
use crate::step_types::formed as all_formed;
use crate::steps::{broken, has_many_parameters, is_large};
use c_symbols::Scopes;
use c_types::{TypeId, TypeTable};
use c_values::CheckFault;
use lcc_base::{Bytes, Which};
use std::alloc::Global;

/// The name and the type of a declarator, over the type of the specifiers, at the declarator's own line.
pub fn shape(
    alloc: Global,
    types: &mut TypeTable,
    base: TypeId,
    d: Declared,
) -> Result<Shaped, CheckFault>
    requires base { base < length types.old.forms }
    requires steps { AreStepsIn (length types.old.forms) d.steps }
    ensures ok { IfOk result (λ p. (s : State) → s.tags ≡ tags types.old → at s d.line (node.Typing (node.Declarator (type_at types.old base) (steps_seen types.old d.steps))) s (shaped d.name (formed (type_at types.old base) (steps_seen types.old d.steps))) ≡ Fine s (shaped_seen types.new p)) }
    ensures err { IfErr result (λ e. (s : State) → s.tags ≡ tags types.old → Tells e (at s d.line (node.Typing (node.Declarator (type_at types.old base) (steps_seen types.old d.steps))) s (shaped d.name (formed (type_at types.old base) (steps_seen types.old d.steps))))) }
    ensures within { IfOk result (λ p. p.of < length types.new.forms) }
    ensures grows { Grows types.old types.new }
{
    let Declared { line, name, steps } = d;
    let of = checked(alloc, types, line, base, steps.as_slice())?;
    Ok(Shaped { name, of })
}

/// The same of a parameter's declarator, whose name may not stand in the innermost scope.
pub(crate) fn parameter_shape(
    alloc: Global,
    scopes: &Scopes,
    types: &mut TypeTable,
    base: TypeId,
    d: Declared,
) -> Result<Shaped, CheckFault>
    requires symbols { AreSymbolsIn (length types.old.forms) scopes.now.symbols }
    requires base { base < length types.old.forms }
    requires steps { AreStepsIn (length types.old.forms) d.steps }
    ensures ok { IfOk result (λ p. at (state_of scopes.now types.old) d.line (node.Typing (node.ParameterDeclarator d.name (type_at types.old base) (steps_seen types.old d.steps))) (state_of scopes.now types.old) (shaped d.name (formed (type_at types.old base) (steps_seen types.old d.steps))) ≡ Fine (state_of scopes.now types.new) (shaped_seen types.new p)) }
    ensures err { IfErr result (λ e. Tells e (at (state_of scopes.now types.old) d.line (node.Typing (node.ParameterDeclarator d.name (type_at types.old base) (steps_seen types.old d.steps))) (state_of scopes.now types.old) (shaped d.name (formed (type_at types.old base) (steps_seen types.old d.steps))))) }
    ensures within { IfOk result (λ p. p.of < length types.new.forms) }
    ensures grows { Grows types.old types.new }
{
    let Declared { line, name, steps } = d;
    if is_taken(scopes, &name) {
        return Err(CheckFault::Constraint { number: 5, line });
    }
    let of = checked(alloc, types, line, base, steps.as_slice())?;
    Ok(Shaped { name, of })
}

/// Whether the name stands in the innermost scope.
fn is_taken(scopes: &Scopes, name: &Option<Bytes>) -> bool
    ensures { (t : Table) → result ≡ is_name_taken (state_of scopes.now t) name.now }
{
    match name {
        Some(name) => scopes.find_here(name.as_slice()).is_some(),
        None => false,
    }
}

/// The type that the steps form, where nothing is told of them.
fn checked(
    alloc: Global,
    types: &mut TypeTable,
    line: u32,
    base: TypeId,
    steps: &[Step],
) -> Result<TypeId, CheckFault>
    requires base { base < length types.old.forms }
    requires steps { AreStepsIn (length types.old.forms) steps.now }
    ensures ok { OnOk result (steps_fault (tags types.old) line (type_at types.old base) (steps_seen types.old steps.now) ≡ None) }
    ensures err { IfErr result (λ e. IsFault e (steps_fault (tags types.old) line (type_at types.old base) (steps_seen types.old steps.now))) }
    ensures means { IfOk result (λ id. type_at types.new id ≡ formed (type_at types.old base) (steps_seen types.old steps.now)) }
    ensures within { IfOk result (λ id. id < length types.new.forms) }
    ensures grows { Grows types.old types.new }
{
    if let Some(number) = broken(types, base, steps) {
        return Err(CheckFault::Constraint { number, line });
    }
    limited(alloc, types, line, base, steps)
}

/// The type that the steps form, at a declarator on this line, where no type that they form and no number of
/// parameters passes a limit: a size before a depth before a number.
pub fn limited(
    alloc: Global,
    types: &mut TypeTable,
    line: u32,
    base: TypeId,
    steps: &[Step],
) -> Result<TypeId, CheckFault>
    requires base { base < length types.old.forms }
    requires steps { AreStepsIn (length types.old.forms) steps.now }
    requires elements { some_step (is_bad_element (tags types.old)) (type_at types.old base) (steps_seen types.old steps.now) ≡ false }
    ensures ok { OnOk result (steps_passed (tags types.old) (type_at types.old base) (steps_seen types.old steps.now) ≡ None) }
    ensures err { IfErr result (λ e. IsFault e (passed_fault line (steps_passed (tags types.old) (type_at types.old base) (steps_seen types.old steps.now)))) }
    ensures means { IfOk result (λ id. type_at types.new id ≡ formed (type_at types.old base) (steps_seen types.old steps.now)) }
    ensures within { IfOk result (λ id. id < length types.new.forms) }
    ensures grows { Grows types.old types.new }
{
    if is_large(types, base, steps) {
        return Err(limit(Which::Object, line));
    }
    let of = all_formed(alloc, types, line, base, steps)?;
    if has_many_parameters(steps) {
        return Err(limit(Which::Parameters, line));
    }
    Ok(of)
}

/// The limit that is passed, at a declarator on this line.
fn limit(which: Which, line: u32) -> CheckFault
    ensures { result ≡ Limit which line }
{
    CheckFault::Limit { which, line }
}
