//! Old-style parameters (C89 3.7.1).
ghost use Rattle.std.specs.Prelude.{◌≡◌, ◌<◌, ◌||◌, List, None, false, is_none, length, not, IfErr, IfOk, OnOk};
ghost use Rattle.c_ast.specs.declared.specifier.Storage.{Storage};
ghost use Rattle.c_ast.specs.SeenUnits.{init_seen};
ghost use Rattle.c_types.specs.CType.{CType};
ghost use Rattle.c_types.specs.Table.{Grows, Table, tags, type_at};
ghost use Rattle.c_meaning.specs.NodeConstraints.{first_of};
ghost use Rattle.c_meaning.specs.Constraints.{passed_fault};
ghost use Rattle.c_meaning.specs.TypeConstraints.{is_bad_element, is_name_list, some_step};
ghost use Rattle.c_meaning.specs.TypeRows.{adjusted as pointer_instead, formed as all_formed};
ghost use Rattle.c_meaning.specs.Types.{has_size as sized};
ghost use Rattle.c_check_expr.specs.Known.{AreSymbolsIn, state_of};
ghost use Rattle.c_check_expr.specs.PartsSeen.{AreStepsIn, declared_seen, specified_seen, steps_seen};
ghost use Rattle.c_check_expr.specs.StepFaults.{IsFault};
ghost use Rattle.c_check_expr.specs.Walks.{Walks};
ghost use Rattle.c_units.specs.Definitions.{parameter_constraints};
ghost use Rattle.c_units.specs.Functions.{old_parameter as old_of};
ghost use Rattle.c_check_function.specs.FunctionsSeen.{no_value, no_types, old_at, old_in};
ghost use Rattle.c_check_function.specs.OldParameters.{IsOldIn, old_broken, old_passed, old_seen};

use crate::name_lists::place;
use c_ast::{InitDeclarator, Storage};
use c_check_decl::pieces::name_or_empty;
use c_check_expr::pieces::{
    Declared, ParameterSpot, Specified, Step, adjusted, declarator, declare_parameter, formed,
    has_bad_element, has_bad_result, has_bad_size, has_many_parameters, has_name_list, is_large,
    is_other_class,
};
use c_symbols::Scopes;
use c_types::{TypeId, TypeTable};
use c_values::values::plain;
use c_values::{CheckFault, kinds};
use lcc_base::{Bytes, Items, Which};
use std::alloc::Global;

/// The declarator of an old-style parameter, over the type of its specifiers.
#[derive(Drop)]
struct OldParameter {
    name: Bytes,
    base: TypeId,
    steps: Items<Step>,
    /// Its place among the listed names, if it is one of them.
    place: Option<usize>,
    initialised: bool,
}

/// A parameter of a declaration on this line, which one of the listed names is. It is in force from here on.
pub(crate) fn old_parameter(
    alloc: Global,
    scopes: &mut Scopes,
    types: &mut TypeTable,
    line: u32,
    listed: (&[Bytes], &Specified),
    i: &InitDeclarator,
) -> Result<(), CheckFault>
    requires symbols { AreSymbolsIn (length types.old.forms) scopes.old.symbols }
    requires base { listed.1.now.of < length types.old.forms }
    ensures { Walks no_value no_types (old_in scopes.old types.old line listed.entry.0.now (specified_seen types.old listed.entry.1.now) (init_seen i.now)) scopes.old types.old scopes.new types.new result }
{
    let (names, base) = listed;
    let d = declarator(alloc, scopes, types, &i.declarator)?;
    let own = d.line;
    let parameter = over(alloc, names, base.of, d, i.initialiser.is_some());
    declared(
        alloc,
        scopes,
        types,
        (line, own),
        base.classes.as_slice(),
        parameter,
    )
}

/// What the declarator says over the type of the specifiers.
fn over(
    alloc: Global,
    names: &[Bytes],
    base: TypeId,
    d: Declared,
    initialised: bool,
) -> OldParameter
    ensures base { result.base ≡ base }
    ensures steps { result.steps ≡ d.steps }
    ensures is { (t : Table) (classes : List Storage) → old_seen t classes result ≡ old_of names.now (record { classes = classes; of = type_at t base }) (declared_seen t d) initialised }
{
    let name = name_or_empty(alloc, d.name);
    let place = place(names, name.as_slice());
    OldParameter {
        name,
        base,
        steps: d.steps,
        place,
        initialised,
    }
}

/// Declares a parameter whose declarator is checked, as one of a declaration on the first of these lines whose
/// declarator begins on the second.
fn declared(
    alloc: Global,
    scopes: &mut Scopes,
    types: &mut TypeTable,
    lines: (u32, u32),
    classes: &[Storage],
    p: OldParameter,
) -> Result<(), CheckFault>
    requires symbols { AreSymbolsIn (length types.old.forms) scopes.old.symbols }
    requires parameter { IsOldIn (length types.old.forms) p }
    ensures { Walks no_value no_types (old_at (state_of scopes.old types.old) lines.0 lines.1 (old_seen types.old classes.now p)) scopes.old types.old scopes.new types.new result }
{
    let (line, own) = lines;
    if let Some(number) = broken(scopes, types, classes, &p) {
        return Err(CheckFault::Constraint { number, line: own });
    }
    let of = own_type(alloc, types, own, p.base, p.steps.as_slice())?;
    let spot = ParameterSpot {
        line,
        index: p.place.unwrap_or(0),
        alone: false,
    };
    declare_parameter(scopes, types, spot, classes, &Some(p.name), of)?;
    Ok(())
}

/// The first constraint that an old-style parameter breaks at its declarator.
fn broken(scopes: &Scopes, types: &TypeTable, classes: &[Storage], p: &OldParameter) -> Option<u8>
    requires { IsOldIn (length types.now.forms) p.now }
    ensures { result ≡ first_of parameter_constraints (state_of scopes.now types.now) (old_seen types.now classes.now p.now) }
{
    if is_other_class(classes) {
        Some(3)
    } else if scopes.find_here(p.name.as_slice()).is_some() {
        Some(5)
    } else {
        steps_broken(types, p)
    }
}

/// The first constraint on its type and its place that it breaks.
fn steps_broken(types: &TypeTable, p: &OldParameter) -> Option<u8>
    requires { IsOldIn (length types.now.forms) p.now }
    ensures { (c : List Storage) → result ≡ old_broken (tags types.now) (old_seen types.now c p.now) }
{
    let steps = p.steps.as_slice();
    if has_bad_size(types, steps) {
        Some(13)
    } else if has_bad_element(types, p.base, steps) {
        Some(14)
    } else if has_bad_result(types, p.base, steps) {
        Some(15)
    } else if steps.is_empty() && kinds::is_void(types, p.base) {
        Some(17)
    } else if is_unlisted(p) {
        Some(19)
    } else if steps.is_empty() && is_open(types, p.base) {
        Some(20)
    } else {
        None
    }
}

/// Whether it isn't one of the listed names, has an initialiser, or lists names.
fn is_unlisted(p: &OldParameter) -> bool
    ensures { (t : Table) (base : CType) → result ≡ (is_none p.now.place || (p.now.initialised || some_step is_name_list base (steps_seen t p.now.steps))) }
{
    p.place.is_none() || (p.initialised || has_name_list(p.steps.as_slice()))
}

/// Whether a parameter of the type has no size: it is neither an array nor a function, and incomplete.
fn is_open(types: &TypeTable, of: TypeId) -> bool
    requires { of < length types.now.forms }
    ensures { result ≡ not (sized (tags types.now) (pointer_instead (type_at types.now of))) }
{
    kinds::element(types, of).is_none()
        && !kinds::is_function(types, of)
        && !kinds::has_size(types, plain(of))
}

/// The type that the steps give a parameter, at a declarator on this line, where nothing passes a limit: a size
/// before a depth before a number of parameters.
fn own_type(
    alloc: Global,
    types: &mut TypeTable,
    line: u32,
    base: TypeId,
    steps: &[Step],
) -> Result<TypeId, CheckFault>
    requires base { base < length types.old.forms }
    requires steps { AreStepsIn (length types.old.forms) steps.now }
    requires elements { some_step (is_bad_element (tags types.old)) (type_at types.old base) (steps_seen types.old steps.now) ≡ false }
    ensures ok { OnOk result (old_passed (tags types.old) (type_at types.old base) (steps_seen types.old steps.now) ≡ None) }
    ensures err { IfErr result (λ e. IsFault e (passed_fault line (old_passed (tags types.old) (type_at types.old base) (steps_seen types.old steps.now)))) }
    ensures means { IfOk result (λ id. type_at types.new id ≡ pointer_instead (all_formed (type_at types.old base) (steps_seen types.old steps.now))) }
    ensures within { IfOk result (λ id. id < length types.new.forms) }
    ensures grows { Grows types.old types.new }
{
    if is_large(types, base, steps) {
        return Err(CheckFault::Limit {
            which: Which::Object,
            line,
        });
    }
    let whole = formed(alloc, types, line, base, steps)?;
    let of = adjusted(types, line, whole)?;
    if has_many_parameters(steps) {
        return Err(CheckFault::Limit {
            which: Which::Parameters,
            line,
        });
    }
    Ok(of)
}
