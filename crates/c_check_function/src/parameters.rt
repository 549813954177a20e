//! The parameters of a function that is defined, which are its first locals (C89 3.7.1).
ghost use Rattle.std.specs.Prelude.{◌≡◌, ◌<◌, ◌++◌, ◌∷◌, [], ℕ, IsTrue, Some, length, map, IfOk, OnErr, OnOk};
ghost use Rattle.c_symbols.specs.Scoping.{AreBelow, symbol_named};
ghost use Rattle.c_types.specs.Table.{Table, type_at};
ghost use Rattle.c_meaning.specs.State.{State};
ghost use Rattle.c_check_decl.specs.Declares.{AreLocalsIn};
ghost use Rattle.c_check_expr.specs.Keeps.{Keeps};
ghost use Rattle.c_check_expr.specs.Known.{AreSymbolsIn, state_of};
ghost use Rattle.c_check_expr.specs.PartsSeen.{AreParametersIn, AreStepsIn, IsStepIn, parameters_seen, step_seen, steps_seen};
ghost use Rattle.c_units.specs.Definitions.{names_of, own_step};
ghost use Rattle.c_units.specs.Functions.{listed_types, parameter_types as types_by, scope_of, type_at as type_or_int, types_of, with_all_listed, with_listed};
ghost use Rattle.c_check_function.specs.OwnParameters.{AreOwnIn, own_names, own_types};

use c_check_expr::pieces::{NamedParameter, ParameterSpot, Step, declare_parameter, symbol_type};
use c_symbols::{Scope, Scopes};
use c_types::{TypeId, TypeTable};
use c_values::basic_places::INT;
use lcc_base::{Bytes, Items, Memory};
use std::alloc::Global;

/// The parameters of a definition: those of its prototype, or the names of an old-style list.
#[derive(Drop)]
pub(crate) enum Parameters {
    Typed(Items<NamedParameter>),
    Named(Items<Bytes>),
}

impl Parameters {
    /// The listed names, none where there is a prototype.
    pub(crate) fn names(&self) -> &[Bytes]
        ensures { result.now ≡ own_names self.now }
    {
        match self {
            Parameters::Named(names) => names.as_slice(),
            Parameters::Typed(_) => &[],
        }
    }
}

/// The parameters that a step makes, and the scope of those of a prototype.
fn parameters_of(alloc: Global, step: Step) -> (Scope, Parameters)
    ensures scope { (t : Table) → result.0 ≡ scope_of (Some (step_seen t step)) }
    ensures names { (t : Table) → own_names result.1 ≡ names_of (Some (step_seen t step)) }
    ensures types { (t : Table) (s : State) → own_types s t result.1 ≡ types_by s (Some (step_seen t step)) }
    ensures within { (n : ℕ) → IsStepIn n step → AreOwnIn n result.1 }
{
    match step {
        Step::Function {
            parameters,
            scope,
            ..
        } => (scope, Parameters::Typed(parameters)),
        Step::Named(names) => (Scope::new(alloc), Parameters::Named(names)),
        Step::Open | Step::Pointer(_) | Step::Array(_) => nothing(alloc),
    }
}

/// No parameters.
fn nothing(alloc: Global) -> (Scope, Parameters)
    ensures scope { result.0 ≡ [] }
    ensures names { own_names result.1 ≡ [] }
    ensures types { (t : Table) (s : State) → own_types s t result.1 ≡ [] }
    ensures within { (n : ℕ) → AreOwnIn n result.1 }
{
    (Scope::new(alloc), Parameters::Named(Items::new(alloc)))
}

/// The parameters of the last step, and the scope of those of a prototype.
pub(crate) fn own_parameters(alloc: Global, steps: Items<Step>) -> (Scope, Parameters)
    ensures scope { (t : Table) → result.0 ≡ scope_of (own_step (steps_seen t steps)) }
    ensures names { (t : Table) → own_names result.1 ≡ names_of (own_step (steps_seen t steps)) }
    ensures types { (t : Table) (s : State) → own_types s t result.1 ≡ types_by s (own_step (steps_seen t steps)) }
    ensures within { (n : ℕ) → AreStepsIn n steps → AreOwnIn n result.1 }
{
    let mut steps = steps.into_vec();
    match steps.pop() {
        Some(own) => parameters_of(alloc, own),
        None => nothing(alloc),
    }
}

/// Opens the scope of a prototype's parameters again (C89 3.1.2.1).
pub(crate) fn reopen(scopes: &mut Scopes, names: Scope) -> Result<(), Memory>
    ensures outer { OnOk result (scopes.new.outer ≡ scopes.old.outer ++ scopes.old.inner ∷ []) }
    ensures inner { OnOk result (scopes.new.inner ≡ names) }
    ensures links { OnOk result (scopes.new.links ≡ scopes.old.links) }
    ensures symbols { OnOk result (scopes.new.symbols ≡ scopes.old.symbols) }
    ensures err { OnErr result (scopes.new ≡ scopes.old) }
{
    if !are_declared(scopes, &names) {
        // Names stand with symbols that were declared.
        return Err(Memory);
    }
    scopes.reopen(names)
}

/// Whether each name of a scope has one of the symbols that were declared.
fn are_declared(scopes: &Scopes, names: &Scope) -> bool
    ensures { IsTrue result → AreBelow (length scopes.now.symbols) names.now }
{
    for place in 0..names.len() {
        let (_, id) = names.entry(place);
        if id >= scopes.count() {
            return false;
        }
    }
    true
}

/// The types of the parameters in their scope, behind the declarations of old-style ones: a listed name that
/// those don't declare is an `int`.
pub(crate) fn parameter_types(
    alloc: Global,
    scopes: &mut Scopes,
    types: &TypeTable,
    line: u32,
    parameters: &Parameters,
) -> Result<Items<TypeId>, Memory>
    requires symbols { AreSymbolsIn (length types.now.forms) scopes.old.symbols }
    requires parameters { AreOwnIn (length types.now.forms) parameters.now }
    ensures state { OnOk result (state_of scopes.new types.now ≡ with_all_listed (state_of scopes.old types.now) line 0 (own_names parameters.now)) }
    ensures types { IfOk result (λ l. map (type_at types.now) l ≡ own_types (state_of scopes.new types.now) types.now parameters.now) }
    ensures within { IfOk result (λ l. AreLocalsIn (length types.now.forms) l) }
    ensures keeps { Keeps scopes.old types.now scopes.new types.now }
{
    match parameters {
        Parameters::Typed(list) => types_in(alloc, list.as_slice()),
        Parameters::Named(names) => {
            declare_listed(alloc, scopes, types, line, names.as_slice())?;
            listed(alloc, scopes, types, names.as_slice())
        }
    }
}

/// The types of a prototype's parameters.
fn types_in(alloc: Global, list: &[NamedParameter]) -> Result<Items<TypeId>, Memory>
    ensures is { IfOk result (λ l. (t : Table) → map (type_at t) l ≡ types_of (parameters_seen t list.now)) }
    ensures within { IfOk result (λ l. (n : ℕ) → AreParametersIn n list.now → AreLocalsIn n l) }
{
    let mut all = Items::with_capacity(alloc, list.len())?;
    for p in list {
        all.push(p.of)?;
    }
    Ok(all)
}

/// Declares the listed names that the innermost scope doesn't have, as ints.
fn declare_listed(
    alloc: Global,
    scopes: &mut Scopes,
    types: &TypeTable,
    line: u32,
    names: &[Bytes],
) -> Result<(), Memory>
    requires { AreSymbolsIn (length types.now.forms) scopes.old.symbols }
    ensures state { OnOk result (state_of scopes.new types.now ≡ with_all_listed (state_of scopes.old types.now) line 0 names.now) }
    ensures keeps { Keeps scopes.old types.now scopes.new types.now }
{
    for (index, name) in names.iter().enumerate() {
        let spot = ParameterSpot {
            line,
            index,
            alone: false,
        };
        declare_one(alloc, scopes, types, spot, name.as_slice())?;
    }
    Ok(())
}

/// Declares a listed name as an int, unless the innermost scope has it.
fn declare_one(
    alloc: Global,
    scopes: &mut Scopes,
    types: &TypeTable,
    spot: ParameterSpot,
    name: &[u8],
) -> Result<(), Memory>
    requires { AreSymbolsIn (length types.now.forms) scopes.old.symbols }
    ensures state { OnOk result (state_of scopes.new types.now ≡ with_listed (state_of scopes.old types.now) spot.line spot.index name.now (symbol_named scopes.old.inner name.now)) }
    ensures keeps { Keeps scopes.old types.now scopes.new types.now }
{
    if scopes.find_here(name).is_some() {
        return Ok(());
    }
    let own = Some(Bytes::copied(alloc, name)?);
    declare_parameter(scopes, types, spot, &[], &own, types.basic_type(INT))
}

/// The types that the listed names have in the innermost scope.
fn listed(
    alloc: Global,
    scopes: &Scopes,
    types: &TypeTable,
    names: &[Bytes],
) -> Result<Items<TypeId>, Memory>
    requires { AreSymbolsIn (length types.now.forms) scopes.now.symbols }
    ensures is { IfOk result (λ l. map (type_at types.now) l ≡ listed_types (state_of scopes.now types.now) names.now) }
    ensures within { IfOk result (λ l. AreLocalsIn (length types.now.forms) l) }
{
    let mut all = Items::with_capacity(alloc, names.len())?;
    for name in names {
        all.push(type_here(scopes, types, name.as_slice()))?;
    }
    Ok(all)
}

/// The type of the name in the innermost scope, and that of an int where it isn't there.
fn type_here(scopes: &Scopes, types: &TypeTable, name: &[u8]) -> TypeId
    requires { AreSymbolsIn (length types.now.forms) scopes.now.symbols }
    ensures is { type_at types.now result ≡ type_or_int (state_of scopes.now types.now) (symbol_named scopes.now.inner name.now) }
    ensures within { result < length types.now.forms }
{
    match scopes.find_here(name) {
        Some(id) => symbol_type(scopes, types, id),
        None => types.basic_type(INT),
    }
}
