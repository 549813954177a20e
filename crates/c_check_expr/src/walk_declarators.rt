//! The walk over declarators, from their cores outwards, and over prototypes' parameters (C89 3.5.4).
ghost use Rattle.std.specs.Prelude.{◌≡◌, ◌<◌, ℕ, ◌++◌, ◌∷◌, [], true, length, map, reverse, if◌then◌else◌, IfOk};
ghost use Rattle.c_ast.specs.Trees as tree;
ghost use Rattle.c_ast.specs.declared.expr.Parameter.{out-Parameter};
ghost use Rattle.c_ast.specs.Views.{parameters_of, suffixes_of};
ghost use Rattle.c_ast.specs.Seen.{core_seen, declarator_seen, maybe_declarator_seen, parameter_seen as parameter_tree, suffix_seen};
ghost use Rattle.c_types.specs.Table.{Table, type_at};
ghost use Rattle.c_meaning.specs.TypeRows.{none_if_void as without_void, pointer_steps as steps_of_pointers, qualifier_bit, qualifiers_among};
ghost use Rattle.c_meaning.specs.Typing.{stands_alone as stands_alone_in};
ghost use Rattle.c_check_expr.specs.Known.{AreSymbolsIn};
ghost use Rattle.c_check_expr.specs.PartsSeen.{AreParametersIn, AreStepsIn, IsStepIn, declared_seen, parameter_seen, parameters_seen, shaped_seen, step_seen, steps_seen};
ghost use Rattle.c_check_expr.specs.TypedIn.{core_in, declarator_in, parameter_in, parameter_shape_in, parameters_in, suffix_in, suffixes_in};
ghost use Rattle.c_check_expr.specs.Walks.{IsDeclaredIn, IsParameterIn, IsShapeIn, Walks};

use crate::parameters::ParameterSpot;
use crate::parts::{Declared, NamedParameter, Shaped, Step};
use crate::walk_expr::maybe_expression;
use crate::walk_types::specifiers;
use crate::{declarators, parameters};
use c_ast::{Declarator, DeclaratorCore, Parameter, Qualifier, Suffix, SuffixForm};
use c_symbols::Scopes;
use c_types::{Qualifiers, TypeId, TypeTable};
use c_values::{CheckFault, kinds};
use lcc_base::{Bytes, Items, Memory};
use std::alloc::Global;

/// A declarator.
#[cycle(walk)]
pub fn declarator(
    alloc: Global,
    scopes: &mut Scopes,
    types: &mut TypeTable,
    d: &Declarator,
) -> Result<Declared, CheckFault>
    requires { AreSymbolsIn (length types.old.forms) scopes.old.symbols }
    ensures { Walks declared_seen IsDeclaredIn (declarator_in scopes.old types.old (declarator_seen d.now)) scopes.old types.old scopes.new types.new result }
{
    let inner = core(alloc, scopes, types, &d.core)?;
    let outer = suffixes(alloc, scopes, types, d.suffixes.as_slice())?;
    let mut steps = pointer_steps(alloc, &d.pointers)?;
    push_reversed(&mut steps, outer)?;
    push_all(&mut steps, inner.steps)?;
    Ok(Declared {
        line: d.line,
        name: inner.name,
        steps,
    })
}

/// What stands between a declarator's pointers and its suffixes.
#[cycle(walk)]
fn core(
    alloc: Global,
    scopes: &mut Scopes,
    types: &mut TypeTable,
    c: &DeclaratorCore,
) -> Result<Declared, CheckFault>
    requires { AreSymbolsIn (length types.old.forms) scopes.old.symbols }
    ensures { Walks declared_seen IsDeclaredIn (core_in scopes.old types.old (core_seen c.now)) scopes.old types.old scopes.new types.new result }
{
    match c {
        DeclaratorCore::Declared(name) => Ok(Declared {
            line: 0,
            name: Some(Bytes::copied(alloc, name.as_slice())?),
            steps: Items::new(alloc),
        }),
        DeclaratorCore::Parentheses(inner) => declarator(alloc, scopes, types, inner),
        DeclaratorCore::Omitted => Ok(Declared {
            line: 0,
            name: None,
            steps: Items::new(alloc),
        }),
    }
}

/// The qualifiers as a set.
fn qualifier_set(list: &[Qualifier]) -> Qualifiers
    ensures { result.0 ≡ qualifiers_among list.now }
{
    let mut set = Qualifiers::none();
    for qualifier in list {
        set = set.with(flag(*qualifier));
    }
    set
}

/// The set of one qualifier.
fn flag(qualifier: Qualifier) -> Qualifiers
    ensures { result.0 ≡ qualifier_bit qualifier }
{
    match qualifier {
        Qualifier::Const => Qualifiers::CONST,
        Qualifier::Volatile => Qualifiers::VOLATILE,
    }
}

/// The steps of a declarator's pointers.
fn pointer_steps(alloc: Global, pointers: &Items<Items<Qualifier>>) -> Result<Items<Step>, Memory>
    ensures seen { IfOk result (λ steps. (t : Table) → steps_seen t steps ≡ steps_of_pointers pointers.now) }
    ensures within { IfOk result (λ steps. (n : ℕ) → AreStepsIn n steps) }
{
    let mut steps = Items::with_capacity(alloc, pointers.len())?;
    for qualifiers in pointers.as_slice() {
        steps.push(Step::Pointer(qualifier_set(qualifiers.as_slice())))?;
    }
    Ok(steps)
}

/// Adds steps at the end, the last one first.
fn push_reversed(steps: &mut Items<Step>, more: Items<Step>) -> Result<(), Memory>
    ensures { IfOk result (λ u. steps.new ≡ steps.old ++ reverse more) }
{
    let mut left = more.into_vec();
    while let Some(step) = left.pop() {
        steps.push(step)?;
    }
    Ok(())
}

/// Adds steps at the end.
fn push_all(steps: &mut Items<Step>, more: Items<Step>) -> Result<(), Memory>
    ensures { IfOk result (λ u. steps.new ≡ steps.old ++ more) }
{
    for step in more.into_vec() {
        steps.push(step)?;
    }
    Ok(())
}

/// Suffixes, one behind the other.
#[cycle(walk)]
fn suffixes(
    alloc: Global,
    scopes: &mut Scopes,
    types: &mut TypeTable,
    list: &[Suffix],
) -> Result<Items<Step>, CheckFault>
    requires { AreSymbolsIn (length types.old.forms) scopes.old.symbols }
    ensures { Walks steps_seen AreStepsIn (suffixes_in scopes.old types.old (suffixes_of (map suffix_seen list.now))) scopes.old types.old scopes.new types.new result }
{
    let mut all = Items::with_capacity(alloc, list.len())?;
    for s in list {
        let step = suffix(alloc, scopes, types, s)?;
        all.push(step)?;
    }
    Ok(all)
}

/// A suffix.
#[cycle(walk)]
fn suffix(
    alloc: Global,
    scopes: &mut Scopes,
    types: &mut TypeTable,
    s: &Suffix,
) -> Result<Step, CheckFault>
    requires { AreSymbolsIn (length types.old.forms) scopes.old.symbols }
    ensures { Walks step_seen IsStepIn (suffix_in scopes.old types.old (suffix_seen s.now)) scopes.old types.old scopes.new types.new result }
{
    match &s.form {
        SuffixForm::Array(size) => {
            let size = maybe_expression(alloc, scopes, types, size)?;
            Ok(Step::Array(size))
        }
        SuffixForm::Parameters { parameters, more } => {
            prototype(alloc, scopes, types, parameters.as_slice(), *more)
        }
        SuffixForm::Names(names) => Ok(Step::Named(copied_names(alloc, names)?)),
        SuffixForm::Empty => Ok(Step::Open),
    }
}

/// A copy of the names.
fn copied_names(alloc: Global, names: &Items<Bytes>) -> Result<Items<Bytes>, Memory>
    ensures { IfOk result (λ copy. copy ≡ names.now) }
{
    let mut copy = Items::with_capacity(alloc, names.len())?;
    for name in names.as_slice() {
        copy.push(Bytes::copied(alloc, name.as_slice())?)?;
    }
    Ok(copy)
}

/// A prototype's parameters, which have a scope of their own.
#[cycle(walk)]
fn prototype(
    alloc: Global,
    scopes: &mut Scopes,
    types: &mut TypeTable,
    list: &[Parameter],
    more: bool,
) -> Result<Step, CheckFault>
    requires { AreSymbolsIn (length types.old.forms) scopes.old.symbols }
    ensures { Walks step_seen IsStepIn (suffix_in scopes.old types.old (tree.Prototype 0 (parameters_of (map parameter_tree list.now)) more)) scopes.old types.old scopes.new types.new result }
{
    scopes.enter()?;
    let alone = stands_alone(list, more);
    let walked = parameter_list(alloc, scopes, types, alone, list);
    let scope = scopes.close();
    let parameters = none_if_void(alloc, types, alone, walked?);
    Ok(Step::Function {
        parameters,
        more,
        scope,
    })
}

/// Whether there is one parameter and nothing behind it.
fn stands_alone(list: &[Parameter], more: bool) -> bool
    ensures { result ≡ stands_alone_in (parameters_of (map parameter_tree list.now)) more }
{
    list.len() == 1 && !more
}

/// `(void)` says that there are no parameters.
fn none_if_void(
    alloc: Global,
    types: &TypeTable,
    alone: bool,
    parameters: Items<NamedParameter>,
) -> Items<NamedParameter>
    requires { AreParametersIn (length types.now.forms) parameters }
    ensures is { parameters_seen types.now result ≡ without_void alone (parameters_seen types.now parameters) }
    ensures within { AreParametersIn (length types.now.forms) result }
{
    if alone && begins_void(types, parameters.as_slice()) {
        Items::new(alloc)
    } else {
        parameters
    }
}

/// Whether the first parameter has type void.
fn begins_void(types: &TypeTable, parameters: &[NamedParameter]) -> bool
    requires { AreParametersIn (length types.now.forms) parameters.now }
    ensures { without_void true (parameters_seen types.now parameters.now) ≡ (if result then [] else parameters_seen types.now parameters.now) }
{
    match parameters {
        [first, ..] => kinds::is_void(types, first.of),
        [] => false,
    }
}

/// The parameters of a prototype, one behind the other.
#[cycle(walk)]
fn parameter_list(
    alloc: Global,
    scopes: &mut Scopes,
    types: &mut TypeTable,
    alone: bool,
    list: &[Parameter],
) -> Result<Items<NamedParameter>, CheckFault>
    requires { AreSymbolsIn (length types.old.forms) scopes.old.symbols }
    ensures { Walks parameters_seen AreParametersIn (parameters_in scopes.old types.old alone (parameters_of (map parameter_tree list.now))) scopes.old types.old scopes.new types.new result }
{
    let mut all = Items::with_capacity(alloc, list.len())?;
    for p in list {
        let spot = ParameterSpot {
            line: p.line,
            index: all.len(),
            alone,
        };
        let named = parameter(alloc, scopes, types, spot, p)?;
        all.push(named)?;
    }
    Ok(all)
}

/// A parameter.
#[cycle(walk)]
fn parameter(
    alloc: Global,
    scopes: &mut Scopes,
    types: &mut TypeTable,
    spot: ParameterSpot,
    p: &Parameter,
) -> Result<NamedParameter, CheckFault>
    requires symbols { AreSymbolsIn (length types.old.forms) scopes.old.symbols }
    requires line { spot.line ≡ (out-Parameter p.now).line }
    ensures { Walks parameter_seen IsParameterIn (parameter_in scopes.old types.old spot.alone spot.index (parameter_tree p.now)) scopes.old types.old scopes.new types.new result }
{
    let base = specifiers(alloc, scopes, types, &p.specifiers)?;
    let shape = parameter_shape(alloc, scopes, types, base.of, &p.declarator)?;
    parameters::parameter(scopes, types, spot, base.classes.as_slice(), shape)
}

/// A parameter's declarator, which may be left out, over the type of the specifiers.
#[cycle(walk)]
fn parameter_shape(
    alloc: Global,
    scopes: &mut Scopes,
    types: &mut TypeTable,
    base: TypeId,
    d: &Option<Declarator>,
) -> Result<Shaped, CheckFault>
    requires symbols { AreSymbolsIn (length types.old.forms) scopes.old.symbols }
    requires base { base < length types.old.forms }
    ensures { Walks shaped_seen IsShapeIn (parameter_shape_in scopes.old types.old base (maybe_declarator_seen d.now)) scopes.old types.old scopes.new types.new result }
{
    match d {
        Some(d) => {
            let steps = declarator(alloc, scopes, types, d)?;
            declarators::parameter_shape(alloc, scopes, types, base, steps)
        }
        None => Ok(Shaped {
            name: None,
            of: base,
        }),
    }
}
