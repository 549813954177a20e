//! What the symbols of a unit's names stand for.
ghost use Rattle.std.specs.Prelude.{◌≡◌, ℕ, Some, IfOk, OnOk, map};
ghost use Rattle.c_types.specs.Table.{Table};
ghost use Rattle.c_check_decl.specs.declared.declares.DefinedObject.{DefinedObject as ObjectValue};
ghost use Rattle.c_check_expr.specs.Known.{state_of};
ghost use Rattle.c_standings.specs.StandingLists.{of_symbol};
ghost use Rattle.c_symbols.specs.Scoping.{AreBelow};
ghost use Rattle.c_unit_ends.specs.Over.{AreObjectPlaces, symbols_of};
ghost use Rattle.c_unit_ends.specs.Standing.{AreStandings, alone, by_name, first_of, functions_from, named_among, objects_from};
ghost use Rattle.c_unit_parts.specs.PartsIn.{parts_in};
ghost use Rattle.c_unit_parts.specs.declared.DefinedFunction.{DefinedFunction as FunctionValue};
ghost use Rattle.c_units.specs.Ends.{built_in_named};

use c_check_decl::DefinedObject;
use c_meaning::BuiltIn;
use c_standings::{Standing, Standings};
use c_symbols::{Scope, Scopes, SymbolId};
use c_unit_parts::{DefinedFunction, UnitParts};
use lcc_base::Memory;
use std::alloc::Global;

/// What the symbols of the unit's names stand for: the first function that has the symbol; else the first
/// object; else the built-in function of the first name with linkage that has it.
pub fn standings(alloc: Global, scopes: &Scopes, parts: &UnitParts) -> Result<Standings, Memory>
    ensures { IfOk result (λ l. (t : Table) → AreStandings (state_of scopes.now t) (parts_in t parts.now) l) }
{
    let mut all = Standings::new(alloc);
    add_functions(&mut all, parts.functions.as_slice())?;
    add_objects(&mut all, parts.objects.as_slice())?;
    scopes.names_are_declared();
    add_built_ins(alloc, &mut all, scopes.links(), scopes.count())?;
    Ok(all)
}

/// The objects alone, each by the first place of its symbol.
pub(crate) fn object_places(alloc: Global, objects: &[DefinedObject]) -> Result<Standings, Memory>
    ensures { IfOk result (λ l. AreObjectPlaces l objects.now) }
{
    let mut places = Standings::new(alloc);
    add_objects(&mut places, objects)?;
    Ok(places)
}

/// Notes what the symbol stands for, unless it has something.
fn add(all: &mut Standings, id: SymbolId, standing: Standing) -> Result<(), Memory>
    ensures { OnOk result ((k : ℕ) → of_symbol all.new k ≡ first_of (of_symbol all.old k) (alone id (Some standing) k)) }
{
    match all.of(id) {
        Some(_) => Ok(()),
        None => all.add(id, standing),
    }
}

/// The place as a standing has it. `Memory` comes where no unit has as many.
fn number_of(place: usize) -> Result<u32, Memory>
    ensures { IfOk result (λ n. n ≡ place) }
{
    u32::try_from(place).map_err(|_| Memory)
}

/// The functions, from the first on.
fn add_functions(all: &mut Standings, functions: &[DefinedFunction]) -> Result<(), Memory>
    ensures { OnOk result ((k : ℕ) → of_symbol all.new k ≡ first_of (of_symbol all.old k) (functions_from 0 (map (λ (f : FunctionValue). f.symbol) functions.now) k)) }
{
    for place in 0..functions.len() {
        let number = number_of(place)?;
        add(all, functions[place].symbol, Standing::Function(number))?;
    }
    Ok(())
}

/// The objects, from the first on.
fn add_objects(all: &mut Standings, objects: &[DefinedObject]) -> Result<(), Memory>
    ensures { OnOk result ((k : ℕ) → of_symbol all.new k ≡ first_of (of_symbol all.old k) (objects_from 0 (symbols_of objects.now) k)) }
{
    for place in 0..objects.len() {
        let number = number_of(place)?;
        add(all, objects[place].symbol, Standing::Object(number))?;
    }
    Ok(())
}

/// The built-in functions of names with linkage, whose symbols are below the number.
fn add_built_ins(
    alloc: Global,
    all: &mut Standings,
    links: &Scope,
    symbols: usize,
) -> Result<(), Memory>
    requires { AreBelow symbols links.now }
    ensures { OnOk result ((k : ℕ) → of_symbol all.new k ≡ first_of (of_symbol all.old k) (named_among links.now k)) }
{
    let mut named = vec![in alloc; false; symbols]?;
    for place in 0..links.len() {
        let (name, id) = links.entry(place);
        if named[id] {
            continue;
        }
        named[id] = true;
        add_named(all, id, built_in(name))?;
    }
    Ok(())
}

/// What a name with linkage stands for where the unit doesn't define it.
fn add_named(all: &mut Standings, id: SymbolId, built_in: Option<BuiltIn>) -> Result<(), Memory>
    ensures { OnOk result ((k : ℕ) → of_symbol all.new k ≡ first_of (of_symbol all.old k) (alone id (by_name built_in) k)) }
{
    match built_in {
        Some(built_in) => add(all, id, Standing::BuiltIn(built_in)),
        None => Ok(()),
    }
}

/// The built-in function of this name.
fn built_in(name: &[u8]) -> Option<BuiltIn>
    ensures { result ≡ built_in_named name.now }
{
    if name == b"putchar".as_slice() {
        Some(BuiltIn::Putchar)
    } else if name == b"getchar".as_slice() {
        Some(BuiltIn::Getchar)
    } else if name == b"exit".as_slice() {
        Some(BuiltIn::Exit)
    } else {
        None
    }
}
