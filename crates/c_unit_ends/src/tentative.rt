//! Tentative definitions at the end of a unit (C89 3.7.2).
ghost use Rattle.std.specs.Prelude.{◌≡◌, ◌<◌, ◌++◌, None, Some, true, length, map, IfErr, IfOk, OnOk};
ghost use Rattle.c_types.specs.declared.type_form.TypeForm.TheVariants as form;
ghost use Rattle.c_types.specs.CType.{Array};
ghost use Rattle.c_symbols.specs.declared.symbol.Storage.TheVariants as storage;
ghost use Rattle.c_types.specs.Table.{Grows, form_refusal, tags, type_at, types as types_of};
ghost use Rattle.c_check_decl.specs.Declares.{AreObjectsIn, defined_in, IsObjectIn};
ghost use Rattle.c_check_expr.specs.Known.{AreSymbolsIn, known_of, state_of};
ghost use Rattle.c_check_expr.specs.StepFaults.{IsFault};
ghost use Rattle.c_meaning.specs.Types.{has_size as sized};
ghost use Rattle.c_units.specs.Ends.{closed as closed_type, closed_by, is_tentative as tentative_value, open_fault, tentative as tentative_names, tentative_objects, with_tentative};
ghost use Rattle.c_unit_ends.specs.TentativeObjects.{IsIncomplete, object_by};
ghost use Rattle.c_unit_parts.specs.PartsIn.{ArePartsIn, parts_in};

use c_check_decl::DefinedObject;
use c_meaning::CoreObject;
use c_symbols::{Scopes, Storage, Symbol, SymbolId};
use c_types::{TypeFault, TypeForm, TypeId, TypeTable};
use c_unit_parts::UnitParts;
use c_values::values::plain;
use c_values::{CheckFault, kinds};
use lcc_base::{Bytes, Items, Memory};
use std::alloc::Global;

/// Defines what is only defined tentatively, behind the objects that the unit has: an array of unknown size with
/// external linkage has one element. Constraint 16 is told at the first declaration of a name whose type is
/// incomplete, in the order of first declarations. After an error some of them are there.
pub fn define_tentative(
    alloc: Global,
    scopes: &Scopes,
    types: &mut TypeTable,
    parts: &mut UnitParts,
) -> Result<(), CheckFault>
    requires symbols { AreSymbolsIn (length types.old.forms) scopes.now.symbols }
    requires parts { ArePartsIn (length types.old.forms) parts.old }
    ensures is { OnOk result (parts_in types.new parts.new ≡ with_tentative (state_of scopes.now types.old) (parts_in types.old parts.old)) }
    ensures sound { OnOk result (open_fault (state_of scopes.now types.old) (tentative_names (state_of scopes.now types.old) scopes.now.links) ≡ None) }
    ensures told { IfErr result (λ e. IsFault e (open_fault (state_of scopes.now types.old) (tentative_names (state_of scopes.now types.old) scopes.now.links))) }
    ensures within { OnOk result (ArePartsIn (length types.new.forms) parts.new) }
    ensures grows { Grows types.old types.new }
{
    add_tentative(alloc, scopes, types, &mut parts.objects)
}

/// Adds the objects that are only defined tentatively, in the order of first declarations.
fn add_tentative(
    alloc: Global,
    scopes: &Scopes,
    types: &mut TypeTable,
    objects: &mut Items<DefinedObject>,
) -> Result<(), CheckFault>
    requires symbols { AreSymbolsIn (length types.old.forms) scopes.now.symbols }
    requires objects { AreObjectsIn (length types.old.forms) objects.old }
    ensures is { OnOk result (map (defined_in types.new) objects.new ≡ map (defined_in types.old) objects.old ++ tentative_objects (state_of scopes.now types.old) (tentative_names (state_of scopes.now types.old) scopes.now.links)) }
    ensures sound { OnOk result (open_fault (state_of scopes.now types.old) (tentative_names (state_of scopes.now types.old) scopes.now.links) ≡ None) }
    ensures told { IfErr result (λ e. IsFault e (open_fault (state_of scopes.now types.old) (tentative_names (state_of scopes.now types.old) scopes.now.links))) }
    ensures within { OnOk result (AreObjectsIn (length types.new.forms) objects.new) }
    ensures grows { Grows types.old types.new }
{
    scopes.names_are_declared();
    let links = scopes.links();
    for place in 0..links.len() {
        let (name, id) = links.entry(place);
        let symbol = scopes.symbol(id);
        if !is_tentative(symbol.value) {
            continue;
        }
        let object = defined(alloc, types, name, id, symbol)?;
        objects.push(object)?;
    }
    Ok(())
}

/// Whether a symbol's value says that its object is only defined tentatively.
fn is_tentative(value: Option<i64>) -> bool
    ensures { result ≡ tentative_value value }
{
    match value {
        Some(n) => n == 0,
        None => false,
    }
}

/// The object that is defined, without a first value.
fn defined(
    alloc: Global,
    types: &mut TypeTable,
    name: &[u8],
    id: SymbolId,
    symbol: &Symbol,
) -> Result<DefinedObject, CheckFault>
    requires { symbol.now.of < length types.old.forms }
    ensures is { IfOk result (λ o. defined_in types.new o ≡ object_by name.now id (known_of (types_of types.old) symbol.now)) }
    ensures size { OnOk result (sized (tags types.old) (closed_type (known_of (types_of types.old) symbol.now)) ≡ true) }
    ensures told { IfErr result (λ e. IsIncomplete e symbol.now.line (sized (tags types.old) (closed_type (known_of (types_of types.old) symbol.now)))) }
    ensures within { IfOk result (λ o. IsObjectIn (length types.new.forms) o.object) }
    ensures grows { Grows types.old types.new }
{
    let of = closed(types, symbol)?;
    if !kinds::has_size(types, plain(of)) {
        return Err(CheckFault::Constraint {
            number: 16,
            line: symbol.line,
        });
    }
    Ok(DefinedObject {
        symbol: id,
        object: CoreObject {
            name: Bytes::copied(alloc, name)?,
            of,
            line: symbol.line,
            constant: types.is_const(of),
            places: Items::new(alloc),
        },
    })
}

/// The type that the symbol's object has: an array of unknown size with external linkage has one element.
fn closed(types: &mut TypeTable, symbol: &Symbol) -> Result<TypeId, Memory>
    requires { symbol.now.of < length types.old.forms }
    ensures means { IfOk result (λ id. type_at types.new id ≡ closed_by symbol.now.class (type_at types.old symbol.now.of)) }
    ensures within { IfOk result (λ id. id < length types.new.forms) }
    ensures grows { Grows types.old types.new }
{
    match symbol.class {
        Storage::Extern => closed_array(types, symbol.of),
        _ => Ok(symbol.of),
    }
}

/// The type, or where it is an array of unknown size, that of one element.
fn closed_array(types: &mut TypeTable, of: TypeId) -> Result<TypeId, Memory>
    requires { of < length types.old.forms }
    ensures means { IfOk result (λ id. type_at types.new id ≡ closed_by storage.Extern (type_at types.old of)) }
    ensures within { IfOk result (λ id. id < length types.new.forms) }
    ensures grows { Grows types.old types.new }
{
    let (base, qualifiers) = types.unqualified(of);
    match types.array_of(base) {
        Some((element, None)) => {
            types.types_are_within_limits();
            let id = one_element(types, element)?;
            types.qualified(id, qualifiers)
        }
        _ => Ok(of),
    }
}

/// The array of one element, which passes no limit.
fn one_element(types: &mut TypeTable, of: TypeId) -> Result<TypeId, Memory>
    requires of { of < length types.old.forms }
    requires accepted { form_refusal types.old (form.Array of (Some 1)) ≡ None }
    ensures means { IfOk result (λ id. type_at types.new id ≡ Array (type_at types.old of) (Some 1)) }
    ensures within { IfOk result (λ id. id < length types.new.forms) }
    ensures grows { Grows types.old types.new }
{
    match types.add(TypeForm::Array {
        of,
        length: Some(1),
    }) {
        Ok(id) => Ok(id),
        Err(TypeFault::Memory) => Err(Memory),
        Err(_) => unreachable!(),
    }
}
