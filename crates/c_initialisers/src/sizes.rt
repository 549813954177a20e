//! Which objects can be initialised, and the size that an initialiser gives an array of unknown size (C89
//! 3.5.7).
ghost use Rattle.std.specs.Prelude.{◌≡◌, ◌<◌, ◌+◌, ◌++◌, ◌∷◌, [], List, Some, None, length, map, true, false, IfErr, IfNone, IfOk, IfSome, OnOk};
ghost use Rattle.c_types.specs.CType.{Array};
ghost use Rattle.c_types.specs.Layout.{size_or_zero};
ghost use Rattle.c_types.specs.Table.{Grows, Table, tags, type_at};
ghost use Rattle.c_meaning.specs.CoreTrees.{IsIn, seen};
ghost use Rattle.c_meaning.specs.Filling.{Waiting, count_of, elements_begun as begun_in, sized};
ghost use Rattle.c_meaning.specs.Initialising.{can_be_initialised as initialisable, completed_types, elements_stored as elements_of_first, has_unknown_size, stored_elements as elements_stored, text_elements as elements_of_text};
ghost use Rattle.c_meaning.specs.NodeConstraints.{passed_by};
ghost use Rattle.c_meaning.specs.Types.{has_size as of_objects};
ghost use Rattle.c_values.specs.Valued.{qualified_in};
ghost use Rattle.c_check_expr.specs.Completed.{IsPassed};
ghost use Rattle.c_initialisers.specs.Storing.{AreStoredIn, stored_in};
ghost use Rattle.c_initialisers.specs.Waiting.{AreEntriesIn, entries_in, waiting_in};

use crate::kinds;
use crate::stored::{Filling, Stored};
use crate::waits::Waits;
use c_meaning::{CoreExpr, CoreKind};
use c_types::{TypeForm, TypeId, TypeTable};
use c_values::forming::type_refusal;
use c_values::kinds::has_size;
use c_values::values::plain;
use c_values::{CheckFault, QualifiedType};
use lcc_base::Memory;

/// Whether an object of the type can be initialised: it has a size, or is an array of unknown size.
pub(crate) fn can_be_initialised(types: &TypeTable, of: TypeId) -> bool
    requires { of < length types.now.forms }
    ensures { result ≡ initialisable (tags types.now) (type_at types.now of) }
{
    has_size(types, plain(of)) || element_of_unknown(types, of).is_some()
}

/// The elements of the type, if it is an array of unknown size.
fn element_of_unknown(types: &TypeTable, of: TypeId) -> Option<QualifiedType>
    requires { of < length types.now.forms }
    ensures some { IfSome result (λ e. type_at types.now of ≡ Array (qualified_in types.now e) None) }
    ensures within { IfSome result (λ e. e.of < length types.now.forms) }
    ensures none { IfNone result (has_unknown_size (type_at types.now of) ≡ false) }
{
    match kinds::array_of(types, plain(of)) {
        Some((element, None)) => Some(element),
        _ => None,
    }
}

/// How many elements an array of unknown size gets from a list: as many as were begun, or those that the
/// string fills with which the list begins.
pub(crate) fn stored_elements(types: &TypeTable, filling: &Filling) -> u32
    requires places { AreStoredIn (length types.now.forms) filling.now.places.items }
    requires entries { AreEntriesIn types.now filling.now.waits.items }
    ensures { result ≡ elements_stored (waiting_in types.now filling.now.waits.items) (map (stored_in types.now) filling.now.places.items) }
{
    let waits = filling.waits.as_slice();
    if waits.is_empty() {
        first_elements(types, filling.places.as_slice())
    } else {
        elements_begun(waits)
    }
}

/// How many elements the first of these places has, if it is an array.
fn first_elements(types: &TypeTable, places: &[Stored]) -> u32
    requires { AreStoredIn (length types.now.forms) places.now }
    ensures { result ≡ elements_of_first (map (stored_in types.now) places.now) }
{
    match places {
        [first, ..] => elements(types, first.of),
        [] => 0,
    }
}

/// How many elements the type has: none where their number is unknown, or where it is no array.
fn elements(types: &TypeTable, of: TypeId) -> u32
    requires { of < length types.now.forms }
    ensures { result ≡ size_or_zero (count_of (type_at types.now of)) }
{
    match kinds::array_of(types, plain(of)) {
        Some((_, Some(count))) => count,
        _ => 0,
    }
}

/// How many elements were begun of the array of unknown size that waits last.
fn elements_begun(waits: &[Waits]) -> u32
    ensures { (t : Table) → result ≡ begun_in (waiting_in t waits.now) }
{
    let mut begun = 0;
    for entry in waits {
        begun = begun_with(entry, begun);
    }
    begun
}

/// How many were begun where this entry is the next, and so many were in those behind it.
#[tactic(auto, using(crate::proofs::WaitingLists::begun_under))]
fn begun_with(entry: &Waits, begun: u32) -> u32
    ensures { (t : Table) → (ws : List Waiting) → begun ≡ begun_in ws → result ≡ begun_in (entries_in t entry.now ++ ws) }
{
    match entry {
        Waits::Elements {
            index,
            count: None,
            ..
        } => *index,
        _ => begun,
    }
}

/// How many elements an array of unknown size gets from an expression: the bytes of a string and the null
/// behind them.
pub(crate) fn text_elements(types: &TypeTable, of: TypeId, c: &CoreExpr) -> Result<u32, Memory>
    requires of { of < length types.now.forms }
    requires within { IsIn (length types.now.forms) c.now }
    ensures { IfOk result (λ n. n ≡ elements_of_text (type_at types.now of) (seen (type_at types.now) c.now)) }
{
    if !kinds::is_text_over(types, plain(of), c) {
        return Ok(0);
    }
    match &c.what {
        CoreKind::Literal(bytes) => {
            u32::try_from(bytes.as_slice().len() + 1).map_err(|_| Memory)
        }
        _ => Ok(0),
    }
}

/// The array that a string of these bytes fills, with room for the null behind them where its size is
/// unknown. The string's own array has as many characters, and is within the limits.
pub(crate) fn text_array(
    types: &mut TypeTable,
    line: u32,
    of: QualifiedType,
    bytes: &[u8],
) -> Result<TypeId, Memory>
    requires { of.of < length types.old.forms }
    ensures means { IfOk result (λ id. type_at types.new id ≡ sized (qualified_in types.old of) (length bytes.now + 1)) }
    ensures within { IfOk result (λ id. id < length types.new.forms) }
    ensures grows { Grows types.old types.new }
{
    let count = u32::try_from(bytes.len() + 1).map_err(|_| Memory)?;
    let of = types.qualified(of.of, of.qualifiers)?;
    sized_type(types, line, of, count).map_err(|_| Memory)
}

/// The type with so many elements, where it is an array of unknown size; else the type itself. A limit that
/// the array passes is told on this line.
pub(crate) fn sized_type(
    types: &mut TypeTable,
    line: u32,
    of: TypeId,
    count: u32,
) -> Result<TypeId, CheckFault>
    requires { of < length types.old.forms }
    ensures means { IfOk result (λ id. type_at types.new id ≡ sized (type_at types.old of) count) }
    ensures within { IfOk result (λ id. id < length types.new.forms) }
    ensures passes { OnOk result (passed_by (tags types.old) (completed_types (type_at types.old of) (sized (type_at types.old of) count)) ≡ None) }
    ensures limit { IfErr result (λ e. IsPassed e line (passed_by (tags types.old) (completed_types (type_at types.old of) (sized (type_at types.old of) count)))) }
    ensures grows { Grows types.old types.new }
{
    types.types_are_within_limits();
    match element_of_unknown(types, of) {
        Some(element) => array_of_so_many(types, line, element, count),
        None => Ok(of),
    }
}

/// The array of so many of these elements, under their qualifiers.
fn array_of_so_many(
    types: &mut TypeTable,
    line: u32,
    element: QualifiedType,
    count: u32,
) -> Result<TypeId, CheckFault>
    requires within { element.of < length types.old.forms }
    requires size { of_objects (tags types.old) (qualified_in types.old element) ≡ true }
    ensures means { IfOk result (λ id. type_at types.new id ≡ Array (qualified_in types.old element) (Some count)) }
    ensures within { IfOk result (λ id. id < length types.new.forms) }
    ensures passes { OnOk result (passed_by (tags types.old) (Array (qualified_in types.old element) (Some count) ∷ []) ≡ None) }
    ensures limit { IfErr result (λ e. IsPassed e line (passed_by (tags types.old) (Array (qualified_in types.old element) (Some count) ∷ []))) }
    ensures grows { Grows types.old types.new }
{
    let of = types.qualified(element.of, element.qualifiers)?;
    array(types, line, of, count)
}

/// The array of so many of these elements.
fn array(types: &mut TypeTable, line: u32, of: TypeId, count: u32) -> Result<TypeId, CheckFault>
    requires within { of < length types.old.forms }
    requires size { of_objects (tags types.old) (type_at types.old of) ≡ true }
    ensures means { IfOk result (λ id. type_at types.new id ≡ Array (type_at types.old of) (Some count)) }
    ensures within { IfOk result (λ id. id < length types.new.forms) }
    ensures passes { OnOk result (passed_by (tags types.old) (Array (type_at types.old of) (Some count) ∷ []) ≡ None) }
    ensures limit { IfErr result (λ e. IsPassed e line (passed_by (tags types.old) (Array (type_at types.old of) (Some count) ∷ []))) }
    ensures grows { Grows types.old types.new }
{
    let form = TypeForm::Array {
        of,
        length: Some(count),
    };
    match types.add(form) {
        Ok(id) => Ok(id),
        Err(fault) => Err(type_refusal(fault, line)),
    }
}
