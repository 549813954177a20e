//! Which place an initialiser fills: what waits is a stack, an expression takes the first place in it that
//! it can fill, and a list in braces the next (C89 3.5.7).
ghost use Rattle.std.specs.Prelude.{◌≡◌, ◌<◌, ◌&&◌, ◌||◌, length, IfOk, IfSome};
ghost use Rattle.c_ast.specs.Trees.{InitialiserTrees};
ghost use Rattle.c_types.specs.Table.{tags, type_at};
ghost use Rattle.c_meaning.specs.CoreTrees.{IsIn, seen};
ghost use Rattle.c_meaning.specs.Filling.{begins_with_text, begun, is_nowhere as nowhere, is_of_chars as of_chars, left_behind, next as next_place, taken};
ghost use Rattle.c_meaning.specs.Types.{is_scalar as scalar};
ghost use Rattle.c_values.specs.Valued.{qualified_in};
ghost use Rattle.c_initialisers.specs.Waiting.{AreEntriesIn, IsPlaceIn, found_in, place_in, waiting_in};

use crate::entering::enter_entry;
use crate::kinds::{is_of_chars, is_scalar};
use crate::parts::{front, parts, push_behind};
use crate::place::Place;
use crate::waits::Waits;
use c_meaning::CoreExpr;
use c_types::TypeTable;
use c_values::QualifiedType;
use lcc_base::Memory;
use std::alloc::Global;

/// The place that an expression fills among those that wait, which is taken from the stack. None where it
/// fills none, and then the stack stands for what it did.
pub(crate) fn take(
    alloc: Global,
    types: &TypeTable,
    c: &CoreExpr,
    waits: &mut Vec<Waits>,
) -> Result<Option<Place>, Memory>
    requires entries { AreEntriesIn types.now waits.old.items }
    requires within { IsIn (length types.now.forms) c.now }
    ensures found { IfOk result (λ p. taken (tags types.now) (seen (type_at types.now) c.now) (waiting_in types.now waits.old.items) ≡ found_in types.now waits.new.items p) }
    ensures left { IfOk result (λ p. waiting_in types.now waits.new.items ≡ left_behind (found_in types.now waits.new.items p) (waiting_in types.now waits.old.items)) }
    ensures place { IfOk result (λ p. IfSome p (IsPlaceIn (length types.now.forms))) }
    ensures entries { AreEntriesIn types.now waits.new.items }
{
    let mut left = Vec::new(alloc);
    let mut under = waits.len();
    while under > 0 {
        under -= 1;
        let entry = waits[under];
        if let Waits::Nowhere = entry {
            return Ok(None);
        }
        if let Some(place) = enter_entry(types, c, entry, &mut left)? {
            waits.truncate(under);
            waits.extend_from_slice(&left)?;
            return Ok(Some(place));
        }
    }
    Ok(None)
}

/// The object that a list in braces fills, which is taken from the stack. None where nothing waits, and
/// then the stack stands for what it did.
pub(crate) fn next(types: &TypeTable, waits: &mut Vec<Waits>) -> Result<Option<Place>, Memory>
    requires { AreEntriesIn types.now waits.old.items }
    ensures found { IfOk result (λ p. next_place (tags types.now) (waiting_in types.now waits.old.items) ≡ found_in types.now waits.new.items p) }
    ensures left { IfOk result (λ p. waiting_in types.now waits.new.items ≡ left_behind (found_in types.now waits.new.items p) (waiting_in types.now waits.old.items)) }
    ensures place { IfOk result (λ p. IfSome p (IsPlaceIn (length types.now.forms))) }
    ensures entries { AreEntriesIn types.now waits.new.items }
{
    let mut under = waits.len();
    while under > 0 {
        under -= 1;
        let entry = waits[under];
        if let Waits::Nowhere = entry {
            return Ok(None);
        }
        if let Some(front) = front(types, entry)? {
            waits.truncate(under);
            push_behind(waits, front.behind)?;
            return Ok(Some(front.place));
        }
    }
    Ok(None)
}

/// Whether what waits next is nothing, since the object can't be initialised.
pub(crate) fn is_nowhere(types: &TypeTable, waits: &[Waits]) -> bool
    requires { AreEntriesIn types.now waits.now }
    ensures { result ≡ nowhere (waiting_in types.now waits.now) }
{
    match waits.last() {
        Some(entry) => matches!(entry, Waits::Nowhere),
        None => false,
    }
}

/// Whether a list in braces fills an object of the type as a whole, of which is told whether its first item
/// is a string.
fn is_begun_whole(types: &TypeTable, of: QualifiedType, is_text: bool) -> bool
    requires { of.of < length types.now.forms }
    ensures { result ≡ (scalar (qualified_in types.now of) || (of_chars (qualified_in types.now of) && is_text)) }
{
    is_scalar(types, of) || (is_of_chars(types, of) && is_text)
}

/// What waits when a list in braces begins, of which is told whether its first item is a string: the
/// object itself, where it is a scalar, or an array of characters and the first item a string; else its
/// parts.
pub(crate) fn begin(
    alloc: Global,
    types: &TypeTable,
    at: Place,
    is_text: bool,
) -> Result<Vec<Waits>, Memory>
    requires { IsPlaceIn (length types.now.forms) at }
    ensures waits { IfOk result (λ ws. (is : InitialiserTrees) → begins_with_text is ≡ is_text → waiting_in types.now ws.items ≡ begun (tags types.now) is (place_in types.now at)) }
    ensures entries { IfOk result (λ ws. AreEntriesIn types.now ws.items) }
{
    let mut waits = Vec::new(alloc);
    if is_begun_whole(types, at.of, is_text) {
        waits.push(Waits::Whole(at))?;
    } else {
        push_behind(&mut waits, parts(types, at))?;
    }
    Ok(waits)
}
