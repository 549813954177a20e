//! The first place in an object that an expression fills: the object itself, or the first in its parts (C89 3.5.7).
ghost use Rattle.std.specs.Prelude.{◌≡◌, ◌<◌, true, length, Some, IfOk};
ghost use Rattle.c_types.specs.Table.{tags, type_at};
ghost use Rattle.c_meaning.specs.CoreTrees.{IsIn, seen};
ghost use Rattle.c_meaning.specs.Filling.{enter as entered, taken};
ghost use Rattle.c_initialisers.specs.Entering.{IsEntered, IsFrontIn, are_whole, entered_front, front_in};
ghost use Rattle.c_initialisers.specs.Waiting.{IsEntryIn, IsPlaceIn, entries_in, place_in};

use crate::front::Front;
use crate::kinds::does_fill;
use crate::parts::{front, parts, push_behind};
use crate::place::Place;
use crate::waits::Waits;
use c_meaning::CoreExpr;
use c_types::TypeTable;
use lcc_base::Memory;

/// The place in an object that the expression fills. What is left of the object behind it is put on the
/// stack; where there is no place the stack is as it was.
#[cycle(entering)]
fn enter(
    types: &TypeTable,
    c: &CoreExpr,
    at: Place,
    waits: &mut Vec<Waits>,
) -> Result<Option<Place>, Memory>
    requires at { IsPlaceIn (length types.now.forms) at }
    requires within { IsIn (length types.now.forms) c.now }
    ensures { IfOk result (IsEntered types.now waits.old.items waits.new.items (entered (tags types.now) (seen (type_at types.now) c.now) (place_in types.now at))) }
{
    if does_fill(types, at.of, c) {
        return Ok(Some(at));
    }
    types.members_are_complete();
    match parts(types, at) {
        Some(entry) => enter_entry(types, c, entry, waits),
        None => Ok(None),
    }
}

/// The same for the first place of what waits.
#[cycle(entering)]
fn enter_front(
    types: &TypeTable,
    c: &CoreExpr,
    front: Front,
    waits: &mut Vec<Waits>,
) -> Result<Option<Place>, Memory>
    requires front { IsFrontIn types.now front }
    requires within { IsIn (length types.now.forms) c.now }
    ensures { IfOk result (IsEntered types.now waits.old.items waits.new.items (entered_front (tags types.now) (seen (type_at types.now) c.now) (front_in types.now (Some front)))) }
{
    let under = waits.len();
    push_behind(waits, front.behind)?;
    match enter(types, c, front.place, waits)? {
        Some(place) => Ok(Some(place)),
        None => {
            waits.truncate(under);
            Ok(None)
        }
    }
}

/// The same for what waits: of elements the first one, since they are all of one type.
#[cycle(entering)]
pub(crate) fn enter_entry(
    types: &TypeTable,
    c: &CoreExpr,
    entry: Waits,
    waits: &mut Vec<Waits>,
) -> Result<Option<Place>, Memory>
    requires entry { IsEntryIn types.now entry }
    requires within { IsIn (length types.now.forms) c.now }
    ensures { IfOk result (IsEntered types.now waits.old.items waits.new.items (taken (tags types.now) (seen (type_at types.now) c.now) (entries_in types.now entry))) }
{
    if let Waits::Members { .. } = entry {
        return enter_members(types, c, entry, waits);
    }
    match front(types, entry)? {
        Some(front) => enter_front(types, c, front, waits),
        None => Ok(None),
    }
}

/// The same for members, one after another.
#[cycle(entering)]
fn enter_members(
    types: &TypeTable,
    c: &CoreExpr,
    entry: Waits,
    waits: &mut Vec<Waits>,
) -> Result<Option<Place>, Memory>
    requires entry { IsEntryIn types.now entry }
    requires within { IsIn (length types.now.forms) c.now }
    requires whole { are_whole (entries_in types.now entry) ≡ true }
    ensures { IfOk result (IsEntered types.now waits.old.items waits.new.items (taken (tags types.now) (seen (type_at types.now) c.now) (entries_in types.now entry))) }
{
    let mut rest = Some(entry);
    while let Some(entry) = rest {
        match front(types, entry)? {
            Some(front) => {
                if let Some(found) = enter_front(types, c, front, waits)? {
                    return Ok(Some(found));
                }
                rest = front.behind;
            }
            None => return Ok(None),
        }
    }
    Ok(None)
}
