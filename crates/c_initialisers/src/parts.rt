//! What an object consists of: elements, or members with names (C89 3.5.7).
ghost use Rattle.std.specs.Prelude.{◌≡◌, ◌<◌, ◌++◌, ◌∷◌, [], All, ℕ, Some, false, length, map, IfOk, IfSome, OnOk, OnErr, option_to_list};
ghost use Rattle.c_types.specs.Table.{member_seen, tags, type_at, types as types_in};
ghost use Rattle.c_meaning.specs.Filling.{Elements as ElementsIn, element as element_in, moved_to, next as next_place, parts as parts_in};
ghost use Rattle.c_meaning.specs.Types.{is_array};
ghost use Rattle.c_values.specs.Valued.{qualified_in};
ghost use Rattle.c_initialisers.specs.Entering.{IsFrontIn, front_in};
ghost use Rattle.c_initialisers.specs.Members.{is_union_type, moved_place, type_members};
ghost use Rattle.c_initialisers.specs.Waiting.{IsEntryIn, IsPlaceIn, entries_in, place_in, waiting_in};
ghost use Rattle.c_initialisers.specs.declared.waits.Waits.TheVariants.{Members as MembersFrom};

use crate::front::Front;
use crate::kinds::array_of;
use crate::place::Place;
use crate::waits::Waits;
use c_types::{MemberPlace, TypeForm, TypeId, TypeTable};
use c_values::values::plain;
use c_values::{QualifiedType, kinds};
use lcc_base::Memory;

/// The element at the index of an array that begins at an offset. Memory comes where no object is so large.
fn element(types: &TypeTable, of: QualifiedType, begin: u64, index: u32) -> Result<Place, Memory>
    requires { of.of < length types.now.forms }
    ensures is { IfOk result (λ p. place_in types.now p ≡ element_in (tags types.now) (qualified_in types.now of) begin index) }
    ensures within { IfOk result (IsPlaceIn (length types.now.forms)) }
{
    let before = u64::from(index) * u64::from(kinds::size_of(types, of));
    let offset = begin.checked_add(before).ok_or(Memory)?;
    Ok(Place {
        of,
        offset,
        first: 0,
        width: 0,
    })
}

/// The first of the elements that wait, and what is left behind it. None where none is left.
fn first_element(
    types: &TypeTable,
    of: QualifiedType,
    begin: u64,
    index: u32,
    count: Option<u32>,
) -> Result<Option<Front>, Memory>
    requires { of.of < length types.now.forms }
    ensures is { IfOk result (λ f. front_in types.now f ≡ next_place (tags types.now) (ElementsIn (qualified_in types.now of) begin index count ∷ [])) }
    ensures within { IfOk result (λ f. IfSome f (IsFrontIn types.now)) }
{
    let left = match count {
        Some(0) => return Ok(None),
        Some(count) => Some(count - 1),
        None => None,
    };
    let place = element(types, of, begin, index)?;
    let behind = Waits::Elements {
        of,
        begin,
        index: index.checked_add(1).ok_or(Memory)?,
        count: left,
    };
    Ok(Some(Front {
        place,
        behind: Some(behind),
    }))
}

/// The member at the index, in a structure or union that begins at an offset, and what is left behind it.
fn first_member(types: &TypeTable, of: TypeId, begin: u64, index: usize) -> Result<Front, Memory>
    requires of { of < length types.now.forms }
    requires index { index < length (type_members (tags types.now) (type_at types.now of) begin) }
    ensures is { IfOk result (λ f. front_in types.now (Some f) ≡ next_place (tags types.now) (entries_in types.now (MembersFrom of begin index))) }
    ensures within { IfOk result (IsFrontIn types.now) }
{
    let members = initialised(types, of);
    let place = moved(begin, members[index])?;
    let index = index + 1;
    let behind = if index < members.len() {
        Some(Waits::Members { of, begin, index })
    } else {
        None
    };
    Ok(Front { place, behind })
}

/// The first place of what waits, and what is left behind it. None where there is no place in it.
pub(crate) fn front(types: &TypeTable, entry: Waits) -> Result<Option<Front>, Memory>
    requires { IsEntryIn types.now entry }
    ensures is { IfOk result (λ f. front_in types.now f ≡ next_place (tags types.now) (entries_in types.now entry)) }
    ensures within { IfOk result (λ f. IfSome f (IsFrontIn types.now)) }
{
    match entry {
        Waits::Nowhere => Ok(None),
        Waits::Whole(place) => Ok(Some(Front {
            place,
            behind: None,
        })),
        Waits::Elements {
            of,
            begin,
            index,
            count,
        } => first_element(types, of, begin, index, count),
        Waits::Members { of, begin, index } => {
            let front = first_member(types, of, begin, index)?;
            Ok(Some(front))
        }
    }
}

/// Puts what is left behind a place on the stack.
pub(crate) fn push_behind(waits: &mut Vec<Waits>, behind: Option<Waits>) -> Result<(), Memory>
    ensures ok { OnOk result (waits.new.items ≡ waits.old.items ++ option_to_list behind) }
    ensures err { OnErr result (waits.new.items ≡ waits.old.items) }
{
    match behind {
        Some(behind) => {
            waits.push(behind)?;
            Ok(())
        }
        None => Ok(()),
    }
}

/// Whether the type is a union.
fn is_union(types: &TypeTable, id: TypeId) -> bool
    requires { id < length types.now.forms }
    ensures { result ≡ is_union_type (type_at types.now id) }
{
    let (base, _) = types.unqualified(id);
    matches!(types.form(base), TypeForm::Union)
}

/// The members that are initialised, in order: those with names, and of a union only the first.
fn initialised(types: &TypeTable, id: TypeId) -> &[MemberPlace]
    requires { id < length types.now.forms }
    ensures members { (offset : ℕ) → map (moved_to offset) (map (member_seen (types_in types.now)) result.now) ≡ type_members (tags types.now) (type_at types.now id) offset }
    ensures within { All (λ m. m.of < length types.now.forms) result.now }
{
    types.kind_is_told(id);
    let members = types.named_members(id);
    if is_union(types, id) {
        &members[..members.len().min(1)]
    } else {
        members
    }
}

/// A member's place in an object at the offset. Memory comes where no object is so large.
fn moved(offset: u64, member: MemberPlace) -> Result<Place, Memory>
    ensures { IfOk result (λ p. p ≡ moved_place offset member) }
{
    let offset = offset.checked_add(u64::from(member.offset)).ok_or(Memory)?;
    Ok(Place {
        of: plain(member.of),
        offset,
        first: member.first,
        width: member.width,
    })
}

/// What an object consists of: elements, or members. None where there is nothing in it.
pub(crate) fn parts(types: &TypeTable, at: Place) -> Option<Waits>
    requires { IsPlaceIn (length types.now.forms) at }
    ensures are { waiting_in types.now (option_to_list result) ≡ parts_in (tags types.now) (qualified_in types.now at.of) at.offset }
    ensures within { IfSome result (IsEntryIn types.now) }
{
    match array_of(types, at.of) {
        Some((of, count)) => Some(Waits::Elements {
            of,
            begin: at.offset,
            index: 0,
            count,
        }),
        None => members(types, at),
    }
}

/// The members of an object that is no array. None where it has none.
fn members(types: &TypeTable, at: Place) -> Option<Waits>
    requires at { IsPlaceIn (length types.now.forms) at }
    requires array { is_array (qualified_in types.now at.of) ≡ false }
    ensures are { waiting_in types.now (option_to_list result) ≡ parts_in (tags types.now) (qualified_in types.now at.of) at.offset }
    ensures within { IfSome result (IsEntryIn types.now) }
{
    if initialised(types, at.of.of).is_empty() {
        return None;
    }
    Some(Waits::Members {
        of: at.of.of,
        begin: at.offset,
        index: 0,
    })
}
