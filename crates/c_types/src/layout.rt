//! The layout of structures and unions: offsets, bit-field units and padding.
ghost use Rattle.std.specs.Prelude.{◌≡◌, ◌≢◌, ◌<◌, ◌≤◌, ◌+◌, ◌++◌, ℕ, List, [], max, None, Some, IfErr, IfOk, OnOk};
ghost use Rattle.c_types.specs.declared.type_fault.TypeFault.TheVariants as fault;
ghost use Rattle.c_types.specs.Bounds.{IsBounded};
ghost use Rattle.c_types.specs.Layout.{field_align, next_room, round_up, spot_in, start};
ghost use Rattle.c_types.specs.Table.{excess, listed, place_at};
ghost use Rattle.c_types.specs.Facts.{noted};
ghost use Rattle.c_types.specs.Keeps.{place_named};

use crate::extent::Extent;
use crate::room::{Room, round_up};
use crate::type_fault::TypeFault;
use crate::type_form::{Member, MemberPlace};
use indexmap::IndexMap;
use lcc_base::{Items, Memory};
use std::alloc::Global;

/// The greatest size of a type, in bytes.
pub(crate) const LARGEST: u32 = 16_777_216;

/// The greatest depth of a type, and the greatest nesting.
pub(crate) const DEEPEST: u32 = 500;

/// The members of a structure or union as they are laid, one by one.
#[derive(Drop)]
pub(crate) struct Laying {
    is_union: bool,
    room: Room,
    align: u32,
    nesting: u32,
    places: IndexMap<Vec<u8>, MemberPlace>,
    /// The places of the members with names, in order.
    named: Items<MemberPlace>,
}

/// The alignment that a member gives its structure: a bit-field is aligned as its unit.
fn field_align(extent: Extent, width: Option<u8>) -> u32
    ensures { result ≡ field_align extent width }
{
    match width {
        None => extent.align,
        Some(_) => 4,
    }
}

/// Notes the member's place under its name, unless it has none or one before it has the same.
fn note(
    places: &mut IndexMap<Vec<u8>, MemberPlace>,
    alloc: Global,
    member: &Member,
    place: MemberPlace,
) -> Result<(), Memory>
    ensures { OnOk result ((name : List ℕ) → name ≢ [] → place_named places.new name ≡ noted member.now.name place name (place_named places.old name)) }
{
    let name = member.name.as_slice();
    if name.is_empty() || places.contains_key(name) {
        return Ok(());
    }
    let mut copy = Vec::new(alloc);
    copy.extend_from_slice(name)?;
    places.insert(copy, place)?;
    Ok(())
}

/// Adds the member's place to those of the members with names, unless it has none.
fn list(named: &mut Items<MemberPlace>, member: &Member, place: MemberPlace) -> Result<(), Memory>
    ensures { OnOk result (named.new ≡ named.old ++ listed member.now.name place) }
{
    if !member.name.is_empty() {
        named.push(place)?;
    }
    Ok(())
}

/// Why a type of this depth and extent is refused, if it is.
pub(crate) fn excess(depth: u32, extent: Extent) -> Result<(), TypeFault>
    ensures ok { OnOk result (excess depth extent ≡ None) }
    ensures err { IfErr result (λ e. excess depth extent ≡ Some e) }
{
    match extent.size {
        Some(size) if size > LARGEST => Err(TypeFault::TooLarge),
        _ => {
            if depth > DEEPEST || extent.nesting > DEEPEST {
                Err(TypeFault::TooDeep)
            } else {
                Ok(())
            }
        }
    }
}

impl Laying {
    /// No members, of a union or of a structure.
    pub(crate) fn new(alloc: Global, is_union: bool) -> Self
        ensures union { result.is_union ≡ is_union }
        ensures room { result.room ≡ start }
        ensures align { result.align ≡ 1 }
        ensures nesting { result.nesting ≡ 0 }
        ensures places { (name : List ℕ) → place_named result.places name ≡ None }
        ensures named { result.named ≡ [] }
    {
        Laying {
            is_union,
            room: Room::start(),
            align: 1,
            nesting: 0,
            places: IndexMap::new(alloc),
            named: Items::new(alloc),
        }
    }

    /// Lays the next member, whose type has this extent. `TooLarge` comes where the members so far
    /// take more than a type may.
    pub(crate) fn lay(
        &mut self,
        alloc: Global,
        member: &Member,
        extent: Extent,
    ) -> Result<(), TypeFault>
        requires extent { IsBounded extent }
        requires bytes { self.old.room.bytes ≤ 16777216 }
        ensures union { OnOk result (self.new.is_union ≡ self.old.is_union) }
        ensures room { OnOk result (self.new.room ≡ next_room self.old.is_union self.old.room extent member.now.width) }
        ensures bytes { OnOk result (self.new.room.bytes ≤ 16777216) }
        ensures align { OnOk result (self.new.align ≡ max self.old.align (field_align extent member.now.width)) }
        ensures nesting { OnOk result (self.new.nesting ≡ max self.old.nesting extent.nesting) }
        ensures places { OnOk result ((name : List ℕ) → name ≢ [] → place_named self.new.places name ≡ noted member.now.name (place_at member.now (spot_in self.old.is_union self.old.room extent member.now.width)) name (place_named self.old.places name)) }
        ensures named { OnOk result (self.new.named ≡ self.old.named ++ listed member.now.name (place_at member.now (spot_in self.old.is_union self.old.room extent member.now.width))) }
        ensures err { IfErr result (λ e. e ≢ fault.Memory → (e ≡ fault.TooLarge) × (16777216 < (next_room self.old.is_union self.old.room extent member.now.width).bytes)) }
    {
        let spot = self.room.spot_in(self.is_union, extent, member.width);
        let place = MemberPlace {
            of: member.of,
            offset: spot.offset,
            first: spot.first,
            width: member.width.unwrap_or(0),
        };
        note(&mut self.places, alloc, member, place)?;
        list(&mut self.named, member, place)?;
        self.room = self.room.next(self.is_union, extent, member.width);
        self.align = self.align.max(field_align(extent, member.width));
        self.nesting = self.nesting.max(extent.nesting);
        if self.room.bytes > LARGEST {
            return Err(TypeFault::TooLarge);
        }
        Ok(())
    }

    /// The extent of the whole.
    pub(crate) fn extent(&self) -> Extent
        requires bytes { self.now.room.bytes ≤ 16777216 }
        requires align { (0 < self.now.align) × (self.now.align ≤ 4) }
        requires nesting { self.now.nesting ≤ 500 }
        ensures size { result.size ≡ Some (round_up self.now.room.bytes self.now.align) }
        ensures align { result.align ≡ self.now.align }
        ensures nesting { result.nesting ≡ 1 + self.now.nesting }
    {
        Extent {
            size: Some(round_up(self.room.bytes, self.align)),
            align: self.align,
            nesting: self.nesting + 1,
        }
    }

    /// The places of the members by their names, and of those with names in order.
    pub(crate) fn into_places(self) -> (IndexMap<Vec<u8>, MemberPlace>, Items<MemberPlace>)
        ensures places { result.0 ≡ self.places }
        ensures named { result.1 ≡ self.named }
    {
        let Laying { places, named, .. } = self;
        (places, named)
    }
}
