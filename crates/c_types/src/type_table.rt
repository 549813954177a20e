//! The table of types, which holds each type once and gives it a place.
ghost use Rattle.std.specs.Prelude.{◌≡◌, ◌≢◌, ◌<◌, ◌≤◌, ◌*◌, ◌↔◌, ◌++◌, ◌∷◌, ℕ, Bool, [], Some, None, length, map, true, false, not, slice_get, IsTrue, IfOk, IfErr, IfSome, IfNone, OnOk, OnErr, option_map};
ghost use Rattle.c_types.specs.declared.type_fault.TypeFault.TheVariants as fault;
ghost use Rattle.c_types.specs.declared.type_form.TypeForm.TheVariants as form;
ghost use Rattle.c_types.specs.declared.extent.Extent.{Extent as ExtentValue};
ghost use Rattle.c_types.specs.BitFields.{are_fields};
ghost use Rattle.c_types.specs.Bounds.{IsBounded};
ghost use Rattle.c_types.specs.CType.{qualify, depth, greatest_depth, parameters_depth};
ghost use Rattle.c_types.specs.Layout.{extent_by, known, no_object, object_align, structure_extent};
ghost use Rattle.c_types.specs.Members.{is_defined, member_of, member_places};
ghost use Rattle.c_types.specs.Table.{Adds, AreBelow, AreMembersBelow, ArePlacesBelow, AreSomeBelow, Extends, Grows, IsOpen, IsOver, IsRefusal, are_objects, basic_forms, extent_at, fields_at, form_at, form_refusal, formed, is_above, is_open_form, is_qualified, is_tagged, is_union, list_or_none, member_seen, member_types, members_at, members_refusal, number_at, parameters_in, place_of_member, tag_of, tagged, tags, type_at, type_in, types, types_in, types_of};
ghost use Rattle.c_types.specs.Definitions.{AreComplete, IsToldIn};
ghost use Rattle.c_types.specs.Keeps.{IsFact, IsKeyOf, is_formed};
ghost use Rattle.c_types.specs.Facts.{AreBounded, IsFactOf, IsLaid, IsWithin};

use crate::definition::Definition;
use crate::extent::Extent;
use crate::form_key::FormKey;
use crate::layout::{LARGEST, Laying, excess};
use crate::qualifiers::Qualifiers;
use crate::type_fault::TypeFault;
use crate::type_form::{Member, MemberPlace, TypeForm, TypeId};
use indexmap::IndexMap;
use lcc_base::{Items, Memory};
use std::alloc::Global;
use std::marker::Model;

/// How many basic types there are. They have the first places.
pub(crate) const BASIC: usize = 10;

/// A form that was added, and what is asked of its type often.
#[derive(Drop)]
pub(crate) struct Formed {
    pub(crate) form: TypeForm,
    pub(crate) facts: Facts,
}

/// What is known of a type when it is formed.
#[derive(Clone, Copy, Debug)]
pub(crate) struct Facts {
    /// The type's place without the qualifiers.
    pub(crate) base: TypeId,
    /// The qualifiers that stand before the type at that place.
    pub(crate) qualifiers: Qualifiers,
    pub(crate) depth: u32,
    /// The extent, where the type at that place isn't a structure or union.
    pub(crate) extent: Extent,
}

/// Types by their places. A table holds each type once, but each structure, union and enumeration is
/// one by itself.
#[derive(Drop)]
pub struct TypeTable {
    pub(crate) alloc: Global,
    pub(crate) basic: [TypeForm; 10],
    pub(crate) formed: IndexMap<FormKey, Formed>,
    /// What completed a structure or union, by its place.
    pub(crate) definitions: IndexMap<TypeId, Definition>,
}

impl Model for TypeTable {
    ghost use Rattle.std.specs.Prelude.{◌++◌};
    ghost use Rattle.c_types.specs.Table.{Table};

    ghost Value = { Table };

    ghost use Rattle.c_types.specs.Keeps.{Keeps, forms_in, completed_in};

    ghost view = { λ t. record { forms = t.basic ++ forms_in t.formed.entries; completed = completed_in t.definitions.entries } };

    ghost invariant = { λ t. Keeps t.basic t.formed.entries t.definitions.entries (record { forms = t.basic ++ forms_in t.formed.entries; completed = completed_in t.definitions.entries }) };
}

impl TypeTable {
    /// The basic types, without an allocation.
    pub fn new(alloc: Global) -> Self
        ensures forms { result.forms ≡ basic_forms }
        ensures completed { result.completed ≡ [] }
    {
        TypeTable {
            alloc,
            basic: [
                TypeForm::Void,
                TypeForm::Char,
                TypeForm::SignedChar,
                TypeForm::UnsignedChar,
                TypeForm::Short,
                TypeForm::UnsignedShort,
                TypeForm::Int,
                TypeForm::Unsigned,
                TypeForm::Long,
                TypeForm::UnsignedLong,
            ],
            formed: IndexMap::new(alloc),
            definitions: IndexMap::new(alloc),
        }
    }

    /// How many types there are.
    pub fn len(&self) -> usize
        ensures { result ≡ length self.now.forms }
    {
        BASIC + self.formed.len()
    }

    /// The place of a basic type, which it has in each table.
    pub fn basic_type(&self, place: TypeId) -> TypeId
        requires { place < 10 }
        ensures is { result ≡ place }
        ensures means { type_at self.now place ≡ type_in (types_of basic_forms) place }
        ensures within { place < length self.now.forms }
        ensures form { is_qualified (form_at self.now place) ≡ false }
        ensures known { slice_get self.now.forms place ≡ slice_get basic_forms place }
    {
        // A field is named, so that what the table keeps is known here.
        let _basic = &self.basic;
        place
    }

    /// The types of a table are within the limits.
    pub fn types_are_within_limits(&self)
        ensures { (id : ℕ) → id < length self.now.forms → IsWithin (known (tags self.now)) (type_at self.now id) }
    {
        // A field is named, so that what the table keeps is known here.
        let _basic = &self.basic;
    }

    /// Each structure or union is completed once, and its members are objects by the definitions before it.
    pub fn members_are_complete(&self)
        ensures { AreComplete (tags self.now) }
    {
        // A field is named, so that what the table keeps is known here.
        let _basic = &self.basic;
    }

    /// What is told of the definition of a structure or union agrees with its type.
    pub fn kind_is_told(&self, id: TypeId)
        requires { id < length self.now.forms }
        ensures { IsToldIn (tags self.now) (type_at self.now id) }
    {
        // A field is named, so that what the table keeps is known here.
        let _basic = &self.basic;
        let (base, _) = self.unqualified(id);
        let _form = self.form(base);
    }

    /// What was added at the place, which isn't a basic type's.
    fn entry(&self, id: TypeId) -> &Formed
        requires added { 10 ≤ id }
        requires within { id < length self.now.forms }
        ensures form { slice_get self.now.forms id ≡ Some result.now.form }
        ensures over { IsOver id result.now.form }
        ensures facts { IsFact self.now id result.now.facts }
    {
        match self.formed.get_index(id - BASIC) {
            Some((_, formed)) => formed,
            None => unreachable!(),
        }
    }

    /// The form of the type at a place.
    pub fn form(&self, id: TypeId) -> &TypeForm
        requires { id < length self.now.forms }
        ensures form { slice_get self.now.forms id ≡ Some result.now }
        ensures means { type_at self.now id ≡ formed (types self.now) (number_at self.now id) result.now }
        ensures over { IsOver id result.now }
    {
        if id < BASIC {
            &self.basic[id]
        } else {
            &self.entry(id).form
        }
    }

    /// The type's place without its qualifiers, and these. Those of an array are its element's (C89
    /// 3.5.3): they then stand beside the array's place.
    pub fn unqualified(&self, id: TypeId) -> (TypeId, Qualifiers)
        requires { id < length self.now.forms }
        ensures within { result.0 ≤ id }
        ensures means { type_at self.now id ≡ qualify result.1.0 (type_at self.now result.0) }
        ensures form { is_qualified (form_at self.now result.0) ≡ false }
    {
        if id < BASIC {
            (self.basic_type(id), Qualifiers::none())
        } else {
            let facts = self.entry(id).facts;
            (facts.base, facts.qualifiers)
        }
    }

    /// The depth of the type.
    fn depth(&self, id: TypeId) -> u32
        requires { id < length self.now.forms }
        ensures is { result ≡ depth (type_at self.now id) }
        ensures bound { result ≤ 500 }
    {
        if id < BASIC {
            // What stands there is a basic type.
            let _basic = self.basic_type(id);
            1
        } else {
            self.entry(id).facts.depth
        }
    }

    /// The extent of the type at a place that isn't qualified.
    fn base_extent(&self, id: TypeId) -> Extent
        requires within { id < length self.now.forms }
        requires form { is_qualified (form_at self.now id) ≡ false }
        ensures is { result ≡ extent_at self.now id }
        ensures bounded { IsBounded result }
    {
        if id < BASIC {
            return basic_extent(self.basic_type(id));
        }
        match self.definitions.get(&id) {
            Some(definition) => definition.extent,
            None => self.entry(id).facts.extent,
        }
    }

    /// The size, alignment and nesting of the type at a place.
    pub fn extent(&self, id: TypeId) -> Extent
        requires { id < length self.now.forms }
        ensures is { result ≡ extent_at self.now id }
        ensures bounded { IsBounded result }
    {
        let (base, _) = self.unqualified(id);
        self.base_extent(base)
    }

    /// The size of the type, in bytes. None exactly where it is incomplete or a function.
    pub fn size(&self, id: TypeId) -> Option<u32>
        requires { id < length self.now.forms }
        ensures { result ≡ (extent_at self.now id).size }
    {
        self.extent(id).size
    }

    /// The alignment of the type, in bytes. None exactly where it is incomplete or a function.
    pub fn align(&self, id: TypeId) -> Option<u32>
        requires { id < length self.now.forms }
        ensures { result ≡ object_align (extent_at self.now id) }
    {
        let extent = self.extent(id);
        match extent.size {
            Some(_) => Some(extent.align),
            None => None,
        }
    }

    /// The members that `complete` gave the structure or union, in order. Empty for any other type.
    pub fn members(&self, id: TypeId) -> &[Member]
        requires { id < length self.now.forms }
        ensures { result.now ≡ list_or_none (members_at self.now id) }
    {
        match self.definitions.get(&id) {
            Some(definition) => definition.members.as_slice(),
            None => &[],
        }
    }

    /// Where the member of this name stands. None exactly where no member has the name. A qualified
    /// structure or union has the members of its type.
    pub fn member(&self, id: TypeId, name: &[u8]) -> Option<MemberPlace>
        requires id { id < length self.now.forms }
        requires name { name.now ≢ [] }
        ensures is { result ≡ place_of_member self.now (type_at self.now id) name.now }
        ensures seen { option_map (member_seen (types self.now)) result ≡ member_of (tags self.now) (type_at self.now id) name.now }
    {
        let (base, _) = self.unqualified(id);
        match self.definitions.get(&base) {
            Some(definition) => definition.places.get(name).copied(),
            None => None,
        }
    }

    /// The places of the members that have names, in order, as an initialiser fills them (C89 3.5.7).
    /// A qualified structure or union has the members of its type. Empty for any other type, and
    /// where there are no members yet.
    pub fn named_members(&self, id: TypeId) -> &[MemberPlace]
        requires { id < length self.now.forms }
        ensures seen { map (member_seen (types self.now)) result.now ≡ member_places (tags self.now) (type_at self.now id) }
        ensures within { ArePlacesBelow (length self.now.forms) result.now }
    {
        let (base, _) = self.unqualified(id);
        match self.definitions.get(&base) {
            Some(definition) => definition.named.as_slice(),
            None => &[],
        }
    }

    /// The greatest depth of the types at these places.
    fn greatest_depth(&self, ids: &[TypeId]) -> u32
        requires { AreBelow (length self.now.forms) ids.now }
        ensures is { result ≡ greatest_depth (types_in (types self.now) ids.now) }
        ensures bound { result ≤ 500 }
    {
        let mut greatest = 0;
        for id in ids {
            greatest = self.depth(*id).max(greatest);
        }
        greatest
    }

    /// The greatest depth of the types of parameters.
    fn parameters_depth(&self, parameters: &Option<Items<TypeId>>) -> u32
        requires { AreSomeBelow (length self.now.forms) parameters.now }
        ensures is { (more : Bool) → result ≡ parameters_depth (parameters_in (types self.now) parameters.now more) }
        ensures bound { result ≤ 500 }
    {
        match parameters {
            None => 0,
            Some(ids) => self.greatest_depth(ids.as_slice()),
        }
    }

    /// What is known of a type that isn't qualified, at the place that it would have.
    fn own_facts(&self, depth: u32, extent: Extent) -> Facts
        ensures base { result.base ≡ length self.now.forms }
        ensures qualifiers { result.qualifiers.0 ≡ 0 }
        ensures depth { result.depth ≡ depth }
        ensures extent { result.extent ≡ extent }
    {
        Facts {
            base: self.len(),
            qualifiers: Qualifiers::none(),
            depth,
            extent,
        }
    }

    /// What will be known of a structure or union, which begins without members.
    fn alone_facts(&self) -> Facts
        ensures base { result.base ≡ length self.now.forms }
        ensures qualifiers { result.qualifiers.0 ≡ 0 }
        ensures depth { result.depth ≡ 1 }
        ensures extent { result.extent ≡ no_object }
        ensures fresh { known (tags self.now) (tagged self.now.forms) ≡ no_object }
    {
        // A field is named, so that what the table keeps is known here.
        let _basic = &self.basic;
        self.own_facts(1, Extent::no_object())
    }

    /// What will be known of an array.
    fn array_facts(&self, of: TypeId, count: Option<u32>) -> Result<Facts, TypeFault>
        requires { of < length self.now.forms }
        ensures ok { IfOk result (IsFactOf self.now (form.Array of count)) }
        ensures err { IfErr result (λ e. form_refusal self.now (form.Array of count) ≡ Some e) }
        ensures accepted { OnOk result (form_refusal self.now (form.Array of count) ≡ None) }
    {
        let element = self.extent(of);
        match element.size {
            None => Err(TypeFault::Incomplete),
            Some(size) => {
                let bytes = match count {
                    None => None,
                    Some(count) => Some(array_size(count, size)?),
                };
                let extent = Extent {
                    size: bytes,
                    align: element.align,
                    nesting: element.nesting + 1,
                };
                let depth = self.depth(of) + 1;
                excess(depth, extent)?;
                Ok(self.own_facts(depth, extent))
            }
        }
    }

    /// What will be known of a qualified type.
    fn qualified_facts(&self, of: TypeId, qualifiers: Qualifiers) -> Result<Facts, TypeFault>
        requires { of < length self.now.forms }
        ensures ok { IfOk result (IsFactOf self.now (form.Qualified of qualifiers)) }
        ensures err { IfErr result (λ e. form_refusal self.now (form.Qualified of qualifiers) ≡ Some e) }
        ensures accepted { OnOk result (form_refusal self.now (form.Qualified of qualifiers) ≡ None) }
    {
        let (base, others) = self.unqualified(of);
        let depth = self.depth(of);
        let whole = self.extent(of);
        excess(depth, whole)?;
        Ok(Facts {
            base,
            qualifiers: others.with(qualifiers),
            depth,
            extent: Extent::no_object(),
        })
    }

    /// What will be known of the type of a form.
    fn facts(&self, form: &TypeForm) -> Result<Facts, TypeFault>
        requires over { IsOver (length self.now.forms) form.now }
        ensures ok { IfOk result (IsFactOf self.now form.now) }
        ensures err { IfErr result (λ e. form_refusal self.now form.now ≡ Some e) }
        ensures accepted { OnOk result (form_refusal self.now form.now ≡ None) }
    {
        match form {
            TypeForm::Pointer { to } => {
                let facts = self.own_facts(self.depth(*to) + 1, Extent::scalar(4));
                excess(facts.depth, facts.extent)?;
                Ok(facts)
            }
            TypeForm::Array { of, length } => self.array_facts(*of, *length),
            TypeForm::Function {
                result,
                parameters,
                ..
            } => {
                let depth = self.depth(*result).max(self.parameters_depth(parameters)) + 1;
                excess(depth, Extent::no_object())?;
                Ok(self.own_facts(depth, Extent::no_object()))
            }
            TypeForm::Enumeration { .. } => Ok(self.own_facts(1, Extent::scalar(4))),
            TypeForm::Qualified { of, qualifiers } => self.qualified_facts(*of, *qualifiers),
            _ => Ok(self.alone_facts()),
        }
    }

    /// The place of the type. Equal forms have one place, but each structure, union and enumeration
    /// a new one, and a structure or union has no members yet. Incomplete comes exactly where an array's element is incomplete or a function;
    /// TooLarge exactly where the type's size is above 16,777,216; TooDeep exactly where neither is so
    /// and its depth or nesting is above 500. After an error the table is as before.
    pub fn add(&mut self, form: TypeForm) -> Result<TypeId, TypeFault>
        requires { IsOver (length self.old.forms) form }
        ensures accepted { OnOk result (form_refusal self.old form ≡ None) }
        ensures refused { IfErr result (IsRefusal (form_refusal self.old form)) }
        ensures added { IfOk result (λ id. Adds self.old form id self.new) }
        ensures means { IfOk result (λ id. type_at self.new id ≡ formed (types self.old) (tagged self.old.forms) form) }
        ensures open { IfOk result (λ id. is_open_form form ≡ true → IsOpen self.new id) }
        ensures within { IfOk result (λ id. id < length self.new.forms) }
        ensures extends { OnOk result (Extends self.old self.new) }
        ensures grows { OnOk result (is_tagged form ≡ false → Grows self.old self.new) }
        ensures err { OnErr result (self.new ≡ self.old) }
    {
        match basic_place(&form) {
            Some(place) => Ok(self.basic_type(place)),
            None => {
                let facts = self.facts(&form)?;
                let key = FormKey::of(self.alloc, &form, self.len())?;
                self.place(key, Formed { form, facts })
            }
        }
    }

    /// The place of the form with this key, which is added where it has none.
    fn place(&mut self, key: FormKey, entry: Formed) -> Result<TypeId, TypeFault>
        requires formed { is_formed entry.form ≡ true }
        requires over { IsOver (length self.old.forms) entry.form }
        requires key { IsKeyOf (length self.old.forms) entry.form key }
        requires facts { IsFactOf self.old entry.form entry.facts }
        ensures refused { IfErr result (λ e. e ≡ fault.Memory) }
        ensures added { IfOk result (λ id. Adds self.old entry.form id self.new) }
        ensures means { IfOk result (λ id. type_at self.new id ≡ formed (types self.old) (tagged self.old.forms) entry.form) }
        ensures open { IfOk result (λ id. is_open_form entry.form ≡ true → IsOpen self.new id) }
        ensures within { IfOk result (λ id. id < length self.new.forms) }
        ensures extends { OnOk result (Extends self.old self.new) }
        ensures err { OnErr result (self.new ≡ self.old) }
    {
        let next = self.len();
        match self.formed.get_index_of(&key) {
            Some(index) => Ok(BASIC + index),
            None => {
                self.formed.insert(key, entry)?;
                Ok(next)
            }
        }
    }

    /// Whether each member's type is complete and no function.
    fn are_objects(&self, members: &[Member]) -> bool
        requires { AreMembersBelow (length self.now.forms) members.now }
        ensures is { result ≡ are_objects (fields_at self.now members.now) }
        ensures bounded { result ≡ true → AreBounded (fields_at self.now members.now) }
    {
        for member in members {
            if self.extent(member.of).size.is_none() {
                return false;
            }
        }
        true
    }

    /// The members laid in order.
    fn lay(&self, is_union: bool, members: &[Member]) -> Result<Laying, TypeFault>
        requires members { AreMembersBelow (length self.now.forms) members.now }
        requires bounded { AreBounded (fields_at self.now members.now) }
        ensures ok { IfOk result (λ l. IsLaid l is_union (fields_at self.now members.now) members.now) }
        ensures err { IfErr result (λ e. e ≢ fault.Memory → (e ≡ fault.TooLarge) × (is_above (structure_extent is_union (fields_at self.now members.now)).size ≡ true)) }
    {
        let mut laying = Laying::new(self.alloc, is_union);
        for member in members {
            laying.lay(self.alloc, member, self.extent(member.of))?;
        }
        Ok(laying)
    }

    /// Whether the type at a place is a union, without qualifiers.
    fn is_union(&self, id: TypeId) -> bool
        requires { id < length self.now.forms }
        ensures { result ≡ is_union (form_at self.now id) }
    {
        matches!(self.form(id), TypeForm::Union)
    }

    /// The members of the structure or union at a place, laid in order, unless they are refused.
    fn laying_of(&self, id: TypeId, members: &[Member]) -> Result<Laying, TypeFault>
        requires id { id < length self.now.forms }
        requires members { AreMembersBelow (length self.now.forms) members.now }
        ensures ok { IfOk result (λ l. IsLaid l (is_union (form_at self.now id)) (fields_at self.now members.now) members.now) }
        ensures accepted { OnOk result (members_refusal self.now id members.now ≡ None) }
        ensures refused { IfErr result (IsRefusal (members_refusal self.now id members.now)) }
    {
        if !self.are_objects(members) {
            return Err(TypeFault::Incomplete);
        }
        let laying = self.lay(self.is_union(id), members)?;
        excess(1, laying.extent())?;
        Ok(laying)
    }

    /// Whether the type is a structure or union without members so far, which `complete` can be given.
    pub fn is_open(&self, id: TypeId) -> bool
        requires { id < length self.now.forms }
        ensures is { IsTrue result ↔ IsOpen self.now id }
        ensures defined { is_open_form (form_at self.now id) ≡ true → result ≡ not (is_defined (tags self.now) (number_at self.now id)) }
    {
        is_open_form(self.form(id)) && !self.definitions.contains_key(&id)
    }

    /// Gives a structure or union its members. A width stands only on int or unsigned int, perhaps
    /// qualified; it is at most 32, and 0 only without a name (C89 3.5.2.1). Incomplete comes exactly
    /// where a member's type is incomplete or a function; TooLarge exactly where the size is above
    /// 16,777,216; TooDeep exactly where neither is so and the nesting is above 500. After an error the
    /// table is as before.
    pub fn complete(&mut self, id: TypeId, members: Items<Member>) -> Result<(), TypeFault>
        requires id { IsOpen self.old id }
        requires members { AreMembersBelow (length self.old.forms) members }
        requires fields { are_fields (member_types (types self.old) members) ≡ true }
        ensures accepted { OnOk result (members_refusal self.old id members ≡ None) }
        ensures refused { IfErr result (IsRefusal (members_refusal self.old id members)) }
        ensures completed { OnOk result (self.new ≡ record { forms = self.old.forms; completed = self.old.completed ++ record { place = id; members = members } ∷ [] }) }
        ensures tags { OnOk result (tags self.new ≡ tag_of self.old (record { place = id; members = members }) ∷ tags self.old) }
        ensures extends { OnOk result (Extends self.old self.new) }
        ensures err { OnErr result (self.new ≡ self.old) }
    {
        let list = members.as_slice();
        let laying = self.laying_of(id, list)?;
        let constant = self.some_const(list);
        let extent = laying.extent();
        let (places, named) = laying.into_places();
        self.definitions.insert(
            id,
            Definition {
                members,
                places,
                named,
                extent,
                constant,
            },
        )?;
        Ok(())
    }
}

/// Whether the form is that of a structure or union.
fn is_open_form(form: &TypeForm) -> bool
    ensures { result ≡ is_open_form form.now }
{
    matches!(form, TypeForm::Structure | TypeForm::Union)
}

/// The extent of the basic type at a place.
fn basic_extent(id: TypeId) -> Extent
    requires { id < 10 }
    ensures is { (known : ℕ → ExtentValue) → result ≡ extent_by known (type_in (types_of basic_forms) id) }
    ensures bounded { IsBounded result }
{
    match id {
        0 => Extent::no_object(),
        1 | 2 | 3 => Extent::scalar(1),
        4 | 5 => Extent::scalar(2),
        _ => Extent::scalar(4),
    }
}

/// The place of a basic type, if the form is one's.
fn basic_place(form: &TypeForm) -> Option<TypeId>
    ensures some { IfSome result (λ id. slice_get basic_forms id ≡ Some form.now) }
    ensures within { IfSome result (λ id. id < 10) }
    ensures none { IfNone result (is_formed form.now ≡ true) }
{
    match form {
        TypeForm::Void => Some(0),
        TypeForm::Char => Some(1),
        TypeForm::SignedChar => Some(2),
        TypeForm::UnsignedChar => Some(3),
        TypeForm::Short => Some(4),
        TypeForm::UnsignedShort => Some(5),
        TypeForm::Int => Some(6),
        TypeForm::Unsigned => Some(7),
        TypeForm::Long => Some(8),
        TypeForm::UnsignedLong => Some(9),
        _ => None,
    }
}

/// The size of so many elements of this size.
fn array_size(count: u32, size: u32) -> Result<u32, TypeFault>
    requires { size ≤ 16777216 }
    ensures ok { IfOk result (λ n. (n ≡ count * size) × (n ≤ 16777216)) }
    ensures err { IfErr result (λ e. (e ≡ fault.TooLarge) × (16777216 < count * size)) }
{
    let bytes = u64::from(count) * u64::from(size);
    if bytes > u64::from(LARGEST) {
        return Err(TypeFault::TooLarge);
    }
    Ok(bytes as u32)
}
