//! Which types are const, as a whole or in some member or element.
ghost use Rattle.std.specs.Prelude.{◌≡◌, ◌<◌, length, false};
ghost use Rattle.c_types.specs.Constness.{const_known, has_const, is_const, some_const};
ghost use Rattle.c_types.specs.Readings.{is_array};
ghost use Rattle.c_types.specs.Table.{AreMembersBelow, form_at, is_qualified, member_types, tags, type_at, types};

use crate::qualifiers::Qualifiers;
use crate::type_form::{Member, TypeId};
use crate::type_table::TypeTable;
use bitflags::Flags;

impl TypeTable {
    /// Whether an object of the type is const: the type is, or of an array the element. A const member
    /// makes no object const.
    pub fn is_const(&self, id: TypeId) -> bool
        requires { id < length self.now.forms }
        ensures { result ≡ is_const (type_at self.now id) }
    {
        // A field is named, so that what the table keeps is known here.
        let _basic = &self.basic;
        let mut part = id;
        loop {
            let (base, qualifiers) = self.unqualified(part);
            if qualifiers.contains(Qualifiers::CONST) {
                return true;
            }
            let Some((of, _)) = self.array_of(base) else {
                return false;
            };
            part = of;
        }
    }

    /// Whether something of the type is const: the type, its element or a member, or something of
    /// these. An object of it then can't be changed as a whole (C89 3.2.2.1).
    pub fn has_const(&self, id: TypeId) -> bool
        requires { id < length self.now.forms }
        ensures { result ≡ has_const (tags self.now) (type_at self.now id) }
    {
        let mut part = id;
        loop {
            let (base, qualifiers) = self.unqualified(part);
            if qualifiers.contains(Qualifiers::CONST) {
                return true;
            }
            let Some((of, _)) = self.array_of(base) else {
                return self.has_const_member(base);
            };
            part = of;
        }
    }

    /// Whether the type is a structure or union with a member of which something is const.
    fn has_const_member(&self, id: TypeId) -> bool
        requires within { id < length self.now.forms }
        requires plain { is_qualified (form_at self.now id) ≡ false }
        requires kind { is_array (type_at self.now id) ≡ false }
        ensures { result ≡ has_const (tags self.now) (type_at self.now id) }
    {
        match self.definitions.get(&id) {
            Some(definition) => definition.constant,
            None => false,
        }
    }

    /// Whether something of one of the members is const.
    pub(crate) fn some_const(&self, members: &[Member]) -> bool
        requires { AreMembersBelow (length self.now.forms) members.now }
        ensures { result ≡ some_const (const_known (tags self.now)) (member_types (types self.now) members.now) }
    {
        for member in members {
            if self.has_const(member.of) {
                return true;
            }
        }
        false
    }
}
