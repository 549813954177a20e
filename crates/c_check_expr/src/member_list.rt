//! The members of a structure or union while it is defined, with an index of their names.
ghost use Rattle.std.specs.Prelude.{◌≡◌, ◌++◌, ◌∷◌, [], OnOk};
ghost use Rattle.c_meaning.specs.TypeRows.{name_or_empty};
ghost use Rattle.c_check_expr.specs.MemberNames.{has_member};

use c_types::{Member, TypeId};
use indexmap::IndexSet;
use lcc_base::{Bytes, Items, Memory};
use std::alloc::Global;
use std::marker::Model;

/// The members of a structure or union so far, which contracts see as their list.
#[derive(Drop)]
pub(crate) struct MemberList {
    alloc: Global,
    members: Vec<Member>,
    /// Their names, by which they are found at once.
    names: IndexSet<Vec<u8>>,
}

impl Model for MemberList {
    ghost use Rattle.std.specs.Prelude.{List};
    ghost use Rattle.c_types.specs.declared.type_form.Member.{Member};
    ghost use Rattle.c_check_expr.specs.MemberNames.{AreNamed};

    ghost Value = { List Member };

    ghost view = { λ l. l.members.items };

    ghost invariant = { λ l. AreNamed l.names.keys l.members.items };
}

impl MemberList {
    /// No members, without an allocation.
    pub(crate) fn new(alloc: Global) -> Self
        ensures { result ≡ [] }
    {
        MemberList {
            alloc,
            members: Vec::new(alloc),
            names: IndexSet::new(alloc),
        }
    }

    /// Whether a member has the name, which is empty where it has none.
    pub(crate) fn has(&self, name: &[u8]) -> bool
        ensures { result ≡ has_member self.now name.now }
    {
        self.names.contains(name)
    }

    /// Adds a member, which has a width where it is a bit-field.
    pub(crate) fn push(
        &mut self,
        name: Option<Bytes>,
        of: TypeId,
        width: Option<u8>,
    ) -> Result<(), Memory>
        ensures { OnOk result (self.new ≡ self.old ++ record { name = name_or_empty name; of = of; width = width } ∷ []) }
    {
        let name = name.unwrap_or(Bytes::new(self.alloc));
        let mut key = Vec::new(self.alloc);
        key.extend_from_slice(name.as_slice())?;
        self.members.push(Member { name, of, width })?;
        match self.names.insert(key) {
            Ok(_) => Ok(()),
            Err(_) => {
                self.members.pop();
                Err(Memory)
            }
        }
    }

    /// The members in order.
    pub(crate) fn into_members(self) -> Items<Member>
        ensures { result ≡ self }
    {
        let MemberList { members, .. } = self;
        Items::from_vec(members)
    }
}
