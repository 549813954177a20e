//! The texts of a unit's string literals (C89 3.1.4).
ghost use Rattle.std.specs.Prelude.{◌≡◌, ◌∷◌, [], IfOk, OnOk};
ghost use Rattle.c_meaning.specs.Declarations.{or_zero};
ghost use Rattle.c_units.specs.Functions.{place_in};
ghost use Rattle.c_units.specs.Wholes.{once};
ghost use Rattle.c_wholes.specs.TextLists.{texts_in};

use indexmap::IndexSet;
use lcc_base::{Bytes, Items, Memory};
use std::alloc::Global;
use std::marker::Model;

/// The texts of string literals, each once, where it stands first. Contracts see their list.
#[derive(Drop)]
pub struct Texts {
    texts: IndexSet<Vec<u8>>,
}

impl Model for Texts {
    ghost use Rattle.std.specs.Prelude.{List, ℕ};
    ghost use Rattle.c_wholes.specs.TextLists.{texts_in};

    ghost Value = { List (List ℕ) };

    ghost view = { λ x. texts_in x.texts.keys };
}

impl Texts {
    /// No texts, without an allocation.
    pub fn new(alloc: Global) -> Self
        ensures { result ≡ [] }
    {
        Texts {
            texts: IndexSet::new(alloc),
        }
    }

    /// The place of a text. 0 where it is none of them.
    pub(crate) fn place(&self, text: &[u8]) -> usize
        ensures { result ≡ or_zero (place_in self.now text.now) }
    {
        self.texts.get_index_of(text).unwrap_or(0)
    }

    /// A text behind the others, unless it is there.
    pub(crate) fn note(&mut self, text: &[u8]) -> Result<(), Memory>
        ensures { OnOk result (self.new ≡ once self.old (text.now ∷ [])) }
    {
        if self.texts.contains(text) {
            return Ok(());
        }
        let mut copy = Vec::new(*self.texts.allocator());
        copy.extend_from_slice(text)?;
        self.texts.insert(copy)?;
        Ok(())
    }

    /// All of them, in order.
    pub fn into_list(self, alloc: Global) -> Result<Items<Bytes>, Memory>
        ensures { IfOk result (λ list. list ≡ self) }
    {
        listed(alloc, self.texts)
    }
}

/// The texts of a set, in order.
fn listed(alloc: Global, texts: IndexSet<Vec<u8>>) -> Result<Items<Bytes>, Memory>
    ensures { IfOk result (λ list. list ≡ texts_in texts.keys) }
{
    let mut list = Items::with_capacity(alloc, texts.len())?;
    for text in texts {
        list.push(Bytes::from(text))?;
    }
    Ok(list)
}
