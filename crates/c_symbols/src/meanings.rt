//! The present meaning of each name, found at the same cost at any depth of scopes.
ghost use Rattle.std.specs.Prelude.{◌≡◌, ◌<◌, [], length, IfOk};
ghost use Rattle.indexmap.specs.Layout.{set_value_at};
ghost use Rattle.c_symbols.specs.Meanings.{meaning, IsAt, MeanTheSame};
ghost use Rattle.c_symbols.specs.Hiding.{bound, restored, Hide, HavePlaces};

use crate::hidden::Hidden;
use crate::scope::Scope;
use crate::scopes::SymbolId;
use indexmap::IndexMap;
use lcc_base::Memory;
use std::alloc::Global;
use std::marker::Model;

/// What each name means in the innermost scope. A name has a place from when it is first declared,
/// and keeps it, so that a look takes the same time at any depth.
#[derive(Drop)]
pub(crate) struct Meanings {
    alloc: Global,
    names: IndexMap<Vec<u8>, Option<SymbolId>>,
}

impl Model for Meanings {
    ghost use Rattle.c_symbols.specs.Meanings.{Meant, meant_in};

    ghost Value = { Meant };

    ghost view = { λ m. meant_in m.names.entries };
}

impl Meanings {
    /// No names, without an allocation.
    pub(crate) fn new(alloc: Global) -> Self
        ensures { result ≡ [] }
    {
        Meanings {
            alloc,
            names: IndexMap::new(alloc),
        }
    }

    /// The symbol that the name means.
    pub(crate) fn find(&self, name: &[u8]) -> Option<SymbolId>
        ensures { result ≡ meaning self.now name.now }
    {
        match self.names.get(name) {
            Some(&symbol) => symbol,
            None => None,
        }
    }

    /// What a declaration of the name hides. The name has a place from here on, and none means
    /// anything else.
    pub(crate) fn hide(&mut self, name: &[u8]) -> Result<Hidden, Memory>
        ensures place { IfOk result (λ h. IsAt self.new name.now h.place) }
        ensures before { IfOk result (λ h. h.before ≡ meaning self.old name.now) }
        ensures same { MeanTheSame self.old self.new }
    {
        if let Some(place) = self.names.get_index_of(name) {
            let before = self.names[place];
            return Ok(Hidden { place, before });
        }
        let mut copy = Vec::new(self.alloc);
        copy.extend_from_slice(name)?;
        let place = self.names.len();
        self.names.insert(copy, None)?;
        Ok(Hidden {
            place,
            before: None,
        })
    }

    /// What declarations of the names hide, as `hide` gives it for each.
    pub(crate) fn hide_all(&mut self, names: &Scope) -> Result<Vec<Hidden>, Memory>
        ensures hidden { IfOk result (λ hs. Hide self.new (meaning self.old) names.now hs.items) }
        ensures same { MeanTheSame self.old self.new }
    {
        let mut hidden = Vec::with_capacity(self.alloc, names.len())?;
        for place in 0..names.len() {
            let (name, _) = names.entry(place);
            hidden.push(self.hide(name)?)?;
        }
        Ok(hidden)
    }

    /// Gives the name at a place another meaning.
    pub(crate) fn set(&mut self, place: usize, symbol: Option<SymbolId>)
        requires { place < length self.old }
        ensures { self.new ≡ set_value_at self.old place symbol }
    {
        self.names[place] = symbol;
    }

    /// Gives each of the names its symbol, the first of them last. They have the places of what they
    /// hide.
    pub(crate) fn bind(&mut self, names: &Scope, hidden: &[Hidden])
        requires places { HavePlaces self.old hidden.now }
        requires each { length hidden.now ≡ length names.now }
        ensures { self.new ≡ bound self.old names.now hidden.now }
    {
        for place in (0..names.len()).rev() {
            let (_, symbol) = names.entry(place);
            self.set(hidden[place].place, Some(symbol));
        }
    }

    /// Gives each name back the meaning that was hidden.
    pub(crate) fn restore(&mut self, hidden: &[Hidden])
        requires { HavePlaces self.old hidden.now }
        ensures { self.new ≡ restored self.old hidden.now }
    {
        for old in hidden {
            self.set(old.place, old.before);
        }
    }
}
