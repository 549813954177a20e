//! A table of the terminals' names, with guesses that spare most look-ups.
ghost use Rattle.std.specs.Prelude.{◌≡◌, ◌<◌, ◌≤◌, List, length, IfSome};
ghost use Rattle.std.specs.Int.RustNames.{bit_and};
ghost use Rattle.lburg_model.specs.declared.terminal.Terminal.{Terminal as Terminals};
ghost use Rattle.lburg_trees.specs.Known.{AreKnown, IsOf};

use crate::known::{self, Known, slot, word_of};
use indexmap::IndexSet;
use lburg_model::Terminal;

/// How many places are noted.
const SLOTS: usize = 64;

/// The names of the terminals, and where a name is looked for before it is looked up: trees repeat
/// a few names, so the guess is mostly right.
#[derive(Drop)]
pub(crate) struct Names<'a> {
    pub(crate) set: IndexSet<&'a [u8]>,
    /// A terminal's place for each slot. It is a guess: another name may have the same slot.
    guesses: [usize; SLOTS],
    /// A terminal for each slot of a word. It may be another than the word's, or none.
    pub(crate) known: [Option<Known>; known::SLOTS],
}

/// The slot of a name, by its length and its first and last bytes.
fn name_slot(name: &[u8]) -> usize
    ensures { result < 64 }
{
    match name {
        [] => 0,
        [first, ..] => {
            let last = name[name.len() - 1];
            (name.len() % SLOTS + 8 * *first as usize + last as usize) % SLOTS
        }
    }
}

/// What is known of a terminal, if it has a short name and the rules use it.
fn known_at(terminals: &[Terminal], place: usize) -> Option<Known>
    requires within { place < length terminals.now }
    requires few { length terminals.now ≤ 1023 }
    ensures { IfSome result (IsOf terminals.now) }
{
    let terminal = &terminals[place];
    let name = terminal.name.as_slice();
    let arity = terminal.arity?;
    if name.len() >= 8 {
        return None;
    }
    let mask: u64 = (1 << (8 * name.len())) - 1;
    Some(Known {
        word: word_of(name),
        mask,
        op: place as u16 + 1,
        arity,
        length: name.len() as u8,
    })
}

/// The terminals with short names that the rules use, each in the slot of its name, unless a later one has the same.
fn known_of(terminals: &[Terminal]) -> [Option<Known>; known::SLOTS]
    requires { length terminals.now ≤ 1023 }
    ensures { AreKnown terminals.now result }
{
    let mut table = [None; known::SLOTS];
    for place in 0..terminals.len() {
        if let Some(known) = known_at(terminals, place) {
            table[slot(known.word)] = Some(known);
        }
    }
    table
}

impl<'a> Names<'a> {
    /// The names with guesses for these terminals.
    pub(crate) fn new(set: IndexSet<&'a [u8]>, terminals: &[Terminal]) -> Self
        requires { length terminals.now ≤ 1023 }
        ensures set { result.set ≡ set.entry }
        ensures known { AreKnown terminals.now result.known }
    {
        let mut guesses = [0; SLOTS];
        for place in 0..terminals.len() {
            guesses[name_slot(terminals[place].name.as_slice())] = place;
        }
        let known = known_of(terminals);
        Names {
            set,
            guesses,
            known,
        }
    }

    /// Where the terminal of a name may stand.
    pub(crate) fn guess(&self, name: &[u8]) -> usize {
        self.guesses[name_slot(name)]
    }

    /// The terminal whose name stands at the front of a word's bytes, if it is found at once.
    pub(crate) fn known_in(&self, word: u64) -> Option<Known>
        ensures is { (terminals : List Terminals) → AreKnown terminals self.now.known → IfSome result (IsOf terminals) }
        ensures found { IfSome result (λ k. bit_and word k.mask ≡ k.word) }
    {
        let found = self.known[slot(word)];
        match found {
            Some(known) if word & known.mask == known.word => Some(known),
            _ => None,
        }
    }
}
