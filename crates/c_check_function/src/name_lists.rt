//! The names of an old-style function's parameters (C89 3.5.4.3).
ghost use Rattle.std.specs.Prelude.{◌≡◌, IfOk};
ghost use Rattle.c_meaning.specs.Units.{are_different as all_differ};
ghost use Rattle.c_units.specs.Functions.{place_in};

use c_symbols::Scope;
use lcc_base::{Bytes, Memory};
use std::alloc::Global;

/// Whether no two of the names are equal.
pub(crate) fn are_different(alloc: Global, names: &[Bytes]) -> Result<bool, Memory>
    ensures { IfOk result (λ b. b ≡ all_differ names.now) }
{
    let mut seen = Scope::new(alloc);
    for name in names {
        if seen.find(name.as_slice()).is_some() {
            return Ok(false);
        }
        seen.add(alloc, name.as_slice(), 0)?;
    }
    Ok(true)
}

/// The place of the name among the names, if it is one of them.
pub(crate) fn place(names: &[Bytes], name: &[u8]) -> Option<usize>
    ensures { result ≡ place_in names.now name.now }
{
    for (place, other) in names.iter().enumerate() {
        if name == other.as_slice() {
            return Some(place);
        }
    }
    None
}
