//! Numbering names by the order of their first use.
ghost use Rattle.std.specs.Prelude.{◌≡◌, IfOk, slice_get, Some};
ghost use Rattle.lcc_text.specs.Names.{bytes_of, with_name, place_of};

use indexmap::IndexSet;
use std::alloc::{AllocFailed, Global};

/// The name's place among the names, which are noted in the order of their first use: a new
/// one goes last.
pub fn place<'a>(
    names: &mut IndexSet<&'a [u8]>,
    name: &'a [u8],
) -> Result<usize, AllocFailed<&'a [u8]>>
    ensures names { IfOk result (λ i. bytes_of names.new ≡ with_name (bytes_of names.old) name.now) }
    ensures place { IfOk result (λ i. slice_get (bytes_of names.new) i ≡ Some name.now) }
{
    let (place, _) = names.insert_full(name)?;
    Ok(place)
}

/// The name's place among the names, if it is one of them.
pub fn find<'a>(names: &IndexSet<&'a [u8]>, name: &'a [u8]) -> Option<usize>
    ensures { result ≡ place_of (bytes_of names.now) name.now }
{
    names.get_index_of(&name)
}
