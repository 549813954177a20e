//! What an initialiser has stored, once the size of the object is known (C89 3.5.7).
ghost use Rattle.std.specs.Prelude.{◌≡◌, ◌<◌, ℕ, map, reverse, IfOk};
ghost use Rattle.c_types.specs.Table.{Table};
ghost use Rattle.c_meaning.specs.CoreTrees.{IsIn};
ghost use Rattle.c_initialisers.specs.FilledPlaces.{ArePlacesIn, filled_place_in};
ghost use Rattle.c_initialisers.specs.Storing.{AreStoredIn, IsStoredIn, stored_in};

use crate::stored::Stored;
use c_meaning::FilledPlace;
use c_types::MemberPlace;
use lcc_base::{Items, Memory};
use std::alloc::Global;

/// The places of an object whose size is within the limits. No offset in one is past 32 bits.
pub(crate) fn finish(alloc: Global, places: Vec<Stored>) -> Result<Items<FilledPlace>, Memory>
    ensures same { IfOk result (λ ps. (t : Table) → map (filled_place_in t) ps ≡ map (stored_in t) places.items) }
    ensures within { IfOk result (λ ps. (n : ℕ) → AreStoredIn n places.items → ArePlacesIn n ps) }
{
    let mut filled = finished_backwards(alloc, places)?;
    filled.reverse();
    Ok(Items::from_vec(filled))
}

/// The places, the last one first. Their memory grows as that of the stored ones is given back, since a
/// list can fill as many places as its source has items.
fn finished_backwards(alloc: Global, mut places: Vec<Stored>) -> Result<Vec<FilledPlace>, Memory>
    ensures same { IfOk result (λ ps. (t : Table) → map (filled_place_in t) (reverse ps.items) ≡ map (stored_in t) places.items) }
    ensures within { IfOk result (λ ps. (n : ℕ) → AreStoredIn n places.items → ArePlacesIn n (reverse ps.items)) }
{
    let mut filled = Vec::new(alloc);
    while let Some(place) = places.pop() {
        let placed = finished(place)?;
        make_room(&mut filled)?;
        filled.push(placed)?;
        release_spare(&mut places);
    }
    Ok(filled)
}

/// One of them.
fn finished(place: Stored) -> Result<FilledPlace, Memory>
    ensures same { IfOk result (λ p. (t : Table) → filled_place_in t p ≡ stored_in t place) }
    ensures within { IfOk result (λ p. (n : ℕ) → IsStoredIn n place → (p.at.of < n) × IsIn n p.value) }
{
    let offset = u32::try_from(place.offset).map_err(|_| Memory)?;
    let at = MemberPlace {
        of: place.of,
        offset,
        first: place.first,
        width: place.width,
    };
    Ok(FilledPlace {
        at,
        value: place.value,
    })
}

/// Makes room for one more place: for a sixteenth of them at once, where there is none.
fn make_room(filled: &mut Vec<FilledPlace>) -> Result<(), Memory>
    ensures { filled.new.items ≡ filled.old.items }
{
    if filled.len() == filled.capacity() {
        filled.reserve_exact(filled.len() / 16 + 4)?;
    }
    Ok(())
}

/// Gives back the memory that the places have no use for any more, once it is above a sixteenth of theirs.
fn release_spare(places: &mut Vec<Stored>)
    ensures { places.new.items ≡ places.old.items }
{
    if places.len() < places.capacity() / 16 * 15 {
        places.shrink_to_fit();
    }
}
