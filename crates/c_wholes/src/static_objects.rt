//! Objects with static storage made whole (C89 3.7.2).
ghost use Rattle.std.specs.Prelude.{◌≡◌, ◌<◌, ℕ, map, IfOk};
ghost use Rattle.c_types.specs.Table.{Table, types as types_of};
ghost use Rattle.c_meaning.specs.StmtTrees.{ArePlacesIn, filled_of};
ghost use Rattle.c_meaning.specs.Units.{object_seen};
ghost use Rattle.c_units.specs.Wholes.{whole_name as name_whole, whole_object as object_whole};
ghost use Rattle.c_standings.specs.StandingLists.{meant};

use crate::names::name_places;
use crate::texts::Texts;
use c_meaning::CoreObject;
use c_standings::Standings;
use itoa::Buffer;
use lcc_base::{Bytes, Items, Memory};
use std::alloc::Global;

/// An object, made whole: its symbols and string literals by their places. Where it has no linkage, its name has a
/// dot and the object's place behind it.
pub fn whole_object(
    alloc: Global,
    standings: &Standings,
    texts: &Texts,
    linked: bool,
    place: usize,
    o: CoreObject,
) -> Result<CoreObject, Memory>
    ensures whole { IfOk result (λ g. (t : Table) → object_seen (types_of t) g ≡ object_whole (meant standings.now) texts.now linked place (object_seen (types_of t) o)) }
    ensures of { IfOk result (λ g. g.of ≡ o.of) }
    ensures places { IfOk result (λ g. (n : ℕ) → ArePlacesIn n (map filled_of o.places) → ArePlacesIn n (map filled_of g.places)) }
{
    let name = whole_name(o.name, linked, place)?;
    let mut places = o.places.into_vec();
    name_places(alloc, standings, texts, &mut places)?;
    Ok(CoreObject {
        name,
        of: o.of,
        line: o.line,
        constant: o.constant,
        places: Items::from_vec(places),
    })
}

/// The name of an object, with a dot and the object's place behind it where it isn't linked.
fn whole_name(name: Bytes, linked: bool, place: usize) -> Result<Bytes, Memory>
    ensures { IfOk result (λ whole. whole ≡ name_whole linked place name) }
{
    let mut whole = name;
    if !linked {
        whole.extend(b".")?;
        let mut buffer = Buffer::new();
        whole.extend(buffer.format(place).as_bytes())?;
    }
    Ok(whole)
}
