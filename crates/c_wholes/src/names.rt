//! What names of expressions stand for (C89 3.1.4, 3.7).
ghost use Rattle.std.specs.Prelude.{◌≡◌, map, IfOk, OnOk};
ghost use Rattle.c_meaning.specs.Declarations.{or_zero};
ghost use Rattle.c_meaning.specs.StmtTrees.{filled_of};
ghost use Rattle.c_units.specs.Functions.{place_in};
ghost use Rattle.c_units.specs.Wholes.{whole_kind};
ghost use Rattle.c_standings.specs.StandingLists.{meant};
ghost use Rattle.c_wholes.specs.Kinds.{place_with_kinds, with_kinds};

use crate::texts::Texts;
use c_meaning::{CoreExpr, CoreKind, FilledPlace};
use c_standings::{Standing, Standings};
use c_symbols::SymbolId;
use lcc_base::{Items, Memory};
use std::alloc::Global;

/// An expression with each symbol and each string literal by its place.
#[cycle(names)]
pub(crate) fn name_expr(
    alloc: Global,
    standings: &Standings,
    texts: &Texts,
    c: &mut CoreExpr,
) -> Result<(), Memory>
    ensures { OnOk result (c.new ≡ with_kinds (whole_kind (meant standings.now) texts.now) c.old) }
{
    name_kind(standings, texts, &mut c.what)?;
    let mut kids = std::mem::replace(&mut c.kids, Items::new(alloc)).into_vec();
    name_exprs(alloc, standings, texts, &mut kids)?;
    c.kids = Items::from_vec(kids);
    Ok(())
}

/// Expressions, each so.
#[cycle(names)]
fn name_exprs(
    alloc: Global,
    standings: &Standings,
    texts: &Texts,
    list: &mut [CoreExpr],
) -> Result<(), Memory>
    ensures { OnOk result (list.new ≡ map (with_kinds (whole_kind (meant standings.now) texts.now)) list.old) }
{
    for i in 0..list.len() {
        name_expr(alloc, standings, texts, &mut list[i])?;
    }
    Ok(())
}

/// The places of an object, the value of each so.
pub(crate) fn name_places(
    alloc: Global,
    standings: &Standings,
    texts: &Texts,
    places: &mut [FilledPlace],
) -> Result<(), Memory>
    ensures { OnOk result (map filled_of places.new ≡ map (λ p. place_with_kinds (whole_kind (meant standings.now) texts.now) (filled_of p)) places.old) }
{
    for i in 0..places.len() {
        name_expr(alloc, standings, texts, &mut places[i].value)?;
    }
    Ok(())
}

/// A kind, where it is a symbol's or a literal's.
fn name_kind(standings: &Standings, texts: &Texts, what: &mut CoreKind) -> Result<(), Memory>
    ensures { OnOk result (what.new ≡ whole_kind (meant standings.now) texts.now what.old) }
{
    match what {
        CoreKind::Symbol(id) => {
            let id = *id;
            *what = kind_of(standings, id);
        }
        CoreKind::Literal(text) => {
            let place = text_place(texts, text.as_slice())?;
            *what = CoreKind::Text(place);
        }
        _ => {}
    }
    Ok(())
}

/// What a symbol stands for.
fn kind_of(standings: &Standings, id: SymbolId) -> CoreKind
    ensures { result ≡ meant standings.now id }
{
    match standings.of(id) {
        Some(Standing::Function(place)) => CoreKind::Function(place),
        Some(Standing::Object(place)) => CoreKind::Object(place),
        Some(Standing::BuiltIn(b)) => CoreKind::BuiltIn(b),
        None => CoreKind::Symbol(id),
    }
}

/// The place of a text.
fn text_place(texts: &Texts, text: &[u8]) -> Result<u32, Memory>
    ensures { IfOk result (λ place. place ≡ or_zero (place_in texts.now text.now)) }
{
    // No source has as many.
    u32::try_from(texts.place(text)).map_err(|_| Memory)
}
