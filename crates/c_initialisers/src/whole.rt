//! Whole objects: their one initialiser, and the size that it gives an array of unknown size (C89 3.5.7).
ghost use Rattle.std.specs.Prelude.{◌≡◌, ◌<◌, ℕ, [], false, length, map, not, IfErr, IfOk, IfSome};
ghost use Rattle.c_ast.specs.UnitViews.{initialisers_of};
ghost use Rattle.c_ast.specs.SeenUnits.{initialiser_seen};
ghost use Rattle.c_types.specs.Table.{Grows, Table, tags, type_at};
ghost use Rattle.c_meaning.specs.CoreTrees.{IsIn, seen};
ghost use Rattle.c_meaning.specs.Initialising.{can_be_initialised as initialisable, stored, whole};
ghost use Rattle.c_meaning.specs.Filling.{begun_in, place_of};
ghost use Rattle.c_meaning.specs.State.{State};
ghost use Rattle.c_meaning.specs.Typing.{Fine};
ghost use Rattle.c_check_expr.specs.AtNode.{Tells};
ghost use Rattle.c_check_expr.specs.Known.{AreSymbolsIn};
ghost use Rattle.c_check_expr.specs.Walks.{Walks};
ghost use Rattle.c_initialisers.specs.Objects.{IsFilledIn, filled_in, object_in};
ghost use Rattle.c_initialisers.specs.Storing.{IsFillingIn, filling_in};
ghost use Rattle.c_initialisers.specs.Waiting.{AreEntriesIn, IsPlaceIn, found_in, place_in};
ghost use Rattle.c_initialisers.specs.Wholes.{object_of, whole_in, whole_list as list_whole, whole_value as value_whole};

use crate::filled::Filled;
use crate::finishing::finish;
use crate::kinds;
use crate::nodes::{Standing, list_broken, unplaced_broken, value_broken};
use crate::opening::{begins_with_text, begun};
use crate::place::Place;
use crate::public::Initialised;
use crate::sizes::{can_be_initialised, sized_type, stored_elements, text_elements};
use crate::stored::Filling;
use crate::storing::store;
use crate::walk::{Listing, expression, items};
use c_ast::{Initialiser, InitialiserForm};
use c_meaning::CoreExpr;
use c_symbols::Scopes;
use c_types::{TypeId, TypeTable};
use c_values::CheckFault;
use c_values::values::plain;
use lcc_base::Memory;
use std::alloc::Global;

/// An object as a place.
fn whole_place(of: TypeId) -> Place
    ensures of { result.of.of ≡ of }
    ensures means { (t : Table) → place_in t result ≡ place_of (type_at t of) 0 }
{
    Place {
        of: plain(of),
        offset: 0,
        first: 0,
        width: 0,
    }
}

/// An expression over an object of a type, which is stored there, and no more than breaks nothing.
fn filled_by(
    alloc: Global,
    types: &mut TypeTable,
    of: TypeId,
    standing: Standing,
    line: u32,
    c: CoreExpr,
) -> Result<Filled, CheckFault>
    requires of { of < length types.old.forms }
    requires within { IsIn (length types.old.forms) c }
    ensures ok { IfOk result (λ f. (t : State) → t.tags ≡ tags types.old → value_whole t line (object_of types.old of standing) standing.is_unfit (seen (type_at types.old) c) ≡ Fine t (filled_in types.new f)) }
    ensures err { IfErr result (λ e. (t : State) → t.tags ≡ tags types.old → Tells e (value_whole t line (object_of types.old of standing) standing.is_unfit (seen (type_at types.old) c))) }
    ensures within { IfOk result (IsFilledIn (length types.new.forms)) }
    ensures grows { Grows types.old types.new }
{
    if standing.is_unfit {
        return Err(CheckFault::Constraint {
            number: unplaced_broken(standing),
            line,
        });
    }
    let at = whole_place(of);
    if let Some(number) = value_broken(types, standing, at, &c) {
        return Err(CheckFault::Constraint { number, line });
    }
    types.types_are_within_limits();
    let count = text_elements(types, of, &c)?;
    let sized = sized_type(types, line, of, count)?;
    let mut places = Vec::new(alloc);
    store(alloc, types, line, at, c, &mut places)?;
    Ok(Filled {
        of: sized,
        places: finish(alloc, places)?,
    })
}

/// A list over an object of a type, whose items are checked and stored.
fn close(
    alloc: Global,
    types: &mut TypeTable,
    of: TypeId,
    standing: Standing,
    line: u32,
    inner: Filling,
) -> Result<Filled, CheckFault>
    requires of { of < length types.old.forms }
    requires inner { IsFillingIn (length types.old.forms) inner }
    requires entries { AreEntriesIn types.old inner.waits.items }
    ensures ok { IfOk result (λ f. (t : State) → t.tags ≡ tags types.old → list_whole t line (object_of types.old of standing) standing.is_unfit (filling_in types.old inner) ≡ Fine t (filled_in types.new f)) }
    ensures err { IfErr result (λ e. (t : State) → t.tags ≡ tags types.old → Tells e (list_whole t line (object_of types.old of standing) standing.is_unfit (filling_in types.old inner))) }
    ensures within { IfOk result (IsFilledIn (length types.new.forms)) }
    ensures grows { Grows types.old types.new }
{
    if let Some(number) = list_broken(standing, inner.excess, false) {
        return Err(CheckFault::Constraint { number, line });
    }
    let count = stored_elements(types, &inner);
    let sized = sized_type(types, line, of, count)?;
    Ok(Filled {
        of: sized,
        places: finish(alloc, inner.places)?,
    })
}

/// An object as the place that its initialiser fills, unless it can't be initialised.
fn object_place(of: TypeId, is_unfit: bool) -> Option<Place>
    ensures place { (t : Table) → is_unfit ≡ not (initialisable (tags t) (type_at t of)) → found_in t [] result ≡ whole (tags t) (type_at t of) }
    ensures within { (n : ℕ) → of < n → IfSome result (IsPlaceIn n) }
{
    if is_unfit {
        None
    } else {
        Some(whole_place(of))
    }
}

/// What waits when a list over an object of a type begins.
fn start(
    alloc: Global,
    types: &TypeTable,
    of: TypeId,
    is_unfit: bool,
    list: &[Initialiser],
) -> Result<Filling, Memory>
    requires of { of < length types.now.forms }
    requires unfit { is_unfit ≡ not (initialisable (tags types.now) (type_at types.now of)) }
    ensures is { IfOk result (λ f. filling_in types.now f ≡ stored [] (begun_in (tags types.now) (initialisers_of (map initialiser_seen list.now)) (whole (tags types.now) (type_at types.now of))) false) }
    ensures within { IfOk result (IsFillingIn (length types.now.forms)) }
    ensures entries { IfOk result (λ f. AreEntriesIn types.now f.waits.items) }
{
    let at = object_place(of, is_unfit);
    Ok(Filling {
        places: Vec::new(alloc),
        waits: begun(alloc, types, at, begins_with_text(list))?,
        excess: false,
    })
}

/// The initialiser of an object.
pub(crate) fn whole(
    alloc: Global,
    scopes: &mut Scopes,
    types: &mut TypeTable,
    object: Initialised,
    i: &Initialiser,
) -> Result<Filled, CheckFault>
    requires symbols { AreSymbolsIn (length types.old.forms) scopes.old.symbols }
    requires of { object.of < length types.old.forms }
    ensures { Walks filled_in IsFilledIn (whole_in scopes.old types.old (object_in types.old object) (initialiser_seen i.now)) scopes.old types.old scopes.new types.new result }
{
    let line = i.line;
    let standing = Standing {
        is_static: object.is_static,
        is_barred: object.is_barred,
        is_unfit: !can_be_initialised(types, object.of),
    };
    match &i.form {
        InitialiserForm::Expr(e) => {
            let c = expression(alloc, scopes, types, e)?;
            filled_by(alloc, types, object.of, standing, line, c)
        }
        InitialiserForm::List { items: list, .. } => {
            let list = list.as_slice();
            let listing = Listing {
                is_static: object.is_static,
                is_scalar: kinds::is_scalar(types, plain(object.of)),
            };
            let begun = start(alloc, types, object.of, standing.is_unfit, list)?;
            let inner = items(alloc, scopes, types, listing, list, begun)?;
            close(alloc, types, object.of, standing, line, inner)
        }
    }
}
