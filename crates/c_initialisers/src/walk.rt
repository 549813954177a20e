//! The walk over lists of initialisers: their parts in order, and then they themselves (C89 3.5.7). It goes
//! as deep as braces are nested.
ghost use Rattle.std.specs.Prelude.{◌≡◌, ◌<◌, ◌||◌, Bool, List, false, length, map, not, IfErr, IfOk, IfSome};
ghost use Rattle.c_ast.specs.Trees.{Braced};
ghost use Rattle.c_ast.specs.UnitViews.{initialisers_of};
ghost use Rattle.c_ast.specs.Views.{expr_of};
ghost use Rattle.c_ast.specs.SeenUnits.{initialiser_seen};
ghost use Rattle.c_types.specs.Table.{Grows, Table, tags, type_at};
ghost use Rattle.c_meaning.specs.CoreTrees.{IsIn, seen};
ghost use Rattle.c_meaning.specs.Filling.{is_nowhere as nowhere};
ghost use Rattle.c_meaning.specs.Initialising.{is_scalar_at, is_within as within};
ghost use Rattle.c_meaning.specs.State.{State};
ghost use Rattle.c_meaning.specs.Typing.{Fine, typed};
ghost use Rattle.c_check_expr.specs.AtNode.{Tells};
ghost use Rattle.c_check_expr.specs.Known.{AreSymbolsIn, state_of};
ghost use Rattle.c_check_expr.specs.Walks.{Walks, core};
ghost use Rattle.c_initialisers.specs.Listed.{item_in, items_in, value_in, value_onto};
ghost use Rattle.c_initialisers.specs.Storing.{IsFillingIn, filling_in};
ghost use Rattle.c_initialisers.specs.Waiting.{AreEntriesIn, IsPlaceIn, found_in, place_in, waiting_in};
ghost use Rattle.c_initialisers.specs.declared.waits.Waits.{Waits as WaitsValue};

use crate::kinds;
use crate::nodes::{Standing, list_broken, value_broken};
use crate::opening::{begins_with_text, open};
use crate::place::Place;
use crate::placing::{is_nowhere, take};
use crate::stored::Filling;
use crate::storing::store;
use crate::waits::Waits;
use c_ast::{Expr, Initialiser, InitialiserForm};
use c_check_expr::check_expr;
use c_meaning::{CoreExpr, typing_is_a_function};
use c_symbols::Scopes;
use c_types::TypeTable;
use c_values::CheckFault;
use std::alloc::Global;

/// How a list in braces stands: for an object with static storage, and as the initialiser of a scalar.
#[derive(Clone, Copy)]
pub(crate) struct Listing {
    pub(crate) is_static: bool,
    pub(crate) is_scalar: bool,
}

/// How an item of a list stands.
fn standing(listing: Listing) -> Standing
    ensures storage { result.is_static ≡ listing.is_static }
    ensures barred { result.is_barred ≡ false }
    ensures unfit { result.is_unfit ≡ false }
{
    Standing {
        is_static: listing.is_static,
        is_barred: false,
        is_unfit: false,
    }
}

/// Whether a list of a scalar's list is that scalar's, where it has its place.
fn is_within(listing: Listing, at: Option<Place>) -> bool
    ensures { (t : Table) → (around : List WaitsValue) → result ≡ within listing.is_scalar (found_in t around at) }
{
    listing.is_scalar && at.is_some()
}

/// How the list of an object at a place stands.
fn inside(types: &TypeTable, listing: Listing, at: Option<Place>) -> Listing
    requires { IfSome at (IsPlaceIn (length types.now.forms)) }
    ensures storage { result.is_static ≡ listing.is_static }
    ensures scalar { (around : List WaitsValue) → result.is_scalar ≡ is_scalar_at (found_in types.now around at) }
{
    let is_scalar = match at {
        Some(at) => kinds::is_scalar(types, at.of),
        None => false,
    };
    Listing {
        is_static: listing.is_static,
        is_scalar,
    }
}

/// An expression that takes its place, behind other items, on a line.
fn placed(
    alloc: Global,
    types: &mut TypeTable,
    stands: (u32, Listing),
    at: Place,
    c: CoreExpr,
    others: Filling,
) -> Result<Filling, CheckFault>
    requires at { IsPlaceIn (length types.old.forms) at }
    requires within { IsIn (length types.old.forms) c }
    requires others { IsFillingIn (length types.old.forms) others }
    requires entries { AreEntriesIn types.old others.waits.items }
    ensures ok { IfOk result (λ f. (s : State) → s.tags ≡ tags types.old → value_in s stands.1.is_static stands.0 (place_in types.old at) (seen (type_at types.old) c) (filling_in types.old others) ≡ Fine s (filling_in types.new f)) }
    ensures err { IfErr result (λ e. (s : State) → s.tags ≡ tags types.old → Tells e (value_in s stands.1.is_static stands.0 (place_in types.old at) (seen (type_at types.old) c) (filling_in types.old others))) }
    ensures within { IfOk result (IsFillingIn (length types.new.forms)) }
    ensures entries { IfOk result (λ f. AreEntriesIn types.new f.waits.items) }
    ensures grows { Grows types.old types.new }
{
    let (line, listing) = stands;
    if let Some(number) = value_broken(types, standing(listing), at, &c) {
        return Err(CheckFault::Constraint { number, line });
    }
    let Filling {
        mut places,
        waits,
        excess,
    } = others;
    store(alloc, types, line, at, c, &mut places)?;
    types.members_are_complete();
    Ok(Filling {
        places,
        waits,
        excess,
    })
}

/// Whether an item found no place, where the last one found none and others perhaps before it.
fn with_excess(types: &TypeTable, waits: &[Waits], excess: bool) -> bool
    requires { AreEntriesIn types.now waits.now }
    ensures { result ≡ (excess || not (nowhere (waiting_in types.now waits.now))) }
{
    excess || !is_nowhere(types, waits)
}

/// An expression behind other items, in the place that it takes.
fn value(
    alloc: Global,
    types: &mut TypeTable,
    listing: Listing,
    line: u32,
    c: CoreExpr,
    before: Filling,
) -> Result<Filling, CheckFault>
    requires within { IsIn (length types.old.forms) c }
    requires before { IsFillingIn (length types.old.forms) before }
    requires entries { AreEntriesIn types.old before.waits.items }
    ensures ok { IfOk result (λ f. (s : State) → s.tags ≡ tags types.old → value_onto s listing.is_static line (filling_in types.old before) (seen (type_at types.old) c) ≡ Fine s (filling_in types.new f)) }
    ensures err { IfErr result (λ e. (s : State) → s.tags ≡ tags types.old → Tells e (value_onto s listing.is_static line (filling_in types.old before) (seen (type_at types.old) c))) }
    ensures within { IfOk result (IsFillingIn (length types.new.forms)) }
    ensures entries { IfOk result (λ f. AreEntriesIn types.new f.waits.items) }
    ensures grows { Grows types.old types.new }
{
    let Filling {
        places,
        mut waits,
        excess,
    } = before;
    match take(alloc, types, &c, &mut waits)? {
        Some(at) => {
            let others = Filling {
                places,
                waits,
                excess,
            };
            placed(alloc, types, (line, listing), at, c, others)
        }
        None => {
            let excess = with_excess(types, &waits, excess);
            Ok(Filling {
                places,
                waits,
                excess,
            })
        }
    }
}

/// Items of a list behind others.
#[cycle(walk)]
pub(crate) fn items(
    alloc: Global,
    scopes: &mut Scopes,
    types: &mut TypeTable,
    listing: Listing,
    list: &[Initialiser],
    start: Filling,
) -> Result<Filling, CheckFault>
    requires symbols { AreSymbolsIn (length types.old.forms) scopes.old.symbols }
    requires start { IsFillingIn (length types.old.forms) start }
    requires entries { AreEntriesIn types.old start.waits.items }
    ensures walks { Walks filling_in IsFillingIn (items_in scopes.old types.old listing (filling_in types.old start) (initialisers_of (map initialiser_seen list.now))) scopes.old types.old scopes.new types.new result }
    ensures entries { IfOk result (λ f. AreEntriesIn types.new f.waits.items) }
{
    let mut all = start;
    for i in list {
        all = item(alloc, scopes, types, listing, i, all)?;
    }
    Ok(all)
}

/// An item behind others.
#[cycle(walk)]
fn item(
    alloc: Global,
    scopes: &mut Scopes,
    types: &mut TypeTable,
    listing: Listing,
    i: &Initialiser,
    before: Filling,
) -> Result<Filling, CheckFault>
    requires symbols { AreSymbolsIn (length types.old.forms) scopes.old.symbols }
    requires before { IsFillingIn (length types.old.forms) before }
    requires entries { AreEntriesIn types.old before.waits.items }
    ensures walks { Walks filling_in IsFillingIn (item_in scopes.old types.old listing (filling_in types.old before) (initialiser_seen i.now)) scopes.old types.old scopes.new types.new result }
    ensures entries { IfOk result (λ f. AreEntriesIn types.new f.waits.items) }
{
    let line = i.line;
    match &i.form {
        InitialiserForm::Expr(e) => {
            let c = expression(alloc, scopes, types, e)?;
            types.members_are_complete();
            value(alloc, types, listing, line, c, before)
        }
        InitialiserForm::List { items, .. } => {
            list(
                alloc,
                scopes,
                types,
                (line, listing),
                items.as_slice(),
                before,
            )
        }
    }
}

/// A list in braces on a line, with its own items, behind other items.
#[cycle(walk)]
fn list(
    alloc: Global,
    scopes: &mut Scopes,
    types: &mut TypeTable,
    stands: (u32, Listing),
    list: &[Initialiser],
    before: Filling,
) -> Result<Filling, CheckFault>
    requires symbols { AreSymbolsIn (length types.old.forms) scopes.old.symbols }
    requires before { IsFillingIn (length types.old.forms) before }
    requires entries { AreEntriesIn types.old before.waits.items }
    ensures walks { (comma : Bool) → Walks filling_in IsFillingIn (item_in scopes.old types.old stands.1 (filling_in types.old before) (Braced stands.0 (initialisers_of (map initialiser_seen list.now)) comma)) scopes.old types.old scopes.new types.new result }
    ensures entries { IfOk result (λ f. AreEntriesIn types.new f.waits.items) }
{
    let (line, listing) = stands;
    let opened = open(alloc, types, begins_with_text(list), before)?;
    let within = is_within(listing, opened.at);
    let inner = inside(types, listing, opened.at);
    let filled = items(alloc, scopes, types, inner, list, opened.inner)?;
    types.members_are_complete();
    if let Some(number) = list_broken(standing(listing), filled.excess, within) {
        return Err(CheckFault::Constraint { number, line });
    }
    Ok(Filling {
        places: filled.places,
        waits: opened.waits,
        excess: opened.excess,
    })
}

/// An expression, as typing has it.
pub(crate) fn expression(
    alloc: Global,
    scopes: &mut Scopes,
    types: &mut TypeTable,
    e: &Expr,
) -> Result<CoreExpr, CheckFault>
    requires { AreSymbolsIn (length types.old.forms) scopes.old.symbols }
    ensures { Walks core IsIn (typed (state_of scopes.old types.old) (expr_of e.now)) scopes.old types.old scopes.new types.new result }
{
    typing_is_a_function();
    check_expr(alloc, scopes, types, e)
}
