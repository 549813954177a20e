//! What a declared name declares once its initialiser is checked (C89 3.5, 3.5.7, 3.7.2).
ghost use Rattle.std.specs.Prelude.{◌≡◌, ◌<◌, ℕ, length, map, Option, IfOk, IfSome};
ghost use Rattle.c_ast.specs.SeenUnits.{boxed_initialiser_seen};
ghost use Rattle.c_ast.specs.Trees.{InitialiserTree};
ghost use Rattle.c_ast.specs.UnitViews.{option_of};
ghost use Rattle.c_types.specs.CType.{CType};
ghost use Rattle.c_types.specs.Table.{Table, type_at};
ghost use Rattle.c_meaning.specs.Declarations.{declares as declared_by, fills_of, is_zeroed as does_zero, line_at as line_of_symbol, linked_declares, linked_objects as objects_of_linked, local as local_of, object as object_of, one_object, or_zero};
ghost use Rattle.c_meaning.specs.Declaring.{at_whole as whole_at};
ghost use Rattle.c_meaning.specs.State.{place_here};
ghost use Rattle.c_check_expr.specs.Known.{AreSymbolsIn, state_of};
ghost use Rattle.c_check_expr.specs.Walks.{Walks};
ghost use Rattle.c_check_decl.specs.Declares.{AreDeclaredIn, AreFillsIn, AreObjectsIn, IsMaybeFilledIn, IsObjectIn, declares_in, defined_in, maybe_filled_in, places_in, stmt_in};
ghost use Rattle.c_check_decl.specs.Named.{naming_in};

use crate::declares::{Declares, DefinedObject, LinkedName, nothing};
use crate::defining::define;
use crate::initialising::{is_static, is_zeroed};
use crate::linkage::is_linked;
use crate::naming::Naming;
use crate::whole_faults::{is_typedef, whole_fault};
use c_ast::Initialiser;
use c_initialisers::Filled;
use c_meaning::{CoreObject, CoreStmt, FilledPlace};
use c_symbols::{Scopes, SymbolId};
use c_types::{TypeId, TypeTable};
use c_values::{CheckFault, kinds};
use lcc_base::{Bytes, Items, Memory};
use std::alloc::Global;

/// Where a name of a declaration stands: the line of the declaration, its own line, the place that it has in
/// its function if it is a local object, and the type that its declarator gives it.
#[derive(Clone, Copy)]
pub(crate) struct Spot {
    pub(crate) line: u32,
    pub(crate) own: u32,
    pub(crate) place: u32,
    pub(crate) of: TypeId,
}

/// The line of the first declaration of what a symbol stands for.
fn first_line(scopes: &Scopes, line: u32, id: Option<SymbolId>) -> u32
    requires { IfSome id (λ i. i < length scopes.now.symbols) }
    ensures { (t : Table) → result ≡ line_of_symbol (state_of scopes.now t) line id }
{
    match id {
        Some(id) => scopes.symbol(id).line,
        None => line,
    }
}

/// The symbol of a name. One that was declared has one.
fn symbol_of(id: Option<SymbolId>) -> SymbolId
    ensures { result ≡ or_zero id }
{
    match id {
        Some(id) => id,
        None => 0,
    }
}

/// The places that an initialiser fills.
fn places_of(alloc: Global, filled: Option<Filled>) -> Items<FilledPlace>
    ensures { result ≡ places_in filled }
{
    match filled {
        Some(filled) => filled.places,
        None => Items::new(alloc),
    }
}

/// An object with static storage, which the symbol names.
fn object(
    alloc: Global,
    types: &TypeTable,
    symbol: SymbolId,
    line: u32,
    n: &Naming,
    filled: Option<Filled>,
) -> Result<DefinedObject, Memory>
    requires of { n.now.of < length types.now.forms }
    requires filled { IsMaybeFilledIn (length types.now.forms) filled }
    ensures is { IfOk result (λ d. defined_in types.now d ≡ object_of symbol line (naming_in types.now n.now) (maybe_filled_in types.now filled)) }
    ensures within { IfOk result (λ d. IsObjectIn (length types.now.forms) d.object) }
{
    let object = CoreObject {
        name: Bytes::copied(alloc, n.name.as_slice())?,
        of: n.of,
        line,
        constant: types.is_const(n.of),
        places: places_of(alloc, filled),
    };
    Ok(DefinedObject { symbol, object })
}

/// The object that a name with linkage defines, which it does with an initialiser.
fn linked_objects(
    alloc: Global,
    scopes: &Scopes,
    types: &TypeTable,
    line: u32,
    n: &Naming,
    filled: Option<Filled>,
) -> Result<Items<DefinedObject>, Memory>
    requires of { n.now.of < length types.now.forms }
    requires filled { IsMaybeFilledIn (length types.now.forms) filled }
    ensures is { IfOk result (λ ds. map (defined_in types.now) ds ≡ objects_of_linked (state_of scopes.now types.now) line (naming_in types.now n.now) (maybe_filled_in types.now filled)) }
    ensures within { IfOk result (AreObjectsIn (length types.now.forms)) }
{
    let mut all = Items::new(alloc);
    if filled.is_none() {
        return Ok(all);
    }
    let link = scopes.linked(n.name.as_slice());
    let line = first_line(scopes, line, link);
    all.push(object(alloc, types, symbol_of(link), line, n, filled)?)?;
    Ok(all)
}

/// The declaration of a name with linkage, and the object that it defines.
fn linked(
    alloc: Global,
    scopes: &Scopes,
    types: &TypeTable,
    spot: Spot,
    n: &Naming,
    filled: Option<Filled>,
) -> Result<Declares, Memory>
    requires own { spot.of < length types.now.forms }
    requires of { n.now.of < length types.now.forms }
    requires filled { IsMaybeFilledIn (length types.now.forms) filled }
    ensures is { IfOk result (λ d. declares_in types.now d ≡ linked_declares (state_of scopes.now types.now) spot.line (type_at types.now spot.of) (naming_in types.now n.now) (maybe_filled_in types.now filled)) }
    ensures within { IfOk result (AreDeclaredIn (length types.now.forms)) }
{
    let objects = linked_objects(alloc, scopes, types, spot.line, n, filled)?;
    let symbol = symbol_of(scopes.linked(n.name.as_slice()));
    let mut names = Items::new(alloc);
    names.push(LinkedName {
        symbol,
        of: spot.of,
        line: spot.line,
    })?;
    Ok(Declares {
        objects,
        locals: Items::new(alloc),
        fills: Items::new(alloc),
        linked: names,
    })
}

/// A static object whose name has no linkage.
fn alone(
    alloc: Global,
    scopes: &Scopes,
    types: &TypeTable,
    line: u32,
    n: &Naming,
    filled: Option<Filled>,
) -> Result<Declares, Memory>
    requires of { n.now.of < length types.now.forms }
    requires filled { IsMaybeFilledIn (length types.now.forms) filled }
    ensures is { IfOk result (λ d. declares_in types.now d ≡ one_object (object_of (or_zero (place_here (state_of scopes.now types.now) n.now.name)) line (naming_in types.now n.now) (maybe_filled_in types.now filled))) }
    ensures within { IfOk result (AreDeclaredIn (length types.now.forms)) }
{
    let symbol = symbol_of(scopes.find_here(n.name.as_slice()));
    let mut objects = Items::new(alloc);
    objects.push(object(alloc, types, symbol, line, n, filled)?)?;
    Ok(Declares {
        objects,
        locals: Items::new(alloc),
        fills: Items::new(alloc),
        linked: Items::new(alloc),
    })
}

/// What a local object at a place of its function begins with, if it has an initialiser.
fn fills(
    alloc: Global,
    place: u32,
    zero: bool,
    filled: Option<Filled>,
) -> Result<Items<CoreStmt>, Memory>
    ensures is { IfOk result (λ ss. (t : Table) → (of : CType) → (i : Option InitialiserTree) → zero ≡ does_zero of i → map (stmt_in t) ss ≡ fills_of place of i (maybe_filled_in t filled)) }
    ensures within { IfOk result (λ ss. (n : ℕ) → IsMaybeFilledIn n filled → AreFillsIn n ss) }
{
    let mut all = Items::new(alloc);
    let Some(filled) = filled else {
        return Ok(all);
    };
    all.push(CoreStmt::Initialise {
        local: place,
        zero,
        places: filled.places,
    })?;
    Ok(all)
}

/// A local object at a place of its function, and what it begins with.
fn local(
    alloc: Global,
    types: &TypeTable,
    place: u32,
    n: &Naming,
    zero: bool,
    filled: Option<Filled>,
) -> Result<Declares, Memory>
    requires of { n.now.of < length types.now.forms }
    requires filled { IsMaybeFilledIn (length types.now.forms) filled }
    ensures is { (i : Option InitialiserTree) → zero ≡ does_zero (type_at types.now n.now.of) i → IfOk result (λ d. declares_in types.now d ≡ local_of place (type_at types.now n.now.of) i (maybe_filled_in types.now filled)) }
    ensures within { IfOk result (AreDeclaredIn (length types.now.forms)) }
{
    let mut all = nothing(alloc);
    all.locals.push(n.of)?;
    all.fills = fills(alloc, place, zero, filled)?;
    Ok(all)
}

/// What the name declares: an object with static storage, a local object, a name with linkage, or nothing.
fn declares(
    alloc: Global,
    scopes: &Scopes,
    types: &TypeTable,
    at: (Spot, bool),
    n: &Naming,
    filled: Option<Filled>,
) -> Result<Declares, Memory>
    requires own { at.0.of < length types.now.forms }
    requires of { n.now.of < length types.now.forms }
    requires filled { IsMaybeFilledIn (length types.now.forms) filled }
    ensures is { (i : Option InitialiserTree) → at.1 ≡ does_zero (type_at types.now n.now.of) i → IfOk result (λ d. declares_in types.now d ≡ declared_by (state_of scopes.now types.now) at.0.line at.0.place (type_at types.now at.0.of) (naming_in types.now n.now) i (maybe_filled_in types.now filled)) }
    ensures within { IfOk result (AreDeclaredIn (length types.now.forms)) }
{
    let (spot, zero) = at;
    if is_linked(n.linkage) {
        linked(alloc, scopes, types, spot, n, filled)
    } else if is_typedef(n.class) || kinds::is_function(types, n.of) {
        Ok(nothing(alloc))
    } else if is_static(n.class) {
        alone(alloc, scopes, types, spot.line, n, filled)
    } else {
        local(alloc, types, spot.place, n, zero, filled)
    }
}

/// A declared name behind its initialiser: the constraints on it, what it declares, and what is known of it
/// from there on.
pub(crate) fn at_whole(
    alloc: Global,
    scopes: &mut Scopes,
    types: &mut TypeTable,
    spot: Spot,
    named: (&Naming, &Option<Box<Initialiser>>),
    filled: Option<Filled>,
) -> Result<Declares, CheckFault>
    requires symbols { AreSymbolsIn (length types.old.forms) scopes.old.symbols }
    requires own { spot.of < length types.old.forms }
    requires of { named.0.now.of < length types.old.forms }
    requires filled { IsMaybeFilledIn (length types.old.forms) filled }
    ensures { Walks declares_in AreDeclaredIn (whole_at (state_of scopes.old types.old) spot.line spot.own spot.place (type_at types.old spot.of) (naming_in types.old named.entry.0.now) (option_of boxed_initialiser_seen named.entry.1.now) (maybe_filled_in types.old filled)) scopes.old types.old scopes.new types.new result }
{
    let (n, i) = named;
    let initialised = filled.is_some();
    if let Some(number) = whole_fault(scopes, types, n, initialised) {
        let line = spot.own;
        return Err(CheckFault::Constraint { number, line });
    }
    let zero = is_zeroed(types, n.of, i);
    let declared = declares(alloc, scopes, types, (spot, zero), n, filled)?;
    define(scopes, types, n, initialised)?;
    Ok(declared)
}
