//! Lists in braces opened: the object that one fills, and what waits in it and around it (C89 3.5.7).
ghost use Rattle.std.specs.Prelude.{◌≡◌, ◌<◌, List, length, map, IfOk, IfSome};
ghost use Rattle.c_ast.specs.Trees.{InitialiserTrees};
ghost use Rattle.c_ast.specs.UnitViews.{initialisers_of};
ghost use Rattle.c_ast.specs.Views.{expr_of};
ghost use Rattle.c_ast.specs.SeenUnits.{initialiser_seen};
ghost use Rattle.c_types.specs.Table.{tags};
ghost use Rattle.c_meaning.specs.Filling.{begins_with_text as text_begins, begun_in, is_literal as literal};
ghost use Rattle.c_initialisers.specs.Opening.{IsOpened};
ghost use Rattle.c_initialisers.specs.Storing.{IsFillingIn, filling_in};
ghost use Rattle.c_initialisers.specs.Waiting.{AreEntriesIn, IsPlaceIn, found_in, waiting_in};
ghost use Rattle.c_initialisers.specs.declared.waits.Waits.{Waits as WaitsValue};

use crate::place::Place;
use crate::placing::{begin, is_nowhere, next};
use crate::stored::Filling;
use crate::waits::Waits;
use c_ast::{Expr, ExprForm, Initialiser, InitialiserForm};
use c_types::TypeTable;
use lcc_base::Memory;
use std::alloc::Global;

/// A list in braces that begins.
#[derive(Drop)]
pub(crate) struct Opened {
    /// The object that it fills. None where none is left for it.
    pub(crate) at: Option<Place>,
    /// What waits around it, and whether an item up to it found no place.
    pub(crate) waits: Vec<Waits>,
    pub(crate) excess: bool,
    /// What was stored before it, and what waits in it.
    pub(crate) inner: Filling,
}

/// Whether the expression is a string literal, in parentheses or not.
fn is_literal(e: &Expr) -> bool
    ensures { result ≡ literal (expr_of e.now) }
{
    match &e.form {
        ExprForm::Text(_) => true,
        ExprForm::Enclosed(a) => is_literal(a),
        _ => false,
    }
}

/// Whether the first of a list is a string literal.
pub(crate) fn begins_with_text(list: &[Initialiser]) -> bool
    ensures { result ≡ text_begins (initialisers_of (map initialiser_seen list.now)) }
{
    match list {
        [first, ..] => match &first.form {
            InitialiserForm::Expr(e) => is_literal(e),
            InitialiserForm::List { .. } => false,
        },
        [] => false,
    }
}

/// What waits in the object that a list fills, if there is one; of the list is told whether it begins with
/// a string.
pub(crate) fn begun(
    alloc: Global,
    types: &TypeTable,
    at: Option<Place>,
    is_text: bool,
) -> Result<Vec<Waits>, Memory>
    requires { IfSome at (IsPlaceIn (length types.now.forms)) }
    ensures waits { IfOk result (λ ws. (is : InitialiserTrees) → text_begins is ≡ is_text → (around : List WaitsValue) → waiting_in types.now ws.items ≡ begun_in (tags types.now) is (found_in types.now around at)) }
    ensures entries { IfOk result (λ ws. AreEntriesIn types.now ws.items) }
{
    match at {
        Some(at) => begin(alloc, types, at, is_text),
        None => {
            let mut waits = Vec::new(alloc);
            waits.push(Waits::Nowhere)?;
            Ok(waits)
        }
    }
}

/// A list in braces behind others, of which is told whether it begins with a string.
pub(crate) fn open(
    alloc: Global,
    types: &TypeTable,
    is_text: bool,
    before: Filling,
) -> Result<Opened, Memory>
    requires before { IsFillingIn (length types.now.forms) before }
    requires entries { AreEntriesIn types.now before.waits.items }
    ensures is { IfOk result (IsOpened types.now (filling_in types.now before) is_text) }
    ensures at { IfOk result (λ o. IfSome o.at (IsPlaceIn (length types.now.forms))) }
    ensures waits { IfOk result (λ o. AreEntriesIn types.now o.waits.items) }
    ensures inner { IfOk result (λ o. IsFillingIn (length types.now.forms) o.inner) }
    ensures entries { IfOk result (λ o. AreEntriesIn types.now o.inner.waits.items) }
{
    let Filling {
        places,
        mut waits,
        excess,
    } = before;
    let at = next(types, &mut waits)?;
    let excess = excess || (at.is_none() && !is_nowhere(types, &waits));
    let inner = Filling {
        places,
        waits: begun(alloc, types, at, is_text)?,
        excess: false,
    };
    Ok(Opened {
        at,
        waits,
        excess,
        inner,
    })
}
