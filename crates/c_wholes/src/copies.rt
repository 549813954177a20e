//! Places for the structures that calls pass and give (C89 3.3.2.2, 3.6.6.4).
ghost use Rattle.std.specs.Prelude.{◌≡◌, ◌<◌, length, OnOk};
ghost use Rattle.c_types.specs.Table.{type_at, AreBelow};
ghost use Rattle.c_meaning.specs.Copies.{all_copied, copied, own_copies};
ghost use Rattle.c_meaning.specs.CoreTrees.{AreIn, IsIn, all_seen, cores_of, seen};
ghost use Rattle.c_units.specs.Wholes.{placed_kind};
ghost use Rattle.c_wholes.specs.Placing.{ArePlaced, Grows, HasTypes, IsPlaced, call_types};

use c_meaning::{CoreExpr, CoreKind};
use c_types::{TypeId, TypeTable};
use c_values::kinds;
use lcc_base::{Items, Memory};
use std::alloc::Global;

/// An expression whose calls name where their copies begin. The types of these come behind the locals.
#[cycle(copies)]
pub(crate) fn place_expr(
    alloc: Global,
    types: &TypeTable,
    locals: &mut Items<TypeId>,
    c: &mut CoreExpr,
) -> Result<(), Memory>
    requires locals { AreBelow (length types.now.forms) locals.old }
    requires within { IsIn (length types.now.forms) c.old }
    ensures { OnOk result (IsPlaced types.now locals.old locals.new (seen (type_at types.now) c.old) c.new) }
{
    let mut kids = std::mem::replace(&mut c.kids, Items::new(alloc)).into_vec();
    place_kind(types, locals, &mut c.what, c.of, &kids)?;
    place_exprs(alloc, types, locals, &mut kids)?;
    c.kids = Items::from_vec(kids);
    Ok(())
}

/// Expressions in order, each so.
#[cycle(copies)]
fn place_exprs(
    alloc: Global,
    types: &TypeTable,
    locals: &mut Items<TypeId>,
    list: &mut [CoreExpr],
) -> Result<(), Memory>
    requires locals { AreBelow (length types.now.forms) locals.old }
    requires within { AreIn (length types.now.forms) (cores_of list.old) }
    ensures { OnOk result (ArePlaced types.now locals.old locals.new (all_seen (type_at types.now) (cores_of list.old)) list.new) }
{
    for i in 0..list.len() {
        place_expr(alloc, types, locals, &mut list[i])?;
    }
    Ok(())
}

/// Where a call's own copies begin, and their types behind the locals. Of another kind nothing.
fn place_kind(
    types: &TypeTable,
    locals: &mut Items<TypeId>,
    what: &mut CoreKind,
    of: TypeId,
    kids: &[CoreExpr],
) -> Result<(), Memory>
    requires locals { AreBelow (length types.now.forms) locals.old }
    requires of { of < length types.now.forms }
    requires kids { AreIn (length types.now.forms) (cores_of kids.now) }
    ensures kind { OnOk result (what.new ≡ placed_kind (length locals.old) what.old) }
    ensures copies { OnOk result (Grows types.now (own_copies what.old (type_at types.now of) (all_seen (type_at types.now) (cores_of kids.now))) locals.old locals.new) }
{
    if let CoreKind::Call { copies } = what {
        // No source has as many.
        *copies = u32::try_from(locals.len()).map_err(|_| Memory)?;
        push_call(types, locals, of, kids)?;
    }
    Ok(())
}

/// The types of a call's copies behind the locals: those of the arguments, then that of the result.
fn push_call(
    types: &TypeTable,
    locals: &mut Items<TypeId>,
    of: TypeId,
    kids: &[CoreExpr],
) -> Result<(), Memory>
    requires locals { AreBelow (length types.now.forms) locals.old }
    requires of { of < length types.now.forms }
    requires kids { AreIn (length types.now.forms) (cores_of kids.now) }
    ensures { OnOk result (HasTypes types.now (call_types (type_at types.now of) (all_seen (type_at types.now) (cores_of kids.now))) locals.old locals.new) }
{
    match kids {
        [_, arguments @ ..] => {
            push_arguments(types, locals, arguments)?;
            push_copy(types, locals, of)
        }
        [] => Ok(()),
    }
}

/// The types of the arguments' copies behind the locals.
fn push_arguments(
    types: &TypeTable,
    locals: &mut Items<TypeId>,
    arguments: &[CoreExpr],
) -> Result<(), Memory>
    requires locals { AreBelow (length types.now.forms) locals.old }
    requires arguments { AreIn (length types.now.forms) (cores_of arguments.now) }
    ensures { OnOk result (HasTypes types.now (all_copied (all_seen (type_at types.now) (cores_of arguments.now))) locals.old locals.new) }
{
    for a in arguments {
        push_copy(types, locals, a.of)?;
    }
    Ok(())
}

/// The type of a value's copy behind the locals, if it is a structure or a union.
fn push_copy(types: &TypeTable, locals: &mut Items<TypeId>, of: TypeId) -> Result<(), Memory>
    requires locals { AreBelow (length types.now.forms) locals.old }
    requires of { of < length types.now.forms }
    ensures { OnOk result (HasTypes types.now (copied (type_at types.now of)) locals.old locals.new) }
{
    if kinds::is_record(types, of) {
        locals.push(kinds::unqualified_type(types, of))?;
    }
    Ok(())
}
