//! Expressions with two parts, which are both evaluated.
ghost use Rattle.std.specs.Prelude.{◌≡◌, IfOk, OnOk};
ghost use Rattle.c_meaning.specs.CoreTrees.{type_of, what_of};
ghost use Rattle.c_pointers_agree.specs.Pointers.{moved_among as moved_by};
ghost use Rattle.lowering_acts.specs.declared.forms.Form.TheVariants.{Two};
ghost use Rattle.lowering_acts.specs.Forms.{form_of};
ghost use Rattle.lowering_acts.specs.Gives.{Gives};
ghost use Rattle.lowering_acts.specs.Rows.{two_row};
ghost use Rattle.lowering_acts.specs.Sites.{context_of, tree_in, type_in};
ghost use Rattle.c_runs.specs.Places.{spot_of};
ghost use Rattle.lowered_forms.specs.Accesses.{copied};
ghost use Rattle.lowered_forms.specs.Changes.{assigned_by};
ghost use Rattle.c_meaning.specs.Types as kinds;
ghost use Rattle.lowering_steps.specs.Asking.{Acts, Places};
ghost use Rattle.lowering_steps.specs.Operands.{typed_of};

use crate::changes::{Changing, change};
use crate::site::Site;
use crate::spots::{assign, spot_at};
use c_meaning::{CoreExpr, CoreKind};
use c_types::TypeId;
use c_worlds::{alignment, is_pointer, is_record, size};
use lcc_base::Memory;
use lowering_steps::{OpenBlock, Operand};

/// An expression whose first part is this one, and whose parts have come to these operands.
pub fn binary_act(
    site: &Site,
    block: &mut OpenBlock,
    e: &CoreExpr,
    part: &CoreExpr,
    operands: (Operand, Operand),
) -> Result<Operand, Memory>
    requires { form_of (what_of e.now) ≡ Two }
    ensures { IfOk result (λ v. Gives block.old (λ l. two_row (context_of site.now) (what_of e.now) (type_in site.now (type_of e.now)) (tree_in site.now part.now) (typed_of operands.0) (typed_of operands.1) l) v block.new) }
{
    let (a, b) = operands;
    match &e.what {
        CoreKind::Binary { operator, signed } => block.binary(*operator, *signed, a, b),
        CoreKind::Move { size, back } => {
            let first = is_pointer(site.program.core.types(), part.of);
            moved_among(block, *size, *back, first, operands)
        }
        CoreKind::Difference { size } => block.difference(*size, a, b),
        CoreKind::Assign => assigned(site, block, e.of, part, operands),
        CoreKind::Change(by) => {
            let changing = Changing {
                by: *by,
                postfix: false,
            };
            change(
                block,
                site.program.order,
                changing,
                spot_at(site, part),
                a,
                b,
            )
        }
        CoreKind::Postfix(by) => {
            let changing = Changing {
                by: *by,
                postfix: true,
            };
            change(
                block,
                site.program.order,
                changing,
                spot_at(site, part),
                a,
                b,
            )
        }
        _ => Err(Memory),
    }
}

// A pointer is moved by an integer, the pointer first or not.
fn moved_among(
    block: &mut OpenBlock,
    size: u32,
    back: bool,
    first: bool,
    operands: (Operand, Operand),
) -> Result<Operand, Memory>
    ensures { IfOk result (λ v. Places block.old (moved_by size back first (typed_of operands.0) (typed_of operands.1)) v block.new) }
{
    if first {
        block.moved(size, back, operands.0, operands.1)
    } else {
        block.moved(size, back, operands.1, operands.0)
    }
}

// A value of a type is assigned to the place of an expression; of a structure, what stands at a place.
fn assigned(
    site: &Site,
    block: &mut OpenBlock,
    of: TypeId,
    part: &CoreExpr,
    operands: (Operand, Operand),
) -> Result<Operand, Memory>
    ensures { IfOk result (λ v. Gives block.old (λ l. assigned_by (kinds.is_record (type_in site.now of)) (context_of site.now) (type_in site.now of) (spot_of (tree_in site.now part.now)) (typed_of operands.0) (typed_of operands.1) l) v block.new) }
{
    if is_record(site.program.core.types(), of) {
        copy(site, block, of, operands.0, operands.1)?;
        block.placed(operands.0)
    } else {
        assign(
            block,
            site.program.order,
            spot_at(site, part),
            operands.0,
            operands.1,
        )
    }
}

/// The bytes of a type are copied from one place to another.
pub fn copy(
    site: &Site,
    block: &mut OpenBlock,
    of: TypeId,
    to: Operand,
    from: Operand,
) -> Result<(), Memory>
    ensures { OnOk result (Acts block.old (λ l. copied (context_of site.now).unit.tags (type_in site.now of) (typed_of to) (typed_of from) l) block.new) }
{
    let types = site.program.core.types();
    block.copy(size(types, of), alignment(types, of), to, from)
}
