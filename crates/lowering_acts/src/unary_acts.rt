//! Expressions with one part.
ghost use Rattle.std.specs.Prelude.{◌≡◌, IfOk};
ghost use Rattle.c_meaning.specs.CoreTrees.{type_of, what_of};
ghost use Rattle.lowering_acts.specs.declared.forms.Form.TheVariants.{One};
ghost use Rattle.lowering_acts.specs.Forms.{form_of};
ghost use Rattle.lowering_acts.specs.Gives.{Gives};
ghost use Rattle.lowering_acts.specs.Rows.{one_row};
ghost use Rattle.lowering_acts.specs.Sites.{context_of, tree_in, type_in};
ghost use Rattle.lowering_steps.specs.Operands.{typed_of};

use crate::places::member;
use crate::site::Site;
use crate::spots::{read, spot_at};
use c_meaning::{Conversion, CoreExpr, CoreKind};
use lcc_base::Memory;
use lowering_steps::{OpenBlock, Operand};

/// An expression whose only part has come to an operand.
pub fn unary_act(
    site: &Site,
    block: &mut OpenBlock,
    e: &CoreExpr,
    part: &CoreExpr,
    value: Operand,
) -> Result<Operand, Memory>
    requires { form_of (what_of e.now) ≡ One }
    ensures { IfOk result (λ v. Gives block.old (λ l. one_row (context_of site.now) (what_of e.now) (type_in site.now (type_of e.now)) (tree_in site.now part.now) (typed_of value) l) v block.new) }
{
    match &e.what {
        CoreKind::Pointed | CoreKind::Address | CoreKind::First => Ok(value),
        CoreKind::Member { offset, .. } => member(site, block, part, *offset, value),
        CoreKind::Read => read(block, site.program.order, spot_at(site, part), value),
        CoreKind::Convert(Conversion::Void) => Ok(Operand::number(true, 0)),
        CoreKind::Convert(Conversion::Pointer) => block.as_pointer(value),
        CoreKind::Convert(Conversion::Integer(to)) => block.converted(*to, value),
        CoreKind::Unary(operator) => block.unary(*operator, value),
        _ => Err(Memory),
    }
}
