//! Expressions without parts.
ghost use Rattle.std.specs.Prelude.{[], IfOk};
ghost use Rattle.c_meaning.specs.CoreTrees.{type_of, what_of};
ghost use Rattle.c_worlds.specs.Programs.{HasNames};
ghost use Rattle.lowering_acts.specs.Gives.{Gives};
ghost use Rattle.lowering_acts.specs.Sites.{context_of, type_in};
ghost use Rattle.lowered_forms.specs.Expressions.{plain_row};

use crate::places::local_place;
use crate::site::{Site, built_in_name, object_name, text_name};
use c_meaning::{CoreExpr, CoreKind};
use c_worlds::scalar;
use lcc_base::Memory;
use lowering_steps::{OpenBlock, Operand};

/// An expression without parts. `Memory` also where its kind has some.
pub fn leaf(site: &Site, block: &mut OpenBlock, e: &CoreExpr) -> Result<Operand, Memory>
    requires { HasNames site.now.program }
    ensures { IfOk result (λ v. Gives block.old (λ l. plain_row (context_of site.now) (what_of e.now) (type_in site.now (type_of e.now)) [] l) v block.new) }
{
    match &e.what {
        CoreKind::Local { place, .. } => local_place(site, block, *place, e.of),
        CoreKind::Object(n) => {
            let name = object_name(&site.program, *n)?;
            Ok(Operand::name(name, 0))
        }
        CoreKind::Text(n) => {
            let name = text_name(&site.program, *n)?;
            Ok(Operand::name(name, 0))
        }
        CoreKind::Function(n) => Ok(Operand::name(*n, 0)),
        CoreKind::BuiltIn(b) => {
            let name = built_in_name(&site.program, *b)?;
            Ok(Operand::name(name, 0))
        }
        CoreKind::Number(n) => {
            let scalar = scalar(site.program.core.types(), e.of);
            Ok(Operand::number(scalar.signed, *n))
        }
        _ => Err(Memory),
    }
}
