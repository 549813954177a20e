//! Parameters that are narrower than a word, which are stored in slots of the frame.
ghost use Rattle.std.specs.Prelude.{◌≡◌, ◌*◌, false, true, map, pos, slice_get, IfOk, OnOk};
ghost use Rattle.lowered_forms.specs.Places.{local_by, parameter};
ghost use Rattle.lowered_statements.specs.FunctionBodies as bodies;
ghost use Rattle.lowering_acts.specs.Sites.{context_of, type_in};
ghost use Rattle.lowering_steps.specs.Asking.{Acts};
ghost use Rattle.lowering_steps.specs.Operands.{typed_of};
ghost use Rattle.statement_steps.specs.Functions.{function_of};

use crate::layouts::is_narrow;
use crate::numbers::sum;
use crate::site::FunctionSite;
use c_types::TypeId;
use c_worlds::scalar;
use lcc_base::Memory;
use lowering_acts::Site;
use lowering_steps::{OpenBlock, Operand};
use objects::{Scalar, Width};
use op_forest::Suffix;

/// A number of four bytes.
const NUMBER: Scalar = Scalar {
    width: Width::Four,
    signed: true,
};

/// Each of the parameters of these types that is narrower than a word is stored in its slot, from the word of the first one on. `Memory`
/// comes where an allocation is refused, where the block is full, and where a parameter has no slot; the block is given up then.
pub fn store_parameters(
    f: &FunctionSite,
    first: u32,
    parameters: &[TypeId],
    block: &mut OpenBlock,
) -> Result<(), Memory>
    ensures { OnOk result (Acts block.old (λ l. bodies.parameters_stored (function_of f.now) 0 first (map (type_in f.now.site) parameters.now) l) block.new) }
{
    let types = f.site.program.core.types();
    let mut place = 0;
    let mut word = first;
    for of in parameters {
        if is_narrow(types, *of) {
            store_parameter(f, place, word, *of, block)?;
        }
        place = sum(place, 1)?;
        word = sum(word, 1)?;
    }
    Ok(())
}

// A word is stored in the slot of its parameter.
fn store_parameter(
    f: &FunctionSite,
    place: u32,
    word: u32,
    of: TypeId,
    block: &mut OpenBlock,
) -> Result<(), Memory>
    ensures { OnOk result (Acts block.old (λ l. bodies.parameter_stored true (function_of f.now) place word (type_in f.now.site of) l) block.new) }
{
    let types = f.site.program.core.types();
    let slot = slot_place(&f.site, place)?;
    let slot = block.operand(slot)?;
    let word = block.loaded(NUMBER, word_place(word)?)?;
    let width = scalar(types, of).width;
    block.store(width, Operand::node(slot, Suffix::P), word)
}

// The slot of a parameter. `Memory` comes where it has none.
fn slot_place(site: &Site, place: u32) -> Result<Operand, Memory>
    ensures is { IfOk result (λ v. typed_of v ≡ local_by false (slice_get (context_of site.now).places place)) }
    ensures pointer { IfOk result (λ v. v.suffix ≡ Suffix.P) }
{
    match offset_of(site, place) {
        Some(offset) if offset < 0 => Ok(Operand::local(offset)),
        _ => Err(Memory),
    }
}

// Where a local is, if there are so many.
fn offset_of(site: &Site, n: u32) -> Option<i32>
    ensures { result ≡ slice_get site.now.places.now n }
{
    match site.places.get(n as usize) {
        Some(offset) => Some(*offset),
        None => None,
    }
}

// A parameter word. `Memory` comes where it is none of a frame.
fn word_place(word: u32) -> Result<Operand, Memory>
    ensures { IfOk result (λ v. typed_of v ≡ parameter (pos (4 * word))) }
{
    match i32::try_from(4 * u64::from(word)) {
        Ok(offset) => Ok(Operand::parameter(offset)),
        Err(_) => Err(Memory),
    }
}
