//! Where a function's locals stand.
ghost use Rattle.std.specs.Prelude.{◌≡◌, ◌*◌, ◌-ℤ◌, [], pos, map, IfOk, OnOk};
ghost use Rattle.c_types.specs.Table.{tags, type_at, types as all_types};
ghost use Rattle.c_meaning.specs.Units.{function_seen};
ghost use Rattle.lowered_statements.specs.Layouts as layouts;
ghost use Rattle.statement_steps.specs.Laid.{laid};

use crate::numbers::sum;
use crate::site::result_of;
use c_meaning::CoreFunction;
use c_types::{TypeId, TypeTable};
use c_worlds::{is_record, size};
use lcc_base::{Items, Memory};
use op_forest::{Frame, Slot};
use std::alloc::Global;

/// The size of a parameter word, in bytes.
const WORD: u32 = 4;

/// Where each of a function's locals is, and the frame with their slots. A place below 0 is an offset from the frame's top, any other one
/// from the first parameter word.
#[derive(Drop)]
pub struct Layout {
    pub places: Items<i32>,
    pub frame: Frame,
}

/// Where a function's locals stand. `Memory` comes where an allocation is refused, and where a place is no number of 32 bits.
pub fn lay_out(alloc: Global, types: &TypeTable, f: &CoreFunction) -> Result<Layout, Memory>
    ensures { IfOk result (λ a. laid a ≡ layouts.layout (tags types.now) (function_seen (all_types types.now) f.now)) }
{
    let mut into = Layout {
        places: Items::new(alloc),
        frame: Frame::new(alloc),
    };
    let locals = f.locals.as_slice();
    let (parameters, others) = locals.split_at(locals.len().min(f.parameters as usize));
    add_parameters(types, first_word(types, f), parameters, &mut into)?;
    add_locals(types, others, &mut into)?;
    Ok(into)
}

/// How many parameter words a function has; that of the address for a structure result is one. `Memory` comes where they are 2^32.
pub fn word_count(types: &TypeTable, f: &CoreFunction) -> Result<u32, Memory>
    ensures { IfOk result (λ n. n ≡ layouts.words_of (function_seen (all_types types.now) f.now)) }
{
    sum(first_word(types, f), f.parameters)
}

/// The word of the first parameter: behind that of the address for a structure result.
pub fn first_word(types: &TypeTable, f: &CoreFunction) -> u32
    ensures { result ≡ layouts.first_word (function_seen (all_types types.now) f.now) }
{
    if is_record(types, result_of(types, f.of)) {
        1
    } else {
        0
    }
}

/// Whether a parameter of this type is narrower than a word.
pub(crate) fn is_narrow(types: &TypeTable, of: TypeId) -> bool
    ensures { result ≡ layouts.is_narrow (tags types.now) (type_at types.now of) }
{
    !is_record(types, of) && size(types, of) < WORD
}

// Parameters of these types, from this word on.
fn add_parameters(
    types: &TypeTable,
    first: u32,
    parameters: &[TypeId],
    into: &mut Layout,
) -> Result<(), Memory>
    ensures { OnOk result (laid into.new ≡ layouts.with_parameters (tags types.now) first (map (type_at types.now) parameters.now) (laid into.old)) }
{
    let mut word = first;
    for of in parameters {
        if is_narrow(types, *of) {
            into.add_slot(WORD)?;
        } else {
            into.add_word(word)?;
        }
        word = sum(word, 1)?;
    }
    Ok(())
}

// Other locals of these types.
fn add_locals(types: &TypeTable, locals: &[TypeId], into: &mut Layout) -> Result<(), Memory>
    ensures { OnOk result (laid into.new ≡ layouts.with_locals (tags types.now) (map (type_at types.now) locals.now) (laid into.old)) }
{
    for of in locals {
        into.add_slot(size(types, *of))?;
    }
    Ok(())
}

impl Layout {
    // A local in a parameter word.
    fn add_word(&mut self, word: u32) -> Result<(), Memory>
        ensures { OnOk result (laid self.new ≡ layouts.with_place (pos (4 * word)) [] (laid self.old)) }
    {
        let offset = u64::from(WORD) * u64::from(word);
        match i32::try_from(offset) {
            Ok(offset) => self.places.push(offset),
            Err(_) => Err(Memory),
        }
    }

    // A local in a slot of its own, below the others, of so many bytes rounded up to a multiple of 4.
    fn add_slot(&mut self, size: u32) -> Result<(), Memory>
        ensures { OnOk result (laid self.new ≡ layouts.in_slot size (laid self.old)) }
    {
        let size = rounded(size)?;
        let offset = offset_under(self.frame.lowest(), size)?;
        self.frame.extend(&[Slot { offset, size }])?;
        self.places.push(offset)
    }
}

// A multiple of 4 that is no less, and no 0. `Memory` comes where it is 2^32.
fn rounded(size: u32) -> Result<u32, Memory>
    ensures { IfOk result (λ n. n ≡ layouts.rounded size) }
{
    let words = u64::from(size.saturating_sub(1)) / 4 + 1;
    u32::try_from(4 * words).map_err(|_| Memory)
}

// Where a slot of so many bytes begins right below the lowest one. `Memory` comes where that is below -2^31.
fn offset_under(lowest: i32, size: u32) -> Result<i32, Memory>
    ensures { IfOk result (λ z. z ≡ lowest -ℤ pos size) }
{
    let offset = i64::from(lowest) - i64::from(size);
    match i32::try_from(offset) {
        Ok(offset) => Ok(offset),
        Err(_) => Err(Memory),
    }
}
