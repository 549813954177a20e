//! The values of the two ways of a conditional.
ghost use Rattle.std.specs.Prelude.{◌≡◌, IfOk, OnOk};
ghost use Rattle.lowering_acts.specs.Sites.{type_in};
ghost use Rattle.lowering_acts.specs.Sorted.{sorted};
ghost use Rattle.lowered_forms.specs.Conditionals as ways;
ghost use Rattle.lowered_forms.specs.Values.{with_value};
ghost use Rattle.lowering_steps.specs.Asking.{Acts, Places};
ghost use Rattle.lowering_steps.specs.Operands.{typed_of};

use crate::site::Site;
use c_types::TypeId;
use c_values::kinds;
use c_worlds::{is_pointer, is_record, known_type};
use lcc_base::Memory;
use lowering_steps::{OpenBlock, Operand};
use op_forest::Suffix;

/// What kind of value both ways give: none, a number, or a pointer; of a structure that to its place.
#[derive(Clone, Copy, Debug, PartialEq, Eq)]
pub enum Sort {
    Nothing,
    Word,
    Place,
}

/// That of a type.
pub fn sort_of(site: &Site, of: TypeId) -> Sort
    ensures { sorted result ≡ ways.sort_of (type_in site.now of) }
{
    let types = site.program.core.types();
    if kinds::is_void(types, known_type(types, of)) {
        Sort::Nothing
    } else if is_pointer(types, of) || is_record(types, of) {
        Sort::Place
    } else {
        Sort::Word
    }
}

/// One way's value is kept in the slot of both.
pub fn keep_in(block: &mut OpenBlock, sort: Sort, offset: i32, value: Operand) -> Result<(), Memory>
    ensures { OnOk result (Acts block.old (λ l. ways.kept_in (sorted sort) offset (with_value (typed_of value) l)) block.new) }
{
    match sort {
        Sort::Nothing => Ok(()),
        Sort::Word => block.store_number_in(offset, value),
        Sort::Place => block.store_pointer_in(offset, value),
    }
}

/// The value of either way.
pub fn sort_read(block: &mut OpenBlock, sort: Sort, offset: i32) -> Result<Operand, Memory>
    ensures { IfOk result (λ v. Places block.old (ways.sort_read (sorted sort) offset) v block.new) }
{
    match sort {
        Sort::Nothing => Ok(Operand::number(true, 0)),
        Sort::Word => block.slot_read(Suffix::I, offset),
        Sort::Place => block.slot_read(Suffix::P, offset),
    }
}
