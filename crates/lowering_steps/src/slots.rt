//! Values in slots of the frame.
ghost use Rattle.std.specs.Prelude.{OnOk, IfOk};
ghost use Rattle.c_rows_agree.specs.Integers as integers;
ghost use Rattle.c_rows_agree.specs.Typed as typed;
ghost use Rattle.lowered_forms.specs.Lows.{Low, acted};
ghost use Rattle.lowered_forms.specs.Values.{held, saved, slot_read, stored_in};
ghost use Rattle.lowered_forms.specs.Calls.{call_stored};
ghost use Rattle.lowering_steps.specs.Asking.{Acts, Places};
ghost use Rattle.lowering_steps.specs.Operands.{typed_of};
ghost use Rattle.lowering_steps.specs.States.{Comes, Shows};

use crate::open_block::OpenBlock;
use crate::operand::{Operand, Source};
use crate::state::State;
use lcc_base::Memory;
use objects::Width;
use op_forest::{Op, Suffix};

impl OpenBlock {
    /// A value is stored in a slot.
    pub fn store_in(&mut self, offset: i32, value: Operand) -> Result<(), Memory>
        ensures { OnOk result (Acts self.old (λ l. stored_in offset (typed_of value) l) self.new) }
    {
        self.store(Width::Four, Operand::local(offset), value)
    }

    /// A value is stored in a slot as a number.
    pub fn store_number_in(&mut self, offset: i32, value: Operand) -> Result<(), Memory>
        ensures { OnOk result (Acts self.old (λ l. stored_in offset (record { tree = typed.as_i (typed_of value); suffix = Suffix.I }) l) self.new) }
    {
        self.store_number(Operand::local(offset), value)
    }

    /// A value is stored in a slot as a pointer.
    pub fn store_pointer_in(&mut self, offset: i32, value: Operand) -> Result<(), Memory>
        ensures { OnOk result (Acts self.old (λ l. stored_in offset (integers.as_pointer (typed_of value)) l) self.new) }
    {
        self.store_pointer(Operand::local(offset), value)
    }

    /// What a call of a function gives is stored in a slot.
    pub fn store_call(&mut self, offset: i32, function: Operand) -> Result<(), Memory>
        ensures { OnOk result (Acts self.old (λ l. acted (call_stored offset (typed_of function)) l) self.new) }
    {
        let place = self.operand(Operand::local(offset))?;
        let function = self.as_p(function)?;
        let call = self.over(Op::Call, Suffix::I, function)?;
        self.assign(Suffix::I, place, call)
    }

    /// What a slot holds, as a node.
    pub fn slot_read(&mut self, suffix: Suffix, offset: i32) -> Result<Operand, Memory>
        ensures { IfOk result (λ v. Places self.old (slot_read suffix offset) v self.new) }
    {
        self.placed(Operand::slot(suffix, offset))
    }
}

impl State {
    /// An operand that waits for another one: where that isn't straight, a node is stored in a new slot.
    pub fn hold(&mut self, straight: bool, value: Operand) -> Result<Operand, Memory>
        ensures { (l : Low) → Shows self.old l → IfOk result (λ v. Comes self.new v (held straight (typed_of value) l)) }
    {
        match value.source {
            Source::Node(_) if !straight => self.save(value),
            _ => Ok(value),
        }
    }

    // It is stored in a new slot.
    fn save(&mut self, value: Operand) -> Result<Operand, Memory>
        ensures { (l : Low) → Shows self.old l → IfOk result (λ v. Comes self.new v (saved (typed_of value) l)) }
    {
        let offset = self.new_slot()?;
        self.block.store_in(offset, value)?;
        Ok(Operand::slot(value.suffix, offset))
    }
}
