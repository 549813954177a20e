//! Bit-fields at places.
ghost use Rattle.std.specs.Prelude.{◌≡◌, ◌≤◌, ◌<◌, ◌+◌, ◌-◌, ◌^◌, IfOk, OnOk};
ghost use Rattle.objects.specs.Fields as bits;
ghost use Rattle.c_match_fields.specs.FieldReads as reads;
ghost use Rattle.c_match_fields.specs.Fields as writes;
ghost use Rattle.c_rows_agree.specs.Places as places;
ghost use Rattle.lowered_forms.specs.Lows.{acted};
ghost use Rattle.lowering_steps.specs.Asking.{Acts, Asks, Places};
ghost use Rattle.lowering_steps.specs.Fielding.{LowersTop, unit_without};
ghost use Rattle.lowering_steps.specs.Operands.{typed_of};

use crate::open_block::OpenBlock;
use crate::operand::Operand;
use lcc_base::{Memory, Order};
use objects::Field;
use op_forest::{Op, Suffix};

impl OpenBlock {
    /// The value of a field of the unit at a place.
    pub fn field_loaded(
        &mut self,
        order: Order,
        field: Field,
        place: Operand,
    ) -> Result<Operand, Memory>
        requires { field.first + field.width ≤ 32 }
        ensures { IfOk result (λ v. Places self.old (places.field_loaded order field (typed_of place)) v self.new) }
    {
        let unit = self.unit(place)?;
        let count = self.constant_i(above(order, field))?;
        let top = self.both(Op::Lsh, Suffix::I, unit, count)?;
        self.lowered(field, top)
    }

    /// The value that a field has once this one is written.
    pub fn field_value(&mut self, field: Field, value: Operand) -> Result<Operand, Memory>
        requires { field.first + field.width ≤ 32 }
        ensures { IfOk result (λ v. Places self.old (places.field_value field (typed_of value)) v self.new) }
    {
        if field.signed {
            let top = self.at_top(field, value)?;
            self.lowered(field, top)
        } else {
            let node = self.masked(field, value)?;
            Ok(Operand::node(node, Suffix::U))
        }
    }

    /// A value is written to a field of the unit at a place, by way of the top of a word or of its bottom.
    pub fn store_field(
        &mut self,
        top: bool,
        order: Order,
        field: Field,
        place: Operand,
        value: Operand,
    ) -> Result<(), Memory>
        requires { field.first + field.width ≤ 32 }
        ensures { OnOk result (Acts self.old (λ l. acted (places.field_stored top order field (typed_of place) (typed_of value)) l) self.new) }
    {
        let left = self.as_p(place)?;
        let cleared = self.cleared(order, field, place)?;
        let set = self.field_bits(top, order, field, value)?;
        let unit = self.both(Op::Bor, Suffix::U, cleared, set)?;
        let unit = self.over(Op::Cvu, Suffix::I, unit)?;
        self.assign(Suffix::I, left, unit)
    }

    // The unit at a place.
    fn unit(&mut self, place: Operand) -> Result<u32, Memory>
        ensures { IfOk result (λ n. Asks self.old (places.unit_at (typed_of place)) n self.new) }
    {
        let place = self.as_p(place)?;
        self.over(Op::Indir, Suffix::I, place)
    }

    // A field's bits, which stand at the top of a word, at its bottom.
    fn lowered(&mut self, field: Field, top: u32) -> Result<Operand, Memory>
        requires { field.width ≤ 32 }
        ensures { IfOk result (λ v. LowersTop field self.old top v self.new) }
    {
        if field.signed {
            let count = self.constant_i(32 - u32::from(field.width))?;
            let node = self.both(Op::Rsh, Suffix::I, top, count)?;
            Ok(Operand::node(node, Suffix::I))
        } else {
            let word = self.over(Op::Cvi, Suffix::U, top)?;
            let count = self.constant_i(32 - u32::from(field.width))?;
            let node = self.both(Op::Rsh, Suffix::U, word, count)?;
            Ok(Operand::node(node, Suffix::U))
        }
    }

    // A value's low bits, as many as the field has, at the top of a word.
    fn at_top(&mut self, field: Field, value: Operand) -> Result<u32, Memory>
        requires { field.width ≤ 32 }
        ensures { IfOk result (λ n. Asks self.old (places.at_top field (typed_of value)) n self.new) }
    {
        let number = self.as_i(value)?;
        let count = self.constant_i(32 - u32::from(field.width))?;
        self.both(Op::Lsh, Suffix::I, number, count)
    }

    // The same at its bottom, among zeros.
    fn masked(&mut self, field: Field, value: Operand) -> Result<u32, Memory>
        requires { field.width ≤ 32 }
        ensures { IfOk result (λ n. Asks self.old (places.masked field (typed_of value)) n self.new) }
    {
        let number = self.as_u(value)?;
        let mask = self.constant_u(ones(field.width))?;
        self.both(Op::Band, Suffix::U, number, mask)
    }

    // The unit where it is stored again.
    fn unit_stored(&mut self, place: Operand) -> Result<u32, Memory>
        ensures { IfOk result (λ n. Asks self.old (places.unit_stored (typed_of place)) n self.new) }
    {
        let place = self.as_p(place)?;
        let word = self.over(Op::Indir, Suffix::P, place)?;
        self.over(Op::Cvp, Suffix::U, word)
    }

    // The unit without the field's bits.
    fn cleared(&mut self, order: Order, field: Field, place: Operand) -> Result<u32, Memory>
        requires { field.first + field.width ≤ 32 }
        ensures { IfOk result (λ n. Asks self.old (unit_without order field (typed_of place)) n self.new) }
    {
        let unit = self.unit_stored(place)?;
        let others = self.constant_u(others(order, field))?;
        self.both(Op::Band, Suffix::U, unit, others)
    }

    // A value's bits where the field has them.
    fn field_bits(
        &mut self,
        top: bool,
        order: Order,
        field: Field,
        value: Operand,
    ) -> Result<u32, Memory>
        requires { field.first + field.width ≤ 32 }
        ensures { IfOk result (λ n. Asks self.old (places.field_bits top order field (typed_of value)) n self.new) }
    {
        let shift = u32::from(shift(order, field));
        if top {
            let word = self.at_top(field, value)?;
            let word = self.over(Op::Cvi, Suffix::U, word)?;
            let count = self.constant_i(32 - u32::from(field.width) - shift)?;
            self.both(Op::Rsh, Suffix::U, word, count)
        } else {
            let low = self.masked(field, value)?;
            let count = self.constant_i(shift)?;
            self.both(Op::Lsh, Suffix::U, low, count)
        }
    }
}

// How many bits of the unit weigh less than the field's.
fn shift(order: Order, field: Field) -> u8
    requires { field.first + field.width ≤ 32 }
    ensures is { result ≡ bits.shift_of order field }
    ensures inside { result + field.width ≤ 32 }
{
    match order {
        Order::Big => 32 - (field.first + field.width),
        Order::Little => field.first,
    }
}

// How many bits of it weigh more.
fn above(order: Order, field: Field) -> u32
    requires { field.first + field.width ≤ 32 }
    ensures { result ≡ reads.above_of order field }
{
    32 - u32::from(shift(order, field) + field.width)
}

// The greatest number of so many bits.
fn ones(width: u8) -> u32
    requires { width ≤ 32 }
    ensures { result ≡ 2 ^ width - 1 }
{
    ((1u64 << width) - 1) as u32
}

// The bits of the unit that aren't the field's.
fn others(order: Order, field: Field) -> u32
    requires { field.first + field.width ≤ 32 }
    ensures { result ≡ writes.other_bits order field }
{
    let ones = u64::from(ones(field.width));
    let shift = shift(order, field);
    u64::from(u32::MAX).saturating_sub(ones * (1u64 << shift)) as u32
}
