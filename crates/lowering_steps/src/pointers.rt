//! Operations on pointers.
ghost use Rattle.std.specs.Prelude.{◌≡◌, ◌≤◌, IfOk};
ghost use Rattle.c_pointers_agree.specs.Pointers as pointers;
ghost use Rattle.c_rows_agree.specs.Typed as typed;
ghost use Rattle.lowering_steps.specs.Asking.{Asks, Places};
ghost use Rattle.lowering_steps.specs.Operands.{typed_of};

use crate::open_block::OpenBlock;
use crate::operand::Operand;
use lcc_base::Memory;
use op_forest::{Op, Suffix};

impl OpenBlock {
    /// A pointer on, or back, by as many elements of this size as an integer says.
    pub fn moved(
        &mut self,
        size: u32,
        back: bool,
        pointer: Operand,
        index: Operand,
    ) -> Result<Operand, Memory>
        ensures { IfOk result (λ v. Places self.old (pointers.moved size back (typed_of pointer) (typed_of index)) v self.new) }
    {
        let place = self.as_p(pointer)?;
        let bytes = self.scaled(size, index)?;
        let node = self.both(move_op(back), Suffix::P, place, bytes)?;
        Ok(Operand::node(node, Suffix::P))
    }

    /// The place so many bytes further.
    pub fn displaced(&mut self, by: u32, place: Operand) -> Result<Operand, Memory>
        ensures { IfOk result (λ v. Places self.old (pointers.displaced by (typed_of place)) v self.new) }
    {
        if by == 0 {
            self.placed(place)
        } else {
            self.added(by, place)
        }
    }

    /// How many elements of this size stand between two pointers.
    pub fn difference(&mut self, size: u32, p: Operand, q: Operand) -> Result<Operand, Memory>
        ensures { IfOk result (λ v. Places self.old (pointers.difference size (typed_of p) (typed_of q)) v self.new) }
    {
        let bytes = self.between(p, q)?;
        if size == 1 {
            return Ok(Operand::node(bytes, Suffix::U));
        }
        let bytes = self.over(Op::Cvu, Suffix::I, bytes)?;
        let divisor = self.constant_i(size)?;
        let node = self.both(Op::Div, Suffix::I, bytes, divisor)?;
        Ok(Operand::node(node, Suffix::I))
    }

    // The place so many bytes further, by a sum.
    fn added(&mut self, by: u32, place: Operand) -> Result<Operand, Memory>
        ensures { IfOk result (λ v. Places self.old (record { tree = typed.over_two Op.Add Suffix.P (typed.as_p (typed_of place)) (typed.constant_i by); suffix = Suffix.P }) v self.new) }
    {
        let start = self.as_p(place)?;
        let bytes = self.constant_i(by)?;
        let node = self.both(Op::Add, Suffix::P, start, bytes)?;
        Ok(Operand::node(node, Suffix::P))
    }

    // How many bytes stand between two pointers.
    fn between(&mut self, p: Operand, q: Operand) -> Result<u32, Memory>
        ensures { IfOk result (λ n. Asks self.old (pointers.between (typed_of p) (typed_of q)).tree n self.new) }
    {
        let p = self.as_u(p)?;
        let q = self.as_u(q)?;
        self.both(Op::Sub, Suffix::U, p, q)
    }

    // An index in bytes.
    fn scaled(&mut self, size: u32, index: Operand) -> Result<u32, Memory>
        ensures { IfOk result (λ n. Asks self.old (pointers.scaled size (typed_of index)) n self.new) }
    {
        let number = self.as_i(index)?;
        if size == 1 {
            return Ok(number);
        }
        match exponent(size) {
            Some(count) => {
                let count = self.constant_i(count)?;
                self.both(Op::Lsh, Suffix::I, number, count)
            }
            None => {
                let size = self.constant_i(size)?;
                self.both(Op::Mul, Suffix::I, number, size)
            }
        }
    }
}

// What moves a pointer on, or back.
fn move_op(back: bool) -> Op
    ensures { result ≡ pointers.move_op back }
{
    if back { Op::Sub } else { Op::Add }
}

// The exponent above 0 of which a size is the power of two, if it is one.
fn exponent(size: u32) -> Option<u32>
    ensures { result ≡ pointers.exponent_in 31 size }
{
    exponent_to(31, size)
}

// The one that is at most this.
fn exponent_to(most: u32, size: u32) -> Option<u32>
    requires { most ≤ 31 }
    ensures { result ≡ pointers.exponent_in most size }
{
    if most == 0 {
        return None;
    }
    if size == 1 << most {
        return Some(most);
    }
    exponent_to(most - 1, size)
}
