//! Operands with the suffix that what uses them asks for.
ghost use Rattle.std.specs.Prelude.{◌≡◌, List, IfOk};
ghost use Rattle.dag_forest.specs.declared.entry.Entry.{Entry};
ghost use Rattle.c_rows_agree.specs.Integers as integers;
ghost use Rattle.c_rows_agree.specs.Templates.{Template};
ghost use Rattle.c_rows_agree.specs.Typed as typed;
ghost use Rattle.lowered_forms.specs.Handed.{handed_as};
ghost use Rattle.lowering_steps.specs.Asking.{Asks, Places};
ghost use Rattle.lowering_steps.specs.Operands.{template_of, typed_of};

use crate::open_block::OpenBlock;
use crate::operand::Operand;
use lcc_base::Memory;
use op_forest::{Op, Suffix};

/// The suffix of operators on signed or unsigned numbers.
pub(crate) fn suffix_by(signed: bool) -> Suffix
    ensures { result ≡ typed.suffix_by signed }
{
    if signed { Suffix::I } else { Suffix::U }
}

impl OpenBlock {
    /// As an int.
    pub(crate) fn as_i(&mut self, a: Operand) -> Result<u32, Memory>
        ensures { IfOk result (λ n. Asks self.old (typed.as_i (typed_of a)) n self.new) }
    {
        let node = self.operand(a)?;
        match a.suffix {
            Suffix::U => self.over(Op::Cvu, Suffix::I, node),
            Suffix::P => {
                let word = self.over(Op::Cvp, Suffix::U, node)?;
                self.over(Op::Cvu, Suffix::I, word)
            }
            Suffix::C | Suffix::S | Suffix::I | Suffix::B | Suffix::V => Ok(node),
        }
    }

    /// As an unsigned.
    pub(crate) fn as_u(&mut self, a: Operand) -> Result<u32, Memory>
        ensures { IfOk result (λ n. Asks self.old (typed.as_u (typed_of a)) n self.new) }
    {
        let node = self.operand(a)?;
        match a.suffix {
            Suffix::I => self.over(Op::Cvi, Suffix::U, node),
            Suffix::P => self.over(Op::Cvp, Suffix::U, node),
            Suffix::C | Suffix::S | Suffix::U | Suffix::B | Suffix::V => Ok(node),
        }
    }

    /// As a pointer.
    pub(crate) fn as_p(&mut self, a: Operand) -> Result<u32, Memory>
        ensures { IfOk result (λ n. Asks self.old (typed.as_p (typed_of a)) n self.new) }
    {
        let node = self.operand(a)?;
        match a.suffix {
            Suffix::I => {
                let word = self.over(Op::Cvi, Suffix::U, node)?;
                self.over(Op::Cvu, Suffix::P, word)
            }
            Suffix::U => self.over(Op::Cvu, Suffix::P, node),
            Suffix::C | Suffix::S | Suffix::P | Suffix::B | Suffix::V => Ok(node),
        }
    }

    /// As a signed or an unsigned number.
    pub(crate) fn as_by(&mut self, signed: bool, a: Operand) -> Result<u32, Memory>
        ensures { IfOk result (λ n. Asks self.old (typed.as_by signed (typed_of a)) n self.new) }
    {
        if signed { self.as_i(a) } else { self.as_u(a) }
    }

    /// Its low bits, with a char's or a short's suffix.
    pub(crate) fn narrowed(&mut self, suffix: Suffix, a: Operand) -> Result<u32, Memory>
        ensures { IfOk result (λ n. Asks self.old (integers.narrow_from a.suffix suffix (template_of a)) n self.new) }
    {
        let node = self.operand(a)?;
        self.narrowed_node(suffix, a.suffix, node)
    }

    /// The low bits of a node whose value has this suffix.
    pub(crate) fn narrowed_node(
        &mut self,
        suffix: Suffix,
        from: Suffix,
        node: u32,
    ) -> Result<u32, Memory>
        ensures { (t : Template) (es : List Entry) → Asks es t node self.old → IfOk result (λ n. Asks es (integers.narrow_from from suffix t) n self.new) }
    {
        match from {
            Suffix::U => self.over(Op::Cvu, suffix, node),
            Suffix::P => {
                let word = self.over(Op::Cvp, Suffix::U, node)?;
                self.over(Op::Cvu, suffix, word)
            }
            Suffix::C | Suffix::S | Suffix::I | Suffix::B | Suffix::V => {
                self.over(Op::Cvi, suffix, node)
            }
        }
    }

    /// A pointer.
    pub fn as_pointer(&mut self, a: Operand) -> Result<Operand, Memory>
        ensures { IfOk result (λ v. Places self.old (integers.as_pointer (typed_of a)) v self.new) }
    {
        match a.suffix {
            Suffix::I | Suffix::U => {
                let node = self.as_p(a)?;
                Ok(Operand::node(node, Suffix::P))
            }
            Suffix::C | Suffix::S | Suffix::P | Suffix::B | Suffix::V => {
                self.placed_as(a, Suffix::P)
            }
        }
    }

    /// The node of an operand for what stands behind it: of a pointer with suffix P, of any other value with suffix I.
    pub fn hand(&mut self, a: Operand) -> Result<u32, Memory>
        ensures { IfOk result (λ n. Asks self.old (handed_as a.suffix (template_of a)) n self.new) }
    {
        match a.suffix {
            Suffix::P => self.operand(a),
            Suffix::C | Suffix::S | Suffix::I | Suffix::U | Suffix::B | Suffix::V => self.as_i(a),
        }
    }
}
