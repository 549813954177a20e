//! Operations on numbers.
ghost use Rattle.std.specs.Prelude.{◌≡◌, List, IfOk};
ghost use Rattle.dag_forest.specs.declared.entry.Entry.{Entry};
ghost use Rattle.c_rows_agree.specs.Integers as integers;
ghost use Rattle.c_rows_agree.specs.Templates.{Template};
ghost use Rattle.c_rows_agree.specs.Typed as typed;
ghost use Rattle.lowering_steps.specs.Asking.{Asks, Places};
ghost use Rattle.lowering_steps.specs.Operands.{template_of, typed_of};

use crate::open_block::OpenBlock;
use crate::operand::Operand;
use crate::words::suffix_by;
use lcc_base::Memory;
use objects::{Binary, Scalar, Unary, Width};
use op_forest::{Op, Suffix};

impl OpenBlock {
    /// The node of a signed constant.
    pub(crate) fn constant_i(&mut self, n: u32) -> Result<u32, Memory>
        ensures { IfOk result (λ m. Asks self.old (typed.constant_i n) m self.new) }
    {
        self.operand(Operand::number(true, n))
    }

    /// The node of an unsigned constant.
    pub(crate) fn constant_u(&mut self, n: u32) -> Result<u32, Memory>
        ensures { IfOk result (λ m. Asks self.old (typed.constant_u n) m self.new) }
    {
        self.operand(Operand::number(false, n))
    }

    /// A value that is converted to an integer type.
    pub fn converted(&mut self, to: Scalar, a: Operand) -> Result<Operand, Memory>
        ensures { IfOk result (λ v. Places self.old (integers.converted_to to (typed_of a)) v self.new) }
    {
        match to.width {
            Width::One => self.extended(Op::Cvc, Suffix::C, to.signed, a),
            Width::Two => self.extended(Op::Cvs, Suffix::S, to.signed, a),
            Width::Four => self.integer(a),
        }
    }

    // The low bits of a value, extended by their sign or by zeros.
    fn extended(
        &mut self,
        op: Op,
        narrow: Suffix,
        signed: bool,
        a: Operand,
    ) -> Result<Operand, Memory>
        ensures { IfOk result (λ v. Places self.old (record { tree = typed.over op (typed.suffix_by signed) (integers.narrow_from a.suffix narrow (template_of a)); suffix = typed.suffix_by signed }) v self.new) }
    {
        let low = self.narrowed(narrow, a)?;
        self.extended_node(op, signed, low)
    }

    // A char's or a short's node, extended so.
    fn extended_node(&mut self, op: Op, signed: bool, low: u32) -> Result<Operand, Memory>
        ensures { (t : Template) (es : List Entry) → Asks es t low self.old → IfOk result (λ v. Places es (record { tree = typed.over op (typed.suffix_by signed) t; suffix = typed.suffix_by signed }) v self.new) }
    {
        let suffix = suffix_by(signed);
        let node = self.over(op, suffix, low)?;
        Ok(Operand::node(node, suffix))
    }

    // A value as an integer of four bytes.
    fn integer(&mut self, a: Operand) -> Result<Operand, Memory>
        ensures { IfOk result (λ v. Places self.old (integers.integer_from a.suffix (template_of a)) v self.new) }
    {
        match a.suffix {
            Suffix::P => {
                let node = self.operand(a)?;
                let word = self.over(Op::Cvp, Suffix::U, node)?;
                Ok(Operand::node(word, Suffix::U))
            }
            Suffix::C | Suffix::S | Suffix::I | Suffix::U | Suffix::B | Suffix::V => self.placed(a),
        }
    }

    /// An operation on one number.
    pub fn unary(&mut self, operator: Unary, a: Operand) -> Result<Operand, Memory>
        ensures { IfOk result (λ v. Places self.old (integers.unary_of operator (typed_of a)) v self.new) }
    {
        match operator {
            Unary::Plus => self.placed(a),
            Unary::Negate => {
                let number = self.as_i(a)?;
                let node = self.over(Op::Neg, Suffix::I, number)?;
                Ok(Operand::node(node, Suffix::I))
            }
            Unary::Complement => {
                let number = self.as_u(a)?;
                let node = self.over(Op::Bcom, Suffix::U, number)?;
                Ok(Operand::node(node, Suffix::U))
            }
        }
    }

    /// An operation on two numbers.
    pub fn binary(
        &mut self,
        operator: Binary,
        signed: bool,
        a: Operand,
        b: Operand,
    ) -> Result<Operand, Memory>
        ensures { IfOk result (λ v. Places self.old (integers.binary_of operator signed (typed_of a) (typed_of b)) v self.new) }
    {
        let node = self.combined(operator, signed, a, b)?;
        Ok(Operand::node(node, suffix_by(has_sign(signed, operator))))
    }

    /// An operation on two numbers, whose value is converted to an integer type.
    pub fn binary_as(
        &mut self,
        to: Scalar,
        operator: Binary,
        signed: bool,
        a: Operand,
        b: Operand,
    ) -> Result<Operand, Memory>
        ensures { IfOk result (λ v. Places self.old (integers.converted_to to (integers.binary_of operator signed (typed_of a) (typed_of b))) v self.new) }
    {
        let node = self.combined(operator, signed, a, b)?;
        let suffix = suffix_by(has_sign(signed, operator));
        match to.width {
            Width::One => {
                let low = self.narrowed_node(Suffix::C, suffix, node)?;
                self.extended_node(Op::Cvc, to.signed, low)
            }
            Width::Two => {
                let low = self.narrowed_node(Suffix::S, suffix, node)?;
                self.extended_node(Op::Cvs, to.signed, low)
            }
            Width::Four => Ok(Operand::node(node, suffix)),
        }
    }

    // Its node.
    fn combined(
        &mut self,
        operator: Binary,
        signed: bool,
        a: Operand,
        b: Operand,
    ) -> Result<u32, Memory>
        ensures { IfOk result (λ n. Asks self.old (integers.binary_of operator signed (typed_of a) (typed_of b)).tree n self.new) }
    {
        let left_sign = has_sign(signed, operator);
        let left = self.as_by(left_sign, a)?;
        let right = self.as_by(right_sign(signed, operator), b)?;
        self.both(operator_of(operator), suffix_by(left_sign), left, right)
    }
}

// What does the operation.
fn operator_of(operator: Binary) -> Op
    ensures { result ≡ integers.operator_of operator }
{
    match operator {
        Binary::Add => Op::Add,
        Binary::Subtract => Op::Sub,
        Binary::Multiply => Op::Mul,
        Binary::Divide => Op::Div,
        Binary::Remainder => Op::Mod,
        Binary::ShiftLeft => Op::Lsh,
        Binary::ShiftRight => Op::Rsh,
        Binary::And => Op::Band,
        Binary::Or => Op::Bor,
        Binary::Xor => Op::Bxor,
    }
}

// Whether it has the suffix of signed numbers: those on bits have not.
fn has_sign(signed: bool, operator: Binary) -> bool
    ensures { result ≡ integers.has_sign signed operator }
{
    match operator {
        Binary::And | Binary::Or | Binary::Xor => false,
        Binary::Add
        | Binary::Subtract
        | Binary::Multiply
        | Binary::Divide
        | Binary::Remainder
        | Binary::ShiftLeft
        | Binary::ShiftRight => signed,
    }
}

// Whether its right operand has it: a shift's count is an int.
fn right_sign(signed: bool, operator: Binary) -> bool
    ensures { result ≡ integers.right_sign signed operator }
{
    match operator {
        Binary::ShiftLeft | Binary::ShiftRight => true,
        Binary::And | Binary::Or | Binary::Xor => false,
        Binary::Add | Binary::Subtract | Binary::Multiply | Binary::Divide | Binary::Remainder =>
            signed,
    }
}
