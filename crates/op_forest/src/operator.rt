//! Typed operators: their numbers, the types of their operands, and whether they give a value.
ghost use Rattle.std.specs.Prelude.{◌≡◌};
ghost use Rattle.op_forest.specs.Operators.{number};
ghost use Rattle.op_forest.specs.Signature.{takes, gives_value, moves};
ghost use Rattle.op_forest.specs.Shape.{listed};

use crate::op::Op;
use crate::operands::Operands;
use crate::suffix::Suffix;

/// An operator: what it does, and the type of its value. 69 of the pairs are operators.
/// Source: Fraser and Hanson, A Retargetable C Compiler, chapter 5.
#[derive(Clone, Copy, Debug, PartialEq, Eq)]
pub struct Operator {
    pub op: Op,
    pub suffix: Suffix,
}

impl Operator {
    /// Its number among the 69, from 1, by which descriptions declare it; 0 where the pair is no
    /// operator.
    pub fn number(self) -> u16
        ensures { result ≡ number self.op self.suffix }
    {
        match (self.op, self.suffix) {
            (Op::Cnst, Suffix::C) => 1,
            (Op::Cnst, Suffix::S) => 2,
            (Op::Cnst, Suffix::I) => 3,
            (Op::Cnst, Suffix::U) => 4,
            (Op::Cnst, Suffix::P) => 5,
            (Op::Addrg, Suffix::P) => 6,
            (Op::Addrf, Suffix::P) => 7,
            (Op::Addrl, Suffix::P) => 8,
            (Op::Indir, Suffix::C) => 9,
            (Op::Indir, Suffix::S) => 10,
            (Op::Indir, Suffix::I) => 11,
            (Op::Indir, Suffix::P) => 12,
            (Op::Indir, Suffix::B) => 13,
            (Op::Asgn, Suffix::C) => 14,
            (Op::Asgn, Suffix::S) => 15,
            (Op::Asgn, Suffix::I) => 16,
            (Op::Asgn, Suffix::P) => 17,
            (Op::Asgn, Suffix::B) => 18,
            (Op::Arg, Suffix::I) => 19,
            (Op::Arg, Suffix::P) => 20,
            (Op::Call, Suffix::I) => 21,
            (Op::Call, Suffix::V) => 22,
            (Op::Ret, Suffix::I) => 23,
            (Op::Ret, Suffix::V) => 24,
            (Op::Cvc, Suffix::I) => 25,
            (Op::Cvc, Suffix::U) => 26,
            (Op::Cvs, Suffix::I) => 27,
            (Op::Cvs, Suffix::U) => 28,
            (Op::Cvi, Suffix::C) => 29,
            (Op::Cvi, Suffix::S) => 30,
            (Op::Cvi, Suffix::U) => 31,
            (Op::Cvu, Suffix::C) => 32,
            (Op::Cvu, Suffix::S) => 33,
            (Op::Cvu, Suffix::I) => 34,
            (Op::Cvu, Suffix::P) => 35,
            (Op::Cvp, Suffix::U) => 36,
            (Op::Neg, Suffix::I) => 37,
            (Op::Bcom, Suffix::U) => 38,
            (Op::Add, Suffix::I) => 39,
            (Op::Add, Suffix::U) => 40,
            (Op::Add, Suffix::P) => 41,
            (Op::Sub, Suffix::I) => 42,
            (Op::Sub, Suffix::U) => 43,
            (Op::Sub, Suffix::P) => 44,
            (Op::Mul, Suffix::I) => 45,
            (Op::Mul, Suffix::U) => 46,
            (Op::Div, Suffix::I) => 47,
            (Op::Div, Suffix::U) => 48,
            (Op::Mod, Suffix::I) => 49,
            (Op::Mod, Suffix::U) => 50,
            (Op::Lsh, Suffix::I) => 51,
            (Op::Lsh, Suffix::U) => 52,
            (Op::Rsh, Suffix::I) => 53,
            (Op::Rsh, Suffix::U) => 54,
            (Op::Band, Suffix::U) => 55,
            (Op::Bor, Suffix::U) => 56,
            (Op::Bxor, Suffix::U) => 57,
            (Op::Eq, Suffix::I) => 58,
            (Op::Ne, Suffix::I) => 59,
            (Op::Lt, Suffix::I) => 60,
            (Op::Lt, Suffix::U) => 61,
            (Op::Le, Suffix::I) => 62,
            (Op::Le, Suffix::U) => 63,
            (Op::Gt, Suffix::I) => 64,
            (Op::Gt, Suffix::U) => 65,
            (Op::Ge, Suffix::I) => 66,
            (Op::Ge, Suffix::U) => 67,
            (Op::Jump, Suffix::V) => 68,
            (Op::Label, Suffix::V) => 69,
            _ => 0,
        }
    }

    /// The suffixes of the operands that it takes.
    pub fn takes(self) -> Operands<Suffix>
        ensures { listed result ≡ takes self.op self.suffix }
    {
        let s = self.suffix;
        match (self.op, s) {
            (Op::Cnst | Op::Addrg | Op::Addrf | Op::Addrl | Op::Label, _) => Operands::Leaf,
            (Op::Ret, Suffix::V) => Operands::Leaf,
            (Op::Indir | Op::Call | Op::Jump, _) => Operands::Unary(Suffix::P),
            (Op::Arg | Op::Ret | Op::Neg | Op::Bcom, _) => Operands::Unary(s),
            (Op::Cvc, _) => Operands::Unary(Suffix::C),
            (Op::Cvs, _) => Operands::Unary(Suffix::S),
            (Op::Cvi, _) => Operands::Unary(Suffix::I),
            (Op::Cvu, _) => Operands::Unary(Suffix::U),
            (Op::Cvp, _) => Operands::Unary(Suffix::P),
            (Op::Asgn, _) => Operands::Binary(Suffix::P, s),
            (Op::Add | Op::Sub, Suffix::P) => Operands::Binary(Suffix::P, Suffix::I),
            (Op::Lsh | Op::Rsh, _) => Operands::Binary(s, Suffix::I),
            (Op::Add | Op::Sub | Op::Mul | Op::Div | Op::Mod, _) => Operands::Binary(s, s),
            (Op::Band | Op::Bor | Op::Bxor, _) => Operands::Binary(s, s),
            (Op::Eq | Op::Ne | Op::Lt | Op::Le | Op::Gt | Op::Ge, _) => Operands::Binary(s, s),
        }
    }

    /// Whether it gives a value.
    pub fn gives_value(self) -> bool
        ensures { result ≡ gives_value self.op self.suffix }
    {
        match self.op {
            Op::Call => self.suffix != Suffix::V,
            Op::Asgn | Op::Arg | Op::Label => false,
            op => !op.moves(),
        }
    }
}
