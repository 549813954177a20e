//! Operands of what is lowered.
ghost use Rattle.std.specs.Prelude.{◌≡◌};
ghost use Rattle.c_rows_agree.specs.Integers.{number};
ghost use Rattle.c_rows_agree.specs.Templates.{Given};
ghost use Rattle.c_rows_agree.specs.Typed.{head};
ghost use Rattle.c_pointers_agree.specs.Pointers as pointers;
ghost use Rattle.lowered_forms.specs.Places.{parameter};
ghost use Rattle.lowered_forms.specs.Values.{slot_read};
ghost use Rattle.lowering_steps.specs.Operands.{head_of, typed_of};

use op_forest::{Op, Operator, Suffix, Sym};

/// What stands at a node beside its operands: the operator, its symbol, and a constant.
#[derive(Clone, Copy, Debug, PartialEq, Eq)]
pub struct Stem {
    pub operator: Operator,
    pub sym: Sym,
    pub value: Option<i64>,
}

impl Stem {
    /// An operator without a symbol or a constant.
    pub fn plain(op: Op, suffix: Suffix) -> Self
        ensures { head_of result ≡ head op suffix }
    {
        Stem {
            operator: Operator { op, suffix },
            sym: Sym::Nothing,
            value: None,
        }
    }
}

/// Where an operand comes from.
#[derive(Clone, Copy, Debug, PartialEq, Eq)]
pub enum Source {
    /// A node of the open block.
    Node(u32),
    /// An address or a constant, which is asked for where it is used.
    Leaf(Stem),
    /// What the slot of the frame at this offset holds, which is read where it is used.
    Slot(i32),
}

/// An operand of what stands behind it, and the suffix of its value: a pointer's is P, an integer's is I or U.
#[derive(Clone, Copy, Debug, PartialEq, Eq)]
pub struct Operand {
    pub source: Source,
    pub suffix: Suffix,
}

impl Operand {
    /// A node of the open block.
    pub fn node(node: u32, suffix: Suffix) -> Self
        ensures { typed_of result ≡ record { tree = Given node; suffix = suffix } }
    {
        Operand {
            source: Source::Node(node),
            suffix,
        }
    }

    /// A number of a signed or an unsigned type, modulo 2^32.
    pub fn number(signed: bool, n: u32) -> Self
        ensures { typed_of result ≡ number signed n }
    {
        if signed {
            Self::leaf(
                Op::Cnst,
                Suffix::I,
                Sym::Nothing,
                Some(i64::from(n.cast_signed())),
            )
        } else {
            Self::leaf(Op::Cnst, Suffix::U, Sym::Nothing, Some(i64::from(n)))
        }
    }

    /// The place so many bytes behind what a name stands for.
    pub fn name(name: u32, offset: i32) -> Self
        ensures { typed_of result ≡ pointers.name name offset }
    {
        Self::leaf(Op::Addrg, Suffix::P, Sym::Global { name, offset }, None)
    }

    /// The place at an offset from the frame's top.
    pub fn local(offset: i32) -> Self
        ensures { typed_of result ≡ pointers.local offset }
    {
        Self::leaf(Op::Addrl, Suffix::P, Sym::Nothing, Some(i64::from(offset)))
    }

    /// The place at an offset from the first parameter word.
    pub fn parameter(offset: i32) -> Self
        ensures { typed_of result ≡ parameter offset }
    {
        Self::leaf(Op::Addrf, Suffix::P, Sym::Nothing, Some(i64::from(offset)))
    }

    /// What the slot at an offset holds, a pointer or a number.
    pub fn slot(suffix: Suffix, offset: i32) -> Self
        ensures { typed_of result ≡ slot_read suffix offset }
    {
        let suffix = match suffix {
            Suffix::P => Suffix::P,
            _ => Suffix::I,
        };
        Operand {
            source: Source::Slot(offset),
            suffix,
        }
    }

    // An address or a constant.
    fn leaf(op: Op, suffix: Suffix, sym: Sym, value: Option<i64>) -> Self
        ensures { result ≡ record { source = Source.Leaf (record { operator = record { op = op; suffix = suffix }; sym = sym; value = value }); suffix = suffix } }
    {
        Operand {
            source: Source::Leaf(Stem {
                operator: Operator { op, suffix },
                sym,
                value,
            }),
            suffix,
        }
    }
}
