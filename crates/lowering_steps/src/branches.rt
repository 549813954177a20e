//! Jumps where tests hold.
ghost use Rattle.std.specs.Prelude.{◌≡◌, not, OnOk};
ghost use Rattle.c_rows_agree.specs.Integers as integers;
ghost use Rattle.lowered_forms.specs.Lows.{acted};
ghost use Rattle.lowering_steps.specs.Asking.{Acts};
ghost use Rattle.lowering_steps.specs.Branching.{jump_root};
ghost use Rattle.lowering_steps.specs.Operands.{typed_of};

use crate::open_block::OpenBlock;
use crate::operand::{Operand, Stem};
use crate::words::suffix_by;
use dag_forest::Kids;
use lcc_base::Memory;
use objects::Comparison;
use op_forest::{Op, Operator, Suffix, Sym};

/// A jump to a label where a truth is so.
#[derive(Clone, Copy, Debug, PartialEq, Eq)]
pub struct Jump {
    pub when: bool,
    pub label: u32,
}

impl Jump {
    /// Where the truth is the other one.
    pub fn opposite(self) -> Self
        ensures { result ≡ record { when = not self.when; label = self.label } }
    {
        Jump {
            when: !self.when,
            label: self.label,
        }
    }
}

impl OpenBlock {
    /// A root that jumps where two numbers compare so, or where they don't.
    pub fn compare(
        &mut self,
        comparison: Comparison,
        signed: bool,
        jump: Jump,
        a: Operand,
        b: Operand,
    ) -> Result<(), Memory>
        ensures { OnOk result (Acts self.old (λ l. acted (integers.compared comparison signed jump.when jump.label (typed_of a) (typed_of b)) l) self.new) }
    {
        let holds = comparison_where(jump.when, comparison);
        let has_sign = compares_signed(signed, holds);
        let left = self.as_by(has_sign, a)?;
        let right = self.as_by(has_sign, b)?;
        let operator = Operator {
            op: jump_of(holds),
            suffix: suffix_by(has_sign),
        };
        self.root(operator, Kids::Two(left, right), Sym::Label(jump.label))
    }

    /// A root that jumps where a number isn't 0, or where it is.
    pub fn test(&mut self, jump: Jump, a: Operand) -> Result<(), Memory>
        ensures { OnOk result (Acts self.old (λ l. acted (integers.tested jump.when jump.label (typed_of a)) l) self.new) }
    {
        let number = self.as_i(a)?;
        let zero = self.constant_i(0)?;
        let operator = Operator {
            op: jump_by_zero(jump.when),
            suffix: Suffix::I,
        };
        self.root(operator, Kids::Two(number, zero), Sym::Label(jump.label))
    }

    /// A root that jumps.
    pub fn jump(&mut self, label: u32) -> Result<(), Memory>
        ensures { OnOk result (Acts self.old (λ l. jump_root label l) self.new) }
    {
        let place = Stem {
            operator: Operator {
                op: Op::Addrg,
                suffix: Suffix::P,
            },
            sym: Sym::Label(label),
            value: None,
        };
        let place = self.value(place, Kids::Zero)?;
        self.act_on(Op::Jump, Suffix::V, place)
    }
}

// What holds where a comparison does, or where it doesn't.
fn comparison_where(when: bool, comparison: Comparison) -> Comparison
    ensures { result ≡ integers.comparison_where when comparison }
{
    if when {
        comparison
    } else {
        opposite(comparison)
    }
}

fn opposite(comparison: Comparison) -> Comparison
    ensures { result ≡ integers.opposite comparison }
{
    match comparison {
        Comparison::Equal => Comparison::NotEqual,
        Comparison::NotEqual => Comparison::Equal,
        Comparison::Less => Comparison::GreaterEqual,
        Comparison::LessEqual => Comparison::Greater,
        Comparison::Greater => Comparison::LessEqual,
        Comparison::GreaterEqual => Comparison::Less,
    }
}

// Whether it is asked with the suffix of signed numbers: whether words are equal is always.
fn compares_signed(signed: bool, comparison: Comparison) -> bool
    ensures { result ≡ integers.compares_signed signed comparison }
{
    match comparison {
        Comparison::Equal | Comparison::NotEqual => true,
        Comparison::Less | Comparison::LessEqual | Comparison::Greater | Comparison::GreaterEqual =>
            signed,
    }
}

// What jumps where a comparison holds.
fn jump_of(comparison: Comparison) -> Op
    ensures { result ≡ integers.jump_of comparison }
{
    match comparison {
        Comparison::Equal => Op::Eq,
        Comparison::NotEqual => Op::Ne,
        Comparison::Less => Op::Lt,
        Comparison::LessEqual => Op::Le,
        Comparison::Greater => Op::Gt,
        Comparison::GreaterEqual => Op::Ge,
    }
}

// What jumps where a number isn't 0, or where it is.
fn jump_by_zero(when: bool) -> Op
    ensures { result ≡ integers.jump_by_zero when }
{
    if when { Op::Ne } else { Op::Eq }
}
