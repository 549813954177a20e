//! Scalars and structures at places.
ghost use Rattle.std.specs.Prelude.{IfOk, OnOk};
ghost use Rattle.c_rows_agree.specs.Places as places;
ghost use Rattle.c_rows_agree.specs.Integers as integers;
ghost use Rattle.c_rows_agree.specs.Typed as typed;
ghost use Rattle.lowered_forms.specs.Accesses.{copy_root, scalar_read};
ghost use Rattle.lowered_forms.specs.Calls.{called, word_passed};
ghost use Rattle.lowered_forms.specs.Lows.{acted};
ghost use Rattle.lowering_steps.specs.Asking.{Acts, IsRoot, Places};
ghost use Rattle.lowering_steps.specs.Operands.{template_of, typed_of};

use crate::open_block::OpenBlock;
use crate::operand::Operand;
use crate::words::suffix_by;
use dag_forest::Kids;
use lcc_base::Memory;
use objects::{Scalar, Width};
use op_forest::{Op, Operator, Suffix, Sym};

impl OpenBlock {
    /// The integer at a place.
    pub fn loaded(&mut self, scalar: Scalar, place: Operand) -> Result<Operand, Memory>
        ensures { IfOk result (λ v. Places self.old (places.loaded scalar (typed_of place)) v self.new) }
    {
        match scalar.width {
            Width::One => self.loaded_narrow(Op::Cvc, Suffix::C, scalar.signed, place),
            Width::Two => self.loaded_narrow(Op::Cvs, Suffix::S, scalar.signed, place),
            Width::Four => {
                let place = self.as_p(place)?;
                let node = self.over(Op::Indir, Suffix::I, place)?;
                Ok(Operand::node(node, Suffix::I))
            }
        }
    }

    // A char or a short, extended by its sign or by zeros.
    fn loaded_narrow(
        &mut self,
        op: Op,
        narrow: Suffix,
        signed: bool,
        place: Operand,
    ) -> Result<Operand, Memory>
        ensures { IfOk result (λ v. Places self.old (record { tree = typed.over op (typed.suffix_by signed) (typed.over Op.Indir narrow (typed.as_p (typed_of place))); suffix = typed.suffix_by signed }) v self.new) }
    {
        let place = self.as_p(place)?;
        let low = self.over(Op::Indir, narrow, place)?;
        let suffix = suffix_by(signed);
        let node = self.over(op, suffix, low)?;
        Ok(Operand::node(node, suffix))
    }

    /// The pointer at a place.
    pub fn loaded_pointer(&mut self, place: Operand) -> Result<Operand, Memory>
        ensures { IfOk result (λ v. Places self.old (places.loaded_pointer (typed_of place)) v self.new) }
    {
        let place = self.as_p(place)?;
        let node = self.over(Op::Indir, Suffix::P, place)?;
        Ok(Operand::node(node, Suffix::P))
    }

    /// The pointer or the integer at a place.
    pub fn scalar_read(
        &mut self,
        pointer: bool,
        scalar: Scalar,
        place: Operand,
    ) -> Result<Operand, Memory>
        ensures { IfOk result (λ v. Places self.old (scalar_read pointer scalar (typed_of place)) v self.new) }
    {
        if pointer {
            self.loaded_pointer(place)
        } else {
            self.loaded(scalar, place)
        }
    }

    /// A value is written as a scalar of so many bytes.
    pub fn store(&mut self, width: Width, place: Operand, value: Operand) -> Result<(), Memory>
        ensures { OnOk result (Acts self.old (λ l. acted (places.stored_as width (typed_of place) (typed_of value)) l) self.new) }
    {
        match width {
            Width::One => self.store_narrow(Suffix::C, place, value),
            Width::Two => self.store_narrow(Suffix::S, place, value),
            Width::Four => match value.suffix {
                Suffix::P => self.store_pointer(place, value),
                Suffix::C | Suffix::S | Suffix::I | Suffix::U | Suffix::B | Suffix::V => {
                    self.store_number(place, value)
                }
            },
        }
    }

    // Its low bits, as a char or a short.
    fn store_narrow(&mut self, suffix: Suffix, place: Operand, value: Operand) -> Result<(), Memory>
        ensures { OnOk result (Acts self.old (λ l. acted (record { head = typed.head Op.Asgn suffix; left = typed.as_p (typed_of place); right = integers.narrow_from value.suffix suffix (template_of value) }) l) self.new) }
    {
        let place = self.as_p(place)?;
        let low = self.narrowed(suffix, value)?;
        self.assign(suffix, place, low)
    }

    /// A value is written as a number of four bytes.
    pub fn store_number(&mut self, place: Operand, value: Operand) -> Result<(), Memory>
        ensures { OnOk result (Acts self.old (λ l. acted (record { head = typed.head Op.Asgn Suffix.I; left = typed.as_p (typed_of place); right = typed.as_i (typed_of value) }) l) self.new) }
    {
        let place = self.as_p(place)?;
        let number = self.as_i(value)?;
        self.assign(Suffix::I, place, number)
    }

    /// A value is written as a pointer.
    pub fn store_pointer(&mut self, place: Operand, value: Operand) -> Result<(), Memory>
        ensures { OnOk result (Acts self.old (λ l. acted (record { head = typed.head Op.Asgn Suffix.P; left = typed.as_p (typed_of place); right = typed.as_p (typed_of value) }) l) self.new) }
    {
        let place = self.as_p(place)?;
        let pointer = self.as_p(value)?;
        self.assign(Suffix::P, place, pointer)
    }

    /// So many bytes are copied from one place to another.
    pub fn copy(&mut self, size: u32, align: u32, to: Operand, from: Operand) -> Result<(), Memory>
        ensures { OnOk result (Acts self.old (λ l. acted (copy_root size align (typed_of to) (typed_of from)) l) self.new) }
    {
        let to = self.as_p(to)?;
        let from = self.as_p(from)?;
        let bytes = self.over(Op::Indir, Suffix::B, from)?;
        let operator = Operator {
            op: Op::Asgn,
            suffix: Suffix::B,
        };
        self.root(operator, Kids::Two(to, bytes), Sym::Block { size, align })
    }

    /// An argument word is passed to the next call: a pointer, or a number.
    pub fn pass(&mut self, value: Operand) -> Result<(), Memory>
        ensures { OnOk result (Acts self.old (λ l. word_passed value.suffix (template_of value) l) self.new) }
    {
        match value.suffix {
            Suffix::P => {
                let pointer = self.operand(value)?;
                self.act_on(Op::Arg, Suffix::P, pointer)
            }
            Suffix::C | Suffix::S | Suffix::I | Suffix::U | Suffix::B | Suffix::V => {
                let number = self.as_i(value)?;
                self.act_on(Op::Arg, Suffix::I, number)
            }
        }
    }

    /// A function is called whose value isn't used.
    pub fn call(&mut self, function: Operand) -> Result<(), Memory>
        ensures { OnOk result (Acts self.old (λ l. called (typed_of function) l) self.new) }
    {
        let function = self.as_p(function)?;
        self.act_on(Op::Call, Suffix::V, function)
    }

    // A root that stores a node.
    pub(crate) fn assign(&mut self, suffix: Suffix, place: u32, value: u32) -> Result<(), Memory>
        ensures { OnOk result (IsRoot self.old (typed.head Op.Asgn suffix) (Kids.Two place value) self.new) }
    {
        let operator = Operator {
            op: Op::Asgn,
            suffix,
        };
        self.root(operator, Kids::Two(place, value), Sym::Nothing)
    }

    // A root over one node.
    pub(crate) fn act_on(&mut self, op: Op, suffix: Suffix, a: u32) -> Result<(), Memory>
        ensures { OnOk result (IsRoot self.old (typed.head op suffix) (Kids.One a) self.new) }
    {
        self.root(Operator { op, suffix }, Kids::One(a), Sym::Nothing)
    }
}
