//! The open block of a function that is lowered.
ghost use Rattle.std.specs.Prelude.{◌≡◌, ◌++◌, ◌∷◌, [], IfOk, OnOk, None, true};
ghost use Rattle.lcc_base.specs.declared.order.Order.{Order};
ghost use Rattle.forests.specs.Addresses.{Home};
ghost use Rattle.dag_forest.specs.declared.entry.Entry.TheVariants.{Root};
ghost use Rattle.dag_forest.specs.Entries.{AreBelow, parts_of};
ghost use Rattle.dag_forest.specs.Split.{Split, split_frame, split_trees};
ghost use Rattle.c_rows_agree.specs.Typed.{head};
ghost use Rattle.lowered_forms.specs.Asked.{with_kids};
ghost use Rattle.lowering_steps.specs.Asking.{Answers, Asks, Places};
ghost use Rattle.lowering_steps.specs.Operands.{head_of, template_of, typed_of};

use crate::operand::{Operand, Source, Stem};
use dag_forest::{Block, Kids};
use lcc_base::{Items, Memory};
use op_forest::{Frame, Op, Operator, Suffix, Sym, Tree};
use std::alloc::Global;
use std::cmp::max;
use std::marker::Model;

/// The block that is open. Contracts see the list of its entries.
#[derive(Drop)]
pub struct OpenBlock {
    block: Block,
    // So many nodes are there at least: each that it answered is one of them.
    nodes: usize,
}

impl Model for OpenBlock {
    ghost use Rattle.std.specs.Prelude.{List, ◌≤◌, length};
    ghost use Rattle.dag_forest.specs.declared.entry.Entry.{Entry};
    ghost use Rattle.dag_forest.specs.Tally.{keys_of};

    ghost Value = { List Entry };

    ghost view = { λ b. b.block };

    ghost invariant = { λ b. b.nodes ≤ length (keys_of b.block) };
}

impl OpenBlock {
    /// A block without a node, without an allocation.
    pub fn new(alloc: Global) -> Self
        ensures { result ≡ [] }
    {
        OpenBlock {
            block: Block::new(alloc),
            nodes: 0,
        }
    }

    /// The node of an operator over nodes of the block. `Memory` comes where an allocation is refused, where the block is full, and where
    /// an operand is none of its nodes.
    pub fn value(&mut self, stem: Stem, kids: Kids) -> Result<u32, Memory>
        ensures { IfOk result (λ n. Answers self.old (with_kids (head_of stem) kids) n self.new) }
    {
        if !are_below(self.nodes, kids) {
            return Err(Memory);
        }
        let node = self.block.value(stem.operator, kids, stem.sym, stem.value)?;
        self.nodes = max(self.nodes, node as usize + 1);
        Ok(node)
    }

    /// Adds a root over nodes of the block. `Memory` comes as for `value`.
    pub fn root(&mut self, operator: Operator, kids: Kids, sym: Sym) -> Result<(), Memory>
        ensures { OnOk result (self.new ≡ self.old ++ Root (parts_of operator kids sym None) ∷ []) }
    {
        if !are_below(self.nodes, kids) {
            return Err(Memory);
        }
        self.block.root(operator, kids, sym)
    }

    /// The node of an operator over one node.
    pub fn over(&mut self, op: Op, suffix: Suffix, a: u32) -> Result<u32, Memory>
        ensures { IfOk result (λ n. Answers self.old (with_kids (head op suffix) (Kids.One a)) n self.new) }
    {
        self.value(Stem::plain(op, suffix), Kids::One(a))
    }

    /// The node of an operator over two nodes.
    pub fn both(&mut self, op: Op, suffix: Suffix, a: u32, b: u32) -> Result<u32, Memory>
        ensures { IfOk result (λ n. Answers self.old (with_kids (head op suffix) (Kids.Two a b)) n self.new) }
    {
        self.value(Stem::plain(op, suffix), Kids::Two(a, b))
    }

    /// The node of an operand.
    pub fn operand(&mut self, a: Operand) -> Result<u32, Memory>
        ensures { IfOk result (λ n. Asks self.old (template_of a) n self.new) }
    {
        match a.source {
            Source::Node(node) => Ok(node),
            Source::Leaf(stem) => self.value(stem, Kids::Zero),
            Source::Slot(offset) => self.slot_value(offset, a.suffix),
        }
    }

    /// An operand that can wait: what a slot holds is read.
    pub fn placed(&mut self, a: Operand) -> Result<Operand, Memory>
        ensures { IfOk result (λ v. Places self.old (typed_of a) v self.new) }
    {
        self.placed_as(a, a.suffix)
    }

    /// The same with another suffix.
    pub(crate) fn placed_as(&mut self, a: Operand, suffix: Suffix) -> Result<Operand, Memory>
        ensures { IfOk result (λ v. Places self.old (record { tree = template_of a; suffix = suffix }) v self.new) }
    {
        match a.source {
            Source::Slot(_) => {
                let node = self.operand(a)?;
                Ok(Operand::node(node, suffix))
            }
            Source::Node(_) | Source::Leaf(_) => Ok(Operand {
                source: a.source,
                suffix,
            }),
        }
    }

    /// The trees of the block; a node that has to be kept gets a new slot of the frame. `Memory` comes where an allocation is
    /// refused, or where a slot would begin below -2^31.
    pub fn finish(self, alloc: Global, frame: &mut Frame) -> Result<Items<Tree>, Memory>
        ensures trees { (order : Order) → (home : Home) → IfOk result (λ trees. trees ≡ split_trees order home frame.old self []) }
        ensures frame { OnOk result (frame.new ≡ split_frame frame.old self) }
    {
        self.block.finish(alloc, frame)
    }

    // The node of what a slot holds.
    fn slot_value(&mut self, offset: i32, suffix: Suffix) -> Result<u32, Memory>
        ensures { IfOk result (λ n. Asks self.old (template_of (record { source = Source.Slot offset; suffix = suffix })) n self.new) }
    {
        let local = Stem {
            operator: Operator {
                op: Op::Addrl,
                suffix: Suffix::P,
            },
            sym: Sym::Nothing,
            value: Some(i64::from(offset)),
        };
        let place = self.value(local, Kids::Zero)?;
        self.over(Op::Indir, suffix, place)
    }
}

// Whether the operands are among the first so many nodes.
fn are_below(nodes: usize, kids: Kids) -> bool
    ensures { result ≡ true → AreBelow nodes kids }
{
    match kids {
        Kids::Zero => true,
        Kids::One(a) => (a as usize) < nodes,
        Kids::Two(a, b) => (a as usize) < nodes && (b as usize) < nodes,
    }
}
