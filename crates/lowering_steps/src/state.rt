//! How far a function is lowered, and its steps.
ghost use Rattle.std.specs.Prelude.{◌≡◌, IfOk, OnOk};
ghost use Rattle.dag_forest.specs.NewSlots.{offset_below};
ghost use Rattle.lowered_forms.specs.Lows.{Low, ended, marked, jumped, slot_offset, with_label, with_slot};
ghost use Rattle.lowering_steps.specs.States.{Shows};

use crate::open_block::OpenBlock;
use lcc_base::{Items, Memory};
use op_forest::{Frame, Op, Operator, Slot, Suffix, Sym, Tree};
use std::mem;

/// The size of a slot that the lowering takes, in bytes.
const WORD: u32 = 4;

/// How far a function is lowered: the trees of the finished blocks and the labels between them, the open block, the frame, and
/// how many labels were used.
#[derive(Drop)]
pub struct State {
    pub done: Vec<Tree>,
    pub block: OpenBlock,
    pub frame: Frame,
    pub labels: u32,
}

impl State {
    /// The open block is finished.
    pub fn end(&mut self) -> Result<(), Memory>
        ensures { (l : Low) → Shows self.old l → OnOk result (Shows self.new (ended l)) }
    {
        let alloc = *self.done.allocator();
        let block = mem::replace(&mut self.block, OpenBlock::new(alloc));
        let trees = block.finish(alloc, &mut self.frame)?;
        let mut trees = trees.into_vec();
        self.done.append(&mut trees)?;
        Ok(())
    }

    /// The open block is finished, and a label stands behind it.
    pub fn mark(&mut self, label: u32) -> Result<(), Memory>
        ensures { (l : Low) → Shows self.old l → OnOk result (Shows self.new (marked label l)) }
    {
        self.end()?;
        let alloc = *self.done.allocator();
        let operator = Operator {
            op: Op::Label,
            suffix: Suffix::V,
        };
        let root = Tree::new(operator, Sym::Label(label), None, Items::new(alloc));
        self.done.push(root)?;
        Ok(())
    }

    /// A jump to a label finishes the open block.
    pub fn jump(&mut self, label: u32) -> Result<(), Memory>
        ensures { (l : Low) → Shows self.old l → OnOk result (Shows self.new (jumped label l)) }
    {
        self.block.jump(label)?;
        self.end()
    }

    /// A new label. `Memory` comes where 2^32 - 1 were used.
    pub fn new_label(&mut self) -> Result<u32, Memory>
        ensures { (l : Low) → Shows self.old l → IfOk result (λ n. (n ≡ l.labels) × Shows self.new (with_label l)) }
    {
        let label = self.labels;
        if label == u32::MAX {
            return Err(Memory);
        }
        self.labels = label + 1;
        Ok(label)
    }

    /// Where a new slot of the frame begins, of four bytes. `Memory` comes where an allocation is refused, or where that is below -2^31.
    pub fn new_slot(&mut self) -> Result<i32, Memory>
        ensures { (l : Low) → Shows self.old l → IfOk result (λ z. (z ≡ slot_offset l) × Shows self.new (with_slot l)) }
    {
        let offset = offset_below(self.frame.lowest())?;
        self.frame.extend(&[Slot { offset, size: WORD }])?;
        Ok(offset)
    }
}

// Where a slot begins right below the lowest one. `Memory` comes where that is below -2^31.
fn offset_below(lowest: i32) -> Result<i32, Memory>
    ensures { IfOk result (λ z. z ≡ offset_below lowest 0) }
{
    let offset = i64::from(lowest) - i64::from(WORD);
    match i32::try_from(offset) {
        Ok(offset) => Ok(offset),
        Err(_) => Err(Memory),
    }
}
