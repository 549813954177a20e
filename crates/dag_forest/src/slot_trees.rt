//! The trees that read and write slots.
ghost use Rattle.std.specs.Prelude.{◌≡◌, ◌∷◌, [], None, Some, IfOk};
ghost use Rattle.op_forest.specs.Nodes.{Leaf, One, Two};
ghost use Rattle.op_forest.specs.declared.op.Op.TheVariants as op;
ghost use Rattle.dag_forest.specs.Slots.{head, slot_address, slot_read, slot_store};

use crate::kind::Kind;
use lcc_base::{Items, Memory};
use op_forest::{Op, Operator, Suffix, Sym, Tree};
use std::alloc::Global;

/// The tree that reads the slot at this offset.
pub(crate) fn slot_read(alloc: Global, kind: Kind, offset: i32) -> Result<Tree, Memory>
    ensures { IfOk result (λ t. t ≡ slot_read kind offset) }
{
    let address = slot_address(alloc, offset);
    match kind {
        Kind::Char => one(alloc, Op::Indir, Suffix::C, address),
        Kind::Short => one(alloc, Op::Indir, Suffix::S, address),
        Kind::Signed => one(alloc, Op::Indir, Suffix::I, address),
        Kind::Unsigned => {
            let read = one(alloc, Op::Indir, Suffix::I, address)?;
            one(alloc, Op::Cvi, Suffix::U, read)
        }
        Kind::Address => one(alloc, Op::Indir, Suffix::P, address),
    }
}

/// The root that stores a tree in the slot at this offset.
pub(crate) fn slot_store(alloc: Global, kind: Kind, offset: i32, tree: Tree) -> Result<Tree, Memory>
    ensures { IfOk result (λ t. t ≡ slot_store kind offset tree) }
{
    let address = slot_address(alloc, offset);
    match kind {
        Kind::Char => store(alloc, Suffix::C, address, tree),
        Kind::Short => store(alloc, Suffix::S, address, tree),
        Kind::Signed => store(alloc, Suffix::I, address, tree),
        Kind::Unsigned => {
            let tree = one(alloc, Op::Cvu, Suffix::I, tree)?;
            store(alloc, Suffix::I, address, tree)
        }
        Kind::Address => store(alloc, Suffix::P, address, tree),
    }
}

// The address of the slot at this offset.
fn slot_address(alloc: Global, offset: i32) -> Tree
    ensures { result ≡ slot_address offset }
{
    let operator = Operator {
        op: Op::Addrl,
        suffix: Suffix::P,
    };
    Tree::new(
        operator,
        Sym::Nothing,
        Some(i64::from(offset)),
        Items::new(alloc),
    )
}

// An operator over one operand.
fn one(alloc: Global, op: Op, suffix: Suffix, a: Tree) -> Result<Tree, Memory>
    ensures { IfOk result (λ t. t ≡ One (head op suffix None) a) }
{
    let kids = one_kid(alloc, a)?;
    Ok(Tree::new(Operator { op, suffix }, Sym::Nothing, None, kids))
}

// A store of a tree at an address.
fn store(alloc: Global, suffix: Suffix, address: Tree, tree: Tree) -> Result<Tree, Memory>
    ensures { IfOk result (λ t. t ≡ Two (head op.Asgn suffix None) address tree) }
{
    let operator = Operator {
        op: Op::Asgn,
        suffix,
    };
    let kids = two_kids(alloc, address, tree)?;
    Ok(Tree::new(operator, Sym::Nothing, None, kids))
}

/// One operand.
pub(crate) fn one_kid(alloc: Global, a: Tree) -> Result<Items<Tree>, Memory>
    ensures { IfOk result (λ kids. kids ≡ a ∷ []) }
{
    let mut kids = Items::with_capacity(alloc, 1)?;
    kids.push(a)?;
    Ok(kids)
}

/// Two operands.
pub(crate) fn two_kids(alloc: Global, a: Tree, b: Tree) -> Result<Items<Tree>, Memory>
    ensures { IfOk result (λ kids. kids ≡ a ∷ b ∷ []) }
{
    let mut kids = Items::with_capacity(alloc, 2)?;
    kids.push(a)?;
    kids.push(b)?;
    Ok(kids)
}
