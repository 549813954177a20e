//! The trees of a block with a read that is shared over a store and over a call, as a forest.
use crate::trees::{
    ADDRESS, CALL, CONSTANT, POINTER, READ, RETURN, SUM, WRITE, local, name, number, one, two,
};
use dag_forest::{Block, Kids};
use forests::check_forest;
use lcc_base::{Items, Memory};
use op_forest::{Forest, Frame, Slot, Sym, Tree};
use std::alloc::Global;
use std::test::Fail;

fn global(name: u32) -> Sym {
    Sym::Global { name, offset: 0 }
}

// `n = x; *p = 1; x = n + f(); return x;`, where the names 0, 1 and 2 are x, p and f.
fn block(alloc: Global) -> Result<Block, Memory> {
    let mut block = Block::new(alloc);
    let x = block.value(ADDRESS, Kids::Zero, global(0), None)?;
    let p = block.value(ADDRESS, Kids::Zero, global(1), None)?;
    let f = block.value(ADDRESS, Kids::Zero, global(2), None)?;
    let n = block.value(READ, Kids::One(x), Sym::Nothing, None)?;
    let place = block.value(POINTER, Kids::One(p), Sym::Nothing, None)?;
    let value = block.value(CONSTANT, Kids::Zero, Sym::Nothing, Some(1))?;
    block.root(WRITE, Kids::Two(place, value), Sym::Nothing)?;
    let call = block.value(CALL, Kids::One(f), Sym::Nothing, None)?;
    let sum = block.value(SUM, Kids::Two(n, call), Sym::Nothing, None)?;
    block.root(WRITE, Kids::Two(x, sum), Sym::Nothing)?;
    let behind = block.value(READ, Kids::One(x), Sym::Nothing, None)?;
    block.root(RETURN, Kids::One(behind), Sym::Nothing)?;
    Ok(block)
}

// A read of a slot.
fn kept(alloc: Global, offset: i64) -> Result<Tree, Memory> {
    one(alloc, READ, local(alloc, offset))
}

// The roots up to the call, whose value is kept as the read's is.
fn first_roots(alloc: Global) -> Result<Items<Tree>, Memory> {
    let mut roots = Items::new(alloc);
    let read = one(alloc, READ, name(alloc, 0))?;
    roots.push(two(alloc, WRITE, local(alloc, -4), read)?)?;
    let place = one(alloc, POINTER, name(alloc, 1))?;
    roots.push(two(alloc, WRITE, place, number(alloc, 1))?)?;
    let call = one(alloc, CALL, name(alloc, 2))?;
    roots.push(two(alloc, WRITE, local(alloc, -8), call)?)?;
    Ok(roots)
}

// All roots.
fn roots(alloc: Global) -> Result<Items<Tree>, Memory> {
    let mut roots = first_roots(alloc)?;
    let sum = two(alloc, SUM, kept(alloc, -4)?, kept(alloc, -8)?)?;
    roots.push(two(alloc, WRITE, name(alloc, 0), sum)?)?;
    let read = one(alloc, READ, name(alloc, 0))?;
    roots.push(one(alloc, RETURN, read)?)?;
    Ok(roots)
}

// The block as a forest.
fn forest(alloc: Global) -> Result<Forest, Memory> {
    let mut frame = Frame::new(alloc);
    let roots = block(alloc)?.finish(alloc, &mut frame)?;
    Ok(Forest { roots, frame })
}

#[test]
fn a_read_is_shared(rt: HostRuntime) -> Result<(), Fail> {
    let mut block = Block::new(rt.alloc());
    let x = block.value(ADDRESS, Kids::Zero, global(0), None)?;
    let read = block.value(READ, Kids::One(x), Sym::Nothing, None)?;
    let again = block.value(READ, Kids::One(x), Sym::Nothing, None)?;
    assert_eq!(rt; again, read);
    Ok(())
}

#[test]
fn a_read_is_kept_over_a_store_and_a_call(rt: HostRuntime) -> Result<(), Fail> {
    let alloc = rt.alloc();
    let forest = forest(alloc)?;
    let text = format!(in alloc; "{:?}", forest.roots)?;
    let wanted = format!(in alloc; "{:?}", roots(alloc)?)?;
    assert_eq!(rt; text, wanted);
    let slots = [
        Slot {
            offset: -4,
            size: 4,
        },
        Slot {
            offset: -8,
            size: 4,
        },
    ];
    assert_eq!(rt; forest.frame.slots(), slots.as_slice());
    Ok(())
}

#[test]
fn a_good_forest_is_copied(rt: HostRuntime) -> Result<(), Fail> {
    let alloc = rt.alloc();
    let forest = forest(alloc)?;
    let copy = check_forest(alloc, &forest)?.into_forest();
    let text = format!(in alloc; "{copy:?}")?;
    let wanted = format!(in alloc; "{forest:?}")?;
    assert_eq!(rt; text, wanted);
    Ok(())
}

// A block that returns the last of so many sums, each of the one before with itself.
fn long_chain(alloc: Global, count: u32) -> Result<Block, Memory> {
    let mut block = Block::new(alloc);
    let x = block.value(ADDRESS, Kids::Zero, global(0), None)?;
    let mut last = block.value(READ, Kids::One(x), Sym::Nothing, None)?;
    for _ in 0..count {
        last = block.value(SUM, Kids::Two(last, last), Sym::Nothing, None)?;
    }
    block.root(RETURN, Kids::One(last), Sym::Nothing)?;
    Ok(block)
}

#[test]
fn a_long_chain_is_kept(rt: HostRuntime) -> Result<(), Fail> {
    let alloc = rt.alloc();
    let mut frame = Frame::new(alloc);
    let trees = long_chain(alloc, 100_000)?.finish(alloc, &mut frame)?;
    assert_eq!(rt; (trees.len(), frame.slots().len()), (100_001, 100_000));
    Ok(())
}
