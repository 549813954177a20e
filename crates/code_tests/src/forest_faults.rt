//! One forest with each fault.
use crate::trees::{ADDRESS, JUMP, READ, local, name, number, one};
use forests::{ForestFault, check_forest};
use lcc_base::{Items, Memory};
use op_forest::{Forest, Frame, Sym, Tree};
use std::alloc::Global;
use std::test::Fail;

/// The fault of a forest with two roots and no slots.
fn fault(alloc: Global, first: Tree, second: Tree) -> Result<Option<ForestFault>, Memory> {
    let mut roots = Items::new(alloc);
    roots.push(first)?;
    roots.push(second)?;
    let frame = Frame::new(alloc);
    match check_forest(alloc, &Forest { roots, frame }) {
        Ok(_) => Ok(None),
        Err(ForestFault::Memory) => Err(Memory),
        Err(fault) => Ok(Some(fault)),
    }
}

#[test]
fn arity(rt: HostRuntime) -> Result<(), Fail> {
    let alloc = rt.alloc();
    let bare = Tree::new(READ, Sym::Nothing, None, Items::new(alloc));
    let found = fault(alloc, number(alloc, 5), bare)?;
    assert_eq!(rt; found, Some(ForestFault::Arity { root: 1 }));
    Ok(())
}

#[test]
fn kind(rt: HostRuntime) -> Result<(), Fail> {
    let alloc = rt.alloc();
    let of_number = one(alloc, READ, number(alloc, 5))?;
    let found = fault(alloc, number(alloc, 5), of_number)?;
    assert_eq!(rt; found, Some(ForestFault::Kind { root: 1 }));
    Ok(())
}

#[test]
fn label(rt: HostRuntime) -> Result<(), Fail> {
    let alloc = rt.alloc();
    let place = Tree::new(ADDRESS, Sym::Label(1), None, Items::new(alloc));
    let jump = one(alloc, JUMP, place)?;
    let found = fault(alloc, jump, name(alloc, 0))?;
    assert_eq!(rt; found, Some(ForestFault::Label { root: 0 }));
    Ok(())
}

#[test]
fn slot(rt: HostRuntime) -> Result<(), Fail> {
    let alloc = rt.alloc();
    let found = fault(alloc, number(alloc, 5), local(alloc, -4))?;
    assert_eq!(rt; found, Some(ForestFault::Slot { root: 1 }));
    Ok(())
}
