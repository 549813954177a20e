//! Trees that the tests share.
ghost use Rattle.std.specs.Prelude.{◌≤◌, length};

use lcc_base::{Items, Memory};
use op_forest::{Op, Operator, Suffix, Sym, Tree};
use std::alloc::Global;

pub(crate) const ADDRESS: Operator = Operator {
    op: Op::Addrg,
    suffix: Suffix::P,
};

pub(crate) const READ: Operator = Operator {
    op: Op::Indir,
    suffix: Suffix::I,
};

pub(crate) const POINTER: Operator = Operator {
    op: Op::Indir,
    suffix: Suffix::P,
};

pub(crate) const WRITE: Operator = Operator {
    op: Op::Asgn,
    suffix: Suffix::I,
};

pub(crate) const SUM: Operator = Operator {
    op: Op::Add,
    suffix: Suffix::I,
};

pub(crate) const CALL: Operator = Operator {
    op: Op::Call,
    suffix: Suffix::I,
};

pub(crate) const CONSTANT: Operator = Operator {
    op: Op::Cnst,
    suffix: Suffix::I,
};

pub(crate) const RETURN: Operator = Operator {
    op: Op::Ret,
    suffix: Suffix::I,
};

pub(crate) const LOCAL: Operator = Operator {
    op: Op::Addrl,
    suffix: Suffix::P,
};

pub(crate) const JUMP: Operator = Operator {
    op: Op::Jump,
    suffix: Suffix::V,
};

/// The address of a name.
pub(crate) fn name(alloc: Global, name: u32) -> Tree {
    let sym = Sym::Global { name, offset: 0 };
    Tree::new(ADDRESS, sym, None, Items::new(alloc))
}

/// A constant integer.
pub(crate) fn number(alloc: Global, value: i64) -> Tree {
    Tree::new(CONSTANT, Sym::Nothing, Some(value), Items::new(alloc))
}

/// The address of a local.
pub(crate) fn local(alloc: Global, offset: i64) -> Tree {
    Tree::new(LOCAL, Sym::Nothing, Some(offset), Items::new(alloc))
}

/// An operator over a tree.
pub(crate) fn one(alloc: Global, operator: Operator, a: Tree) -> Result<Tree, Memory> {
    let mut kids = Items::new(alloc);
    kids.push(a)?;
    Ok(Tree::new(operator, Sym::Nothing, None, kids))
}

/// An operator over two trees.
pub(crate) fn two(alloc: Global, operator: Operator, a: Tree, b: Tree) -> Result<Tree, Memory> {
    let mut kids = Items::new(alloc);
    kids.push(a)?;
    kids.push(b)?;
    Ok(Tree::new(operator, Sym::Nothing, None, kids))
}
