//! The values of trees.
use crate::halt::Halt;
use crate::memory::Memory;
use crate::names::Names;
use crate::operations::{change, combine};
use op_forest::{Op, Operands, Suffix, Sym, Tree};

/// What trees are evaluated over: memory, the values of names, and the address of the frame's top, where the parameter
/// words begin.
#[derive(Clone, Copy)]
pub(crate) struct Scene<'a> {
    pub(crate) memory: &'a Memory,
    pub(crate) names: &'a Names,
    pub(crate) top: u32,
}

/// The value of a tree without a call.
pub(crate) fn value(scene: Scene, tree: &Tree) -> Result<u32, Halt> {
    match tree.operands() {
        Operands::Leaf => leaf(scene, tree),
        Operands::Unary(a) => {
            let x = value(scene, a)?;
            of_one(scene, tree, x)
        }
        Operands::Binary(a, b) => {
            let x = value(scene, a)?;
            let y = value(scene, b)?;
            combine(tree.operator, x, y)
        }
    }
}

/// The width of what an INDIR or ASGN of the suffix reads or writes, in bytes.
pub(crate) fn width(suffix: Suffix) -> u32 {
    match suffix {
        Suffix::C => 1,
        Suffix::S => 2,
        _ => 4,
    }
}

fn leaf(scene: Scene, tree: &Tree) -> Result<u32, Halt> {
    match tree.operator.op {
        Op::Cnst => Ok(constant(tree)),
        Op::Addrf | Op::Addrl => Ok(scene.top.wrapping_add(constant(tree))),
        Op::Addrg => named(scene, tree),
        _ => Err(Halt::Stuck),
    }
}

// The node's number modulo 2^32; 0 where it has none.
fn constant(tree: &Tree) -> u32 {
    match tree.value {
        Some(value) => value.rem_euclid(1 << 32) as u32,
        None => 0,
    }
}

// The value of a name, some bytes on, or that of a label, which is its number.
fn named(scene: Scene, tree: &Tree) -> Result<u32, Halt> {
    match tree.sym {
        Sym::Global { name, offset } => {
            let value = scene.names.value(name)?;
            Ok(value.wrapping_add(offset.cast_unsigned()))
        }
        Sym::Label(label) => Ok(label),
        _ => Err(Halt::Stuck),
    }
}

fn of_one(scene: Scene, tree: &Tree, x: u32) -> Result<u32, Halt> {
    match (tree.operator.op, tree.operator.suffix) {
        (Op::Indir, Suffix::B) => Ok(x),
        (Op::Indir, suffix) => {
            let number = scene.memory.load(x, width(suffix))?;
            Ok(with_unknown(suffix, number))
        }
        _ => change(tree.operator, x),
    }
}

// A char or a short as a word, whose upper bits may be any: not those that a conversion would give.
fn with_unknown(suffix: Suffix, number: u32) -> u32 {
    match suffix {
        Suffix::C => number ^ 0xA5A5_A500,
        Suffix::S => number ^ 0xA5A5_0000,
        _ => number,
    }
}
