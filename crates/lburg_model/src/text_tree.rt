//! The trees that are read from a text, as nodes in memory that hold their operands.
ghost use Rattle.std.specs.Prelude.{◌≡◌, ◌≤◌, length};
ghost use Rattle.lburg_model.specs.Shape.{tree_of};

use crate::tree_node::TreeNode;
use lcc_base::Items;
use std::marker::Model;

/// A tree in memory, which contracts see as a mathematical tree. It has at most two operands.
#[derive(Debug, Drop)]
pub struct TextTree {
    /// The operator: the place of its terminal in the declarations, from 1.
    pub op: u16,
    /// Whether it has a constant. Beside the operator it takes no room, where an `Option` would take
    /// 8 bytes more a node.
    has_constant: bool,
    /// The constant, or 0.
    constant: i64,
    /// The operands, from left to right.
    pub kids: Items<TextTree>,
}

impl Model for TextTree {
    ghost use Rattle.std.specs.Prelude.{ℕ, ◌≤◌, length};
    ghost use Rattle.lburg_model.specs.Tree.{MTree, nodes};
    ghost use Rattle.lburg_model.specs.Shape.{constant_of, tree_of, most_le_nodes};
    ghost use Rattle.lburg_model.specs.Coding.{tree_code};
    ghost use Rattle.std.proofs.Common.{arith};

    ghost Value = { MTree };

    ghost coded = { tree_code };

    ghost view = { λ a. tree_of a.op (constant_of a.has_constant a.constant) a.kids };

    ghost invariant = { λ a. length a.kids ≤ 2 };

    ghost size = { nodes };

    ghost size_decreases = { λ a h. omega (arith, most_le_nodes a.op (constant_of a.has_constant a.constant) a.kids h) };
}

impl TextTree {
    /// A tree of its parts, without an allocation.
    pub fn new(op: u16, value: Option<i64>, kids: Items<TextTree>) -> Self
        requires { length kids ≤ 2 }
        ensures { result ≡ tree_of op value kids }
    {
        match value {
            None => TextTree {
                op,
                has_constant: false,
                constant: 0,
                kids,
            },
            Some(constant) => TextTree {
                op,
                has_constant: true,
                constant,
                kids,
            },
        }
    }
}

impl TreeNode for TextTree {
    ghost tree = { λ t. t };

    fn op(&self) -> u16 {
        self.op
    }

    fn arity(&self) -> usize {
        self.kids.len()
    }

    fn kid(&self, i: usize) -> &Self {
        self.kids.at(i)
    }

    fn value(&self) -> Option<i64> {
        if self.has_constant {
            Some(self.constant)
        } else {
            None
        }
    }
}
