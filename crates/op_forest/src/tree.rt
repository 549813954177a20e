//! Trees of operators, the intermediate code on which code selection works.
ghost use Rattle.std.specs.Prelude.{◌≡◌, ◌≤◌, ◌∷◌, length, [], IfOk};
ghost use Rattle.lburg_model.specs.Tree.{kids_of as tree_kids};
ghost use Rattle.op_forest.specs.Nodes.{Node, head_of, tree_of};
ghost use Rattle.op_forest.specs.NodeParts.{node_of, under};
ghost use Rattle.op_forest.specs.Shape.{over};

use crate::operands::Operands;
use crate::operator::Operator;
use crate::sym::Sym;
use lburg_model::TreeNode;
use lcc_base::{Items, Memory};
use std::alloc::Global;
use std::marker::Model;

/// A tree of operators, which contracts see as a `Node`. It has at most two operands.
/// Source: Fraser and Hanson, A Retargetable C Compiler, chapter 5.
#[derive(Debug, Drop)]
pub struct Tree {
    pub operator: Operator,
    /// The symbol, if the operator has one.
    pub sym: Sym,
    /// The constant of a CNST; the offset of an ADDRL from the frame's top, which is negative, and
    /// of an ADDRF from the first parameter word; in bytes.
    pub value: Option<i64>,
    /// The operands, from left to right.
    pub kids: Items<Tree>,
}

impl Model for Tree {
    ghost use Rattle.std.specs.Prelude.{ℕ, ◌≤◌, length};
    ghost use Rattle.op_forest.specs.Nodes.{Node, nodes};
    ghost use Rattle.op_forest.specs.NodeParts.{node_of, most_le_nodes};
    ghost use Rattle.op_forest.specs.Coding.{node_code};
    ghost use Rattle.std.proofs.Common.{arith};

    ghost Value = { Node };

    ghost coded = { node_code };

    ghost view = { λ t. node_of t.operator t.sym t.value t.kids };

    ghost invariant = { λ t. length t.kids ≤ 2 };

    ghost size = { nodes };

    ghost size_decreases = { λ t h. omega (arith, most_le_nodes t.operator t.sym t.value t.kids h) };
}

impl Tree {
    /// A tree of its parts, without an allocation.
    pub fn new(operator: Operator, sym: Sym, value: Option<i64>, kids: Items<Tree>) -> Self
        requires { length kids ≤ 2 }
        ensures { result ≡ node_of operator sym value kids }
    {
        Tree {
            operator,
            sym,
            value,
            kids,
        }
    }

    /// A copy of the tree.
    pub fn copied(alloc: Global, tree: &Tree) -> Result<Self, Memory>
        ensures { IfOk result (λ t. t ≡ tree.now) }
    {
        match tree.operands() {
            Operands::Leaf => Ok(tree.with_kids(Items::new(alloc))),
            Operands::Unary(a) => {
                let a = Tree::copied(alloc, a)?;
                let kids = one_kid(alloc, a)?;
                Ok(tree.with_kids(kids))
            }
            Operands::Binary(a, b) => {
                let a = Tree::copied(alloc, a)?;
                let b = Tree::copied(alloc, b)?;
                let kids = two_kids(alloc, a, b)?;
                Ok(tree.with_kids(kids))
            }
        }
    }

    /// Its operands, from left to right.
    pub fn operands(&self) -> Operands<&Tree>
        ensures { self.now ≡ over (head_of self.now) result }
    {
        match self.kids.as_slice() {
            [] => Operands::Leaf,
            [a] => Operands::Unary(a),
            [a, b] => Operands::Binary(a, b),
            _ => unreachable!(),
        }
    }

    /// Its operator, symbol and constant over other operands, without an allocation.
    fn with_kids(&self, kids: Items<Tree>) -> Self
        requires { length kids ≤ 2 }
        ensures { result ≡ under (head_of self.now) kids }
    {
        Tree {
            operator: self.operator,
            sym: self.sym,
            value: self.value,
            kids,
        }
    }
}

/// One operand.
pub(crate) fn one_kid(alloc: Global, a: Tree) -> Result<Items<Tree>, Memory>
    ensures { IfOk result (λ kids. kids ≡ a ∷ []) }
{
    let mut kids = Items::with_capacity(alloc, 1)?;
    kids.push(a)?;
    Ok(kids)
}

/// Two operands.
pub(crate) fn two_kids(alloc: Global, a: Tree, b: Tree) -> Result<Items<Tree>, Memory>
    ensures { IfOk result (λ kids. kids ≡ a ∷ b ∷ []) }
{
    let mut kids = Items::with_capacity(alloc, 2)?;
    kids.push(a)?;
    kids.push(b)?;
    Ok(kids)
}

impl TreeNode for Tree {
    ghost use Rattle.op_forest.specs.Nodes.{tree_of};

    ghost tree = { tree_of };

    fn op(&self) -> u16 {
        self.operator.number()
    }

    fn arity(&self) -> usize {
        self.kids.len()
    }

    fn kid(&self, i: usize) -> &Self {
        self.kids.at(i)
    }

    fn value(&self) -> Option<i64> {
        self.value
    }
}
