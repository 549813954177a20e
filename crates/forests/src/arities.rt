//! The check that the operators of a tree have as many operands as their rows.
ghost use Rattle.std.specs.Prelude.{◌≡◌, ◌↔◌, IsTrue};
ghost use Rattle.forests.specs.WellFormed.{HasArity, HasArities};

use op_forest::{Operands, Tree};

/// Whether each operator of the tree has as many operands as its row.
pub(crate) fn has_arities(tree: &Tree) -> bool
    ensures { IsTrue result ↔ HasArities tree.now }
{
    if !has_arity(tree) {
        return false;
    }
    match tree.operands() {
        Operands::Leaf => true,
        Operands::Unary(a) => has_arities(a),
        Operands::Binary(a, b) => has_arities(a) && has_arities(b),
    }
}

/// Whether the operator at the tree's root has as many operands as its row, if it has one.
fn has_arity(tree: &Tree) -> bool
    ensures { IsTrue result ↔ HasArity tree.now }
{
    let operator = tree.operator;
    if operator.number() == 0 {
        return true;
    }
    match operator.takes() {
        Operands::Leaf => tree.kids.len() == 0,
        Operands::Unary(_) => tree.kids.len() == 1,
        Operands::Binary(_, _) => tree.kids.len() == 2,
    }
}
