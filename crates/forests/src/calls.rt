//! The calls in trees, and whether a call takes the arguments before a root.
ghost use Rattle.std.specs.Prelude.{◌≡◌, ◌↔◌, IsTrue};
ghost use Rattle.forests.specs.WellFormed.{HasCall, IsTakenFrom};

use op_forest::{Op, Operands, Tree};

/// Whether a call takes the arguments before this root, where `later` says whether one of the
/// roots behind it takes arguments.
pub(crate) fn is_taken_from(tree: &Tree, later: bool) -> bool
    ensures { IsTrue result ↔ IsTakenFrom tree.now (IsTrue later) }
{
    let op = tree.operator.op;
    op != Op::Label && (has_call(tree) || (!op.moves() && later))
}

/// Whether a call stands at some node of the tree.
fn has_call(tree: &Tree) -> bool
    ensures { IsTrue result ↔ HasCall tree.now }
{
    if tree.operator.op == Op::Call {
        return true;
    }
    match tree.operands() {
        Operands::Leaf => false,
        Operands::Unary(a) => has_call(a),
        Operands::Binary(a, b) => has_call(a) || has_call(b),
    }
}
