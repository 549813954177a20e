//! The check that each operator of a tree has the operands, symbol and constant that it needs.
ghost use Rattle.std.specs.Prelude.{◌≡◌, ◌↔◌, IsTrue, IsSomeAnd};
ghost use Rattle.op_forest.specs.Nodes.{head_of, kids_of};
ghost use Rattle.op_forest.specs.Signature.{takes as suffixes};
ghost use Rattle.forests.specs.WellFormed.{FitsType, HasKind, HasKinds, HasPart, AreOperands, IsOperand, op_of, suffix_of};

use op_forest::{Op, Operands, Suffix, Sym, Tree};

/// Whether each operator of the tree is one of the 69, and has what it needs.
pub(crate) fn has_kinds(tree: &Tree) -> bool
    ensures { IsTrue result ↔ HasKinds tree.now }
{
    if !has_kind(tree) {
        return false;
    }
    match tree.operands() {
        Operands::Leaf => true,
        Operands::Unary(a) => has_kinds(a),
        Operands::Binary(a, b) => has_kinds(a) && has_kinds(b),
    }
}

/// Whether the operator at the tree's root is one of the 69, and has what it needs.
fn has_kind(tree: &Tree) -> bool
    ensures { IsTrue result ↔ HasKind tree.now }
{
    tree.operator.number() != 0 && has_part(tree) && has_operands(tree)
}

/// Whether the symbol or constant that the operator needs is there.
fn has_part(tree: &Tree) -> bool
    ensures { IsTrue result ↔ HasPart (op_of tree.now) (suffix_of tree.now) (head_of tree.now).sym (head_of tree.now).value }
{
    let suffix = tree.operator.suffix;
    match tree.operator.op {
        Op::Cnst | Op::Addrf => tree.sym == Sym::Nothing && fits_type(suffix, tree.value),
        Op::Addrl => tree.sym == Sym::Nothing && tree.value.is_some(),
        Op::Addrg => matches!(tree.sym, Sym::Global { .. } | Sym::Label(_)),
        Op::Asgn => suffix != Suffix::B || matches!(tree.sym, Sym::Block { .. }),
        Op::Eq | Op::Ne | Op::Lt | Op::Le | Op::Gt | Op::Ge | Op::Label => {
            matches!(tree.sym, Sym::Label(_))
        }
        _ => true,
    }
}

/// Whether there is a number, and it is one of the suffix's type.
fn fits_type(suffix: Suffix, value: Option<i64>) -> bool
    ensures { IsTrue result ↔ IsSomeAnd value (FitsType suffix) }
{
    let Some(value) = value else {
        return false;
    };
    match suffix {
        Suffix::C => (-128..=127).contains(&value),
        Suffix::S => (-32_768..=32_767).contains(&value),
        Suffix::I => (-2_147_483_648..=2_147_483_647).contains(&value),
        Suffix::U | Suffix::P => (0..=4_294_967_295).contains(&value),
        Suffix::B | Suffix::V => false,
    }
}

/// Whether the operands are those that the operator takes.
fn has_operands(tree: &Tree) -> bool
    ensures { IsTrue result ↔ AreOperands (suffixes (op_of tree.now) (suffix_of tree.now)) (kids_of tree.now) }
{
    match (tree.operator.takes(), tree.operands()) {
        (Operands::Leaf, Operands::Leaf) => true,
        (Operands::Unary(s), Operands::Unary(a)) => is_operand(s, a),
        (Operands::Binary(s, t), Operands::Binary(a, b)) => is_operand(s, a) && is_operand(t, b),
        _ => false,
    }
}

/// Whether the tree gives a value of this suffix.
fn is_operand(suffix: Suffix, tree: &Tree) -> bool
    ensures { IsTrue result ↔ IsOperand suffix tree.now }
{
    tree.operator.gives_value() && tree.operator.suffix == suffix
}
