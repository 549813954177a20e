//! Whether the MIPS rules cover a forest, so that code can be generated for it.
ghost use Rattle.std.specs.Prelude.{◌≡◌, ◌↔◌, IsTrue};
ghost use Rattle.op_forest.specs.EachNode.{AtEachNode};
ghost use Rattle.forests.specs.HasRules.{HasRule, IsRuled, HasRules};

use op_forest::{Op, Operands, Suffix, Sym, Tree};

/// Whether code can be generated for the roots of a well-formed forest: each operator has a rule, an
/// address is a function's name itself, and no address stands alone.
pub fn has_rules(roots: &[Tree]) -> bool
    ensures { IsTrue result ↔ HasRules roots.now }
{
    roots.iter().all(|tree| is_ruled(tree))
}

/// Whether the tree is no address, and has a rule at each node.
fn is_ruled(tree: &Tree) -> bool
    ensures { IsTrue result ↔ IsRuled tree.now }
{
    tree.operator.op != Op::Addrg && each_has_rule(tree)
}

/// Whether each operator of the tree has a rule.
fn each_has_rule(tree: &Tree) -> bool
    ensures { IsTrue result ↔ AtEachNode HasRule tree.now }
{
    if !has_rule(tree) {
        return false;
    }
    match tree.operands() {
        Operands::Leaf => true,
        Operands::Unary(a) => each_has_rule(a),
        Operands::Binary(a, b) => each_has_rule(a) && each_has_rule(b),
    }
}

/// Whether the operator at the tree's root has a rule.
fn has_rule(tree: &Tree) -> bool
    ensures { IsTrue result ↔ HasRule tree.now }
{
    match (tree.operator.op, tree.operator.suffix) {
        (Op::Addrg, Suffix::P) => matches!(tree.sym, Sym::Global { offset: 0, .. }),
        (Op::Cnst | Op::Arg | Op::Call | Op::Ret, Suffix::I) => true,
        (Op::Neg | Op::Add | Op::Sub | Op::Mul, Suffix::I) => true,
        _ => false,
    }
}
