//! The sizes of trees in nodes, by which room for their labels is reserved.
ghost use Rattle.std.specs.Prelude.{◌≡◌, ◌^◌, ◌≤◌, All};
ghost use Rattle.lburg_model.specs.Tree.{nodes};

use lburg_model::TreeNode;

/// How many nodes a tree has, which are few enough for `Cells::reserve` at the 127 nonterminals that
/// a description may have.
pub fn node_count<N: TreeNode>(tree: &N) -> usize
    requires { nodes (N.tree tree.now) ≤ 2 ^ 25 }
    ensures { result ≡ nodes (N.tree tree.now) }
{
    match tree.arity() {
        0 => 1,
        1 => node_count(tree.kid(0)) + 1,
        _ => node_count(tree.kid(0)) + node_count(tree.kid(1)) + 1,
    }
}

/// The most nodes that one of the trees has, 0 where there are none: cells with room for so many
/// serve each of them.
pub fn most_nodes<N: TreeNode>(trees: &[N]) -> usize
    requires { All (λ x. nodes (N.tree x) ≤ 2 ^ 25) trees.now }
    ensures within { result ≤ 2 ^ 25 }
    ensures most { All (λ x. nodes (N.tree x) ≤ result) trees.now }
{
    let mut most: usize = 0;
    for tree in trees {
        most = most.max(node_count(tree));
    }
    most
}
