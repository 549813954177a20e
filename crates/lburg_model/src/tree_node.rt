//! The interface by which trees of any representation are labelled and reduced.
ghost use Rattle.std.specs.Prelude.{◌≡◌, ◌<◌, length, Some, slice_get};
ghost use Rattle.lburg_model.specs.Tree.{MTree, op_of, value_of, kids_of};

/// A node of a tree that a description can cover, as its calls tell it.
pub trait TreeNode {
    /// The tree that the calls tell of. It is finite, so an operand is smaller.
    ghost tree: { Self → MTree };

    /// The operator: the place of its terminal in the declarations, from 1.
    fn op(&self) -> u16
        ensures { result ≡ op_of (tree self.now) };

    /// How many operands there are.
    fn arity(&self) -> usize
        ensures { result ≡ length (kids_of (tree self.now)) };

    /// The operand at this place, from 0.
    fn kid(&self, i: usize) -> &Self
        requires { i < length (kids_of (tree self.now)) }
        ensures { slice_get (kids_of (tree self.now)) i ≡ Some (tree result.now) };

    /// The constant, if the node has one.
    fn value(&self) -> Option<i64>
        ensures { result ≡ value_of (tree self.now) };
}
