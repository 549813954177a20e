//! The syntax of trees and patterns, whose names aren't resolved yet.
/// A tree or pattern as it is written: a name with no, one or two operands.
#[derive(Debug, Drop)]
pub enum NamedTree<'a> {
    Leaf(&'a [u8]),
    Unary(&'a [u8], Box<NamedTree<'a>>),
    Binary(&'a [u8], Box<NamedTree<'a>>, Box<NamedTree<'a>>),
}
