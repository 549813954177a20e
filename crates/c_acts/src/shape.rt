//! The shapes of expressions: how many parts they have, and in which order these are evaluated.
ghost use Rattle.std.specs.Prelude.{◌≡◌};
ghost use Rattle.c_acts.specs.Shapes.{shape_of};

use c_meaning::{Conversion, CoreKind};

/// How the parts of an expression are evaluated.
#[derive(Clone, Copy, Debug, PartialEq, Eq)]
pub enum Shape {
    /// There are none.
    Leaf,
    /// There is one, whose value isn't used.
    Dropped,
    /// There is one.
    Unary,
    /// There are two, the left one first.
    Binary,
    /// There are two, and the right one is evaluated only where the left one asks for it.
    Logical,
    /// There are three: a test, and two of which one is evaluated.
    Conditional,
    /// There are some, of which the last gives the value.
    Comma,
    /// There are some: what is called, and the arguments.
    Call,
}

impl Shape {
    /// How the parts of an expression of this kind are evaluated.
    #[inline(always)]
    pub fn of(what: &CoreKind) -> Self
        ensures { result ≡ shape_of what.now }
    {
        match what {
            CoreKind::Local { .. }
            | CoreKind::Object(_)
            | CoreKind::Text(_)
            | CoreKind::Literal(_)
            | CoreKind::Symbol(_)
            | CoreKind::Function(_)
            | CoreKind::BuiltIn(_)
            | CoreKind::Number(_) => Shape::Leaf,
            CoreKind::Convert(Conversion::Void) => Shape::Dropped,
            CoreKind::Pointed
            | CoreKind::Member { .. }
            | CoreKind::Read
            | CoreKind::Address
            | CoreKind::First
            | CoreKind::Convert(_)
            | CoreKind::Unary(_)
            | CoreKind::Not => Shape::Unary,
            CoreKind::Binary { .. }
            | CoreKind::Compare { .. }
            | CoreKind::Move { .. }
            | CoreKind::Difference { .. }
            | CoreKind::Assign
            | CoreKind::Change(_)
            | CoreKind::Postfix(_) => Shape::Binary,
            CoreKind::And | CoreKind::Or => Shape::Logical,
            CoreKind::Conditional => Shape::Conditional,
            CoreKind::Comma => Shape::Comma,
            CoreKind::Call { .. } => Shape::Call,
        }
    }
}
