//! How the parts of expressions are lowered.
ghost use Rattle.std.specs.Prelude.{◌≡◌};
ghost use Rattle.lowered_forms.specs.Expressions as rows;
ghost use Rattle.lowered_forms.specs.Tests as tests;
ghost use Rattle.lowering_acts.specs.Forms.{form_of};
ghost use Rattle.lowering_acts.specs.Sites.{type_in};

use crate::site::Site;
use c_meaning::CoreKind;
use c_types::TypeId;
use c_worlds::is_pointer;

/// How the parts of an expression are lowered that is no test.
#[derive(Clone, Copy, Debug, PartialEq, Eq)]
pub enum Form {
    /// There are none.
    Leaf,
    /// There is one.
    One,
    /// There are two, the left one first.
    Two,
    /// There are a test, and two ways.
    Conditional,
    /// There are some, of which the last gives the value.
    Comma,
    /// There are what is called, and arguments; the copies of structures begin at this local.
    Call(u32),
    /// It is a test, or stands in no checked unit.
    Other,
}

impl Form {
    /// That of a kind.
    pub fn of(what: &CoreKind) -> Self
        ensures { result ≡ form_of what.now }
    {
        match what {
            CoreKind::Local { .. }
            | CoreKind::Object(_)
            | CoreKind::Text(_)
            | CoreKind::Function(_)
            | CoreKind::BuiltIn(_)
            | CoreKind::Number(_) => Form::Leaf,
            CoreKind::Pointed
            | CoreKind::Member { .. }
            | CoreKind::Read
            | CoreKind::Address
            | CoreKind::First
            | CoreKind::Convert(_)
            | CoreKind::Unary(_) => Form::One,
            CoreKind::Binary { .. }
            | CoreKind::Move { .. }
            | CoreKind::Difference { .. }
            | CoreKind::Assign
            | CoreKind::Change(_)
            | CoreKind::Postfix(_) => Form::Two,
            CoreKind::Conditional => Form::Conditional,
            CoreKind::Comma => Form::Comma,
            CoreKind::Call { copies } => Form::Call(*copies),
            CoreKind::Literal(_)
            | CoreKind::Symbol(_)
            | CoreKind::Not
            | CoreKind::Compare { .. }
            | CoreKind::And
            | CoreKind::Or => Form::Other,
        }
    }
}

/// Whether an expression of this kind is a test by itself.
pub fn is_test(what: &CoreKind) -> bool
    ensures { result ≡ rows.is_test what.now }
{
    matches!(
        what,
        CoreKind::Not | CoreKind::And | CoreKind::Or | CoreKind::Compare { .. }
    )
}

/// Whether two values of a type are compared as signed numbers: pointers aren't.
pub fn compares_signed(site: &Site, of: TypeId, signed: bool) -> bool
    ensures { result ≡ tests.compares_signed (type_in site.now of) signed }
{
    !is_pointer(site.program.core.types(), of) && signed
}
