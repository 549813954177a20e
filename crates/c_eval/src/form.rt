//! Which the parts of an expression are, by how they are evaluated.
ghost use Rattle.std.specs.Prelude.{◌≡◌, false, IfNone, IfSome};
ghost use Rattle.c_acts.specs.Shapes.{shape_of};
ghost use Rattle.c_meaning.specs.CoreTrees.{Cores, NoCore, cores_of, kids_of, line_of, one, three, two, what_of};
ghost use Rattle.c_eval.specs.Forms.{IsForm, copies_of, has_one, has_three, has_two, is_and};

use c_acts::Shape;
use c_meaning::{CoreExpr, CoreKind};

/// The parts of an expression, by how they are evaluated.
#[derive(Clone, Copy)]
pub enum Form<'a> {
    /// There are none.
    Leaf,
    /// There is one, whose value isn't used.
    Dropped(&'a CoreExpr),
    /// There is one.
    Unary(&'a CoreExpr),
    /// There are two, the left one first.
    Binary(&'a CoreExpr, &'a CoreExpr),
    /// There are two, and the right one is evaluated only where the left one asks for it.
    Logical(&'a CoreExpr, &'a CoreExpr),
    /// There are a test, and two of which one is evaluated.
    Conditional(&'a CoreExpr, &'a CoreExpr, &'a CoreExpr),
    /// There are some, of which the last gives the value.
    Comma(&'a CoreExpr, &'a [CoreExpr]),
    /// There are what is called, and the arguments.
    Call(&'a CoreExpr, &'a [CoreExpr]),
    /// There are others than the kind has, as in no checked unit.
    Stray,
}

impl<'a> Form<'a> {
    /// The parts of an expression.
    pub fn of(e: &'a CoreExpr) -> Self
        ensures { IsForm e.now result }
    {
        match shape(e) {
            Shape::Leaf => match first_part(e) {
                Some(_) => Form::Stray,
                None => Form::Leaf,
            },
            Shape::Dropped => match one_part(e) {
                Some(a) => Form::Dropped(a),
                None => Form::Stray,
            },
            Shape::Unary => match one_part(e) {
                Some(a) => Form::Unary(a),
                None => Form::Stray,
            },
            Shape::Binary => match two_parts(e) {
                Some((a, b)) => Form::Binary(a, b),
                None => Form::Stray,
            },
            Shape::Logical => match two_parts(e) {
                Some((a, b)) => Form::Logical(a, b),
                None => Form::Stray,
            },
            Shape::Conditional => match three_parts(e) {
                Some((a, b, c)) => Form::Conditional(a, b, c),
                None => Form::Stray,
            },
            Shape::Comma => match first_part(e) {
                Some((a, rest)) => Form::Comma(a, rest),
                None => Form::Stray,
            },
            Shape::Call => match first_part(e) {
                Some((f, rest)) => Form::Call(f, rest),
                None => Form::Stray,
            },
        }
    }
}

/// How the parts of an expression are evaluated.
fn shape(e: &CoreExpr) -> Shape
    ensures { result ≡ shape_of (what_of e.now) }
{
    Shape::of(&e.what)
}

/// The only part.
fn one_part(e: &CoreExpr) -> Option<&CoreExpr>
    ensures some { IfSome result (λ a. kids_of e.now ≡ one a.now) }
    ensures none { IfNone result (has_one (kids_of e.now) ≡ false) }
{
    match e.kids.as_slice() {
        [a] => Some(a),
        [] => None,
        [_, _, ..] => None,
    }
}

/// Both parts.
pub fn two_parts(e: &CoreExpr) -> Option<(&CoreExpr, &CoreExpr)>
    ensures some { IfSome result (λ r. kids_of e.now ≡ two r.0.now r.1.now) }
    ensures none { IfNone result (has_two (kids_of e.now) ≡ false) }
{
    match e.kids.as_slice() {
        [a, b] => Some((a, b)),
        [] | [_] => None,
        [_, _, _, ..] => None,
    }
}

/// The three parts.
fn three_parts(e: &CoreExpr) -> Option<(&CoreExpr, &CoreExpr, &CoreExpr)>
    ensures some { IfSome result (λ r. kids_of e.now ≡ three r.0.now r.1.now r.2.now) }
    ensures none { IfNone result (has_three (kids_of e.now) ≡ false) }
{
    match e.kids.as_slice() {
        [a, b, c] => Some((a, b, c)),
        [] | [_] | [_, _] => None,
        [_, _, _, _, ..] => None,
    }
}

/// The first part, and those behind it.
fn first_part(e: &CoreExpr) -> Option<(&CoreExpr, &[CoreExpr])>
    ensures some { IfSome result (λ r. kids_of e.now ≡ Cores r.0.now (cores_of r.1.now)) }
    ensures none { IfNone result (kids_of e.now ≡ NoCore) }
{
    match e.kids.as_slice() {
        [first, rest @ ..] => Some((first, rest)),
        [] => None,
    }
}

/// The line of an expression.
pub fn line_of(e: &CoreExpr) -> u32
    ensures { result ≡ line_of e.now }
{
    e.line
}

/// Whether an expression is a `&&`.
pub fn is_and(e: &CoreExpr) -> bool
    ensures { result ≡ is_and (what_of e.now) }
{
    matches!(e.what, CoreKind::And)
}

/// The local where the copies of a call begin, 0 of what is no call.
pub fn first_copy(e: &CoreExpr) -> u32
    ensures { result ≡ copies_of (what_of e.now) }
{
    match e.what {
        CoreKind::Call { copies } => copies,
        _ => 0,
    }
}
