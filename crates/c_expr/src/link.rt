//! What may stand behind an expression and makes one with it.
ghost use Rattle.std.specs.Prelude.{◌≡◌, ◌≤◌, Some};
ghost use Rattle.c_ast.specs.Reach.{link_of_sign, made, needed};
ghost use Rattle.c_readings.specs.Links.{reaching};
ghost use Rattle.c_expr.specs.declared.link.LinkKind.TheVariants.{Operate, Assign};
ghost use Rattle.c_expr.specs.Links.{seen_kind, seen_kind_if_any};

use crate::traits_of_trees::level_of;
use c_ast::{AssignOperator, BinaryOperator, Expr, MemberOperator, PostfixOperator};
use lcc_base::{Bytes, Items};

/// What a token makes of the expression before it.
#[derive(Clone, Copy, Debug, PartialEq, Eq)]
pub(crate) enum LinkKind {
    Index,
    Call,
    Select(MemberOperator),
    Step(PostfixOperator),
    Operate(BinaryOperator),
    Question,
    Assign(AssignOperator),
}

/// What stands behind an expression, with its parts.
#[derive(Drop)]
pub(crate) enum Link {
    Index(Expr),
    Call(Items<Expr>),
    Select(MemberOperator, Bytes),
    Step(PostfixOperator),
    Operate(BinaryOperator, Expr),
    Choose(Expr, Expr),
    Assign(AssignOperator, Expr),
}

/// The operator between two operands.
fn binary(operator: BinaryOperator) -> Option<LinkKind>
    ensures { result ≡ Some (Operate operator) }
{
    Some(LinkKind::Operate(operator))
}

/// The operator of an assignment.
fn assign(operator: AssignOperator) -> Option<LinkKind>
    ensures { result ≡ Some (Assign operator) }
{
    Some(LinkKind::Assign(operator))
}

/// What the sign of this number makes of the expression before it.
fn kind_of_sign(sign: u8) -> Option<LinkKind>
    ensures { seen_kind_if_any result ≡ link_of_sign sign }
{
    match sign {
        0 => Some(LinkKind::Index),
        2 => Some(LinkKind::Call),
        6 => Some(LinkKind::Select(MemberOperator::Dot)),
        7 => Some(LinkKind::Select(MemberOperator::Arrow)),
        8 => Some(LinkKind::Step(PostfixOperator::Increment)),
        9 => Some(LinkKind::Step(PostfixOperator::Decrement)),
        10 => binary(BinaryOperator::BitAnd),
        11 => binary(BinaryOperator::Multiply),
        12 => binary(BinaryOperator::Add),
        13 => binary(BinaryOperator::Subtract),
        16 => binary(BinaryOperator::Divide),
        17 => binary(BinaryOperator::Remainder),
        18 => binary(BinaryOperator::ShiftLeft),
        19 => binary(BinaryOperator::ShiftRight),
        20 => binary(BinaryOperator::Less),
        21 => binary(BinaryOperator::Greater),
        22 => binary(BinaryOperator::LessEqual),
        23 => binary(BinaryOperator::GreaterEqual),
        24 => binary(BinaryOperator::Equal),
        25 => binary(BinaryOperator::NotEqual),
        26 => binary(BinaryOperator::BitXor),
        27 => binary(BinaryOperator::BitOr),
        28 => binary(BinaryOperator::And),
        29 => binary(BinaryOperator::Or),
        30 => Some(LinkKind::Question),
        34 => assign(AssignOperator::Plain),
        35 => assign(AssignOperator::Multiply),
        36 => assign(AssignOperator::Divide),
        37 => assign(AssignOperator::Remainder),
        38 => assign(AssignOperator::Add),
        39 => assign(AssignOperator::Subtract),
        40 => assign(AssignOperator::ShiftLeft),
        41 => assign(AssignOperator::ShiftRight),
        42 => assign(AssignOperator::BitAnd),
        43 => assign(AssignOperator::BitXor),
        44 => assign(AssignOperator::BitOr),
        _ => None,
    }
}

/// The level that what stands before it has at least.
fn needed(kind: LinkKind) -> u8
    ensures { result ≡ needed (seen_kind kind) }
{
    match kind {
        LinkKind::Operate(operator) => level_of(operator),
        LinkKind::Question => 3,
        LinkKind::Assign(_) => 14,
        LinkKind::Index => 15,
        LinkKind::Call => 15,
        LinkKind::Select(_) => 15,
        LinkKind::Step(_) => 15,
    }
}

/// The level of what it makes.
fn made(kind: LinkKind) -> u8
    ensures { result ≡ made (seen_kind kind) }
{
    match kind {
        LinkKind::Operate(operator) => level_of(operator),
        LinkKind::Question => 2,
        LinkKind::Assign(_) => 1,
        LinkKind::Index => 15,
        LinkKind::Call => 15,
        LinkKind::Select(_) => 15,
        LinkKind::Step(_) => 15,
    }
}

/// What the sign of this number makes of an expression of the rank before it, at the level.
pub(crate) fn kind_at(level: u8, rank: u8, sign: u8) -> Option<LinkKind>
    ensures { seen_kind_if_any result ≡ reaching level rank (link_of_sign sign) }
{
    let kind = kind_of_sign(sign)?;
    if level <= made(kind) && needed(kind) <= rank {
        Some(kind)
    } else {
        None
    }
}
