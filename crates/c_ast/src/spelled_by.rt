//! The numbers of the signs and keywords that operators and specifiers are spelled by.
ghost use Rattle.std.specs.Prelude.{◌≡◌, ◌<◌};
ghost use Rattle.c_ast.specs.Operators.{binary_sign, assign_sign, prefix_sign, postfix_sign, member_sign, storage_word, qualifier_word, basic_word, record_word};

use crate::operator::{
    AssignOperator, BinaryOperator, MemberOperator, PostfixOperator, PrefixOperator,
};
use crate::specifier::{BasicType, Qualifier, RecordKind, Storage};

/// The sign of an operator with two operands.
pub(crate) fn binary_sign(operator: BinaryOperator) -> u8
    ensures is { result ≡ binary_sign operator }
    ensures low { result < 46 }
{
    match operator {
        BinaryOperator::Or => 29,
        BinaryOperator::And => 28,
        BinaryOperator::BitOr => 27,
        BinaryOperator::BitXor => 26,
        BinaryOperator::BitAnd => 10,
        BinaryOperator::Equal => 24,
        BinaryOperator::NotEqual => 25,
        BinaryOperator::Less => 20,
        BinaryOperator::Greater => 21,
        BinaryOperator::LessEqual => 22,
        BinaryOperator::GreaterEqual => 23,
        BinaryOperator::ShiftLeft => 18,
        BinaryOperator::ShiftRight => 19,
        BinaryOperator::Add => 12,
        BinaryOperator::Subtract => 13,
        BinaryOperator::Multiply => 11,
        BinaryOperator::Divide => 16,
        BinaryOperator::Remainder => 17,
    }
}

/// The sign of an assignment.
pub(crate) fn assign_sign(operator: AssignOperator) -> u8
    ensures is { result ≡ assign_sign operator }
    ensures low { result < 46 }
{
    match operator {
        AssignOperator::Plain => 34,
        AssignOperator::Multiply => 35,
        AssignOperator::Divide => 36,
        AssignOperator::Remainder => 37,
        AssignOperator::Add => 38,
        AssignOperator::Subtract => 39,
        AssignOperator::ShiftLeft => 40,
        AssignOperator::ShiftRight => 41,
        AssignOperator::BitAnd => 42,
        AssignOperator::BitXor => 43,
        AssignOperator::BitOr => 44,
    }
}

/// The sign of an operator before its operand.
pub(crate) fn prefix_sign(operator: PrefixOperator) -> u8
    ensures is { result ≡ prefix_sign operator }
    ensures low { result < 46 }
{
    match operator {
        PrefixOperator::Increment => 8,
        PrefixOperator::Decrement => 9,
        PrefixOperator::Address => 10,
        PrefixOperator::Indirect => 11,
        PrefixOperator::Plus => 12,
        PrefixOperator::Minus => 13,
        PrefixOperator::Complement => 14,
        PrefixOperator::Not => 15,
    }
}

/// The sign of an operator behind its operand.
pub(crate) fn postfix_sign(operator: PostfixOperator) -> u8
    ensures is { result ≡ postfix_sign operator }
    ensures low { result < 46 }
{
    match operator {
        PostfixOperator::Increment => 8,
        PostfixOperator::Decrement => 9,
    }
}

/// The sign before a member's name.
pub(crate) fn member_sign(operator: MemberOperator) -> u8
    ensures is { result ≡ member_sign operator }
    ensures low { result < 46 }
{
    match operator {
        MemberOperator::Dot => 6,
        MemberOperator::Arrow => 7,
    }
}

/// The keyword of a storage class.
pub(crate) fn storage_word(storage: Storage) -> u8
    ensures is { result ≡ storage_word storage }
    ensures low { result < 32 }
{
    match storage {
        Storage::Typedef => 26,
        Storage::Extern => 11,
        Storage::Static => 23,
        Storage::Auto => 0,
        Storage::Register => 18,
    }
}

/// The keyword of a qualifier.
pub(crate) fn qualifier_word(qualifier: Qualifier) -> u8
    ensures is { result ≡ qualifier_word qualifier }
    ensures low { result < 32 }
{
    match qualifier {
        Qualifier::Const => 4,
        Qualifier::Volatile => 30,
    }
}

/// The keyword of a type.
pub(crate) fn basic_word(basic: BasicType) -> u8
    ensures is { result ≡ basic_word basic }
    ensures low { result < 32 }
{
    match basic {
        BasicType::Void => 29,
        BasicType::Char => 3,
        BasicType::Short => 20,
        BasicType::Int => 16,
        BasicType::Long => 17,
        BasicType::Signed => 21,
        BasicType::Unsigned => 28,
        BasicType::Float => 12,
        BasicType::Double => 8,
    }
}

/// The keyword of a structure or union.
pub(crate) fn record_word(kind: RecordKind) -> u8
    ensures is { result ≡ record_word kind }
    ensures low { result < 32 }
{
    match kind {
        RecordKind::Struct => 24,
        RecordKind::Union => 27,
    }
}
