//! What keywords begin in specifiers, and signs before operands.
ghost use Rattle.std.specs.Prelude.{◌≡◌};
ghost use Rattle.c_ast.specs.Operators.{operand_level};
ghost use Rattle.c_readings.specs.Words.{word_of, prefix_of};
ghost use Rattle.c_expr.specs.Words.{seen_if_any};

use c_ast::{BasicType, PrefixOperator, Qualifier, RecordKind, Storage};

/// What a keyword begins in specifiers.
#[derive(Clone, Copy, Debug, PartialEq, Eq)]
pub(crate) enum Word {
    Storage(Storage),
    Qualifier(Qualifier),
    Basic(BasicType),
    Record(RecordKind),
    Enum,
}

/// What the keyword of this number begins in specifiers, if it begins anything there.
pub(crate) fn word_of(keyword: u8) -> Option<Word>
    ensures { seen_if_any result ≡ word_of keyword }
{
    match keyword {
        0 => Some(Word::Storage(Storage::Auto)),
        3 => Some(Word::Basic(BasicType::Char)),
        4 => Some(Word::Qualifier(Qualifier::Const)),
        8 => Some(Word::Basic(BasicType::Double)),
        10 => Some(Word::Enum),
        11 => Some(Word::Storage(Storage::Extern)),
        12 => Some(Word::Basic(BasicType::Float)),
        16 => Some(Word::Basic(BasicType::Int)),
        17 => Some(Word::Basic(BasicType::Long)),
        18 => Some(Word::Storage(Storage::Register)),
        20 => Some(Word::Basic(BasicType::Short)),
        21 => Some(Word::Basic(BasicType::Signed)),
        23 => Some(Word::Storage(Storage::Static)),
        24 => Some(Word::Record(RecordKind::Struct)),
        26 => Some(Word::Storage(Storage::Typedef)),
        27 => Some(Word::Record(RecordKind::Union)),
        28 => Some(Word::Basic(BasicType::Unsigned)),
        29 => Some(Word::Basic(BasicType::Void)),
        30 => Some(Word::Qualifier(Qualifier::Volatile)),
        _ => None,
    }
}

/// The prefix operator of the sign of this number, if it is one.
pub(crate) fn prefix_of(sign: u8) -> Option<PrefixOperator>
    ensures { result ≡ prefix_of sign }
{
    match sign {
        8 => Some(PrefixOperator::Increment),
        9 => Some(PrefixOperator::Decrement),
        10 => Some(PrefixOperator::Address),
        11 => Some(PrefixOperator::Indirect),
        12 => Some(PrefixOperator::Plus),
        13 => Some(PrefixOperator::Minus),
        14 => Some(PrefixOperator::Complement),
        15 => Some(PrefixOperator::Not),
        _ => None,
    }
}

/// The level of what stands behind the operator.
pub(crate) fn operand_level(operator: PrefixOperator) -> u8
    ensures { result ≡ operand_level operator }
{
    match operator {
        PrefixOperator::Increment | PrefixOperator::Decrement => 14,
        _ => 13,
    }
}
