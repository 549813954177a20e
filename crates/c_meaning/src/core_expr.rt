//! Checked expressions: names resolved, conversions explicit, and each with its type.
use crate::built_in::BuiltIn;
use crate::literal_text::LiteralText;
use c_symbols::SymbolId;
use c_types::TypeId;
use lcc_base::Items;
use objects::{Binary, Comparison, Scalar, Unary};
use std::marker::Model;

/// How the value of a place is changed. The right operand says by what.
#[derive(Clone, Copy, Debug, PartialEq, Eq)]
pub enum Change {
    /// By an operator, on signed or unsigned numbers of 32 bits. What it gives is converted to the
    /// place's type.
    Arithmetic { operator: Binary, signed: bool },
    /// A pointer, by so many elements of this size in bytes; backwards for `-`.
    Pointer { size: u32, back: bool },
}

/// What a value is converted to.
#[derive(Clone, Copy, Debug, PartialEq, Eq)]
pub enum Conversion {
    /// To void: to nothing.
    Void,
    /// To a pointer.
    Pointer,
    /// To an integer or enumeration type of this width and sign.
    Integer(Scalar),
}

/// What a checked expression is. Its parts are expressions too, as many as each kind says. An
/// expression of structure or union type is always a place.
#[derive(Debug, Drop)]
pub enum CoreKind {
    /// A place: a local object of the function, its parameters first.
    Local { place: u32, register: bool },
    /// A place: an object of the unit.
    Object(u32),
    /// A place: the array of a string literal of the unit.
    Text(u32),
    /// A place: the array of a string literal with these bytes and a null behind them, while the unit
    /// isn't whole.
    Literal(LiteralText),
    /// A place, or a function: what a symbol stands for, while the unit isn't whole.
    Symbol(SymbolId),
    /// A function of the unit.
    Function(u32),
    /// A built-in function.
    BuiltIn(BuiltIn),
    /// A place, or a function: what a pointer points to. Its part is the pointer.
    Pointed,
    /// A place: a member of the structure or union that its part is a place of. Its bytes, or for a
    /// bit-field its unit's, begin at the offset; a bit-field has a width above 0, and so many bits of
    /// its unit were filled before it.
    Member { offset: u32, first: u8, width: u8 },
    /// A number modulo 2^32.
    Number(u32),
    /// What a place holds.
    Read,
    /// A pointer to a place or to a function.
    Address,
    /// A pointer to the first element of an array.
    First,
    /// The value converted to the expression's type.
    Convert(Conversion),
    /// `+`, `-`, `~` on a promoted number.
    Unary(Unary),
    /// `!` of a scalar.
    Not,
    /// An operation on two numbers of one type, or of a shift on two promoted ones, signed as the left
    /// one is.
    Binary { operator: Binary, signed: bool },
    /// A comparison of two numbers of one type, signed as they are, or of two pointers.
    Compare { operator: Comparison, signed: bool },
    /// The sum of a pointer and an integer, in either order, that counts elements of this size in
    /// bytes; with `back`, the difference of the two.
    Move { size: u32, back: bool },
    /// How many elements of this size stand between two pointers.
    Difference { size: u32 },
    /// `&&`: the right part is evaluated only where the left one isn't 0.
    And,
    /// `||`: the right part is evaluated only where the left one is 0.
    Or,
    /// `a ? b : c`, b and c of the expression's type.
    Conditional,
    /// Parts in order, of which the last gives the value.
    Comma,
    /// The value is stored in the place: a place, and a value of its type without qualifiers; for a
    /// structure, two places.
    Assign,
    /// A place and a right operand: the place's value is changed, and the new one is given.
    Change(Change),
    /// The same, but the value before the change is given.
    Postfix(Change),
    /// A call: a pointer to a function, and the arguments, converted as the called type says. The
    /// structures that it passes, in the order of the arguments, and then the one that it gives are
    /// copied to locals of the calling function (C89 3.3.2.2, 3.6.6.4), one behind the other from this
    /// local on; 0 while the unit isn't whole.
    Call { copies: u32 },
}

/// A checked expression (C89 3.3).
#[derive(Debug, Drop)]
pub struct CoreExpr {
    pub what: CoreKind,
    /// Its type. A value's has no qualifiers.
    pub of: TypeId,
    /// The line of its first token.
    pub line: u32,
    /// Its parts, from left to right.
    pub kids: Items<CoreExpr>,
}

impl Model for CoreExpr {
    ghost use Rattle.std.specs.Prelude.{ℕ};
    ghost use Rattle.c_meaning.specs.CoreTrees.{CoreOf, Core, cores_of, parts, parts_fall};
    ghost use Rattle.c_meaning.specs.CoreCode.{core_code};
    ghost use Rattle.std.proofs.Common.{arith};

    ghost Value = { CoreOf ℕ };

    ghost coded = { core_code };

    ghost view = { λ c. Core c.what c.of c.line (cores_of c.kids) };

    ghost size = { parts };

    ghost size_decreases = { λ c h. omega (arith, parts_fall c.what c.of c.line c.kids) };
}
