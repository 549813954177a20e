//! The semantic actions of rules: which code each one emits and what it hands up.
use frame_code::Arithmetic;

/// What a rule adds to the code and hands up.
#[derive(Clone, Copy, Debug, PartialEq, Eq)]
pub enum Action {
    /// Nothing, and hands up nothing.
    Discard,
    /// Nothing, and hands up its one part.
    Pass,
    /// Nothing, and hands up the node's constant.
    TakeConstant,
    /// Nothing, and hands up the node's name or label.
    TakeName,
    /// The load of its one part, a constant; it hands up the node's register, and so do the next three.
    LoadConstant,
    /// An operation on its two parts, a register, and a register or a constant.
    Combine(Arithmetic),
    /// The negative of its one part, a register.
    Negate,
    /// A call of its one part, a name.
    Call,
    /// Its one part, a register, as an argument word; it hands up nothing, and so does the next.
    HandOver,
    /// A return of its one part, a register.
    Return,
}
