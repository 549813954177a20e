//! The operands of an operator by its arity: a leaf, a unary or a binary one.
/// What an operator has for its operands, from left to right: there are at most two.
#[derive(Clone, Copy)]
pub enum Operands<T> {
    Leaf,
    Unary(T),
    Binary(T, T),
}
