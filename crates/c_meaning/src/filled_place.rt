//! The single stores that an initialiser comes to.
use crate::core_expr::CoreExpr;
use c_types::MemberPlace;

/// What an initialiser stores in a place of an object (C89 3.5.7): a scalar, a bit-field, a structure as
/// a whole, or an array of characters as a whole by a string literal. The array gets the literal's bytes,
/// without its null where there is no room for it, and zeros behind them. The place's offset is counted
/// from the object's first byte.
#[derive(Drop)]
pub struct FilledPlace {
    pub at: MemberPlace,
    /// The value; for an array, the literal's own array: a place.
    pub value: CoreExpr,
}
