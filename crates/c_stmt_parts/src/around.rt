//! Where a statement stands.

use c_symbols::Scope;
use c_types::TypeId;

/// What stands around a statement (C89 3.6.6).
#[derive(Clone, Copy, Debug)]
pub struct Around {
    pub in_loop: bool,
    pub in_switch: bool,
}

/// The function around a statement.
#[derive(Drop)]
pub struct Within {
    /// The type of the function's result.
    pub result: TypeId,
    /// The labels of its body with their numbers.
    pub labels: Scope,
}
