//! Names and what they were declared as, by scopes (C89 3.1.2.1).
#![tactic(auto)]

mod declare;
mod hidden;
mod meanings;
mod open;
mod scope;
mod scopes;
mod symbol;

pub use declare::Declare;
pub use scope::Scope;
pub use scopes::{Scopes, SymbolId};
pub use symbol::{Storage, Symbol};
