//! Expressions that call nothing, evaluated in one go.
#![tactic(auto)]

mod at_once;
mod effects;
mod found;
mod parts;
mod plain;
mod plain_values;
mod words;

pub use at_once::{effect_at_once, test_at_once, value_at_once};
pub use plain::is_plain;
pub use plain_values::{plain_used, plain_value};
