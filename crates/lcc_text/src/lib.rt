//! What the readers of texts share: kinds of bytes, lines, names and decimal numbers.
#![tactic(auto)]

mod class;
mod decimal;
mod line;
mod names;
mod run;

pub use class::{ByteClass, Class};
pub use decimal::decimal_value;
pub use line::next_line;
pub use names::{find, place};
pub use run::{run_len, starts_in};
