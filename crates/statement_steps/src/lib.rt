//! The steps of statements that evaluate no expression: labels, zeros, stored values, returns, the search of a switch, and where the
//! locals of a function stand. Each is exactly the step of the lowering's definition.
#![tactic(auto)]

mod cases;
mod filling;
mod labels;
mod layouts;
mod numbers;
mod parameters;
mod progress;
mod returns;
mod searches;
mod sides;
mod site;
mod tests;
mod zeroing;

pub use filling::{fill_place, zero_whole};
pub use labels::Labels;
pub use layouts::{Layout, first_word, lay_out, word_count};
pub use parameters::store_parameters;
pub use progress::{Exits, Progress};
pub use returns::{give, give_nothing};
pub use searches::{Choice, search_cases};
pub use site::{FunctionSite, label_or, result_of};
