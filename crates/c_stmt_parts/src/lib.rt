//! Of what the check of C's statements (C89 3.6) is made: labels and cases with their numbers, what a function has
//! so far, the declarations at a block's head, what is asked of tests, switches and returns, and statements
//! without statements in them.
#![tactic(auto)]

mod around;
mod block_declarations;
mod body;
mod cases;
mod label_numbers;
mod leaves;
mod tests;

pub use around::{Around, Within};
pub use block_declarations::declarations;
pub use body::{Body, behind, push_all};
pub use cases::Cases;
pub use label_numbers::labels;
pub use leaves::{break_, case, continue_, default, goto, is_again, label, number_of};
pub use tests::{evaluated, repeated, returned, switched, test};
