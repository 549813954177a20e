//! What each kind of expression does once its parts have come to operands: places, reads, writes, bit-fields, conversions,
//! operators and changes.
#![tactic(auto)]

mod binary_acts;
mod changes;
mod forms;
mod leaves;
mod parts;
mod places;
mod site;
mod sorts;
mod spots;
mod unary_acts;

pub use binary_acts::{binary_act, copy};
pub use forms::{Form, compares_signed, is_test};
pub use leaves::leaf;
pub use parts::{first_part, no_part, one_part, three_parts, two_parts};
pub use places::copy_place;
pub use site::Site;
pub use sorts::{Sort, keep_in, sort_of, sort_read};
pub use unary_acts::unary_act;
