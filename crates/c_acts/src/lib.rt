//! What each kind of checked expression does when the values of its parts are there.
#![tactic(auto)]

mod asking;
mod assigning;
mod binary_acts;
mod changing;
mod comparing;
mod leaves;
mod moving;
mod number_stores;
mod reading;
mod shape;
mod spot;
mod storing;
mod unary_acts;

pub use asking::asked;
pub use binary_acts::{Parts, binary_act, combine};
pub use comparing::truth;
pub use leaves::leaf;
pub use number_stores::number_stored;
pub use reading::read_number;
pub use shape::Shape;
pub use spot::Spot;
pub use storing::{Writing, store};
pub use unary_acts::unary_act;
