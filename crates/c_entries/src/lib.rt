//! Calls: what is called, whether it fits, how a function is entered and left, and what built-in functions do
//! (C89 3.3.2.2, 3.6.6.4, 3.7.1, 4.9.7.3, 4.9.7.6, 4.10.4.3).
#![tactic(auto)]

mod argument;
mod built_ins;
mod callee;
mod copying;
mod entering;
mod fitting;
mod leaving;

pub use argument::Argument;
pub use built_ins::{Provided, provide};
pub use callee::{Callee, callee_of};
pub use copying::copy_argument;
pub use entering::enter;
pub use fitting::{built_in_fits, function_fits, main_fits};
pub use leaving::{Waiting, leave};
