//! What is typed fits: each expression, initialiser and declaration that typing accepts keeps what a checked unit promises of it.
#![tactic(auto)]

mod laws;

pub use laws::{
    fitting_stays, typed_declarations_fit, typed_expressions_fit, typing_keeps_what_is_sound,
};
