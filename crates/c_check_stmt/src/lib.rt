//! Statements of C, checked (C89 3.6): each is typed where its parts are, in order, and its own node breaks no
//! constraint and passes no limit.
#![tactic(auto)]

mod branches;
mod endings;
mod labelled;
mod leaves;
mod loops;
mod noted;
mod spot;
mod statements;

pub use statements::block;
