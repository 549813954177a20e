//! Lowered units made of their parts, once these keep what each lowered unit keeps: each name and label that they name is there.
#![tactic(auto)]

mod labels;
mod objects;
mod owners;
mod parts;
mod symbols;

pub use parts::whole;
