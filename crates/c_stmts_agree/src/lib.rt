//! The lowering of a function's statements agrees with C, where that of its expressions does.
#![tactic(auto)]

mod laws;

pub use laws::{
    bodies_agree, jumps_stay, labels_stand_once, parts_agree, returns_agree, statements_agree,
};
