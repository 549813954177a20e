//! The initial data of a lowered unit's objects: what a checked unit's objects and texts hold as its program starts, as
//! items of bytes, zeros and addresses (C89 3.1.4, 3.5.7).
#![tactic(auto)]

mod addresses;
mod data;
mod homes;
mod laws;
mod reader;
mod still;
mod stretches;

pub use data::initial_data;
pub use laws::{
    data_fits, data_stand, numbers_stand, start_is_sound, start_stands_alone, texts_stand,
};
