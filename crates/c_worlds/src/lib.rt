//! What a C program's run acts on, as it is kept in memory: the program, the objects that live, the running call's
//! locals, what is left of the input, and the output; and what the types of the program say of its values.
#![tactic(auto)]

mod defining;
mod locals;
mod names;
mod program;
mod stop;
mod types;
mod world;

pub use locals::Locals;
pub use names::Names;
pub use program::Program;
pub use stop::{Stop, at_line, store_at_line};
pub use types::{
    alignment, array_length, is_const, is_pointer, is_record, known_type, scalar, size,
};
pub use world::World;
