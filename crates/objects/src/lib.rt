//! Values, bytes and objects of C programs: what is read and written, what is undefined and why, and
//! arithmetic on words.
#![tactic(auto)]

mod arithmetic;
mod byte;
mod content;
mod conversions;
mod few_bytes;
mod field;
mod fields;
mod laws;
mod object;
mod operators;
mod place;
mod pointers;
mod purpose;
mod scalars;
mod slices;
mod storage;
mod store_fault;
mod storing;
mod value;
mod width;

pub use arithmetic::{binary, change, combine, compare, compare_words, test_integer, unary};
pub use byte::Byte;
pub use conversions::{convert, extend, to_scalar};
pub use field::Field;
pub use fields::{read_field, write_field};
pub use laws::{
    bits_are_written, bytes_are_written, fields_are_read_back, objects_live_and_end,
    scalars_are_read_back, structures_are_copied, written_scalars_are_read,
};
pub use object::Object;
pub use operators::{Binary, Comparison, Unary};
pub use pointers::{
    compare_pointers, move_pointer, order_pointers, subtract_pointers, test_pointer,
};
pub use purpose::Purpose;
pub use scalars::{half_bytes, parts, same_object, same_whole, scalar, word_bytes};
pub use storage::Storage;
pub use store_fault::StoreFault;
pub use value::{ObjectName, Value};
pub use width::{Scalar, Width};
