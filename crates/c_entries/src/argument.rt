//! The arguments of calls: their values, types and lines.
ghost use Rattle.std.specs.Prelude.{◌≡◌, slice_get};

use c_types::TypeId;
use objects::Value;

/// An argument of a call: its value, of a structure the pointer to its copy; its type; and the line of its first token.
#[derive(Clone, Copy, Debug)]
pub struct Argument {
    pub value: Value,
    pub of: TypeId,
    pub line: u32,
}

/// The argument at a place, from 0.
pub(crate) fn argument_at(arguments: &[Argument], place: usize) -> Option<Argument>
    ensures { result ≡ slice_get arguments.now place }
{
    match arguments.get(place) {
        Some(argument) => Some(*argument),
        None => None,
    }
}
