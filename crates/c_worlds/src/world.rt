//! The state of a run: storage, locals, input and output.
use crate::locals::Locals;
use lcc_base::Bytes;
use objects::Storage;

/// What a run acts on: the objects that live, the locals of the open calls, the input that is left, and the output.
#[derive(Drop)]
pub struct World<'a> {
    pub storage: Storage,
    pub locals: Locals,
    pub input: &'a [u8],
    pub output: Bytes,
}
