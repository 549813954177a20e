//! The bytes of string literals, boxed to keep expressions small.
ghost use Rattle.std.specs.Prelude.{◌≡◌, IfOk};

use lcc_base::{Bytes, Memory};
use std::alloc::Global;
use std::marker::Model;

/// The bytes of a string literal, which contracts see as a list. They stand behind one pointer, so that
/// no kind of expression is larger for them.
#[derive(Debug, Drop)]
pub struct LiteralText {
    bytes: Box<Bytes>,
}

impl Model for LiteralText {
    ghost use Rattle.std.specs.Prelude.{List, ℕ};

    ghost Value = { List ℕ };

    ghost view = { λ t. t.bytes.value };
}

impl LiteralText {
    /// The text of these bytes. `Memory` comes where an allocation is refused.
    pub fn new(alloc: Global, bytes: Bytes) -> Result<Self, Memory>
        ensures { IfOk result (λ t. t ≡ bytes) }
    {
        let bytes = Box::new(alloc, bytes)?;
        Ok(LiteralText { bytes })
    }

    /// All of them.
    pub fn as_slice(&self) -> &[u8]
        ensures { result.now ≡ self.now }
    {
        self.bytes.as_slice()
    }
}
