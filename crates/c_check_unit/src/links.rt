//! Marks of symbols.
ghost use Rattle.std.specs.Prelude.{◌≡◌, false, get_or};

use c_symbols::SymbolId;

/// Whether a symbol is marked. It isn't where it is behind all that may be.
pub(crate) fn is_marked(marks: &[bool], id: SymbolId) -> bool
    ensures { result ≡ get_or marks.now id false }
{
    if id < marks.len() { marks[id] } else { false }
}
