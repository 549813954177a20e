//! Laws of matching values: C's values and bytes stand in forests, and do so as memory grows.
ghost use Rattle.c_match.specs.Laws.{BytesGrow, ValuesGrow, WordsAreRead, WordsHaveBytes};

/// What stands for a value, or for bytes, does so still where further objects have ranges.
pub fn ranges_may_grow()
    ensures values { ValuesGrow }
    ensures bytes { BytesGrow }
{}

/// The bytes of a word that stands for a value stand for the value's bytes; and what is read of bytes that stand for a
/// scalar's is a word that stands for the scalar.
pub fn bytes_are_read()
    ensures written { WordsHaveBytes }
    ensures read { WordsAreRead }
{}
