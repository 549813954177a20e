//! Strings over arrays of characters (C89 3.5.7).
ghost use Rattle.std.specs.Prelude.{◌≡◌, ◌<◌, ◌&&◌, length};
ghost use Rattle.c_types.specs.Table.{type_at};
ghost use Rattle.c_meaning.specs.CoreTrees.{IsIn, seen, what_of};
ghost use Rattle.c_meaning.specs.Filling.{count_of, is_text_over as text_over, text_of};
ghost use Rattle.c_meaning.specs.Initialising.{is_longer as longer};
ghost use Rattle.c_values.specs.Valued.{qualified_in};

use crate::kinds::{array_of, is_text_over};
use c_meaning::{CoreExpr, CoreKind};
use c_types::TypeTable;
use c_values::QualifiedType;

/// The bytes of a string literal, without its null. None of any other expression.
pub(crate) fn bytes(c: &CoreExpr) -> &[u8]
    ensures { result.now ≡ text_of (what_of c.now) }
{
    match &c.what {
        CoreKind::Literal(bytes) => bytes.as_slice(),
        _ => &[],
    }
}

/// Whether these bytes are more than an array of so many has room for.
fn is_longer(bytes: &[u8], count: Option<u32>) -> bool
    ensures { result ≡ longer bytes.now count }
{
    match count {
        Some(count) => (count as usize) < bytes.len(),
        None => false,
    }
}

/// Whether a string literal over an array of characters has more bytes, without its null, than the array.
pub(crate) fn is_long_text(types: &TypeTable, of: QualifiedType, c: &CoreExpr) -> bool
    requires of { of.of < length types.now.forms }
    requires within { IsIn (length types.now.forms) c.now }
    ensures { result ≡ (text_over (qualified_in types.now of) (seen (type_at types.now) c.now) && longer (text_of (what_of (seen (type_at types.now) c.now))) (count_of (qualified_in types.now of))) }
{
    if !is_text_over(types, of, c) {
        return false;
    }
    match array_of(types, of) {
        Some((_, count)) => is_longer(bytes(c), count),
        None => false,
    }
}
