//! Types as initialisers ask for them, and what an expression can fill (C89 3.5.7).
ghost use Rattle.std.specs.Prelude.{◌≡◌, ◌<◌, length, false, IfSome, IfNone};
ghost use Rattle.c_types.specs.CType.{Array};
ghost use Rattle.c_types.specs.Table.{type_at};
ghost use Rattle.c_meaning.specs.CoreTrees.{IsIn, seen, what_of};
ghost use Rattle.c_meaning.specs.Filling.{fills as does_fill, is_literal_kind, is_of_chars as of_chars, is_text_over as text_over};
ghost use Rattle.c_meaning.specs.Types.{is_array, is_scalar as scalar};
ghost use Rattle.c_values.specs.Valued.{qualified_in};

use c_meaning::{CoreExpr, CoreKind};
use c_types::{TypeForm, TypeTable};
use c_values::values::plain;
use c_values::{QualifiedType, kinds};

/// Whether the type is an integer type or a pointer.
pub(crate) fn is_scalar(types: &TypeTable, of: QualifiedType) -> bool
    requires { of.of < length types.now.forms }
    ensures { result ≡ scalar (qualified_in types.now of) }
{
    kinds::is_scalar(types, of.of)
}

/// Whether the type is an array of characters, signed or unsigned.
pub(crate) fn is_of_chars(types: &TypeTable, of: QualifiedType) -> bool
    requires { of.of < length types.now.forms }
    ensures { result ≡ of_chars (qualified_in types.now of) }
{
    match kinds::element(types, of.of) {
        Some(element) => {
            let (base, _) = types.unqualified(element.of);
            matches!(
                types.form(base),
                TypeForm::Char | TypeForm::SignedChar | TypeForm::UnsignedChar
            )
        }
        None => false,
    }
}

/// The elements of the type, and how many they are, if it is an array: they have its qualifiers too.
pub(crate) fn array_of(types: &TypeTable, of: QualifiedType) -> Option<(QualifiedType, Option<u32>)>
    requires { of.of < length types.now.forms }
    ensures array { IfSome result (λ r. qualified_in types.now of ≡ Array (qualified_in types.now r.0) r.1) }
    ensures within { IfSome result (λ r. r.0.of < length types.now.forms) }
    ensures none { IfNone result (is_array (qualified_in types.now of) ≡ false) }
{
    let (base, qualifiers) = types.under(of.of, of.qualifiers);
    match types.array_of(base) {
        Some((of, count)) => Some((QualifiedType { of, qualifiers }, count)),
        None => None,
    }
}

/// Whether the expression is a string literal.
fn is_text(c: &CoreExpr) -> bool
    ensures { result ≡ is_literal_kind (what_of c.now) }
{
    matches!(c.what, CoreKind::Literal(_))
}

/// Whether a string literal stands over an array of characters.
pub(crate) fn is_text_over(types: &TypeTable, of: QualifiedType, c: &CoreExpr) -> bool
    requires of { of.of < length types.now.forms }
    requires within { IsIn (length types.now.forms) c.now }
    ensures { result ≡ text_over (qualified_in types.now of) (seen (type_at types.now) c.now) }
{
    is_of_chars(types, of) && is_text(c)
}

/// Whether the expression fills an object of the type as a whole: a scalar, a structure of its type, an
/// array of characters by a string.
pub(crate) fn does_fill(types: &TypeTable, of: QualifiedType, c: &CoreExpr) -> bool
    requires of { of.of < length types.now.forms }
    requires within { IsIn (length types.now.forms) c.now }
    ensures { result ≡ does_fill (qualified_in types.now of) (seen (type_at types.now) c.now) }
{
    is_scalar(types, of)
        || (kinds::is_record(types, of.of) && kinds::are_types_alike(types, of, plain(c.of)))
        || is_text_over(types, of, c)
}
