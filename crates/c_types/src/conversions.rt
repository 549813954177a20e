//! The integral promotions and the usual arithmetic conversions.
ghost use Rattle.std.specs.Prelude.{◌≡◌, ◌≤◌, ◌<◌, ℕ, List, length, false, true};
ghost use Rattle.c_types.specs.CType.{CType as CTypeTree, qualify};
ghost use Rattle.c_types.specs.Conversions.{common, is_integer, promoted, usual};
ghost use Rattle.c_types.specs.Table.{basic_forms, formed, is_qualified, type_at, type_in, types_of};

use crate::type_form::{TypeForm, TypeId};
use crate::type_table::TypeTable;

/// The places of the basic types that conversions give.
pub(crate) const INT: TypeId = 6;

const UNSIGNED: TypeId = 7;

const LONG: TypeId = 8;

const UNSIGNED_LONG: TypeId = 9;

/// The common type of two promoted ones.
fn common(a: TypeId, b: TypeId) -> TypeId
    requires a { (6 ≤ a) × (a ≤ 9) }
    requires b { (6 ≤ b) × (b ≤ 9) }
    ensures within { (6 ≤ result) × (result ≤ 9) }
    ensures is { type_in (types_of basic_forms) result ≡ common (type_in (types_of basic_forms) a) (type_in (types_of basic_forms) b) }
{
    if a == UNSIGNED_LONG || b == UNSIGNED_LONG {
        return UNSIGNED_LONG;
    }
    match (a, b) {
        (LONG, UNSIGNED) | (UNSIGNED, LONG) => UNSIGNED_LONG,
        (LONG, _) | (_, LONG) => LONG,
        (UNSIGNED, _) | (_, UNSIGNED) => UNSIGNED,
        _ => INT,
    }
}

/// The place of what the integral promotions make of an integer type of this form.
fn promoted_place(form: &TypeForm) -> TypeId
    requires { is_qualified form.now ≡ false }
    ensures within { (6 ≤ result) × (result ≤ 9) }
    ensures means { (q n : ℕ) (known : List CTypeTree) → is_integer (qualify q (formed known n form.now)) ≡ true → type_in (types_of basic_forms) result ≡ promoted (qualify q (formed known n form.now)) }
{
    match form {
        TypeForm::Unsigned => UNSIGNED,
        TypeForm::Long => LONG,
        TypeForm::UnsignedLong => UNSIGNED_LONG,
        _ => INT,
    }
}

impl TypeTable {
    /// The type that the integral promotions (C89 3.2.1.1) make of an integer type, qualified or
    /// not: int, or its own without qualifiers.
    pub fn promote(&self, id: TypeId) -> TypeId
        requires within { id < length self.now.forms }
        requires integer { is_integer (type_at self.now id) ≡ true }
        ensures place { (6 ≤ result) × (result ≤ 9) }
        ensures means { type_at self.now result ≡ promoted (type_at self.now id) }
    {
        let (base, _) = self.unqualified(id);
        self.basic_type(promoted_place(self.form(base)))
    }

    /// The type that the usual arithmetic conversions (C89 3.2.1.5) make of two integer types.
    pub fn usual(&self, a: TypeId, b: TypeId) -> TypeId
        requires a { a < length self.now.forms }
        requires a_integer { is_integer (type_at self.now a) ≡ true }
        requires b { b < length self.now.forms }
        requires b_integer { is_integer (type_at self.now b) ≡ true }
        ensures place { (6 ≤ result) × (result ≤ 9) }
        ensures means { type_at self.now result ≡ usual (type_at self.now a) (type_at self.now b) }
    {
        let a = self.basic_type(self.promote(a));
        let b = self.basic_type(self.promote(b));
        self.basic_type(common(a, b))
    }
}
