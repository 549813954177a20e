//! What callers of `fold` know of the types of constants.
ghost use Rattle.std.specs.Prelude.{◌≡◌, ℕ, List, true, false};
ghost use Rattle.c_types.specs.Conversions.{is_integer};
ghost use Rattle.c_types.specs.Layout.{Tag};
ghost use Rattle.c_types.specs.Table.{Table, type_at, form_at, is_qualified};
ghost use Rattle.c_meaning.specs.CoreTrees.{CoreOf, seen, type_of};
ghost use Rattle.c_meaning.specs.Fits.{Fits, IsOpenLeaf};
ghost use Rattle.c_meaning.specs.Scalars.{is_signed};
ghost use Rattle.c_meaning.specs.Types.{qualifiers_of};
ghost use Rattle.c_values.specs.Folding.{has_sign, IsTyped};
ghost use Rattle.c_values.specs.Signs.{HasBasicForms, is_bare};

/// The place of an integer type tells whether its numbers have a sign, unless the type has qualifiers,
/// or its form is that of a qualified type whose set of qualifiers is empty.
pub fn integer_types_are_signed()
    ensures unqualified { (t : Table) → (id : ℕ) → HasBasicForms t → is_bare (form_at t id) ≡ false → is_integer (type_at t id) ≡ true → qualifiers_of (type_at t id) ≡ 0 → is_signed (type_at t id) ≡ has_sign id }
    ensures own { (t : Table) → (id : ℕ) → HasBasicForms t → is_qualified (form_at t id) ≡ false → is_integer (type_at t id) ≡ true → is_signed (type_at t id) ≡ has_sign id }
{}

/// An expression that is checked has a type whose place tells the sign, where it is constant and its
/// type's form is no qualified one.
pub fn constants_are_typed()
    ensures { (t : Table) → (tags : List Tag) → (c : CoreOf ℕ) → HasBasicForms t → is_qualified (form_at t (type_of c)) ≡ false → Fits IsOpenLeaf tags (seen (type_at t) c) → IsTyped t c }
{}
