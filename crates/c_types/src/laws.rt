//! Laws of types and their tables. Each function's contract is one, and nothing runs.
ghost use Rattle.std.specs.Prelude.{◌≡◌, ◌&&◌, ℕ, All, List, Some, true};
ghost use Rattle.c_types.specs.BitFields.{IsInUnit, have_fields};
ghost use Rattle.c_types.specs.CType.{CType};
ghost use Rattle.c_types.specs.Compatible.{compatible};
ghost use Rattle.c_types.specs.Composite.{composite};
ghost use Rattle.c_types.specs.Members.{MemberAt, member_of, member_places};
ghost use Rattle.c_types.specs.Table.{tags};

use crate::type_table::TypeTable;

/// A type is compatible with itself, and two types are in either order (C89 3.1.2.6).
pub fn compatible_types_are_mutual()
    ensures itself { (s : CType) → compatible s s ≡ true }
    ensures either { (s u : CType) → compatible s u ≡ compatible u s }
{}

/// The composite of two compatible types is compatible with both, and a type is compatible with it
/// exactly where it is with both (C89 3.1.2.6).
pub fn composites_are_compatible()
    ensures first { (s u : CType) → compatible s u ≡ true → compatible s (composite s u) ≡ true }
    ensures second { (s u : CType) → compatible s u ≡ true → compatible (composite s u) u ≡ true }
    ensures others { (s u v : CType) → compatible s u ≡ true → compatible (composite s u) v ≡ (compatible s v && compatible u v) }
{}

impl TypeTable {
    /// The members with a width of each definition are bit-fields that there may be (C89 3.5.2.1).
    /// A member that is told and has bits is of int or unsigned int, and its bits lie within its unit.
    pub fn bit_fields_are_in_units(&self)
        ensures fields { have_fields (tags self.now) ≡ true }
        ensures members { (s : CType) → (name : List ℕ) → (m : MemberAt) → member_of (tags self.now) s name ≡ Some m → IsInUnit m }
        ensures places { (s : CType) → All IsInUnit (member_places (tags self.now) s) }
    {
        // A field is named, so that what the table keeps is known here.
        let _basic = &self.basic;
    }
}
