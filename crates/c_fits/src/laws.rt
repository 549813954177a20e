//! Laws of typing: what it accepts fits its types, and what is known stays sound.
ghost use Rattle.c_fits.specs.Laws.{DeclarationFits, DeclarationLeads, DeclaredFollows, FittingStays, InitialiserFits, NamedFollows, NothingIsSound, TypedFits, TypedFollows, TypedValueFits};

/// Each expression of the grammar that typing accepts, where what is known is sound, has the operands and the type
/// that its kind promises; so has its value.
pub fn typed_expressions_fit()
    ensures expressions { TypedFits }
    ensures values { TypedValueFits }
{}

/// What an initialiser stores has values for its places, which lie in their object, a bit-field in its unit; and so it is
/// with the objects and locals of a declaration, which have sizes.
pub fn typed_declarations_fit()
    ensures initialisers { InitialiserFits }
    ensures declarations { DeclarationFits }
{}

/// What is known where a unit begins is sound; and so it is behind an expression, a type name or a declarator that
/// typing accepts, where it was so before: a structure or union is defined once, and no symbol becomes another one.
/// Behind a declaration, too, it is sound, and what was defined stays so.
pub fn typing_keeps_what_is_sound()
    ensures start { NothingIsSound }
    ensures expressions { TypedFollows }
    ensures names { NamedFollows }
    ensures declared { DeclaredFollows }
    ensures declarations { DeclarationLeads }
{}

/// What fits does so still where further structures and unions are defined.
pub fn fitting_stays()
    ensures expressions { FittingStays }
{}
