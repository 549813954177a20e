//! Laws of typing steps: what typing a construct adds to what is known, and what names stand for.
ghost use Rattle.c_typing_steps.specs.Laws.{DeclaratorsStep, ExpressionNamesStand, ExpressionsStep, InitialiserNamesStand, InitialisersStep, InsideSpecifiersStep, OwnSpecifiersStep, SpecifiersStep};

/// Typing an expression, specifiers, a declarator or an initialiser changes what is known by calls of undeclared names,
/// tags, enumerators and the definitions of structures and unions, one behind the other.
pub fn typing_steps()
    ensures expressions { ExpressionsStep }
    ensures specifiers { SpecifiersStep }
    ensures declarators { DeclaratorsStep }
    ensures own { OwnSpecifiersStep }
    ensures inside { InsideSpecifiersStep }
    ensures initialisers { InitialisersStep }
{}

/// A name in a typed expression, or in what an initialiser stores, stands for what the declaration says that is in force
/// there; and a string literal has the type of its bytes and a null.
pub fn typed_names_stand()
    ensures expressions { ExpressionNamesStand }
    ensures initialisers { InitialiserNamesStand }
{}
