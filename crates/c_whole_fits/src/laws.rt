//! Laws of whole units: what fits while names are symbols fits when they are resolved.
ghost use Rattle.c_whole_fits.specs.Laws.{PlacedFits, PlacedKeepsLabels, PlacedKeepsType, PlacedKeepsValue, PlacedPlacesFit, PlacedStmtFits, SymbolsAreMeant, WholeBodyFits, WholeFits, WholeKeepsLabels, WholeKeepsType, WholeKeepsValue, WholePlacesFit, WholeStmtFits};

/// What a unit's symbols stand for is an object, a function, a built-in function or nothing; and where a name's type is
/// no function's, it is a place.
pub fn symbols_are_meant()
    ensures symbols { SymbolsAreMeant }
{}

/// An expression that fits while names are symbols still fits when its unit is made whole, where what its symbols stand
/// for and its string literals are there; and it keeps its type, and whether it is a value.
pub fn whole_expressions_fit()
    ensures expressions { WholeFits }
    ensures types { WholeKeepsType }
    ensures values { WholeKeepsValue }
{}

/// An expression that fits still fits when its calls name where their copies begin; and it keeps its type, and whether it
/// is a value.
pub fn placed_expressions_fit()
    ensures expressions { PlacedFits }
    ensures types { PlacedKeepsType }
    ensures values { PlacedKeepsValue }
{}

/// What an initialiser stores in an object lies in it as before when its unit is made whole, each value is one for its
/// place, and a string literal is a text that its array has room for.
pub fn whole_initialisers_fit()
    ensures whole { WholePlacesFit }
    ensures placed { PlacedPlacesFit }
{}

/// A statement of a function that fits and has its shape does so when its unit is made whole and when its calls name
/// where their copies begin; and the same labels stand in it. So a function's body does, with the copies as its last locals.
pub fn whole_statements_fit()
    ensures whole { WholeStmtFits }
    ensures labels { WholeKeepsLabels }
    ensures placed { PlacedStmtFits }
    ensures placed_labels { PlacedKeepsLabels }
    ensures bodies { WholeBodyFits }
{}
