//! Laws of local names: each use has a type compatible with its local's, and initialisers fit.
ghost use Rattle.c_local_names.specs.Laws.{UnitLocalsFit};

/// In a typed unit each name of a local object stands, where it is used, with a type that is compatible with that of
/// its function's local; what a local begins with lies in it; string literals have their types; and what has static
/// storage begins with no local's value or address.
pub fn locals_fit()
    ensures { UnitLocalsFit }
{}
