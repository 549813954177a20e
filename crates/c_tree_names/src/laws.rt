//! Laws of denoted units: they are grammatical, and their names are well-formed.
ghost use Rattle.c_tree_names.specs.Laws.{DenotedUnitsAreGrammatical};

/// The unit that a source denotes is one of the grammar, and each name of a variable, an enumerator or a declarator in it
/// has at least one byte, and its bytes are letters, digits and `_`.
pub fn denoted_units_are_grammatical()
    ensures { DenotedUnitsAreGrammatical }
{}
