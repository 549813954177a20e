//! Worked examples of the grammar: typedef names, scopes, and which if an else belongs to.
ghost use Rattle.std.specs.Prelude.{◌≡◌, true, false};
ghost use Rattle.c_ast.specs.InForce.{nothing_in_force};
ghost use Rattle.c_ast.specs.UnitMarks.{unit};
ghost use Rattle.c_ast.specs.Spell.{spell, Classed};
ghost use Rattle.c_ast.specs.Examples.{are_classed, hidden_difference, hidden_cast, hidden_tokens, shown_difference, shown_cast, prototype_ends, function_parameter, parameter_in_parentheses, own_parameters, own_parameters_wrong, label, size_of_type, size_of_cast, enumerator_later, nearest_else, farthest_else};

/// A typedef name that a parameter hides makes a difference of `(T)-1`, one in force a cast. Both
/// are trees of the same tokens, and one of them fits.
pub fn typedef_names()
    ensures hidden_difference { Classed (unit hidden_difference) nothing_in_force }
    ensures hidden_cast { are_classed (unit hidden_cast) nothing_in_force ≡ false }
    ensures shown_cast { Classed (unit shown_cast) nothing_in_force }
    ensures shown_difference { are_classed (unit shown_difference) nothing_in_force ≡ false }
    ensures tokens { spell hidden_difference ≡ hidden_tokens }
    ensures same_tokens { spell hidden_cast ≡ hidden_tokens }
{}

/// A prototype's names end with it; `int (T)` as a parameter is a function's type; a function's
/// own parameters, and no others, are in force in its body; a typedef name may be a label; `sizeof`
/// before a type in parentheses is the type's; an enumerator is in force from its own end.
pub fn scopes_and_types()
    ensures prototype_ends { Classed (unit prototype_ends) nothing_in_force }
    ensures function_parameter { Classed (unit function_parameter) nothing_in_force }
    ensures parameter_in_parentheses { are_classed (unit parameter_in_parentheses) nothing_in_force ≡ false }
    ensures own_parameters { Classed (unit own_parameters) nothing_in_force }
    ensures own_parameters_wrong { are_classed (unit own_parameters_wrong) nothing_in_force ≡ false }
    ensures label { Classed (unit label) nothing_in_force }
    ensures size_of_type { Classed (unit size_of_type) nothing_in_force }
    ensures size_of_cast { are_classed (unit size_of_cast) nothing_in_force ≡ false }
    ensures enumerator_later { Classed (unit enumerator_later) nothing_in_force }
{}

/// An else goes with the nearest if.
pub fn nearest_if()
    ensures nearest { Classed (unit nearest_else) nothing_in_force }
    ensures farthest { are_classed (unit farthest_else) nothing_in_force ≡ false }
    ensures same_tokens { spell nearest_else ≡ spell farthest_else }
{}
