//! A law of the grammar: the marks of a unit that tokens denote run on them.
ghost use Rattle.std.specs.Prelude.{◌≤◌, ◌↔◌, List};
ghost use Rattle.c_ast.specs.Lexemes.{Placed};
ghost use Rattle.c_ast.specs.InForce.{nothing_in_force};
ghost use Rattle.c_ast.specs.Trees.{UnitTree};
ghost use Rattle.c_ast.specs.Marks.{Runs};
ghost use Rattle.c_ast.specs.UnitMarks.{unit};
ghost use Rattle.c_ast.specs.Levels.{FitsUnit};
ghost use Rattle.c_ast.specs.Heights.{unit_height};
ghost use Rattle.c_ast.specs.Spell.{Denotes};

/// Tokens denote a unit exactly where its marks run on them, from no names in force to the
/// tokens' end, the unit is one that the grammar derives, and its height is at most 500.
pub fn marks_run()
    ensures { (ts : List Placed) (u : UnitTree) → Denotes ts u ↔ (FitsUnit u × (unit_height u ≤ 500) × Runs (unit u) nothing_in_force ts) }
{}
