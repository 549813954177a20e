//! Laws of the grammar's readers: up to each height they give its pieces, and nothing else. So tokens
//! denote at most one unit.
ghost use Rattle.std.specs.Prelude.{◌≡◌, Bool, List, ℕ};
ghost use Rattle.c_ast.specs.Lexemes.{Placed};
ghost use Rattle.c_ast.specs.Trees.{UnitTree};
ghost use Rattle.c_ast.specs.Spell.{Denotes};
ghost use Rattle.c_ast.specs.ExprMarks as marks;
ghost use Rattle.c_readings.specs.Readers.{readers};
ghost use Rattle.c_readings.specs.Exact.{AreExact, TypesAreExact};
ghost use Rattle.c_readings.specs.Fronts.{AreFronts};
ghost use Rattle.c_readings.specs.UnitExact.{UnitsAreExact};

use c_ast::marks_run;

/// At each limit on height, the readers give each piece of their productions that is no higher, and
/// nothing else.
pub fn readers_are_exact()
    ensures limit { (n : ℕ) → (readers n).limit ≡ n }
    ensures readers { (n : ℕ) → AreExact (readers n) }
    ensures types { (n : ℕ) → TypesAreExact (readers n) }
{}

/// What is left behind a piece is the end of what was left before it.
pub fn pieces_are_fronts()
    ensures expression { AreFronts marks.expr }
    ensures type_name { AreFronts marks.type_name }
    ensures specifiers { AreFronts marks.specifiers }
    ensures declarator { (free outer : Bool) → AreFronts (marks.declarator free outer) }
{}

/// At each limit on height, the readers of initialisers, declarations, statements and units give each
/// piece that is no higher, and nothing else.
pub fn units_are_exact()
    ensures { (n : ℕ) → UnitsAreExact readers n }
{}

/// Tokens denote at most one unit.
pub fn one_unit()
    ensures { (ts : List Placed) (u v : UnitTree) → Denotes ts u → Denotes ts v → u ≡ v }
{
    marks_run();
}
