//! Laws of typing units: a unit without a fault has exactly one core, and a function computes it.
ghost use Rattle.c_ast.specs.Trees.{StatementTree, UnitTree};
ghost use Rattle.c_meaning.specs.Laws.{IsDecided, IsTyping, fault_of};
ghost use Rattle.c_meaning.specs.State.{State};
ghost use Rattle.c_units.specs.Bodies.{Body, Within, typed_stmt};
ghost use Rattle.c_units.specs.BodiesRelation.{TypesStmt};
ghost use Rattle.c_units.specs.Statements.{Around};
ghost use Rattle.c_units.specs.Typing.{typed_unit};
ghost use Rattle.c_units.specs.UnitNodes.{first_in, stmt_nodes, unit_nodes};
ghost use Rattle.c_units.specs.UnitsRelation.{TypesUnit};
ghost use Rattle.std.specs.Prelude.{◌≡◌};

/// Where no node of a statement or a unit breaks a constraint or passes a limit, the rows type it, and in one way
/// only; where a node does, they do not. So a unit without a break and without a passed limit has exactly one core.
pub fn typing_units_is_decided()
    ensures statements { (f : Within) → (a : Around) → (s : State) → (b : Body) → (t : StatementTree) → IsDecided (TypesStmt f a s b t) (first_in (stmt_nodes f a s b t)) }
    ensures units { (u : UnitTree) → IsDecided (TypesUnit u) (first_in (unit_nodes u)) }
{}

/// The typing of statements and units as a function gives what the rows type, and nothing else; the fault that it
/// gives is that of the first node that has one, each node behind its parts.
pub fn typing_units_is_a_function()
    ensures statements { (f : Within) → (a : Around) → (s : State) → (b : Body) → (t : StatementTree) → IsTyping (typed_stmt f a s b t) (TypesStmt f a s b t) }
    ensures units { (u : UnitTree) → IsTyping (typed_unit u) (TypesUnit u) }
    ensures statement_faults { (f : Within) → (a : Around) → (s : State) → (b : Body) → (t : StatementTree) → first_in (stmt_nodes f a s b t) ≡ fault_of (typed_stmt f a s b t) }
    ensures unit_faults { (u : UnitTree) → first_in (unit_nodes u) ≡ fault_of (typed_unit u) }
{}
