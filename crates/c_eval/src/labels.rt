//! Labels that stand in statements.
ghost use Rattle.std.specs.Prelude.{◌≡◌, ◌≤◌, ℕ, true, Some, slice_get};
ghost use Rattle.c_meaning.specs.declared.core_stmt.CoreStmt.{CoreStmt};
ghost use Rattle.c_runs.specs.Statements.{At, any_has, exec_all, has};
ghost use Rattle.c_runs.specs.Worlds.{World};
ghost use Rattle.c_worlds.specs.declared.program.Program.{Program};
ghost use Rattle.c_eval.specs.Stacks.{statement, statements as trees_of};
ghost use Rattle.c_eval.specs.States.{own};
ghost use Rattle.c_eval.specs.Weights.{statements_of, weight_ss};

use c_meaning::CoreStmt;

/// Whether a label stands in a statement.
#[cycle(labels)]
pub fn has_label(s: &CoreStmt, label: u32) -> bool
    ensures { (p : Program) → result ≡ has (statement p s.now) label }
{
    match s {
        CoreStmt::Block { statements, .. } => any_has_label(statements.as_slice(), label),
        CoreStmt::If {
            then,
            otherwise,
            ..
        } => has_label(then, label) || has_label(otherwise, label),
        CoreStmt::While { body, .. }
        | CoreStmt::Do { body, .. }
        | CoreStmt::For { body, .. }
        | CoreStmt::Switch { body, .. } => has_label(body, label),
        CoreStmt::Label(own, labelled) => label == *own || has_label(labelled, label),
        _ => false,
    }
}

/// Whether it stands in one of these.
#[cycle(labels)]
pub fn any_has_label(statements: &[CoreStmt], label: u32) -> bool
    ensures { (p : Program) → result ≡ any_has (trees_of p statements.now) label }
{
    for s in statements {
        if has_label(s, label) {
            return true;
        }
    }
    false
}

/// The statements from the first on in which a label stands; none, where it stands in none.
pub fn from_label(statements: &[CoreStmt], label: u32) -> &[CoreStmt]
    ensures same { (p : Program) → (k : ℕ) → (w : World) → exec_all (own p) (trees_of p result.now) (At label) k w ≡ exec_all (own p) (trees_of p statements.now) (At label) k w }
    ensures less { weight_ss (statements_of result.now) ≤ weight_ss (statements_of statements.now) }
    ensures found { (p : Program) → (s : CoreStmt) → slice_get result.now 0 ≡ Some s → has (statement p s) label ≡ true }
{
    let mut left = statements;
    while let [first, behind @ ..] = left {
        if has_label(first, label) {
            return left;
        }
        left = behind;
    }
    left
}
