//! Statements, blocks and units made of their parts.
ghost use Rattle.std.specs.Prelude.{◌≡◌, map};
ghost use Rattle.c_ast.specs.Trees.{Case, Default, Compound, If, IfElse, Switch, While, Do, For, Goto, Continue, Break, Return, Function, Declares, Empty};
ghost use Rattle.c_ast.specs.Trees as tree;
ghost use Rattle.c_ast.specs.Trees.{Block as BlockNode};
ghost use Rattle.c_ast.specs.UnitViews.{option_of, statements_of};
ghost use Rattle.c_ast.specs.Seen.{declarator_seen, expr_seen, maybe_expr_seen, specifiers_seen};
ghost use Rattle.c_ast.specs.SeenUnits.{declaration_seen};
ghost use Rattle.c_stmt.specs.Seen.{block_seen, external_seen, statement_seen, unit_seen};

use c_ast::{
    Block, Declaration, Expr, External, ExternalForm, ForHead, FunctionDefinition, Statement,
    StatementForm, Unit,
};
use lcc_base::{Bytes, Items};

/// A statement with a label.
#[tactic(auto, using(crate::proofs::SeenNodes::statement_forms))]
pub(crate) fn labelled(line: u32, name: Bytes, inner: Box<Statement>) -> Statement
    ensures { statement_seen result ≡ tree.Label line name (statement_seen inner.value) }
{
    Statement {
        line,
        form: StatementForm::Label(name, inner),
    }
}

/// A statement behind `case`.
#[tactic(auto, using(crate::proofs::SeenNodes::statement_forms))]
pub(crate) fn case(line: u32, value: Expr, inner: Box<Statement>) -> Statement
    ensures { statement_seen result ≡ Case line (expr_seen value) (statement_seen inner.value) }
{
    Statement {
        line,
        form: StatementForm::Case(value, inner),
    }
}

/// A statement behind `default`.
#[tactic(auto, using(crate::proofs::SeenNodes::statement_forms))]
pub(crate) fn default(line: u32, inner: Box<Statement>) -> Statement
    ensures { statement_seen result ≡ Default line (statement_seen inner.value) }
{
    Statement {
        line,
        form: StatementForm::Default(inner),
    }
}

/// An expression statement, or none.
#[tactic(auto, using(crate::proofs::SeenNodes::statement_forms))]
pub(crate) fn evaluate(line: u32, expression: Option<Expr>) -> Statement
    ensures { statement_seen result ≡ tree.Expression line (maybe_expr_seen expression) }
{
    Statement {
        line,
        form: StatementForm::Expression(expression),
    }
}

/// A block.
#[tactic(auto, using(crate::proofs::SeenNodes::statement_forms))]
pub(crate) fn compound(line: u32, block: Box<Block>) -> Statement
    ensures { statement_seen result ≡ Compound line (block_seen block.value) }
{
    Statement {
        line,
        form: StatementForm::Block(block),
    }
}

/// An `if` with no `else`.
#[tactic(auto, using(crate::proofs::SeenNodes::statement_forms))]
pub(crate) fn choice(line: u32, condition: Box<Expr>, inner: Box<Statement>) -> Statement
    ensures { statement_seen result ≡ If line (expr_seen condition.value) (statement_seen inner.value) }
{
    Statement {
        line,
        form: StatementForm::If(condition, inner, None),
    }
}

/// An `if` with an `else`.
#[tactic(auto, using(crate::proofs::SeenNodes::statement_forms))]
pub(crate) fn choices(
    line: u32,
    condition: Box<Expr>,
    inner: Box<Statement>,
    other: Box<Statement>,
) -> Statement
    ensures { statement_seen result ≡ IfElse line (expr_seen condition.value) (statement_seen inner.value) (statement_seen other.value) }
{
    Statement {
        line,
        form: StatementForm::If(condition, inner, Some(other)),
    }
}

/// A `switch`.
#[tactic(auto, using(crate::proofs::SeenNodes::statement_forms))]
pub(crate) fn switch(line: u32, value: Expr, inner: Box<Statement>) -> Statement
    ensures { statement_seen result ≡ Switch line (expr_seen value) (statement_seen inner.value) }
{
    Statement {
        line,
        form: StatementForm::Switch(value, inner),
    }
}

/// A `while`.
#[tactic(auto, using(crate::proofs::SeenNodes::statement_forms))]
pub(crate) fn while_loop(line: u32, condition: Expr, inner: Box<Statement>) -> Statement
    ensures { statement_seen result ≡ While line (expr_seen condition) (statement_seen inner.value) }
{
    Statement {
        line,
        form: StatementForm::While(condition, inner),
    }
}

/// A `do`.
#[tactic(auto, using(crate::proofs::SeenNodes::statement_forms))]
pub(crate) fn do_loop(line: u32, inner: Box<Statement>, condition: Expr) -> Statement
    ensures { statement_seen result ≡ Do line (statement_seen inner.value) (expr_seen condition) }
{
    Statement {
        line,
        form: StatementForm::Do(inner, condition),
    }
}

/// A `for`.
#[tactic(auto, using(crate::proofs::SeenNodes::statement_forms))]
pub(crate) fn for_loop(line: u32, head: Box<ForHead>, inner: Box<Statement>) -> Statement
    ensures { statement_seen result ≡ For line (maybe_expr_seen head.value.first) (maybe_expr_seen head.value.test) (maybe_expr_seen head.value.last) (statement_seen inner.value) }
{
    Statement {
        line,
        form: StatementForm::For(head, inner),
    }
}

/// A `goto`.
#[tactic(auto, using(crate::proofs::SeenNodes::statement_forms))]
pub(crate) fn goto(line: u32, name: Bytes) -> Statement
    ensures { statement_seen result ≡ Goto line name }
{
    Statement {
        line,
        form: StatementForm::Goto(name),
    }
}

/// A `continue`.
#[tactic(auto, using(crate::proofs::SeenNodes::statement_forms))]
pub(crate) fn continue_on(line: u32) -> Statement
    ensures { statement_seen result ≡ Continue line }
{
    Statement {
        line,
        form: StatementForm::Continue,
    }
}

/// A `break`.
#[tactic(auto, using(crate::proofs::SeenNodes::statement_forms))]
pub(crate) fn break_off(line: u32) -> Statement
    ensures { statement_seen result ≡ Break line }
{
    Statement {
        line,
        form: StatementForm::Break,
    }
}

/// A `return`.
#[tactic(auto, using(crate::proofs::SeenNodes::statement_forms))]
pub(crate) fn give_back(line: u32, value: Option<Expr>) -> Statement
    ensures { statement_seen result ≡ Return line (maybe_expr_seen value) }
{
    Statement {
        line,
        form: StatementForm::Return(value),
    }
}

/// Declarations and statements in braces.
pub(crate) fn block(
    line: u32,
    declarations: Items<Declaration>,
    statements: Items<Statement>,
) -> Block
    ensures { block_seen result ≡ BlockNode line (map declaration_seen declarations) (statements_of (map statement_seen statements)) }
{
    Block {
        line,
        declarations,
        statements,
    }
}

/// A function's definition.
#[tactic(auto, using(crate::proofs::SeenNodes::external_forms))]
pub(crate) fn function(line: u32, definition: Box<FunctionDefinition>) -> External
    ensures { external_seen result ≡ Function line (option_of specifiers_seen definition.value.specifiers) (declarator_seen definition.value.declarator) (map declaration_seen definition.value.parameters) (block_seen definition.value.body) }
{
    External {
        line,
        form: ExternalForm::Function(definition),
    }
}

/// A declaration outside of functions.
#[tactic(auto, using(crate::proofs::SeenNodes::external_forms))]
pub(crate) fn declares(line: u32, declaration: Declaration) -> External
    ensures { external_seen result ≡ Declares line (declaration_seen declaration) }
{
    External {
        line,
        form: ExternalForm::Declaration(declaration),
    }
}

/// A lone `;`.
#[tactic(auto, using(crate::proofs::SeenNodes::external_forms))]
pub(crate) fn empty(line: u32) -> External
    ensures { external_seen result ≡ Empty line }
{
    External {
        line,
        form: ExternalForm::Empty,
    }
}

/// A unit.
#[tactic(auto, using(crate::proofs::SeenNodes::external_forms))]
pub(crate) fn unit_of(line: u32, externals: Items<External>) -> Unit
    ensures { unit_seen result ≡ record { line = line; externals = map external_seen externals } }
{
    Unit { line, externals }
}
