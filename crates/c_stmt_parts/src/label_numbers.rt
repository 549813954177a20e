//! The labels of a function's body (C89 3.6.1).
ghost use Rattle.std.specs.Prelude.{◌≡◌, ◌+◌, ◌∷◌, [], map, IfOk, OnOk};
ghost use Rattle.c_units.specs.Marks.{all_labels, all_marks, block_labels, block_marks, firsts, labels as labels_from, marks};
ghost use Rattle.c_ast.specs.UnitViews.{statements_of};
ghost use Rattle.c_stmt_parts.specs.ElseLabels.{else_labels, else_marks};
ghost use Rattle.c_stmt_parts.specs.StatementsSeen.{block_seen, statement_seen};

use c_ast::{Block, Statement, StatementForm};
use c_symbols::Scope;
use lcc_base::Memory;
use std::alloc::Global;

/// The labels of a body, in the order of the text, each name with the number of its first label: how many labels,
/// cases and defaults stand before it.
pub fn labels(alloc: Global, body: &Block) -> Result<Scope, Memory>
    ensures { IfOk result (λ l. l ≡ firsts [] (block_labels 0 (block_seen body.now))) }
{
    let mut found = Scope::new(alloc);
    of_block(alloc, &mut found, 0, body)?;
    Ok(found)
}

/// The labels of a block before which so many stand. How many stand behind it is given.
#[cycle(labels)]
fn of_block(alloc: Global, found: &mut Scope, before: usize, block: &Block) -> Result<usize, Memory>
    ensures found { OnOk result (found.new ≡ firsts found.old (block_labels before (block_seen block.now))) }
    ensures count { IfOk result (λ n. n ≡ before + block_marks (block_seen block.now)) }
{
    of_all(alloc, found, before, block.statements.as_slice())
}

/// The labels of statements in order.
#[cycle(labels)]
fn of_all(
    alloc: Global,
    found: &mut Scope,
    before: usize,
    list: &[Statement],
) -> Result<usize, Memory>
    ensures found { OnOk result (found.new ≡ firsts found.old (all_labels before (statements_of (map statement_seen list.now)))) }
    ensures count { IfOk result (λ n. n ≡ before + all_marks (statements_of (map statement_seen list.now))) }
{
    let mut count = before;
    for statement in list {
        count = of_statement(alloc, found, count, statement)?;
    }
    Ok(count)
}

/// The labels of a statement.
#[cycle(labels)]
fn of_statement(
    alloc: Global,
    found: &mut Scope,
    before: usize,
    s: &Statement,
) -> Result<usize, Memory>
    ensures found { OnOk result (found.new ≡ firsts found.old (labels_from before (statement_seen s.now))) }
    ensures count { IfOk result (λ n. n ≡ before + marks (statement_seen s.now)) }
{
    match &s.form {
        StatementForm::Label(name, inner) => {
            note(alloc, found, name.as_slice(), before)?;
            of_statement(alloc, found, next(before)?, inner)
        }
        StatementForm::Case(_, inner) => of_statement(alloc, found, next(before)?, inner),
        StatementForm::Default(inner) => of_statement(alloc, found, next(before)?, inner),
        StatementForm::Block(block) => of_block(alloc, found, before, block),
        StatementForm::If(_, then, otherwise) => {
            let between = of_statement(alloc, found, before, then)?;
            of_else(alloc, found, between, otherwise)
        }
        StatementForm::Switch(_, inner) => of_statement(alloc, found, before, inner),
        StatementForm::While(_, inner) => of_statement(alloc, found, before, inner),
        StatementForm::Do(inner, _) => of_statement(alloc, found, before, inner),
        StatementForm::For(_, inner) => of_statement(alloc, found, before, inner),
        StatementForm::Expression(_)
        | StatementForm::Goto(_)
        | StatementForm::Continue
        | StatementForm::Break
        | StatementForm::Return(_) => Ok(before),
    }
}

/// The labels of the statement behind `else`, if there is one.
#[cycle(labels)]
fn of_else(
    alloc: Global,
    found: &mut Scope,
    before: usize,
    otherwise: &Option<Box<Statement>>,
) -> Result<usize, Memory>
    ensures found { OnOk result (found.new ≡ firsts found.old (else_labels before otherwise.now)) }
    ensures count { IfOk result (λ n. n ≡ before + else_marks otherwise.now) }
{
    match otherwise {
        Some(statement) => of_statement(alloc, found, before, statement),
        None => Ok(before),
    }
}

/// One more.
fn next(count: usize) -> Result<usize, Memory>
    ensures { IfOk result (λ n. n ≡ count + 1) }
{
    // No source has as many.
    count.checked_add(1).ok_or(Memory)
}

/// A label, unless the name has one.
#[tactic(auto, using(crate::proofs::LabelLists::known_label, crate::proofs::LabelLists::new_label, crate::proofs::LabelLists::unnamed))]
fn note(alloc: Global, found: &mut Scope, name: &[u8], number: usize) -> Result<(), Memory>
    ensures { OnOk result (found.new ≡ firsts found.old ((name.now, number) ∷ [])) }
{
    if found.find(name).is_some() {
        return Ok(());
    }
    found.add(alloc, name, number)
}
