//! Readers of statements and blocks.
ghost use Rattle.std.specs.Prelude.{◌≡◌, ◌≤◌, not, map, None, Some, IfOk, IfErr};
ghost use Rattle.c_ast.specs.Marks.{IsSign};
ghost use Rattle.c_ast.specs.Trees.{Compound};
ghost use Rattle.c_ast.specs.Seen.{expr_seen};
ghost use Rattle.c_ast.specs.Signs.{close_brace};
ghost use Rattle.c_readings.specs.Reading.{answer, bind, gives, open_state};
ghost use Rattle.c_readings.specs.Readers.{readers};
ghost use Rattle.c_readings.specs.StatementReaders as reader;
ghost use Rattle.c_expr.specs.State.{ahead, Refused, Took};
ghost use Rattle.c_decl.specs.Going.{Goes, Breaks, Fails};
ghost use Rattle.c_stmt.specs.Listed.{statements_in};
ghost use Rattle.c_stmt.specs.Productions as production;
ghost use Rattle.c_stmt.specs.Seen.{block_seen, statement_seen};
ghost use Rattle.c_stmt.specs.Words.{seen_word};

use crate::conditions::{condition_at, maybe_before, name_before};
use crate::exact::exact;
use crate::nodes::{
    block, break_off, case, choice, choices, compound, continue_on, default, do_loop, evaluate,
    for_loop, give_back, goto, labelled, switch, while_loop,
};
use crate::words::{Word, takes_word};
use c_ast::{Block, Expr, ForHead, Statement, keyword, sign};
use c_decl::{
    boxed, close_scope, declarations_to, expect, is_label, is_sign, keep, line_at, low_constant,
    open_scope, refuse, takes, takes_keyword,
};
use c_expr::{Parser, SyntaxFault};
use c_readings::units_are_exact;
use lcc_base::Items;

/// An expression in parentheses, and the statement behind it.
#[derive(Drop)]
struct Guarded {
    condition: Expr,
    inner: Box<Statement>,
}

/// The statement at the place. Source: C89 3.6.
///
/// The call takes the longest statement at the place, no higher than 500: an `else` goes with the
/// nearest `if`. NoParse comes exactly where none stands there, with the line of the token by which
/// nothing goes on, which is at the place from there on; and Memory where an allocation is refused.
/// The fault is answered again by each later call.
pub fn statement(p: &mut Parser) -> Result<Statement, SyntaxFault>
    ensures ok { IfOk result (λ s. Took production.statement (ahead p.old) p.old (statement_seen s) p.new) }
    ensures err { IfErr result (λ e. Refused production.statement (ahead p.old) p.old p.new e) }
{
    units_are_exact();
    if let Some(fault) = p.fault() {
        return Err(fault);
    }
    statement_at(p, 500)
}

/// The statement at the place, if it is no higher than the limit.
#[cycle(statements)]
#[tactic(auto, unfolding(c_readings::specs::StatementReaders::statement, c_readings::specs::StatementReaders::statement_above, c_readings::specs::StatementReaders::compound))]
fn statement_at(p: &mut Parser, limit: u32) -> Result<Statement, SyntaxFault>
    requires sound { p.old.fault ≡ None }
    requires limit { limit ≤ 500 }
    ensures ok { IfOk result (λ s. reader.statement readers limit (ahead p.old) ≡ Some (statement_seen s, ahead p.new)) }
    ensures none { IfErr result (λ e. Fails e (reader.statement readers limit (ahead p.old))) }
    ensures going { IfOk result (λ s. Goes 1 p.old p.new) }
    ensures broken { IfErr result (λ e. Breaks p.old p.new e) }
{
    if limit == 0 {
        return Err(refuse(p));
    }
    if is_label(p) {
        return labelled_at(p, limit - 1);
    }
    let line = line_at(p);
    if let Some(word) = takes_word(p) {
        return by_word(p, limit - 1, line, word);
    }
    if takes(p, sign::OPEN_BRACE) {
        return compound_at(p, limit - 1, line);
    }
    evaluate_at(p, limit - 1)
}

/// A statement with a label.
#[cycle(statements)]
#[tactic(auto, unfolding(c_readings::specs::StatementReaders::labelled))]
fn labelled_at(p: &mut Parser, limit: u32) -> Result<Statement, SyntaxFault>
    requires sound { p.old.fault ≡ None }
    requires limit { limit ≤ 500 }
    ensures ok { IfOk result (λ s. reader.labelled (reader.statement readers limit) (ahead p.old) ≡ Some (statement_seen s, ahead p.new)) }
    ensures none { IfErr result (λ e. Fails e (reader.labelled (reader.statement readers limit) (ahead p.old))) }
    ensures going { IfOk result (λ s. Goes 1 p.old p.new) }
    ensures broken { IfErr result (λ e. Breaks p.old p.new e) }
{
    let line = line_at(p);
    let name = name_before(p, sign::COLON)?;
    let inner = inner_at(p, limit)?;
    Ok(labelled(line, name, inner))
}

/// The statement in another, in a place of its own.
#[cycle(statements)]
fn inner_at(p: &mut Parser, limit: u32) -> Result<Box<Statement>, SyntaxFault>
    requires sound { p.old.fault ≡ None }
    requires limit { limit ≤ 500 }
    ensures ok { IfOk result (λ s. reader.statement readers limit (ahead p.old) ≡ Some (statement_seen s.value, ahead p.new)) }
    ensures none { IfErr result (λ e. Fails e (reader.statement readers limit (ahead p.old))) }
    ensures going { IfOk result (λ s. Goes 1 p.old p.new) }
    ensures broken { IfErr result (λ e. Breaks p.old p.new e) }
{
    let statement = statement_at(p, limit)?;
    boxed(p, statement)
}

/// The statement behind `:`.
#[cycle(statements)]
#[tactic(auto, unfolding(c_readings::specs::StatementReaders::behind_colon))]
fn behind_colon(p: &mut Parser, limit: u32) -> Result<Box<Statement>, SyntaxFault>
    requires sound { p.old.fault ≡ None }
    requires limit { limit ≤ 500 }
    ensures ok { IfOk result (λ s. reader.behind_colon (reader.statement readers limit) (ahead p.old) ≡ Some (statement_seen s.value, ahead p.new)) }
    ensures none { IfErr result (λ e. Fails e (reader.behind_colon (reader.statement readers limit) (ahead p.old))) }
    ensures going { IfOk result (λ s. Goes 1 p.old p.new) }
    ensures broken { IfErr result (λ e. Breaks p.old p.new e) }
{
    expect(p, sign::COLON)?;
    inner_at(p, limit)
}

/// An expression in parentheses, and the statement behind it.
#[cycle(statements)]
#[tactic(auto, unfolding(c_readings::specs::StatementReaders::guarded))]
fn guarded_at(p: &mut Parser, limit: u32) -> Result<Guarded, SyntaxFault>
    requires sound { p.old.fault ≡ None }
    requires limit { limit ≤ 500 }
    ensures ok { IfOk result (λ g. reader.guarded readers limit (reader.statement readers limit) (ahead p.old) ≡ Some ((expr_seen g.condition, statement_seen g.inner.value), ahead p.new)) }
    ensures none { IfErr result (λ e. Fails e (reader.guarded readers limit (reader.statement readers limit) (ahead p.old))) }
    ensures going { IfOk result (λ g. Goes 1 p.old p.new) }
    ensures broken { IfErr result (λ e. Breaks p.old p.new e) }
{
    let condition = condition_at(p, limit)?;
    let inner = inner_at(p, limit)?;
    Ok(Guarded { condition, inner })
}

/// What stands behind the keyword, which stands on the line.
#[cycle(statements)]
fn by_word(p: &mut Parser, limit: u32, line: u32, word: Word) -> Result<Statement, SyntaxFault>
    requires sound { p.old.fault ≡ None }
    requires limit { limit ≤ 500 }
    ensures ok { IfOk result (λ s. reader.by_word readers limit (reader.statement readers limit) line (seen_word word) (ahead p.old) ≡ Some (statement_seen s, ahead p.new)) }
    ensures none { IfErr result (λ e. Fails e (reader.by_word readers limit (reader.statement readers limit) line (seen_word word) (ahead p.old))) }
    ensures going { IfOk result (λ s. Goes 1 p.old p.new) }
    ensures broken { IfErr result (λ e. Breaks p.old p.new e) }
{
    match word {
        Word::Case => {
            let value = low_constant(p, limit)?;
            let inner = behind_colon(p, limit)?;
            Ok(case(line, value, inner))
        }
        Word::Default => {
            let inner = behind_colon(p, limit)?;
            Ok(default(line, inner))
        }
        Word::If => if_at(p, limit, line),
        Word::Switch => {
            let guarded = guarded_at(p, limit)?;
            Ok(switch(line, guarded.condition, guarded.inner))
        }
        Word::While => {
            let guarded = guarded_at(p, limit)?;
            Ok(while_loop(line, guarded.condition, guarded.inner))
        }
        Word::Do => do_at(p, limit, line),
        Word::For => for_at(p, limit, line),
        Word::Goto => {
            let name = name_before(p, sign::SEMICOLON)?;
            Ok(goto(line, name))
        }
        Word::Continue => {
            expect(p, sign::SEMICOLON)?;
            Ok(continue_on(line))
        }
        Word::Break => {
            expect(p, sign::SEMICOLON)?;
            Ok(break_off(line))
        }
        Word::Return => {
            let value = maybe_before(p, limit, sign::SEMICOLON)?;
            Ok(give_back(line, value))
        }
    }
}

/// What stands behind `if`; an `else` goes with it where one is next.
#[cycle(statements)]
#[tactic(auto, unfolding(c_readings::specs::StatementReaders::if_behind))]
fn if_at(p: &mut Parser, limit: u32, line: u32) -> Result<Statement, SyntaxFault>
    requires sound { p.old.fault ≡ None }
    requires limit { limit ≤ 500 }
    ensures ok { IfOk result (λ s. reader.if_behind readers limit (reader.statement readers limit) line (ahead p.old) ≡ Some (statement_seen s, ahead p.new)) }
    ensures none { IfErr result (λ e. Fails e (reader.if_behind readers limit (reader.statement readers limit) line (ahead p.old))) }
    ensures going { IfOk result (λ s. Goes 1 p.old p.new) }
    ensures broken { IfErr result (λ e. Breaks p.old p.new e) }
{
    let guarded = guarded_at(p, limit)?;
    let condition = boxed(p, guarded.condition)?;
    if takes_keyword(p, keyword::ELSE) {
        let other = inner_at(p, limit)?;
        return Ok(choices(line, condition, guarded.inner, other));
    }
    Ok(choice(line, condition, guarded.inner))
}

/// What stands behind `do`.
#[cycle(statements)]
#[tactic(auto, unfolding(c_readings::specs::StatementReaders::do_behind))]
fn do_at(p: &mut Parser, limit: u32, line: u32) -> Result<Statement, SyntaxFault>
    requires sound { p.old.fault ≡ None }
    requires limit { limit ≤ 500 }
    ensures ok { IfOk result (λ s. reader.do_behind readers limit (reader.statement readers limit) line (ahead p.old) ≡ Some (statement_seen s, ahead p.new)) }
    ensures none { IfErr result (λ e. Fails e (reader.do_behind readers limit (reader.statement readers limit) line (ahead p.old))) }
    ensures going { IfOk result (λ s. Goes 1 p.old p.new) }
    ensures broken { IfErr result (λ e. Breaks p.old p.new e) }
{
    let inner = inner_at(p, limit)?;
    if !takes_keyword(p, keyword::WHILE) {
        return Err(refuse(p));
    }
    let condition = condition_at(p, limit)?;
    expect(p, sign::SEMICOLON)?;
    Ok(do_loop(line, inner, condition))
}

/// What stands behind `for`.
#[cycle(statements)]
#[tactic(auto, unfolding(c_readings::specs::StatementReaders::for_behind))]
fn for_at(p: &mut Parser, limit: u32, line: u32) -> Result<Statement, SyntaxFault>
    requires sound { p.old.fault ≡ None }
    requires limit { limit ≤ 500 }
    ensures ok { IfOk result (λ s. reader.for_behind readers limit (reader.statement readers limit) line (ahead p.old) ≡ Some (statement_seen s, ahead p.new)) }
    ensures none { IfErr result (λ e. Fails e (reader.for_behind readers limit (reader.statement readers limit) line (ahead p.old))) }
    ensures going { IfOk result (λ s. Goes 1 p.old p.new) }
    ensures broken { IfErr result (λ e. Breaks p.old p.new e) }
{
    expect(p, sign::OPEN)?;
    let first = maybe_before(p, limit, sign::SEMICOLON)?;
    let test = maybe_before(p, limit, sign::SEMICOLON)?;
    let last = maybe_before(p, limit, sign::CLOSE)?;
    let head = boxed(p, ForHead { first, test, last })?;
    let inner = inner_at(p, limit)?;
    Ok(for_loop(line, head, inner))
}

/// An expression statement, or a lone `;`.
#[tactic(auto, unfolding(c_readings::specs::StatementReaders::evaluate))]
fn evaluate_at(p: &mut Parser, limit: u32) -> Result<Statement, SyntaxFault>
    requires sound { p.old.fault ≡ None }
    requires limit { limit ≤ 500 }
    ensures ok { IfOk result (λ s. reader.evaluate readers limit (ahead p.old) ≡ Some (statement_seen s, ahead p.new)) }
    ensures none { IfErr result (λ e. Fails e (reader.evaluate readers limit (ahead p.old))) }
    ensures going { IfOk result (λ s. Goes 1 p.old p.new) }
    ensures broken { IfErr result (λ e. Breaks p.old p.new e) }
{
    let line = line_at(p);
    let expression = maybe_before(p, limit, sign::SEMICOLON)?;
    Ok(evaluate(line, expression))
}

/// A block with a scope of its own, behind the `{` that stands on the line.
#[cycle(statements)]
fn compound_at(p: &mut Parser, limit: u32, line: u32) -> Result<Statement, SyntaxFault>
    requires sound { p.old.fault ≡ None }
    requires limit { limit ≤ 500 }
    ensures ok { IfOk result (λ s. bind (reader.block_inside readers limit (reader.statement readers limit) line (open_state (ahead p.old))) (λ b t. gives (Compound line b) t) ≡ Some (statement_seen s, ahead p.new)) }
    ensures none { IfErr result (λ e. Fails e (bind (reader.block_inside readers limit (reader.statement readers limit) line (open_state (ahead p.old))) (λ b t. gives (Compound line b) t))) }
    ensures going { IfOk result (λ s. Goes 1 p.old p.new) }
    ensures broken { IfErr result (λ e. Breaks p.old p.new e) }
{
    open_scope(p)?;
    let block = block_inside(p, limit, line)?;
    let block = boxed(p, block)?;
    Ok(compound(line, block))
}

/// Whether another statement stands before the `}` of a block.
fn goes_on(p: &Parser) -> bool
    ensures { result ≡ not (answer (IsSign close_brace) (ahead p.now)) }
{
    !is_sign(p, sign::CLOSE_BRACE)
}

/// The statements before the `}` of a block.
#[cycle(statements)]
fn statements_at(p: &mut Parser, limit: u32) -> Result<Items<Statement>, SyntaxFault>
    requires sound { p.old.fault ≡ None }
    requires limit { limit ≤ 500 }
    ensures ok { IfOk result (λ ss. statements_in (reader.statement readers limit) (ahead p.old) ≡ Some (map statement_seen ss, ahead p.new)) }
    ensures none { IfErr result (λ e. Fails e (statements_in (reader.statement readers limit) (ahead p.old))) }
    ensures going { IfOk result (λ ss. Goes 0 p.old p.new) }
    ensures broken { IfErr result (λ e. Breaks p.old p.new e) }
{
    let mut list = Items::new(p.alloc());
    while goes_on(p) {
        let statement = statement_at(p, limit)?;
        keep(p, &mut list, statement)?;
    }
    Ok(exact(list))
}

/// Declarations, statements, and `}`, behind the `{` that stands on the line, where the scope is open.
#[cycle(statements)]
#[tactic(auto, unfolding(c_readings::specs::StatementReaders::block_inside))]
pub(crate) fn block_inside(p: &mut Parser, limit: u32, line: u32) -> Result<Block, SyntaxFault>
    requires sound { p.old.fault ≡ None }
    requires limit { limit ≤ 500 }
    ensures ok { IfOk result (λ b. reader.block_inside readers limit (reader.statement readers limit) line (ahead p.old) ≡ Some (block_seen b, ahead p.new)) }
    ensures none { IfErr result (λ e. Fails e (reader.block_inside readers limit (reader.statement readers limit) line (ahead p.old))) }
    ensures going { IfOk result (λ b. Goes 1 p.old p.new) }
    ensures broken { IfErr result (λ e. Breaks p.old p.new e) }
{
    let declarations = declarations_to(p, limit)?;
    let statements = statements_at(p, limit)?;
    expect(p, sign::CLOSE_BRACE)?;
    close_scope(p);
    Ok(block(line, declarations, statements))
}
