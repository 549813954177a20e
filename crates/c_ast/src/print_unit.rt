//! Declarations, statements and units as texts.
ghost use Rattle.std.specs.Prelude.{◌≡◌, ◌<◌, ◌++◌, drop, flat_map, OnOk, IfOk};
ghost use Rattle.c_ast.specs.Printed.{printed};
ghost use Rattle.c_ast.specs.TreeTexts.{listed, name_text, sign_text, word_text};
ghost use Rattle.c_ast.specs.ValueTexts.{shown_if_any, expr_shown, specifiers_shown};
ghost use Rattle.c_ast.specs.UnitValueTexts.{initialiser_shown, shown_initialiser, init_shown, declaration_shown, statement_shown, shown_else, block_shown, function_shown, external_shown};
ghost use Rattle.c_ast.specs.UnitViews.{unit_of};
ghost use Rattle.c_ast.specs.Signs.{open_parenthesis, close_parenthesis, semicolon};
ghost use Rattle.c_ast.specs.Keywords.{for_word, goto_word, return_word};

use crate::expr::{Expr, Specifiers};
use crate::print_expr::{push_declarator, push_end, push_expr, push_maybe, push_specifiers};
use crate::statement::{
    Block, Declaration, ForHead, InitDeclarator, Initialiser, InitialiserForm, Statement,
    StatementForm,
};
use crate::token_text::{push_keyword, push_name, push_sign};
use crate::unit::{External, ExternalForm, FunctionDefinition, Unit};
use crate::{keyword, sign};
use lcc_base::{Bytes, Memory};
use std::alloc::Global;

/// Adds an initialiser.
#[cycle(initialisers)]
#[tactic(auto, using(std::proofs::lemmas::Grind::common_steps, crate::proofs::UnitShownValues::initialiser_forms))]
fn push_initialiser(out: &mut Bytes, initialiser: &Initialiser) -> Result<(), Memory>
    ensures { OnOk result (out.new ≡ out.old ++ initialiser_shown initialiser.now) }
{
    match &initialiser.form {
        InitialiserForm::Expr(e) => push_expr(out, e),
        InitialiserForm::List { items, comma } => {
            push_sign(out, sign::OPEN_BRACE)?;
            push_initialisers(out, items.as_slice())?;
            push_end(out, *comma)
        }
    }
}

/// Adds initialisers with commas between.
#[cycle(initialisers)]
fn push_initialisers(out: &mut Bytes, items: &[Initialiser]) -> Result<(), Memory>
    ensures { OnOk result (out.new ≡ out.old ++ listed initialiser_shown items.now) }
{
    let Some((first, rest)) = items.split_first() else {
        return Ok(());
    };
    push_initialiser(out, first)?;
    for item in rest {
        push_sign(out, sign::COMMA)?;
        push_initialiser(out, item)?;
    }
    Ok(())
}

/// Adds a declarator and its initialiser, if it has one.
#[tactic(auto, using(std::proofs::lemmas::Grind::common_steps, crate::proofs::UnitShownValues::init_parts))]
fn push_init(out: &mut Bytes, init: &InitDeclarator) -> Result<(), Memory>
    ensures { OnOk result (out.new ≡ out.old ++ init_shown init.now) }
{
    push_declarator(out, &init.declarator)?;
    push_maybe_initialiser(out, &init.initialiser)
}

/// Adds a `=` and an initialiser, if there is one.
fn push_maybe_initialiser(
    out: &mut Bytes,
    initialiser: &Option<Box<Initialiser>>,
) -> Result<(), Memory>
    ensures { OnOk result (out.new ≡ out.old ++ shown_initialiser initialiser.now) }
{
    match initialiser {
        Some(initialiser) => {
            push_sign(out, sign::EQUALS)?;
            push_initialiser(out, initialiser)
        }
        None => Ok(()),
    }
}

/// Adds declarators and their initialisers with commas between.
fn push_inits(out: &mut Bytes, inits: &[InitDeclarator]) -> Result<(), Memory>
    ensures { OnOk result (out.new ≡ out.old ++ listed init_shown inits.now) }
{
    let Some((first, rest)) = inits.split_first() else {
        return Ok(());
    };
    push_init(out, first)?;
    for init in rest {
        push_sign(out, sign::COMMA)?;
        push_init(out, init)?;
    }
    Ok(())
}

/// Adds a declaration.
#[tactic(auto, using(std::proofs::lemmas::Grind::common_steps, crate::proofs::UnitShownValues::declaration_parts))]
fn push_declaration(out: &mut Bytes, declaration: &Declaration) -> Result<(), Memory>
    ensures { OnOk result (out.new ≡ out.old ++ declaration_shown declaration.now) }
{
    push_specifiers(out, &declaration.specifiers)?;
    push_inits(out, declaration.declarators.as_slice())?;
    push_sign(out, sign::SEMICOLON)
}

/// Adds declarations.
fn push_declarations(out: &mut Bytes, declarations: &[Declaration]) -> Result<(), Memory>
    ensures { OnOk result (out.new ≡ out.old ++ flat_map declaration_shown declarations.now) }
{
    for declaration in declarations {
        push_declaration(out, declaration)?;
    }
    Ok(())
}

/// Adds a keyword, and an expression in parentheses.
fn push_test(out: &mut Bytes, word: u8, e: &Expr) -> Result<(), Memory>
    requires { word < 32 }
    ensures { OnOk result (out.new ≡ out.old ++ (word_text word ++ sign_text open_parenthesis ++ expr_shown e.now ++ sign_text close_parenthesis)) }
{
    push_keyword(out, word)?;
    push_sign(out, sign::OPEN)?;
    push_expr(out, e)?;
    push_sign(out, sign::CLOSE)
}

/// Adds `goto`, a label and a semicolon.
fn push_goto(out: &mut Bytes, label: &Bytes) -> Result<(), Memory>
    ensures { OnOk result (out.new ≡ out.old ++ (word_text goto_word ++ name_text label.now ++ sign_text semicolon)) }
{
    push_keyword(out, keyword::GOTO)?;
    push_name(out, label)?;
    push_sign(out, sign::SEMICOLON)
}

/// Adds a keyword and a semicolon.
fn push_alone(out: &mut Bytes, word: u8) -> Result<(), Memory>
    requires { word < 32 }
    ensures { OnOk result (out.new ≡ out.old ++ (word_text word ++ sign_text semicolon)) }
{
    push_keyword(out, word)?;
    push_sign(out, sign::SEMICOLON)
}

/// Adds `return`, an expression if there is one, and a semicolon.
fn push_return(out: &mut Bytes, e: &Option<Expr>) -> Result<(), Memory>
    ensures { OnOk result (out.new ≡ out.old ++ (word_text return_word ++ shown_if_any expr_shown e.now ++ sign_text semicolon)) }
{
    push_keyword(out, keyword::RETURN)?;
    push_maybe(out, e)?;
    push_sign(out, sign::SEMICOLON)
}

/// Adds a statement.
#[cycle(statements)]
#[tactic(auto, using(std::proofs::lemmas::Grind::common_steps, crate::proofs::UnitShownValues::statement_forms))]
fn push_statement(out: &mut Bytes, statement: &Statement) -> Result<(), Memory>
    ensures { OnOk result (out.new ≡ out.old ++ statement_shown statement.now) }
{
    match &statement.form {
        StatementForm::Label(name, s) => {
            push_name(out, name)?;
            push_sign(out, sign::COLON)?;
            push_statement(out, s)
        }
        StatementForm::Case(e, s) => {
            push_keyword(out, keyword::CASE)?;
            push_expr(out, e)?;
            push_sign(out, sign::COLON)?;
            push_statement(out, s)
        }
        StatementForm::Default(s) => {
            push_keyword(out, keyword::DEFAULT)?;
            push_sign(out, sign::COLON)?;
            push_statement(out, s)
        }
        StatementForm::Expression(e) => {
            push_maybe(out, e)?;
            push_sign(out, sign::SEMICOLON)
        }
        StatementForm::Block(block) => push_block(out, block),
        StatementForm::If(e, s, otherwise) => {
            push_test(out, keyword::IF, e)?;
            push_statement(out, s)?;
            push_else(out, otherwise)
        }
        StatementForm::Switch(e, s) => {
            push_test(out, keyword::SWITCH, e)?;
            push_statement(out, s)
        }
        StatementForm::While(e, s) => {
            push_test(out, keyword::WHILE, e)?;
            push_statement(out, s)
        }
        StatementForm::Do(s, e) => {
            push_keyword(out, keyword::DO)?;
            push_statement(out, s)?;
            push_test(out, keyword::WHILE, e)?;
            push_sign(out, sign::SEMICOLON)
        }
        StatementForm::For(head, s) => {
            push_for(out, head)?;
            push_statement(out, s)
        }
        StatementForm::Goto(name) => push_goto(out, name),
        StatementForm::Continue => push_alone(out, keyword::CONTINUE),
        StatementForm::Break => push_alone(out, keyword::BREAK),
        StatementForm::Return(e) => push_return(out, e),
    }
}

/// Adds `else` and a statement, if there is one.
#[cycle(statements)]
fn push_else(out: &mut Bytes, otherwise: &Option<Box<Statement>>) -> Result<(), Memory>
    ensures { OnOk result (out.new ≡ out.old ++ shown_else otherwise.now) }
{
    match otherwise {
        Some(statement) => {
            push_keyword(out, keyword::ELSE)?;
            push_statement(out, statement)
        }
        None => Ok(()),
    }
}

/// Adds `for` and its three expressions in parentheses.
fn push_for(out: &mut Bytes, head: &ForHead) -> Result<(), Memory>
    ensures { OnOk result (out.new ≡ out.old ++ (word_text for_word ++ sign_text open_parenthesis ++ shown_if_any expr_shown head.now.first ++ sign_text semicolon ++ shown_if_any expr_shown head.now.test ++ sign_text semicolon ++ shown_if_any expr_shown head.now.last ++ sign_text close_parenthesis)) }
{
    push_keyword(out, keyword::FOR)?;
    push_sign(out, sign::OPEN)?;
    push_maybe(out, &head.first)?;
    push_sign(out, sign::SEMICOLON)?;
    push_maybe(out, &head.test)?;
    push_sign(out, sign::SEMICOLON)?;
    push_maybe(out, &head.last)?;
    push_sign(out, sign::CLOSE)
}

/// Adds statements.
#[cycle(statements)]
fn push_statements(out: &mut Bytes, statements: &[Statement]) -> Result<(), Memory>
    ensures { OnOk result (out.new ≡ out.old ++ flat_map statement_shown statements.now) }
{
    for statement in statements {
        push_statement(out, statement)?;
    }
    Ok(())
}

/// Adds a block.
#[cycle(statements)]
#[tactic(auto, using(std::proofs::lemmas::Grind::common_steps, crate::proofs::UnitShownValues::block_parts))]
fn push_block(out: &mut Bytes, block: &Block) -> Result<(), Memory>
    ensures { OnOk result (out.new ≡ out.old ++ block_shown block.now) }
{
    push_sign(out, sign::OPEN_BRACE)?;
    push_declarations(out, block.declarations.as_slice())?;
    push_statements(out, block.statements.as_slice())?;
    push_sign(out, sign::CLOSE_BRACE)
}

/// Adds specifiers, if there are any.
fn push_maybe_specifiers(out: &mut Bytes, specifiers: &Option<Specifiers>) -> Result<(), Memory>
    ensures { OnOk result (out.new ≡ out.old ++ shown_if_any specifiers_shown specifiers.now) }
{
    match specifiers {
        Some(specifiers) => push_specifiers(out, specifiers),
        None => Ok(()),
    }
}

/// Adds a function's definition.
fn push_function(out: &mut Bytes, function: &FunctionDefinition) -> Result<(), Memory>
    ensures { OnOk result (out.new ≡ out.old ++ function_shown function.now) }
{
    push_maybe_specifiers(out, &function.specifiers)?;
    push_declarator(out, &function.declarator)?;
    push_declarations(out, function.parameters.as_slice())?;
    push_block(out, &function.body)
}

/// Adds an external declaration.
#[tactic(auto, using(std::proofs::lemmas::Grind::common_steps, crate::proofs::UnitShownValues::external_forms))]
fn push_external(out: &mut Bytes, external: &External) -> Result<(), Memory>
    ensures { OnOk result (out.new ≡ out.old ++ external_shown external.now) }
{
    match &external.form {
        ExternalForm::Function(function) => push_function(out, function),
        ExternalForm::Declaration(declaration) => push_declaration(out, declaration),
        ExternalForm::Empty => push_sign(out, sign::SEMICOLON),
    }
}

/// Adds external declarations.
fn push_externals(out: &mut Bytes, externals: &[External]) -> Result<(), Memory>
    ensures { OnOk result (out.new ≡ out.old ++ flat_map external_shown externals.now) }
{
    for external in externals {
        push_external(out, external)?;
    }
    Ok(())
}

/// All but the first byte.
fn without_first(text: Bytes) -> Bytes
    ensures { result ≡ drop 1 text }
{
    let mut bytes = text.into_vec();
    if !bytes.is_empty() {
        bytes.remove(0);
    }
    Bytes::from(bytes)
}

/// The unit as a text: its tokens with one blank between. An integer constant is decimal, with the
/// suffix of its type; a character that is not printable, a quote or a backslash is an octal escape
/// of three digits. `Memory` comes where an allocation is refused.
#[tactic(auto, using(std::proofs::lemmas::Grind::common_steps, crate::proofs::UnitShownValues::unit_printed_is))]
pub fn print(alloc: Global, unit: &Unit) -> Result<Bytes, Memory>
    ensures { IfOk result (λ text. text ≡ printed (unit_of unit.now)) }
{
    let mut out = Bytes::new(alloc);
    push_externals(&mut out, unit.externals.as_slice())?;
    Ok(without_first(out))
}
