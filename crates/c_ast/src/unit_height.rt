//! How high initialisers, declarations, statements and units are.
ghost use Rattle.std.specs.Prelude.{◌≡◌};
ghost use Rattle.c_ast.specs.Heights.{unit_height};
ghost use Rattle.c_ast.specs.UnitViews.{unit_of};
ghost use Rattle.c_ast.specs.ValueHeights.{capped, most};
ghost use Rattle.c_ast.specs.UnitValueHeights.{initialiser_high, init_high, declaration_high, statement_high, else_high, block_high, function_high, external_high};

use crate::statement::{
    Block, Declaration, InitDeclarator, Initialiser, InitialiserForm, Statement, StatementForm,
};
use crate::tree_height::{declarator_height, expr_height, maybe_expr_height, specifiers_height};
use crate::unit::{External, ExternalForm, FunctionDefinition, Unit};

/// The height of an initialiser.
#[cycle(initialisers)]
#[tactic(auto, using(crate::proofs::UnitValueHeights::initialiser_forms))]
fn initialiser_height(initialiser: &Initialiser) -> u32
    ensures { result ≡ capped (initialiser_high initialiser.now) }
{
    match &initialiser.form {
        InitialiserForm::Expr(e) => expr_height(e).saturating_add(1),
        InitialiserForm::List { items, .. } => initialisers_height(items.as_slice()).saturating_add(
            1,
        ),
    }
}

/// The greatest height of some initialisers.
#[cycle(initialisers)]
#[tactic(auto, using(crate::proofs::Tallest::most_at))]
fn initialisers_height(items: &[Initialiser]) -> u32
    ensures { result ≡ capped (most initialiser_high items.now) }
{
    let mut most = 0;
    for item in items {
        most = most.max(initialiser_height(item));
    }
    most
}

/// The height of a declarator and its initialiser, if it has one.
#[tactic(auto, using(crate::proofs::UnitValueHeights::init_parts))]
fn init_height(init: &InitDeclarator) -> u32
    ensures { result ≡ capped (init_high init.now) }
{
    let own = match &init.initialiser {
        Some(initialiser) => initialiser_height(initialiser),
        None => 0,
    };
    declarator_height(&init.declarator).max(own)
}

/// The greatest height of some declarators with their initialisers.
#[tactic(auto, using(crate::proofs::Tallest::most_at))]
fn inits_height(inits: &[InitDeclarator]) -> u32
    ensures { result ≡ capped (most init_high inits.now) }
{
    let mut most = 0;
    for init in inits {
        most = most.max(init_height(init));
    }
    most
}

/// The nodes on the longest way down a declaration, as `height` counts them. Source: C89 3.5.
#[tactic(auto, using(crate::proofs::UnitValueHeights::declaration_parts))]
pub fn declaration_height(declaration: &Declaration) -> u32
    ensures { result ≡ capped (declaration_high declaration.now) }
{
    specifiers_height(&declaration.specifiers)
        .max(inits_height(declaration.declarators.as_slice()))
        .saturating_add(1)
}

/// The greatest height of some declarations.
#[tactic(auto, using(crate::proofs::Tallest::most_at))]
fn declarations_height(declarations: &[Declaration]) -> u32
    ensures { result ≡ capped (most declaration_high declarations.now) }
{
    let mut most = 0;
    for declaration in declarations {
        most = most.max(declaration_height(declaration));
    }
    most
}

/// The height of a statement.
#[cycle(statements)]
#[tactic(auto, using(crate::proofs::UnitValueHeights::statement_forms))]
fn statement_height(statement: &Statement) -> u32
    ensures { result ≡ capped (statement_high statement.now) }
{
    match &statement.form {
        StatementForm::Label(_, s) | StatementForm::Default(s) => statement_height(
            s,
        ).saturating_add(1),
        StatementForm::Case(e, s) | StatementForm::Switch(e, s) | StatementForm::While(e, s) =>
            expr_height(e).max(statement_height(s)).saturating_add(1),
        StatementForm::Do(s, e) => statement_height(s).max(expr_height(e)).saturating_add(1),
        StatementForm::If(e, s, otherwise) => expr_height(e)
            .max(statement_height(s))
            .max(else_height(otherwise))
            .saturating_add(1),
        StatementForm::Expression(e) | StatementForm::Return(e) => maybe_expr_height(
            e,
        ).saturating_add(1),
        StatementForm::Block(block) => block_height(block),
        StatementForm::For(head, s) => {
            let parts = maybe_expr_height(&head.first)
                .max(maybe_expr_height(&head.test))
                .max(maybe_expr_height(&head.last));
            parts.max(statement_height(s)).saturating_add(1)
        }
        StatementForm::Goto(_) | StatementForm::Continue | StatementForm::Break => 1,
    }
}

/// The height of the statement behind `else`, if there is one.
#[cycle(statements)]
fn else_height(otherwise: &Option<Box<Statement>>) -> u32
    ensures { result ≡ capped (else_high otherwise.now) }
{
    match otherwise {
        Some(statement) => statement_height(statement),
        None => 0,
    }
}

/// The greatest height of some statements.
#[cycle(statements)]
#[tactic(auto, using(crate::proofs::Tallest::most_at))]
fn statements_height(statements: &[Statement]) -> u32
    ensures { result ≡ capped (most statement_high statements.now) }
{
    let mut most = 0;
    for statement in statements {
        most = most.max(statement_height(statement));
    }
    most
}

/// The height of a block.
#[cycle(statements)]
#[tactic(auto, using(crate::proofs::UnitValueHeights::block_parts))]
fn block_height(block: &Block) -> u32
    ensures { result ≡ capped (block_high block.now) }
{
    let declarations = declarations_height(block.declarations.as_slice());
    declarations
        .max(statements_height(block.statements.as_slice()))
        .saturating_add(1)
}

/// The height of a function's definition.
fn function_height(function: &FunctionDefinition) -> u32
    ensures { result ≡ capped (function_high function.now) }
{
    let first = match &function.specifiers {
        Some(specifiers) => specifiers_height(specifiers),
        None => 0,
    };
    let head = first.max(declarator_height(&function.declarator));
    head.max(declarations_height(function.parameters.as_slice()))
        .max(block_height(&function.body))
        .saturating_add(1)
}

/// The height of an external declaration.
#[tactic(auto, using(crate::proofs::UnitValueHeights::external_forms))]
fn external_height(external: &External) -> u32
    ensures { result ≡ capped (external_high external.now) }
{
    match &external.form {
        ExternalForm::Function(function) => function_height(function),
        ExternalForm::Declaration(declaration) => declaration_height(declaration).saturating_add(1),
        ExternalForm::Empty => 1,
    }
}

/// The greatest height of some external declarations.
#[tactic(auto, using(crate::proofs::Tallest::most_at))]
fn externals_height(externals: &[External]) -> u32
    ensures { result ≡ capped (most external_high externals.now) }
{
    let mut most = 0;
    for external in externals {
        most = most.max(external_height(external));
    }
    most
}

/// The nodes on the longest way down the unit: the unit, an external declaration, a declaration, a
/// line of members, a declarator, an initialiser, a statement (a block too) and an expression count
/// 1 each, and all else counts nothing. Units that sources denote have heights of at most 500; a
/// height above 4,294,967,295 counts as that.
#[tactic(auto, using(crate::proofs::UnitValueHeights::unit_parts))]
pub fn height(unit: &Unit) -> u32
    ensures { result ≡ capped (unit_height (unit_of unit.now)) }
{
    externals_height(unit.externals.as_slice()).saturating_add(1)
}
