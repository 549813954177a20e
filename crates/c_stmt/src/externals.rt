//! Readers of external declarations.
ghost use Rattle.std.specs.Prelude.{◌≡◌, ◌≤◌, None, Some, true, IfOk, IfErr};
ghost use Rattle.c_ast.specs.Marks.{IsSign};
ghost use Rattle.c_ast.specs.UnitMarks.{maybe_typedef as has_any_typedef};
ghost use Rattle.c_ast.specs.UnitViews.{option_of};
ghost use Rattle.c_ast.specs.Seen.{declarator_seen, specifiers_seen};
ghost use Rattle.c_ast.specs.Signs.{semicolon};
ghost use Rattle.c_readings.specs.Reading.{answer, beyond};
ghost use Rattle.c_readings.specs.Readers.{readers};
ghost use Rattle.c_readings.specs.UnitReaders as reader;
ghost use Rattle.c_expr.specs.State.{ahead};
ghost use Rattle.c_decl.specs.Going.{Goes, Breaks, Fails};
ghost use Rattle.c_stmt.specs.Seen.{block_seen, external_seen};

use crate::nodes::{declares, empty, function};
use crate::statements::block_inside;
use c_ast::{
    Block, Declarator, External, FunctionDefinition, Specifiers, declarator_height, sign,
    specifiers_height,
};
use c_decl::{
    begins_specifier, boxed, declared, expect, inits_behind, is_sign, line_at, low_specifiers,
    old_parameters_to, refuse, reopen_scope, takes, whole_declarator,
};
use c_expr::{Parser, SyntaxFault, has_typedef};
use lcc_base::Items;

/// A function's body, whose scope is open with its parameters.
#[tactic(auto, unfolding(c_readings::specs::UnitReaders::function_body))]
fn function_body(p: &mut Parser, limit: u32) -> Result<Block, SyntaxFault>
    requires sound { p.old.fault ≡ None }
    requires limit { limit ≤ 500 }
    ensures ok { IfOk result (λ b. reader.function_body readers limit (ahead p.old) ≡ Some (block_seen b, ahead p.new)) }
    ensures none { IfErr result (λ e. Fails e (reader.function_body readers limit (ahead p.old))) }
    ensures going { IfOk result (λ b. Goes 1 p.old p.new) }
    ensures broken { IfErr result (λ e. Breaks p.old p.new e) }
{
    if limit == 0 {
        return Err(refuse(p));
    }
    let line = line_at(p);
    expect(p, sign::OPEN_BRACE)?;
    block_inside(p, limit - 1, line)
}

/// The rest of a function's definition, behind its declarator: declarations of its parameters, and its
/// body.
#[tactic(auto, unfolding(c_readings::specs::UnitReaders::function))]
fn function_at(
    p: &mut Parser,
    limit: u32,
    line: u32,
    specifiers: Option<Specifiers>,
    declarator: Declarator,
) -> Result<External, SyntaxFault>
    requires sound { p.old.fault ≡ None }
    requires limit { limit ≤ 500 }
    ensures ok { IfOk result (λ x. reader.function readers limit line (option_of specifiers_seen specifiers) (declarator_seen declarator) (ahead p.old) ≡ Some (external_seen x, ahead p.new)) }
    ensures none { IfErr result (λ e. Fails e (reader.function readers limit line (option_of specifiers_seen specifiers) (declarator_seen declarator) (ahead p.old))) }
    ensures going { IfOk result (λ x. Goes 1 p.old p.new) }
    ensures broken { IfErr result (λ e. Breaks p.old p.new e) }
{
    reopen_scope(p)?;
    let parameters = old_parameters_to(p, limit)?;
    let body = function_body(p, limit)?;
    let definition = FunctionDefinition {
        specifiers,
        declarator,
        parameters,
        body,
    };
    Ok(function(line, boxed(p, definition)?))
}

/// The declaration without declarators behind specifiers, if it has some and is no higher than the
/// limit, where `;` is next.
fn declares_none_at(
    p: &mut Parser,
    limit: u32,
    line: u32,
    specifiers: Option<Specifiers>,
) -> Result<External, SyntaxFault>
    requires sound { p.old.fault ≡ None }
    requires limit { limit ≤ 500 }
    requires next { answer (IsSign semicolon) (ahead p.old) ≡ true }
    ensures ok { IfOk result (λ x. reader.declares_none limit line (option_of specifiers_seen specifiers) (beyond (ahead p.old)) ≡ Some (external_seen x, ahead p.new)) }
    ensures none { IfErr result (λ e. Fails e (reader.declares_none limit line (option_of specifiers_seen specifiers) (beyond (ahead p.old)))) }
    ensures going { IfOk result (λ x. Goes 1 p.old p.new) }
    ensures broken { IfErr result (λ e. Breaks p.old p.new e) }
{
    let Some(specifiers) = specifiers else {
        return Err(refuse(p));
    };
    if specifiers_height(&specifiers) >= limit {
        return Err(refuse(p));
    }
    expect(p, sign::SEMICOLON)?;
    let declarators = Items::new(p.alloc());
    let declaration = declared(line, specifiers, declarators);
    Ok(declares(line, declaration))
}

/// The declaration behind its first declarator, which stands on the line `at`, if it has specifiers
/// and is no higher than the limit.
fn declares_at(
    p: &mut Parser,
    limit: u32,
    line: u32,
    specifiers: Option<Specifiers>,
    at: u32,
    declarator: Declarator,
) -> Result<External, SyntaxFault>
    requires sound { p.old.fault ≡ None }
    requires limit { limit ≤ 500 }
    ensures ok { IfOk result (λ x. reader.declares readers limit line (option_of specifiers_seen specifiers) at (declarator_seen declarator) (ahead p.old) ≡ Some (external_seen x, ahead p.new)) }
    ensures none { IfErr result (λ e. Fails e (reader.declares readers limit line (option_of specifiers_seen specifiers) at (declarator_seen declarator) (ahead p.old))) }
    ensures going { IfOk result (λ x. Goes 1 p.old p.new) }
    ensures broken { IfErr result (λ e. Breaks p.old p.new e) }
{
    let Some(specifiers) = specifiers else {
        return Err(refuse(p));
    };
    if specifiers_height(&specifiers) >= limit {
        return Err(refuse(p));
    }
    if declarator_height(&declarator) >= limit {
        return Err(refuse(p));
    }
    let typedef = has_typedef(&specifiers);
    let declarators = inits_behind(p, limit - 1, typedef, at, declarator)?;
    let declaration = declared(line, specifiers, declarators);
    Ok(declares(line, declaration))
}

/// Whether a declaration goes on behind its first declarator.
fn is_declaring(p: &Parser) -> bool
    ensures { result ≡ reader.is_declaring (ahead p.now) }
{
    is_sign(p, sign::EQUALS) || is_sign(p, sign::COMMA) || is_sign(p, sign::SEMICOLON)
}

/// Whether `typedef` is among the specifiers, if there are any.
fn maybe_typedef(specifiers: &Option<Specifiers>) -> bool
    ensures { result ≡ has_any_typedef (option_of specifiers_seen specifiers.now) }
{
    match specifiers {
        Some(specifiers) => has_typedef(specifiers),
        None => false,
    }
}

/// What stands behind specifiers, or behind none: a declaration's declarators, or a function.
#[tactic(auto, unfolding(c_readings::specs::UnitReaders::external_behind, c_readings::specs::UnitReaders::external_by))]
fn external_behind(
    p: &mut Parser,
    limit: u32,
    line: u32,
    specifiers: Option<Specifiers>,
) -> Result<External, SyntaxFault>
    requires sound { p.old.fault ≡ None }
    requires limit { limit ≤ 500 }
    ensures ok { IfOk result (λ x. reader.external_behind readers limit line (option_of specifiers_seen specifiers) (ahead p.old) ≡ Some (external_seen x, ahead p.new)) }
    ensures none { IfErr result (λ e. Fails e (reader.external_behind readers limit line (option_of specifiers_seen specifiers) (ahead p.old))) }
    ensures going { IfOk result (λ x. Goes 1 p.old p.new) }
    ensures broken { IfErr result (λ e. Breaks p.old p.new e) }
{
    if is_sign(p, sign::SEMICOLON) {
        return declares_none_at(p, limit, line, specifiers);
    }
    let at = line_at(p);
    let typedef = maybe_typedef(&specifiers);
    let declarator = whole_declarator(p, limit, typedef)?;
    if is_declaring(p) {
        return declares_at(p, limit, line, specifiers, at, declarator);
    }
    function_at(p, limit, line, specifiers, declarator)
}

/// The specifiers that are next, if any are.
#[tactic(auto, unfolding(c_readings::specs::UnitReaders::maybe_specifiers))]
fn maybe_specifiers(p: &mut Parser, limit: u32) -> Result<Option<Specifiers>, SyntaxFault>
    requires sound { p.old.fault ≡ None }
    requires limit { limit ≤ 500 }
    ensures ok { IfOk result (λ s. reader.maybe_specifiers readers limit (ahead p.old) ≡ Some (option_of specifiers_seen s, ahead p.new)) }
    ensures none { IfErr result (λ e. Fails e (reader.maybe_specifiers readers limit (ahead p.old))) }
    ensures going { IfOk result (λ s. Goes 0 p.old p.new) }
    ensures broken { IfErr result (λ e. Breaks p.old p.new e) }
{
    if begins_specifier(p) {
        return Ok(Some(low_specifiers(p, limit)?));
    }
    Ok(None)
}

/// The external declaration at the place, if it is no higher than the limit; a lone `;` only where it
/// isn't the first.
#[tactic(auto, unfolding(c_readings::specs::UnitReaders::external))]
pub(crate) fn external_at(
    p: &mut Parser,
    limit: u32,
    is_first: bool,
) -> Result<External, SyntaxFault>
    requires sound { p.old.fault ≡ None }
    requires limit { limit ≤ 500 }
    ensures ok { IfOk result (λ x. reader.external readers limit is_first (ahead p.old) ≡ Some (external_seen x, ahead p.new)) }
    ensures none { IfErr result (λ e. Fails e (reader.external readers limit is_first (ahead p.old))) }
    ensures going { IfOk result (λ x. Goes 1 p.old p.new) }
    ensures broken { IfErr result (λ e. Breaks p.old p.new e) }
{
    if limit == 0 {
        return Err(refuse(p));
    }
    let line = line_at(p);
    if is_sign(p, sign::SEMICOLON) && is_first {
        return Err(refuse(p));
    }
    if takes(p, sign::SEMICOLON) {
        return Ok(empty(line));
    }
    let specifiers = maybe_specifiers(p, limit - 1)?;
    external_behind(p, limit - 1, line, specifiers)
}
