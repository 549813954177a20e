//! Readers of declarations.
ghost use Rattle.std.specs.Prelude.{◌≡◌, ◌≤◌, None, Some, map, IfOk, IfErr};
ghost use Rattle.c_ast.specs.UnitViews.{option_of};
ghost use Rattle.c_ast.specs.Seen.{declarator_seen};
ghost use Rattle.c_ast.specs.SeenUnits.{boxed_initialiser_seen, declaration_seen, init_seen};
ghost use Rattle.c_readings.specs.Readers.{readers};
ghost use Rattle.c_readings.specs.DeclarationReaders as reader;
ghost use Rattle.c_expr.specs.State.{ahead, Refused, Took};
ghost use Rattle.c_decl.specs.Going.{Goes, Breaks, Fails};
ghost use Rattle.c_decl.specs.OldParameters as reading;
ghost use Rattle.c_decl.specs.Productions as production;

use crate::initialisers::initialiser_at;
use crate::next::{begins_declaration, begins_specifier, line_at};
use crate::nodes::{declared, init};
use crate::parts::{low_specifiers, whole_declarator};
use crate::steps::{alone, boxed, expect, keep, refuse, refuse_behind, takes};
use c_ast::{Declaration, Declarator, InitDeclarator, Initialiser, sign};
use c_expr::{Parser, SyntaxFault, has_typedef};
use c_readings::units_are_exact;
use lcc_base::Items;

/// The declaration at the place, as `initialiser`; what it declares is in force behind it.
/// Source: C89 3.5.
pub fn declaration(p: &mut Parser) -> Result<Declaration, SyntaxFault>
    ensures ok { IfOk result (λ d. Took production.declaration (ahead p.old) p.old (declaration_seen d) p.new) }
    ensures err { IfErr result (λ e. Refused production.declaration (ahead p.old) p.old p.new e) }
{
    units_are_exact();
    if let Some(fault) = p.fault() {
        return Err(fault);
    }
    declaration_to(p, 500)
}

/// The declarations of old-style parameters at the place, perhaps none, as `initialiser`. A typedef
/// name before `:` goes on from them and begins none. Source: C89 3.7.1.
pub fn old_parameters(p: &mut Parser) -> Result<Items<Declaration>, SyntaxFault>
    ensures ok { IfOk result (λ ds. Took production.old_parameters (ahead p.old) p.old (map declaration_seen ds) p.new) }
    ensures err { IfErr result (λ e. Refused production.old_parameters (ahead p.old) p.old p.new e) }
{
    units_are_exact();
    if let Some(fault) = p.fault() {
        return Err(fault);
    }
    old_parameters_to(p, 500)
}

/// The declarations of old-style parameters at the place, if they are no higher than the limit.
pub fn old_parameters_to(p: &mut Parser, limit: u32) -> Result<Items<Declaration>, SyntaxFault>
    requires sound { p.old.fault ≡ None }
    requires limit { limit ≤ 500 }
    ensures ok { IfOk result (λ ds. reading.old_parameters limit (ahead p.old) ≡ Some (map declaration_seen ds, ahead p.new)) }
    ensures read { IfOk result (λ ds. reader.declarations readers limit (ahead p.old) ≡ Some (map declaration_seen ds, ahead p.new)) }
    ensures none { IfErr result (λ e. Fails e (reading.old_parameters limit (ahead p.old))) }
    ensures going { IfOk result (λ ds. Goes 0 p.old p.new) }
    ensures broken { IfErr result (λ e. Breaks p.old p.new e) }
{
    let list = declarations_to(p, limit)?;
    if begins_specifier(p) {
        return Err(refuse_behind(p));
    }
    Ok(list)
}

/// `=` and an initialiser, or neither.
#[tactic(auto, unfolding(c_readings::specs::DeclarationReaders::maybe_initialiser))]
fn maybe_initialiser_at(p: &mut Parser, limit: u32) -> Result<Option<Box<Initialiser>>, SyntaxFault>
    requires sound { p.old.fault ≡ None }
    requires limit { limit ≤ 500 }
    ensures ok { IfOk result (λ o. reader.maybe_initialiser readers limit (ahead p.old) ≡ Some (option_of boxed_initialiser_seen o, ahead p.new)) }
    ensures none { IfErr result (λ e. Fails e (reader.maybe_initialiser readers limit (ahead p.old))) }
    ensures going { IfOk result (λ o. Goes 0 p.old p.new) }
    ensures broken { IfErr result (λ e. Breaks p.old p.new e) }
{
    if takes(p, sign::EQUALS) {
        let initialiser = initialiser_at(p, limit)?;
        return Ok(Some(boxed(p, initialiser)?));
    }
    Ok(None)
}

/// What stands behind a declarator: an initialiser, or nothing.
#[tactic(auto, unfolding(c_readings::specs::DeclarationReaders::init_behind))]
fn init_behind(
    p: &mut Parser,
    limit: u32,
    line: u32,
    declarator: Declarator,
) -> Result<InitDeclarator, SyntaxFault>
    requires sound { p.old.fault ≡ None }
    requires limit { limit ≤ 500 }
    ensures ok { IfOk result (λ i. reader.init_behind readers limit line (declarator_seen declarator) (ahead p.old) ≡ Some (init_seen i, ahead p.new)) }
    ensures none { IfErr result (λ e. Fails e (reader.init_behind readers limit line (declarator_seen declarator) (ahead p.old))) }
    ensures going { IfOk result (λ i. Goes 0 p.old p.new) }
    ensures broken { IfErr result (λ e. Breaks p.old p.new e) }
{
    let initialiser = maybe_initialiser_at(p, limit)?;
    Ok(init(line, declarator, initialiser))
}

/// A declarator, perhaps with its initialiser.
#[tactic(auto, unfolding(c_readings::specs::DeclarationReaders::init))]
fn init_at(p: &mut Parser, limit: u32, typedef: bool) -> Result<InitDeclarator, SyntaxFault>
    requires sound { p.old.fault ≡ None }
    requires limit { limit ≤ 500 }
    ensures ok { IfOk result (λ i. reader.init readers limit typedef (ahead p.old) ≡ Some (init_seen i, ahead p.new)) }
    ensures none { IfErr result (λ e. Fails e (reader.init readers limit typedef (ahead p.old))) }
    ensures going { IfOk result (λ i. Goes 0 p.old p.new) }
    ensures broken { IfErr result (λ e. Breaks p.old p.new e) }
{
    let line = line_at(p);
    let declarator = whole_declarator(p, limit, typedef)?;
    init_behind(p, limit, line, declarator)
}

/// The rest of a declaration behind its first declarator, which stands on the line: its initialiser,
/// other declarators, and `;`.
#[tactic(auto, unfolding(c_readings::specs::DeclarationReaders::inits_behind))]
pub fn inits_behind(
    p: &mut Parser,
    limit: u32,
    typedef: bool,
    line: u32,
    declarator: Declarator,
) -> Result<Items<InitDeclarator>, SyntaxFault>
    requires sound { p.old.fault ≡ None }
    requires limit { limit ≤ 500 }
    ensures ok { IfOk result (λ is. reader.inits_behind readers limit typedef line (declarator_seen declarator) (ahead p.old) ≡ Some (map init_seen is, ahead p.new)) }
    ensures none { IfErr result (λ e. Fails e (reader.inits_behind readers limit typedef line (declarator_seen declarator) (ahead p.old))) }
    ensures going { IfOk result (λ is. Goes 1 p.old p.new) }
    ensures broken { IfErr result (λ e. Breaks p.old p.new e) }
{
    let first = init_behind(p, limit, line, declarator)?;
    let mut list = alone(p, first)?;
    while takes(p, sign::COMMA) {
        let other = init_at(p, limit, typedef)?;
        keep(p, &mut list, other)?;
    }
    expect(p, sign::SEMICOLON)?;
    Ok(list)
}

/// Declarators between commas, perhaps none, and `;`.
#[tactic(auto, unfolding(c_readings::specs::DeclarationReaders::inits))]
fn inits_at(p: &mut Parser, limit: u32, typedef: bool) -> Result<Items<InitDeclarator>, SyntaxFault>
    requires sound { p.old.fault ≡ None }
    requires limit { limit ≤ 500 }
    ensures ok { IfOk result (λ is. reader.inits readers limit typedef (ahead p.old) ≡ Some (map init_seen is, ahead p.new)) }
    ensures none { IfErr result (λ e. Fails e (reader.inits readers limit typedef (ahead p.old))) }
    ensures going { IfOk result (λ is. Goes 1 p.old p.new) }
    ensures broken { IfErr result (λ e. Breaks p.old p.new e) }
{
    if takes(p, sign::SEMICOLON) {
        return Ok(Items::new(p.alloc()));
    }
    let line = line_at(p);
    let declarator = whole_declarator(p, limit, typedef)?;
    inits_behind(p, limit, typedef, line, declarator)
}

/// The declaration at the place, if it is no higher than the limit.
#[tactic(auto, unfolding(c_readings::specs::DeclarationReaders::declaration))]
pub fn declaration_to(p: &mut Parser, limit: u32) -> Result<Declaration, SyntaxFault>
    requires sound { p.old.fault ≡ None }
    requires limit { limit ≤ 500 }
    ensures ok { IfOk result (λ d. reader.declaration readers limit (ahead p.old) ≡ Some (declaration_seen d, ahead p.new)) }
    ensures none { IfErr result (λ e. Fails e (reader.declaration readers limit (ahead p.old))) }
    ensures going { IfOk result (λ d. Goes 1 p.old p.new) }
    ensures broken { IfErr result (λ e. Breaks p.old p.new e) }
{
    if limit == 0 {
        return Err(refuse(p));
    }
    let line = line_at(p);
    let specifiers = low_specifiers(p, limit - 1)?;
    let typedef = has_typedef(&specifiers);
    let declarators = inits_at(p, limit - 1, typedef)?;
    Ok(declared(line, specifiers, declarators))
}

/// The declarations at the place as long as one is next, and no label, if they are no higher than the
/// limit.
#[tactic(auto, unfolding(c_readings::specs::DeclarationReaders::declarations))]
pub fn declarations_to(p: &mut Parser, limit: u32) -> Result<Items<Declaration>, SyntaxFault>
    requires sound { p.old.fault ≡ None }
    requires limit { limit ≤ 500 }
    ensures ok { IfOk result (λ ds. reader.declarations readers limit (ahead p.old) ≡ Some (map declaration_seen ds, ahead p.new)) }
    ensures none { IfErr result (λ e. Fails e (reader.declarations readers limit (ahead p.old))) }
    ensures going { IfOk result (λ ds. Goes 0 p.old p.new) }
    ensures broken { IfErr result (λ e. Breaks p.old p.new e) }
{
    let mut list = Items::new(p.alloc());
    while begins_declaration(p) {
        let declaration = declaration_to(p, limit)?;
        keep(p, &mut list, declaration)?;
    }
    Ok(list)
}
