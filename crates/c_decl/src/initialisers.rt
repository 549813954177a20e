//! Readers of initialisers.
ghost use Rattle.std.specs.Prelude.{◌≡◌, ◌≤◌, None, Some, map, IfOk, IfErr};
ghost use Rattle.c_ast.specs.UnitViews.{initialisers_of};
ghost use Rattle.c_ast.specs.SeenUnits.{initialiser_seen};
ghost use Rattle.c_readings.specs.Readers.{readers};
ghost use Rattle.c_readings.specs.DeclarationReaders.{initialiser, initialisers};
ghost use Rattle.c_expr.specs.State.{ahead, Refused, Took};
ghost use Rattle.c_decl.specs.Going.{Goes, Breaks, Fails};
ghost use Rattle.c_decl.specs.Productions.{initialiser as initialiser_production};

use crate::next::line_at;
use crate::nodes::{braced, by_expr};
use crate::parts::low_assignment;
use crate::steps::{alone, expect, keep, refuse, takes, takes_comma};
use c_ast::{Initialiser, sign};
use c_expr::{Parser, SyntaxFault};
use c_readings::units_are_exact;
use lcc_base::Items;

/// Initialisers, and whether a comma stands behind the last.
#[derive(Drop)]
struct Initialisers {
    items: Items<Initialiser>,
    comma: bool,
}

/// The initialiser at the place. Source: C89 3.5.7.
///
/// A call for a production takes the longest piece of it at the place, no higher than 500, from
/// which the next token doesn't go on. NoParse comes exactly where none stands there, with the line
/// of the token by which nothing goes on, which is at the place from there on; and Memory where an
/// allocation is refused. The fault is answered again by each later call.
pub fn initialiser(p: &mut Parser) -> Result<Initialiser, SyntaxFault>
    ensures ok { IfOk result (λ i. Took initialiser_production (ahead p.old) p.old (initialiser_seen i) p.new) }
    ensures err { IfErr result (λ e. Refused initialiser_production (ahead p.old) p.old p.new e) }
{
    units_are_exact();
    if let Some(fault) = p.fault() {
        return Err(fault);
    }
    initialiser_at(p, 500)
}

/// The initialiser at the place, if it is no higher than the limit.
#[cycle(initialisers)]
#[tactic(auto, unfolding(c_readings::specs::DeclarationReaders::initialiser))]
pub(crate) fn initialiser_at(p: &mut Parser, limit: u32) -> Result<Initialiser, SyntaxFault>
    requires sound { p.old.fault ≡ None }
    requires limit { limit ≤ 500 }
    ensures ok { IfOk result (λ i. initialiser readers limit (ahead p.old) ≡ Some (initialiser_seen i, ahead p.new)) }
    ensures none { IfErr result (λ e. Fails e (initialiser readers limit (ahead p.old))) }
    ensures going { IfOk result (λ i. Goes 1 p.old p.new) }
    ensures broken { IfErr result (λ e. Breaks p.old p.new e) }
{
    if limit == 0 {
        return Err(refuse(p));
    }
    let line = line_at(p);
    if takes(p, sign::OPEN_BRACE) {
        let list = initialisers_at(p, limit - 1)?;
        return Ok(braced(line, list.items, list.comma));
    }
    let expression = low_assignment(p, limit - 1)?;
    Ok(by_expr(line, expression))
}

/// Initialisers between commas, at least one, perhaps a comma, and `}`.
#[cycle(initialisers)]
#[tactic(auto, unfolding(c_readings::specs::DeclarationReaders::initialisers))]
fn initialisers_at(p: &mut Parser, limit: u32) -> Result<Initialisers, SyntaxFault>
    requires sound { p.old.fault ≡ None }
    requires limit { limit ≤ 500 }
    ensures ok { IfOk result (λ is. initialisers (initialiser readers limit) (ahead p.old) ≡ Some ((initialisers_of (map initialiser_seen is.items), is.comma), ahead p.new)) }
    ensures none { IfErr result (λ e. Fails e (initialisers (initialiser readers limit) (ahead p.old))) }
    ensures going { IfOk result (λ is. Goes 1 p.old p.new) }
    ensures broken { IfErr result (λ e. Breaks p.old p.new e) }
{
    let first = initialiser_at(p, limit)?;
    let mut items = alone(p, first)?;
    while takes_comma(p, sign::CLOSE_BRACE) {
        let item = initialiser_at(p, limit)?;
        keep(p, &mut items, item)?;
    }
    let comma = takes(p, sign::COMMA);
    expect(p, sign::CLOSE_BRACE)?;
    Ok(Initialisers { items, comma })
}
