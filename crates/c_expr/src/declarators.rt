//! Readers of declarators.
ghost use Rattle.std.specs.Prelude.{◌≡◌, ◌<◌, ◌≤◌, ◌∷◌, Some, None, map, length, IfOk, IfErr, IfSome, IfNone, []};
ghost use Rattle.c_expr.specs.Answers.{at, Fails};
ghost use Rattle.c_ast.specs.Heights.{core_height, declarator_height};
ghost use Rattle.c_lexer.specs.PlacedTokens.{placed};
ghost use Rattle.c_readings.specs.Readers.{core, pointers_on, qualifier_of, qualifiers_on, readers};
ghost use Rattle.c_ast.specs.Seen.{core_seen, declarator_seen};

use crate::found::Found;
use crate::names_met::NamesMet;
use crate::questions::begins_core;
use crate::stop::Stop;
use crate::suffixes::suffixes_at;
use crate::tokens::{Text, after, expect, line_of, name, no_parse};
use crate::traits_of_trees::is_own;
use crate::type_nodes::{declarator, declared, inner, omitted};
use crate::words::{Word, word_of};
use c_ast::{Class, Declarator, DeclaratorCore, Qualifier, sign};
use c_lexer::Token;
use lcc_base::{Items, Memory};
use names_in_force::Names;

/// Which declarators may stand there.
#[derive(Clone, Copy, Debug)]
pub(crate) struct Shape {
    /// Its name may be left out.
    pub(crate) free: bool,
    /// It is no part of another.
    pub(crate) outer: bool,
}

/// The qualifier that is next, and the tokens behind it.
#[tactic(auto, unfolding(c_readings::specs::Readers::qualifiers_on))]
fn qualifier<'t>(text: &Text, tokens: &'t [Token]) -> Option<(Qualifier, &'t [Token])>
    ensures some { IfSome result (λ r. qualifiers_on (placed text.now tokens.now) ≡ (r.0 ∷ (qualifiers_on (placed text.now r.1.now)).0, (qualifiers_on (placed text.now r.1.now)).1)) }
    ensures none { IfNone result (qualifiers_on (placed text.now tokens.now) ≡ ([], placed text.now tokens.now)) }
    ensures shorter { IfSome result (λ r. length r.1.now < length tokens.now) }
{
    let (token, rest) = tokens.split_first()?;
    let Class::Keyword(keyword) = token.class else {
        return None;
    };
    match word_of(keyword) {
        Some(Word::Qualifier(qualifier)) => Some((qualifier, rest)),
        _ => None,
    }
}

/// The qualifiers that are next, and the tokens behind them.
fn qualifiers_at<'t>(
    text: &Text,
    tokens: &'t [Token],
) -> Result<(Items<Qualifier>, &'t [Token]), Memory>
    ensures ok { IfOk result (λ r. qualifiers_on (placed text.now tokens.now) ≡ (r.0, placed text.now r.1.now)) }
    ensures shorter { IfOk result (λ r. length r.1.now ≤ length tokens.now) }
{
    let mut qualifiers = Items::new(text.alloc);
    let mut rest = tokens;
    while let Some((found, behind)) = qualifier(text, rest) {
        qualifiers.push(found)?;
        rest = behind;
    }
    Ok((qualifiers, rest))
}

/// The qualifiers behind each `*` that is next, and the tokens behind them.
fn pointers_at<'t>(
    text: &Text,
    tokens: &'t [Token],
) -> Result<(Items<Items<Qualifier>>, &'t [Token]), Memory>
    ensures ok { IfOk result (λ r. pointers_on (placed text.now tokens.now) ≡ (r.0, placed text.now r.1.now)) }
    ensures shorter { IfOk result (λ r. length r.1.now ≤ length tokens.now) }
{
    let mut pointers = Items::new(text.alloc);
    let mut rest = tokens;
    while let Some(behind) = after(text, rest, sign::STAR) {
        let (qualifiers, end) = qualifiers_at(text, behind)?;
        pointers.push(qualifiers)?;
        rest = end;
    }
    Ok((pointers, rest))
}

/// The declarator that is next, whose names that no abstract one has are noted.
#[cycle(syntax)]
#[tactic(auto, using(crate::proofs::Exits::no_declarator, crate::proofs::Exits::declarator_is), unfolding(c_readings::specs::Readers::declarator_above))]
pub(crate) fn declarator_at<'t>(
    text: &Text,
    names: &mut Names,
    met: &mut NamesMet,
    shape: Shape,
    tokens: &'t [Token],
    limit: u32,
) -> Result<Found<'t, Declarator>, Stop>
    requires limit { limit ≤ 500 }
    ensures ok { IfOk result (λ f. (readers limit).declarator shape.free shape.outer (at names.old text.now tokens.now) ≡ Some (declarator_seen f.tree, at names.new text.now f.rest.now)) }
    ensures high { IfOk result (λ f. f.height ≡ declarator_height (declarator_seen f.tree)) }
    ensures none { IfErr result (λ e. Fails e ((readers limit).declarator shape.free shape.outer (at names.old text.now tokens.now))) }
    ensures low { IfOk result (λ f. f.height ≤ limit) }
    ensures shorter { IfOk result (λ f. length f.rest.now ≤ length tokens.now) }
{
    if limit == 0 {
        return Err(no_parse(tokens));
    }
    let line = line_of(tokens);
    let (pointers, behind) = pointers_at(text, tokens)?;
    let core = core_at(text, names, met, shape, behind, limit - 1)?;
    let own = shape.outer && is_own(&core.tree);
    let suffixes = suffixes_at(text, names, met, own, core.rest, limit - 1)?;
    Ok(Found {
        tree: declarator(line, pointers, core.tree, suffixes.tree),
        height: core.height.max(suffixes.height) + 1,
        rest: suffixes.rest,
    })
}

/// The declared name, or a declarator in parentheses, or nothing where the name is left out.
#[cycle(syntax)]
#[tactic(auto, unfolding(c_readings::specs::Readers::core))]
fn core_at<'t>(
    text: &Text,
    names: &mut Names,
    met: &mut NamesMet,
    shape: Shape,
    tokens: &'t [Token],
    limit: u32,
) -> Result<Found<'t, DeclaratorCore>, Stop>
    requires limit { limit ≤ 500 }
    ensures ok { IfOk result (λ f. core (readers limit) shape.free shape.outer (at names.old text.now tokens.now) ≡ Some (core_seen f.tree, at names.new text.now f.rest.now)) }
    ensures high { IfOk result (λ f. f.height ≡ core_height (core_seen f.tree)) }
    ensures none { IfErr result (λ e. Fails e (core (readers limit) shape.free shape.outer (at names.old text.now tokens.now))) }
    ensures low { IfOk result (λ f. f.height ≤ limit) }
    ensures shorter { IfOk result (λ f. length f.rest.now ≤ length tokens.now) }
{
    if shape.free && !begins_core(text, names, tokens) {
        return Ok(Found {
            tree: omitted(),
            height: 0,
            rest: tokens,
        });
    }
    if let Some((token, rest)) = name(text, tokens) {
        met.declare(tokens.len());
        return Ok(Found {
            tree: declared(text.name(token)?),
            height: 0,
            rest,
        });
    }
    let behind = expect(text, tokens, sign::OPEN)?;
    let inside = declarator_at(text, names, met, shape, behind, limit)?;
    let rest = expect(text, inside.rest, sign::CLOSE)?;
    Ok(Found {
        tree: inner(text.alloc, inside.tree)?,
        height: inside.height,
        rest,
    })
}
