//! Readers of expressions. They are called as deep as an expression is high.
ghost use Rattle.std.specs.Prelude.{◌≡◌, ◌<◌, ◌≤◌, ◌∷◌, Some, None, map, length, IfOk, IfErr, IfSome, IfNone};
ghost use Rattle.c_ast.specs.Heights.{height, tallest};
ghost use Rattle.c_ast.specs.Views.{exprs_of};
ghost use Rattle.c_lexer.specs.PlacedTokens.{placed};
ghost use Rattle.c_readings.specs.Reading.{bind, gives, tail, commas};
ghost use Rattle.c_readings.specs.Readers.{kind_on, readers};
ghost use Rattle.c_expr.specs.Answers.{at, Fails};
ghost use Rattle.c_expr.specs.Links.{seen_kind};
ghost use Rattle.c_ast.specs.Seen.{expr_seen};

use crate::expr_nodes::{linked, sequence};
use crate::found::Found;
use crate::heads::head_at;
use crate::link::{LinkKind, kind_at};
use crate::links::link_at;
use crate::stop::Stop;
use crate::tokens::{Text, after, line_of, no_parse};
use crate::traits_of_trees::rank;
use c_ast::{Class, Expr, sign};
use c_lexer::Token;
use lcc_base::Items;
use names_in_force::Names;

/// What the next token makes of an expression of the rank before it, at the level, and the tokens
/// behind it.
fn link_next<'t>(
    text: &Text,
    level: u8,
    rank: u8,
    tokens: &'t [Token],
) -> Option<(LinkKind, &'t [Token])>
    ensures kind { IfSome result (λ r. kind_on level rank (placed text.now tokens.now) ≡ Some (seen_kind r.0)) }
    ensures rest { IfSome result (λ r. tail (placed text.now tokens.now) ≡ placed text.now r.1.now) }
    ensures shorter { IfSome result (λ r. length r.1.now < length tokens.now) }
    ensures none { IfNone result (kind_on level rank (placed text.now tokens.now) ≡ None) }
{
    let (token, rest) = tokens.split_first()?;
    let Class::Sign(sign) = token.class else {
        return None;
    };
    let kind = kind_at(level, rank, sign)?;
    Some((kind, rest))
}

/// The expression of the level, 1 or more, that is next, no higher than the limit.
#[cycle(syntax)]
#[tactic(auto, using(crate::proofs::Exits::no_piece, crate::proofs::Exits::piece_is, crate::proofs::Exits::limit_is), unfolding(c_readings::specs::Readers::piece_above))]
pub(crate) fn piece_at<'t>(
    text: &Text,
    names: &mut Names,
    level: u8,
    tokens: &'t [Token],
    limit: u32,
) -> Result<Found<'t, Expr>, Stop>
    requires limit { limit ≤ 500 }
    ensures ok { IfOk result (λ f. (readers limit).piece level (at names.old text.now tokens.now) ≡ Some (expr_seen f.tree, at names.new text.now f.rest.now)) }
    ensures high { IfOk result (λ f. f.height ≡ height (expr_seen f.tree)) }
    ensures none { IfErr result (λ e. Fails e ((readers limit).piece level (at names.old text.now tokens.now))) }
    ensures low { IfOk result (λ f. f.height ≤ limit) }
    ensures shorter { IfOk result (λ f. length f.rest.now < length tokens.now) }
{
    if limit == 0 {
        return Err(no_parse(tokens));
    }
    let line = line_of(tokens);
    let mut left = head_at(text, names, level, tokens, limit - 1)?;
    while let Some((kind, rest)) = link_next(text, level, rank(&left.tree), left.rest) {
        if left.height >= limit {
            return Err(no_parse(left.rest));
        }
        let link = link_at(text, names, kind, rest, limit - 1)?;
        let height = left.height.max(link.height) + 1;
        let tree = linked(text.alloc, line, left.tree, link.tree)?;
        left = Found {
            tree,
            height,
            rest: link.rest,
        };
    }
    Ok(left)
}

/// An expression, and those behind the commas that are next.
#[cycle(syntax)]
#[tactic(auto, using(crate::proofs::Chained::exprs_high))]
pub(crate) fn sequence_at<'t>(
    text: &Text,
    names: &mut Names,
    begun: Found<'t, Expr>,
    limit: u32,
) -> Result<Found<'t, Items<Expr>>, Stop>
    requires limit { limit ≤ 500 }
    requires begun { begun.height ≤ limit }
    requires high { begun.height ≡ height (expr_seen begun.tree) }
    ensures ok { IfOk result (λ f. bind (commas ((readers limit).piece 1) (at names.old text.now begun.entry.rest.now)) (λ es u. gives (expr_seen begun.entry.tree ∷ es) u) ≡ Some (map expr_seen f.tree, at names.new text.now f.rest.now)) }
    ensures high { IfOk result (λ f. f.height ≡ tallest (exprs_of (map expr_seen f.tree))) }
    ensures none { IfErr result (λ e. Fails e (commas ((readers limit).piece 1) (at names.old text.now begun.entry.rest.now))) }
    ensures low { IfOk result (λ f. f.height ≤ limit) }
    ensures shorter { IfOk result (λ f. length f.rest.now ≤ length begun.entry.rest.now) }
{
    let mut height = begun.height;
    let mut rest = begun.rest;
    let mut parts = Items::new(text.alloc);
    parts.push(begun.tree)?;
    while let Some(behind) = after(text, rest, sign::COMMA) {
        let other = piece_at(text, names, 1, behind, limit)?;
        parts.push(other.tree)?;
        height = height.max(other.height);
        rest = other.rest;
    }
    Ok(Found {
        tree: parts,
        height,
        rest,
    })
}

/// The expression that is next, perhaps one with commas, no higher than the limit.
#[cycle(syntax)]
#[tactic(auto, using(crate::proofs::Exits::no_whole, crate::proofs::Exits::whole_is, crate::proofs::Exits::piece_is, crate::proofs::Exits::limit_is), unfolding(c_readings::specs::Readers::whole_above))]
pub(crate) fn whole_at<'t>(
    text: &Text,
    names: &mut Names,
    tokens: &'t [Token],
    limit: u32,
) -> Result<Found<'t, Expr>, Stop>
    requires limit { limit ≤ 500 }
    ensures ok { IfOk result (λ f. (readers limit).whole (at names.old text.now tokens.now) ≡ Some (expr_seen f.tree, at names.new text.now f.rest.now)) }
    ensures high { IfOk result (λ f. f.height ≡ height (expr_seen f.tree)) }
    ensures none { IfErr result (λ e. Fails e ((readers limit).whole (at names.old text.now tokens.now))) }
    ensures low { IfOk result (λ f. f.height ≤ limit) }
    ensures shorter { IfOk result (λ f. length f.rest.now < length tokens.now) }
{
    let line = line_of(tokens);
    let begun = piece_at(text, names, 1, tokens, limit)?;
    let Some(_) = after(text, begun.rest, sign::COMMA) else {
        return Ok(begun);
    };
    if begun.height >= limit {
        return Err(no_parse(begun.rest));
    }
    let parts = sequence_at(text, names, begun, limit - 1)?;
    Ok(Found {
        tree: sequence(line, parts.tree),
        height: parts.height + 1,
        rest: parts.rest,
    })
}
