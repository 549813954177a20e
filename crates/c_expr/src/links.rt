//! Readers of what stands behind an expression.
ghost use Rattle.std.specs.Prelude.{◌≡◌, ◌<◌, ◌≤◌, Some, map, length, IfOk, IfErr};
ghost use Rattle.c_ast.specs.Heights.{tallest};
ghost use Rattle.c_ast.specs.Reach.{Question};
ghost use Rattle.c_ast.specs.Views.{exprs_of};
ghost use Rattle.c_readings.specs.Readers.{arguments, link, readers};
ghost use Rattle.c_expr.specs.Answers.{at, Fails};
ghost use Rattle.c_expr.specs.Links.{link_height, link_of, seen_kind};
ghost use Rattle.c_ast.specs.Seen.{expr_seen};

use crate::expressions::{piece_at, sequence_at, whole_at};
use crate::found::Found;
use crate::link::{Link, LinkKind};
use crate::stop::Stop;
use crate::tokens::{Text, after, expect, expect_name};
use crate::traits_of_trees::level_of;
use c_ast::{Expr, sign};
use c_lexer::Token;
use lcc_base::Items;
use names_in_force::Names;

/// What stands behind the token of the kind.
#[cycle(syntax)]
#[tactic(auto, unfolding(c_readings::specs::Readers::link))]
pub(crate) fn link_at<'t>(
    text: &Text,
    names: &mut Names,
    kind: LinkKind,
    tokens: &'t [Token],
    limit: u32,
) -> Result<Found<'t, Link>, Stop>
    requires limit { limit ≤ 500 }
    ensures ok { IfOk result (λ f. link (readers limit) (seen_kind kind) (at names.old text.now tokens.now) ≡ Some (link_of f.tree, at names.new text.now f.rest.now)) }
    ensures high { IfOk result (λ f. f.height ≡ link_height (link_of f.tree)) }
    ensures none { IfErr result (λ e. Fails e (link (readers limit) (seen_kind kind) (at names.old text.now tokens.now))) }
    ensures low { IfOk result (λ f. f.height ≤ limit) }
    ensures shorter { IfOk result (λ f. length f.rest.now ≤ length tokens.now) }
{
    match kind {
        LinkKind::Index => {
            let inside = whole_at(text, names, tokens, limit)?;
            Ok(Found {
                tree: Link::Index(inside.tree),
                height: inside.height,
                rest: expect(text, inside.rest, sign::CLOSE_BRACKET)?,
            })
        }
        LinkKind::Call => {
            let inside = arguments_at(text, names, tokens, limit)?;
            Ok(Found {
                tree: Link::Call(inside.tree),
                height: inside.height,
                rest: inside.rest,
            })
        }
        LinkKind::Select(operator) => {
            let (token, rest) = expect_name(text, tokens)?;
            Ok(Found {
                tree: Link::Select(operator, text.name(token)?),
                height: 0,
                rest,
            })
        }
        LinkKind::Step(operator) => Ok(Found {
            tree: Link::Step(operator),
            height: 0,
            rest: tokens,
        }),
        LinkKind::Operate(operator) => {
            let right = piece_at(text, names, level_of(operator) + 1, tokens, limit)?;
            Ok(Found {
                tree: Link::Operate(operator, right.tree),
                height: right.height,
                rest: right.rest,
            })
        }
        LinkKind::Question => choices_at(text, names, tokens, limit),
        LinkKind::Assign(operator) => {
            let right = piece_at(text, names, 1, tokens, limit)?;
            Ok(Found {
                tree: Link::Assign(operator, right.tree),
                height: right.height,
                rest: right.rest,
            })
        }
    }
}

/// The two expressions behind `?`.
#[cycle(syntax)]
#[tactic(auto, unfolding(c_readings::specs::Readers::link))]
fn choices_at<'t>(
    text: &Text,
    names: &mut Names,
    tokens: &'t [Token],
    limit: u32,
) -> Result<Found<'t, Link>, Stop>
    requires limit { limit ≤ 500 }
    ensures ok { IfOk result (λ f. link (readers limit) Question (at names.old text.now tokens.now) ≡ Some (link_of f.tree, at names.new text.now f.rest.now)) }
    ensures high { IfOk result (λ f. f.height ≡ link_height (link_of f.tree)) }
    ensures none { IfErr result (λ e. Fails e (link (readers limit) Question (at names.old text.now tokens.now))) }
    ensures low { IfOk result (λ f. f.height ≤ limit) }
    ensures shorter { IfOk result (λ f. length f.rest.now < length tokens.now) }
{
    let yes = whole_at(text, names, tokens, limit)?;
    let rest = expect(text, yes.rest, sign::COLON)?;
    let no = piece_at(text, names, 2, rest, limit)?;
    Ok(Found {
        tree: Link::Choose(yes.tree, no.tree),
        height: yes.height.max(no.height),
        rest: no.rest,
    })
}

/// The arguments behind `(`, and `)`.
#[cycle(syntax)]
#[tactic(auto, unfolding(c_readings::specs::Readers::arguments))]
fn arguments_at<'t>(
    text: &Text,
    names: &mut Names,
    tokens: &'t [Token],
    limit: u32,
) -> Result<Found<'t, Items<Expr>>, Stop>
    requires limit { limit ≤ 500 }
    ensures ok { IfOk result (λ f. arguments (readers limit) (at names.old text.now tokens.now) ≡ Some (exprs_of (map expr_seen f.tree), at names.new text.now f.rest.now)) }
    ensures high { IfOk result (λ f. f.height ≡ tallest (exprs_of (map expr_seen f.tree))) }
    ensures none { IfErr result (λ e. Fails e (arguments (readers limit) (at names.old text.now tokens.now))) }
    ensures low { IfOk result (λ f. f.height ≤ limit) }
    ensures shorter { IfOk result (λ f. length f.rest.now < length tokens.now) }
{
    if let Some(rest) = after(text, tokens, sign::CLOSE) {
        return Ok(Found {
            tree: Items::new(text.alloc),
            height: 0,
            rest,
        });
    }
    let begun = piece_at(text, names, 1, tokens, limit)?;
    let all = sequence_at(text, names, begun, limit)?;
    Ok(Found {
        tree: all.tree,
        height: all.height,
        rest: expect(text, all.rest, sign::CLOSE)?,
    })
}
