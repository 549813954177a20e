//! Readers of what stands before the first operator of an expression.
ghost use Rattle.std.specs.Prelude.{◌≡◌, ◌<◌, ◌≤◌, ◌+◌, ◌∷◌, ◌⊎◌, Some, true, false, length, IfOk, IfErr};
ghost use Rattle.c_ast.specs.Heights.{height};
ghost use Rattle.c_lexer.specs.PlacedTokens.{placed};
ghost use Rattle.c_readings.specs.Readers.{cast, enclosed, head, prefixed_by, readers, signed_by, sized, texts_on};
ghost use Rattle.c_ast.specs.InForce.{is_typedef};
ghost use Rattle.c_ast.specs.Marks.{IsSized};
ghost use Rattle.c_ast.specs.Trees as tree;
ghost use Rattle.c_lexer.specs.SourceUnits.{bytes_of};
ghost use Rattle.c_lexer.specs.Texts.{text_of};
ghost use Rattle.c_readings.specs.Reading.{answer};
ghost use Rattle.c_expr.specs.declared.stop.Stop.TheVariants.{Memory as NoMemory};
ghost use Rattle.c_expr.specs.Answers.{at, Fails};
ghost use Rattle.c_ast.specs.Seen.{expr_seen};

use crate::expr_nodes::{
    cast, character, enclosed, integer, literal, prefixed, sized_expr, sized_type, variable,
};
use crate::expressions::{piece_at, whole_at};
use crate::found::Found;
use crate::questions::{begins_specifier, begins_type};
use crate::stop::Stop;
use crate::tokens::{Text, expect, first, next_literal, no_parse, no_parse_before};
use crate::type_names::type_name_at;
use crate::words::{operand_level, prefix_of};
use c_ast::{Class, Expr, PrefixOperator, keyword, sign};
use c_lexer::Token;
use lcc_base::{Bytes, Items, Memory};
use names_in_force::Names;

/// Where an expression stands: the line of its first token, and the level that it has at least.
#[derive(Clone, Copy, Debug)]
pub(crate) struct Spot {
    pub(crate) line: u32,
    pub(crate) level: u8,
}

/// An expression of height 1 before the tokens.
fn leaf<'t>(tree: Expr, rest: &'t [Token]) -> Found<'t, Expr>
    ensures tree { result.tree ≡ tree }
    ensures rest { result.rest.now ≡ rest.now }
    ensures height { result.height ≡ 1 }
{
    Found {
        tree,
        height: 1,
        rest,
    }
}

/// The string literals that are next, behind the one that the token is, and the tokens behind them.
#[tactic(auto, using(std::proofs::lemmas::Grind::common_steps), unfolding(c_readings::specs::Readers::texts_on))]
fn literals_at<'t>(
    text: &Text,
    token: Token,
    tokens: &'t [Token],
) -> Result<(Items<Bytes>, &'t [Token]), Memory>
    ensures texts { IfOk result (λ r. r.0 ≡ text_of text.now token ∷ (texts_on (placed text.now tokens.now)).0) }
    ensures rest { IfOk result (λ r. placed text.now r.1.now ≡ (texts_on (placed text.now tokens.now)).1) }
    ensures shorter { IfOk result (λ r. length r.1.now ≤ length tokens.now) }
{
    let mut literals = Items::with_capacity(text.alloc, 1)?;
    literals.push(text.values(token)?)?;
    let mut rest = tokens;
    while let Some((other, behind)) = next_literal(text, rest) {
        literals.push(text.values(other)?)?;
        rest = behind;
    }
    Ok((literals, rest))
}

/// What stands before the first operator of an expression of the level, no higher than one more than
/// the limit.
#[cycle(syntax)]
#[tactic(auto, unfolding(c_readings::specs::Readers::head))]
pub(crate) fn head_at<'t>(
    text: &Text,
    names: &mut Names,
    level: u8,
    tokens: &'t [Token],
    limit: u32,
) -> Result<Found<'t, Expr>, Stop>
    requires limit { limit ≤ 499 }
    ensures ok { IfOk result (λ f. head (readers limit) level (at names.old text.now tokens.now) ≡ Some (expr_seen f.tree, at names.new text.now f.rest.now)) }
    ensures high { IfOk result (λ f. f.height ≡ height (expr_seen f.tree)) }
    ensures none { IfErr result (λ e. Fails e (head (readers limit) level (at names.old text.now tokens.now))) }
    ensures low { IfOk result (λ f. f.height ≤ limit + 1) }
    ensures shorter { IfOk result (λ f. length f.rest.now < length tokens.now) }
{
    let Some((token, rest)) = first(tokens) else {
        return Err(no_parse(tokens));
    };
    match token.class {
        Class::Name => variable_at(text, names, token, rest),
        Class::Integer { value, kind } => Ok(leaf(integer(token.line, value, kind), rest)),
        Class::Character(value) => Ok(leaf(character(token.line, value), rest)),
        Class::Text => {
            let (literals, rest) = literals_at(text, token, rest)?;
            Ok(leaf(literal(token.line, literals), rest))
        }
        Class::Sign(sign) => {
            let spot = Spot {
                line: token.line,
                level,
            };
            signed_at(text, names, spot, sign, rest, limit)
        }
        Class::Keyword(keyword) => {
            if keyword == keyword::SIZEOF && level <= 14 {
                sized_at(text, names, token.line, rest, limit)
            } else {
                Err(no_parse(tokens))
            }
        }
    }
}

/// A name that is an expression.
fn variable_at<'t>(
    text: &Text,
    names: &Names,
    token: Token,
    rest: &'t [Token],
) -> Result<Found<'t, Expr>, Stop>
    ensures plain { IfOk result (λ f. is_typedef names.now (bytes_of text.now token) ≡ false) }
    ensures tree { IfOk result (λ f. expr_seen f.tree ≡ tree.Name token.line (bytes_of text.now token)) }
    ensures rest { IfOk result (λ f. f.rest.now ≡ rest.now) }
    ensures height { IfOk result (λ f. f.height ≡ 1) }
    ensures err { IfErr result (λ e. (e ≡ NoMemory) ⊎ (is_typedef names.now (bytes_of text.now token) ≡ true)) }
{
    if names.is_typedef(text.bytes(token)) {
        return Err(no_parse_before(rest));
    }
    Ok(leaf(variable(token.line, text.name(token)?), rest))
}

/// What stands behind the sign, the first token of an expression.
#[cycle(syntax)]
#[tactic(auto, using(crate::proofs::Exits::no_signed))]
fn signed_at<'t>(
    text: &Text,
    names: &mut Names,
    spot: Spot,
    sign: u8,
    tokens: &'t [Token],
    limit: u32,
) -> Result<Found<'t, Expr>, Stop>
    requires limit { limit ≤ 499 }
    ensures ok { IfOk result (λ f. signed_by (readers limit) spot.level spot.line sign (at names.old text.now tokens.now) ≡ Some (expr_seen f.tree, at names.new text.now f.rest.now)) }
    ensures high { IfOk result (λ f. f.height ≡ height (expr_seen f.tree)) }
    ensures none { IfErr result (λ e. Fails e (signed_by (readers limit) spot.level spot.line sign (at names.old text.now tokens.now))) }
    ensures low { IfOk result (λ f. f.height ≤ limit + 1) }
    ensures shorter { IfOk result (λ f. length f.rest.now < length tokens.now) }
{
    if limit == 0 {
        return Err(no_parse_before(tokens));
    }
    if sign == sign::OPEN {
        if !begins_specifier(text, names, false, tokens) {
            return enclosed_at(text, names, spot.line, tokens, limit);
        }
        if spot.level <= 13 {
            return cast_at(text, names, spot.line, tokens, limit);
        }
        return Err(no_parse(tokens));
    }
    match prefix_of(sign) {
        Some(operator) if spot.level <= 14 => {
            prefixed_at(text, names, spot.line, operator, tokens, limit)
        }
        _ => Err(no_parse_before(tokens)),
    }
}

/// The operand behind an operator.
#[cycle(syntax)]
fn prefixed_at<'t>(
    text: &Text,
    names: &mut Names,
    line: u32,
    operator: PrefixOperator,
    tokens: &'t [Token],
    limit: u32,
) -> Result<Found<'t, Expr>, Stop>
    requires limit { limit ≤ 499 }
    ensures ok { IfOk result (λ f. prefixed_by (readers limit) line (Some operator) (at names.old text.now tokens.now) ≡ Some (expr_seen f.tree, at names.new text.now f.rest.now)) }
    ensures high { IfOk result (λ f. f.height ≡ height (expr_seen f.tree)) }
    ensures none { IfErr result (λ e. Fails e (prefixed_by (readers limit) line (Some operator) (at names.old text.now tokens.now))) }
    ensures low { IfOk result (λ f. f.height ≤ limit + 1) }
    ensures shorter { IfOk result (λ f. length f.rest.now < length tokens.now) }
{
    let inside = piece_at(text, names, operand_level(operator), tokens, limit)?;
    Ok(Found {
        tree: prefixed(text.alloc, line, operator, inside.tree)?,
        height: inside.height + 1,
        rest: inside.rest,
    })
}

/// The expression behind `(`, and `)`.
#[cycle(syntax)]
#[tactic(auto, unfolding(c_readings::specs::Readers::enclosed))]
fn enclosed_at<'t>(
    text: &Text,
    names: &mut Names,
    line: u32,
    tokens: &'t [Token],
    limit: u32,
) -> Result<Found<'t, Expr>, Stop>
    requires limit { limit ≤ 499 }
    ensures ok { IfOk result (λ f. enclosed (readers limit) line (at names.old text.now tokens.now) ≡ Some (expr_seen f.tree, at names.new text.now f.rest.now)) }
    ensures high { IfOk result (λ f. f.height ≡ height (expr_seen f.tree)) }
    ensures none { IfErr result (λ e. Fails e (enclosed (readers limit) line (at names.old text.now tokens.now))) }
    ensures low { IfOk result (λ f. f.height ≤ limit + 1) }
    ensures shorter { IfOk result (λ f. length f.rest.now < length tokens.now) }
{
    let inside = whole_at(text, names, tokens, limit)?;
    let rest = expect(text, inside.rest, sign::CLOSE)?;
    Ok(Found {
        tree: enclosed(text.alloc, line, inside.tree)?,
        height: inside.height + 1,
        rest,
    })
}

/// The type's name behind `(`, `)`, and the operand of the cast.
#[cycle(syntax)]
#[tactic(auto, unfolding(c_readings::specs::Readers::cast))]
fn cast_at<'t>(
    text: &Text,
    names: &mut Names,
    line: u32,
    tokens: &'t [Token],
    limit: u32,
) -> Result<Found<'t, Expr>, Stop>
    requires limit { limit ≤ 499 }
    ensures ok { IfOk result (λ f. cast (readers limit) line (at names.old text.now tokens.now) ≡ Some (expr_seen f.tree, at names.new text.now f.rest.now)) }
    ensures high { IfOk result (λ f. f.height ≡ height (expr_seen f.tree)) }
    ensures none { IfErr result (λ e. Fails e (cast (readers limit) line (at names.old text.now tokens.now))) }
    ensures low { IfOk result (λ f. f.height ≤ limit + 1) }
    ensures shorter { IfOk result (λ f. length f.rest.now < length tokens.now) }
{
    let name = type_name_at(text, names, tokens, limit)?;
    let rest = expect(text, name.rest, sign::CLOSE)?;
    let inside = piece_at(text, names, 13, rest, limit)?;
    Ok(Found {
        tree: cast(text.alloc, line, name.tree, inside.tree)?,
        height: name.height.max(inside.height) + 1,
        rest: inside.rest,
    })
}

/// What stands behind `sizeof`: a type's name in parentheses, or an operand.
#[cycle(syntax)]
#[tactic(auto, unfolding(c_readings::specs::Readers::sized))]
fn sized_at<'t>(
    text: &Text,
    names: &mut Names,
    line: u32,
    tokens: &'t [Token],
    limit: u32,
) -> Result<Found<'t, Expr>, Stop>
    requires limit { limit ≤ 499 }
    ensures ok { IfOk result (λ f. sized (readers limit) line (at names.old text.now tokens.now) ≡ Some (expr_seen f.tree, at names.new text.now f.rest.now)) }
    ensures high { IfOk result (λ f. f.height ≡ height (expr_seen f.tree)) }
    ensures none { IfErr result (λ e. Fails e (sized (readers limit) line (at names.old text.now tokens.now))) }
    ensures low { IfOk result (λ f. f.height ≤ limit + 1) }
    ensures shorter { IfOk result (λ f. length f.rest.now < length tokens.now) }
{
    if begins_type(text, names, tokens) {
        return sized_type_at(text, names, line, tokens, limit);
    }
    let inside = piece_at(text, names, 14, tokens, limit)?;
    Ok(Found {
        tree: sized_expr(text.alloc, line, inside.tree)?,
        height: inside.height + 1,
        rest: inside.rest,
    })
}

/// The type's name in parentheses behind `sizeof`.
#[cycle(syntax)]
#[tactic(auto, unfolding(c_readings::specs::Readers::sized))]
fn sized_type_at<'t>(
    text: &Text,
    names: &mut Names,
    line: u32,
    tokens: &'t [Token],
    limit: u32,
) -> Result<Found<'t, Expr>, Stop>
    requires limit { limit ≤ 499 }
    requires sized { answer IsSized (at names.old text.now tokens.now) ≡ true }
    ensures ok { IfOk result (λ f. sized (readers limit) line (at names.old text.now tokens.now) ≡ Some (expr_seen f.tree, at names.new text.now f.rest.now)) }
    ensures high { IfOk result (λ f. f.height ≡ height (expr_seen f.tree)) }
    ensures none { IfErr result (λ e. Fails e (sized (readers limit) line (at names.old text.now tokens.now))) }
    ensures low { IfOk result (λ f. f.height ≤ limit + 1) }
    ensures shorter { IfOk result (λ f. length f.rest.now < length tokens.now) }
{
    let behind = expect(text, tokens, sign::OPEN)?;
    let name = type_name_at(text, names, behind, limit)?;
    let rest = expect(text, name.rest, sign::CLOSE)?;
    Ok(Found {
        tree: sized_type(text.alloc, line, name.tree)?,
        height: name.height + 1,
        rest,
    })
}
