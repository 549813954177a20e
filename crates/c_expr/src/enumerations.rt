//! Readers of enumerations.
ghost use Rattle.std.specs.Prelude.{◌≡◌, ◌<◌, ◌≤◌, Some, map, length, IfOk, IfErr};
ghost use Rattle.c_expr.specs.Answers.{at, comma_end, Fails};
ghost use Rattle.c_ast.specs.Heights.{enumerator_height, enumerators_height, specifier_height};
ghost use Rattle.c_ast.specs.Trees.{EnumeratorTrees};
ghost use Rattle.c_ast.specs.Views.{enumerators_of};
ghost use Rattle.c_readings.specs.Readers.{enumeration_of, enumerator, enumerators, readers};
ghost use Rattle.c_ast.specs.Seen.{enumerator_seen, specifier_seen};

use crate::found::Found;
use crate::questions::after_comma;
use crate::records::{constant_behind, tag_at};
use crate::stop::Stop;
use crate::tokens::{Text, after, expect, expect_name, no_parse};
use crate::type_nodes::{enumeration, enumeration_tag, enumerator};
use c_ast::{Enumerator, Specifier, sign};
use c_lexer::Token;
use lcc_base::Items;
use names_in_force::Names;

/// Enumerators, and whether a comma stands behind the last.
#[derive(Drop)]
struct Enumerators {
    list: Items<Enumerator>,
    comma: bool,
}

/// Whether a comma stands before the `}` that is next, and the tokens behind it.
fn end_at<'t>(text: &Text, names: &Names, tokens: &'t [Token]) -> Result<(bool, &'t [Token]), Stop>
    ensures ok { IfOk result (λ r. (es : EnumeratorTrees) → comma_end es (at names.now text.now tokens.now) ≡ Some ((es, r.0), at names.now text.now r.1.now)) }
    ensures none { IfErr result (λ e. (es : EnumeratorTrees) → comma_end es (at names.now text.now tokens.now) ≡ None) }
    ensures shorter { IfOk result (λ r. length r.1.now < length tokens.now) }
{
    match after(text, tokens, sign::COMMA) {
        Some(behind) => Ok((true, expect(text, behind, sign::CLOSE_BRACE)?)),
        None => Ok((false, expect(text, tokens, sign::CLOSE_BRACE)?)),
    }
}

/// What stands behind `enum`.
#[cycle(syntax)]
#[tactic(auto, unfolding(c_readings::specs::Readers::enumeration_of))]
pub(crate) fn enumeration_at<'t>(
    text: &Text,
    names: &mut Names,
    line: u32,
    tokens: &'t [Token],
    limit: u32,
) -> Result<Found<'t, Specifier>, Stop>
    requires limit { limit ≤ 500 }
    ensures ok { IfOk result (λ f. enumeration_of (readers limit) line (at names.old text.now tokens.now) ≡ Some (specifier_seen f.tree, at names.new text.now f.rest.now)) }
    ensures high { IfOk result (λ f. f.height ≡ specifier_height (specifier_seen f.tree)) }
    ensures none { IfErr result (λ e. Fails e (enumeration_of (readers limit) line (at names.old text.now tokens.now))) }
    ensures low { IfOk result (λ f. f.height ≤ limit) }
    ensures shorter { IfOk result (λ f. length f.rest.now < length tokens.now) }
{
    let (tag, behind) = tag_at(text, names, tokens)?;
    if let Some(inside) = after(text, behind, sign::OPEN_BRACE) {
        let found = enumerators_at(text, names, inside, limit)?;
        return Ok(Found {
            tree: enumeration(line, tag, found.tree.list, found.tree.comma),
            height: found.height,
            rest: found.rest,
        });
    }
    match tag {
        Some(tag) => Ok(Found {
            tree: enumeration_tag(line, tag),
            height: 0,
            rest: behind,
        }),
        None => Err(no_parse(tokens)),
    }
}

/// Enumerators between commas, at least one, perhaps a comma, and `}`.
#[cycle(syntax)]
#[tactic(auto, using(crate::proofs::Chained::enumerators_high), unfolding(c_readings::specs::Readers::enumerators))]
fn enumerators_at<'t>(
    text: &Text,
    names: &mut Names,
    tokens: &'t [Token],
    limit: u32,
) -> Result<Found<'t, Enumerators>, Stop>
    requires limit { limit ≤ 500 }
    ensures ok { IfOk result (λ f. enumerators (readers limit) (at names.old text.now tokens.now) ≡ Some ((enumerators_of (map enumerator_seen f.tree.list), f.tree.comma), at names.new text.now f.rest.now)) }
    ensures high { IfOk result (λ f. f.height ≡ enumerators_height (enumerators_of (map enumerator_seen f.tree.list))) }
    ensures none { IfErr result (λ e. Fails e (enumerators (readers limit) (at names.old text.now tokens.now))) }
    ensures low { IfOk result (λ f. f.height ≤ limit) }
    ensures shorter { IfOk result (λ f. length f.rest.now < length tokens.now) }
{
    let begun = enumerator_at(text, names, tokens, limit)?;
    let mut list = Items::new(text.alloc);
    list.push(begun.tree)?;
    let mut height = begun.height;
    let mut rest = begun.rest;
    while let Some(behind) = after_comma(text, rest, sign::CLOSE_BRACE) {
        let other = enumerator_at(text, names, behind, limit)?;
        list.push(other.tree)?;
        height = height.max(other.height);
        rest = other.rest;
    }
    let (comma, end) = end_at(text, names, rest)?;
    Ok(Found {
        tree: Enumerators { list, comma },
        height,
        rest: end,
    })
}

/// The enumerator that is next, whose name is in force from its own end.
#[cycle(syntax)]
#[tactic(auto, unfolding(c_readings::specs::Readers::enumerator))]
fn enumerator_at<'t>(
    text: &Text,
    names: &mut Names,
    tokens: &'t [Token],
    limit: u32,
) -> Result<Found<'t, Enumerator>, Stop>
    requires limit { limit ≤ 500 }
    ensures ok { IfOk result (λ f. enumerator (readers limit) (at names.old text.now tokens.now) ≡ Some (enumerator_seen f.tree, at names.new text.now f.rest.now)) }
    ensures high { IfOk result (λ f. f.height ≡ enumerator_height (enumerator_seen f.tree)) }
    ensures none { IfErr result (λ e. Fails e (enumerator (readers limit) (at names.old text.now tokens.now))) }
    ensures low { IfOk result (λ f. f.height ≤ limit) }
    ensures shorter { IfOk result (λ f. length f.rest.now < length tokens.now) }
{
    let (token, behind) = expect_name(text, tokens)?;
    let value = constant_behind(text, names, sign::EQUALS, behind, limit)?;
    names.put(text.bytes(token), false)?;
    Ok(Found {
        tree: enumerator(token.line, text.name(token)?, value.tree),
        height: value.height,
        rest: value.rest,
    })
}
