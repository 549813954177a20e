//! Readers of structures and unions.
ghost use Rattle.std.specs.Prelude.{◌≡◌, ◌<◌, ◌≤◌, ◌∷◌, Some, None, map, length, IfOk, IfErr, IfSome};
ghost use Rattle.c_expr.specs.Answers.{at, Fails};
ghost use Rattle.c_ast.specs.Heights.{field_height, fields_height, maybe_height, member_height, members_height, specifier_height};
ghost use Rattle.c_ast.specs.Views.{fields_of, members_of};
ghost use Rattle.c_readings.specs.Reading.{bind, commas, gives};
ghost use Rattle.c_readings.specs.Readers.{field, fields, members, piece_behind, readers, record_of, tag};
ghost use Rattle.c_ast.specs.Seen.{field_seen, maybe_expr_seen, member_seen, specifier_seen};

use crate::expressions::piece_at;
use crate::found::Found;
use crate::names_met::NamesMet;
use crate::questions::is_elsewhere;
use crate::specifiers::specifiers_at;
use crate::stop::Stop;
use crate::tokens::{Text, after, expect, line_of, name, no_parse};
use crate::type_names::maybe_declarator_at;
use crate::type_nodes::{field, member, record, record_tag};
use c_ast::{Expr, Member, MemberDeclarator, RecordKind, Specifier, sign};
use c_lexer::Token;
use lcc_base::{Bytes, Items, Memory};
use names_in_force::Names;

/// A tag, if a name is next, and the tokens behind it.
pub(crate) fn tag_at<'t>(
    text: &Text,
    names: &Names,
    tokens: &'t [Token],
) -> Result<(Option<Bytes>, &'t [Token]), Memory>
    ensures tag { IfOk result (λ r. tag (at names.now text.now tokens.now) ≡ (r.0, at names.now text.now r.1.now)) }
    ensures shorter { IfOk result (λ r. length r.1.now ≤ length tokens.now) }
    ensures used { IfOk result (λ r. IfSome r.0 (λ n. length r.1.now < length tokens.now)) }
{
    match name(text, tokens) {
        Some((token, rest)) => Ok((Some(text.name(token)?), rest)),
        None => Ok((None, tokens)),
    }
}

/// What stands behind `struct` or `union`.
#[cycle(syntax)]
#[tactic(auto, unfolding(c_readings::specs::Readers::record_of))]
pub(crate) fn record_at<'t>(
    text: &Text,
    names: &mut Names,
    line: u32,
    kind: RecordKind,
    tokens: &'t [Token],
    limit: u32,
) -> Result<Found<'t, Specifier>, Stop>
    requires limit { limit ≤ 500 }
    ensures ok { IfOk result (λ f. record_of (readers limit) line kind (at names.old text.now tokens.now) ≡ Some (specifier_seen f.tree, at names.new text.now f.rest.now)) }
    ensures high { IfOk result (λ f. f.height ≡ specifier_height (specifier_seen f.tree)) }
    ensures none { IfErr result (λ e. Fails e (record_of (readers limit) line kind (at names.old text.now tokens.now))) }
    ensures low { IfOk result (λ f. f.height ≤ limit) }
    ensures shorter { IfOk result (λ f. length f.rest.now < length tokens.now) }
{
    let (tag, behind) = tag_at(text, names, tokens)?;
    if let Some(inside) = after(text, behind, sign::OPEN_BRACE) {
        let members = members_at(text, names, inside, limit)?;
        return Ok(Found {
            tree: record(line, kind, tag, members.tree),
            height: members.height,
            rest: members.rest,
        });
    }
    match tag {
        Some(tag) => Ok(Found {
            tree: record_tag(line, kind, tag),
            height: 0,
            rest: behind,
        }),
        None => Err(no_parse(tokens)),
    }
}

/// Lines of members, at least one, and `}`.
#[cycle(syntax)]
#[tactic(auto, using(crate::proofs::Chained::members_high), unfolding(c_readings::specs::Readers::members))]
fn members_at<'t>(
    text: &Text,
    names: &mut Names,
    tokens: &'t [Token],
    limit: u32,
) -> Result<Found<'t, Items<Member>>, Stop>
    requires limit { limit ≤ 500 }
    ensures ok { IfOk result (λ f. members (readers limit) (at names.old text.now tokens.now) ≡ Some (members_of (map member_seen f.tree), at names.new text.now f.rest.now)) }
    ensures high { IfOk result (λ f. f.height ≡ members_height (members_of (map member_seen f.tree))) }
    ensures none { IfErr result (λ e. Fails e (members (readers limit) (at names.old text.now tokens.now))) }
    ensures low { IfOk result (λ f. f.height ≤ limit) }
    ensures shorter { IfOk result (λ f. length f.rest.now < length tokens.now) }
{
    let begun = member_at(text, names, tokens, limit)?;
    let mut members = Items::new(text.alloc);
    members.push(begun.tree)?;
    let mut height = begun.height;
    let mut rest = begun.rest;
    while is_elsewhere(text, rest, sign::CLOSE_BRACE) {
        let other = member_at(text, names, rest, limit)?;
        members.push(other.tree)?;
        height = height.max(other.height);
        rest = other.rest;
    }
    Ok(Found {
        tree: members,
        height,
        rest: expect(text, rest, sign::CLOSE_BRACE)?,
    })
}

/// The line of members that is next.
#[cycle(syntax)]
#[tactic(auto, using(crate::proofs::Exits::no_member, crate::proofs::Exits::member_is), unfolding(c_readings::specs::Readers::member_above))]
fn member_at<'t>(
    text: &Text,
    names: &mut Names,
    tokens: &'t [Token],
    limit: u32,
) -> Result<Found<'t, Member>, Stop>
    requires limit { limit ≤ 500 }
    ensures ok { IfOk result (λ f. (readers limit).member (at names.old text.now tokens.now) ≡ Some (member_seen f.tree, at names.new text.now f.rest.now)) }
    ensures high { IfOk result (λ f. f.height ≡ member_height (member_seen f.tree)) }
    ensures none { IfErr result (λ e. Fails e ((readers limit).member (at names.old text.now tokens.now))) }
    ensures low { IfOk result (λ f. f.height ≤ limit) }
    ensures shorter { IfOk result (λ f. length f.rest.now < length tokens.now) }
{
    if limit == 0 {
        return Err(no_parse(tokens));
    }
    let line = line_of(tokens);
    let specifiers = specifiers_at(text, names, tokens, limit - 1)?;
    let fields = fields_at(text, names, specifiers.rest, limit - 1)?;
    Ok(Found {
        tree: member(line, specifiers.tree, fields.tree),
        height: specifiers.height.max(fields.height) + 1,
        rest: fields.rest,
    })
}

/// Members between commas, at least one, and `;`.
#[cycle(syntax)]
#[tactic(auto, using(crate::proofs::Chained::fields_high), unfolding(c_readings::specs::Readers::fields))]
fn fields_at<'t>(
    text: &Text,
    names: &mut Names,
    tokens: &'t [Token],
    limit: u32,
) -> Result<Found<'t, Items<MemberDeclarator>>, Stop>
    requires limit { limit ≤ 500 }
    ensures ok { IfOk result (λ f. fields (readers limit) (at names.old text.now tokens.now) ≡ Some (fields_of (map field_seen f.tree), at names.new text.now f.rest.now)) }
    ensures high { IfOk result (λ f. f.height ≡ fields_height (fields_of (map field_seen f.tree))) }
    ensures none { IfErr result (λ e. Fails e (fields (readers limit) (at names.old text.now tokens.now))) }
    ensures low { IfOk result (λ f. f.height ≤ limit) }
    ensures shorter { IfOk result (λ f. length f.rest.now < length tokens.now) }
{
    let begun = field_at(text, names, tokens, limit)?;
    let mut fields = Items::with_capacity(text.alloc, 1)?;
    fields.push(begun.tree)?;
    let mut height = begun.height;
    let mut rest = begun.rest;
    while let Some(behind) = after(text, rest, sign::COMMA) {
        let other = field_at(text, names, behind, limit)?;
        fields.push(other.tree)?;
        height = height.max(other.height);
        rest = other.rest;
    }
    Ok(Found {
        tree: fields,
        height,
        rest: expect(text, rest, sign::SEMICOLON)?,
    })
}

/// The constant expression behind the sign, if that is next.
#[cycle(syntax)]
#[tactic(auto, unfolding(c_readings::specs::Readers::piece_behind))]
pub(crate) fn constant_behind<'t>(
    text: &Text,
    names: &mut Names,
    sign: u8,
    tokens: &'t [Token],
    limit: u32,
) -> Result<Found<'t, Option<Expr>>, Stop>
    requires limit { limit ≤ 500 }
    ensures ok { IfOk result (λ f. piece_behind (readers limit) sign (at names.old text.now tokens.now) ≡ Some (maybe_expr_seen f.tree, at names.new text.now f.rest.now)) }
    ensures high { IfOk result (λ f. f.height ≡ maybe_height (maybe_expr_seen f.tree)) }
    ensures none { IfErr result (λ e. Fails e (piece_behind (readers limit) sign (at names.old text.now tokens.now))) }
    ensures low { IfOk result (λ f. f.height ≤ limit) }
    ensures shorter { IfOk result (λ f. length f.rest.now ≤ length tokens.now) }
{
    match after(text, tokens, sign) {
        Some(behind) => {
            let inside = piece_at(text, names, 2, behind, limit)?;
            Ok(Found {
                tree: Some(inside.tree),
                height: inside.height,
                rest: inside.rest,
            })
        }
        None => Ok(Found {
            tree: None,
            height: 0,
            rest: tokens,
        }),
    }
}

/// A member: its declarator, its width, or both.
#[cycle(syntax)]
#[tactic(auto, unfolding(c_readings::specs::Readers::field))]
fn field_at<'t>(
    text: &Text,
    names: &mut Names,
    tokens: &'t [Token],
    limit: u32,
) -> Result<Found<'t, MemberDeclarator>, Stop>
    requires limit { limit ≤ 500 }
    ensures ok { IfOk result (λ f. field (readers limit) (at names.old text.now tokens.now) ≡ Some (field_seen f.tree, at names.new text.now f.rest.now)) }
    ensures high { IfOk result (λ f. f.height ≡ field_height (field_seen f.tree)) }
    ensures none { IfErr result (λ e. Fails e (field (readers limit) (at names.old text.now tokens.now))) }
    ensures low { IfOk result (λ f. f.height ≤ limit) }
    ensures shorter { IfOk result (λ f. length f.rest.now ≤ length tokens.now) }
{
    let line = line_of(tokens);
    let mut met = NamesMet::none();
    let declarator = maybe_declarator_at(text, names, &mut met, false, tokens, limit)?;
    let width = constant_behind(text, names, sign::COLON, declarator.rest, limit)?;
    if declarator.tree.is_none() && width.tree.is_none() {
        return Err(no_parse(tokens));
    }
    Ok(Found {
        tree: field(line, declarator.tree, width.tree),
        height: declarator.height.max(width.height),
        rest: width.rest,
    })
}
