//! Readers of type names and of declarators that may be left out.
ghost use Rattle.std.specs.Prelude.{◌≡◌, ◌<◌, ◌≤◌, ◌∷◌, Some, None, map, length, IfOk, IfErr, IfSome};
ghost use Rattle.c_expr.specs.Answers.{at, Fails};
ghost use Rattle.c_ast.specs.Heights.{maybe_declarator_height, type_name_height};
ghost use Rattle.c_readings.specs.Readers.{abstract_or_none, maybe_declarator, readers, type_name};
ghost use Rattle.c_ast.specs.Seen.{maybe_declarator_seen, type_name_seen};

use crate::declarators::{Shape, declarator_at};
use crate::found::Found;
use crate::names_met::NamesMet;
use crate::questions::begins_declarator;
use crate::specifiers::specifiers_at;
use crate::stop::Stop;
use crate::tokens::{Text, line_of, no_parse};
use crate::traits_of_trees::is_abstract;
use crate::type_nodes::type_name;
use c_ast::{Declarator, TypeName};
use c_lexer::Token;
use names_in_force::Names;

/// A declarator, if one is next. Free: its name may be left out.
#[cycle(syntax)]
#[tactic(auto, unfolding(c_readings::specs::Readers::maybe_declarator))]
pub(crate) fn maybe_declarator_at<'t>(
    text: &Text,
    names: &mut Names,
    met: &mut NamesMet,
    free: bool,
    tokens: &'t [Token],
    limit: u32,
) -> Result<Found<'t, Option<Declarator>>, Stop>
    requires limit { limit ≤ 500 }
    ensures ok { IfOk result (λ f. maybe_declarator (readers limit) free (at names.old text.now tokens.now) ≡ Some (maybe_declarator_seen f.tree, at names.new text.now f.rest.now)) }
    ensures high { IfOk result (λ f. f.height ≡ maybe_declarator_height (maybe_declarator_seen f.tree)) }
    ensures none { IfErr result (λ e. Fails e (maybe_declarator (readers limit) free (at names.old text.now tokens.now))) }
    ensures low { IfOk result (λ f. f.height ≤ limit) }
    ensures shorter { IfOk result (λ f. length f.rest.now ≤ length tokens.now) }
{
    if !begins_declarator(text, names, tokens) {
        return Ok(Found {
            tree: None,
            height: 0,
            rest: tokens,
        });
    }
    let inside = declarator_at(
        text,
        names,
        met,
        Shape { free, outer: false },
        tokens,
        limit,
    )?;
    Ok(Found {
        tree: Some(inside.tree),
        height: inside.height,
        rest: inside.rest,
    })
}

/// Whether it has no name and no list of names, and isn't empty, if it is there.
fn is_abstract_or_none(declarator: &Option<Declarator>) -> bool
    ensures { result ≡ abstract_or_none (maybe_declarator_seen declarator.now) }
{
    match declarator {
        Some(declarator) => is_abstract(declarator),
        None => true,
    }
}

/// The type's name that is next.
#[cycle(syntax)]
#[tactic(auto, unfolding(c_readings::specs::Readers::type_name))]
pub(crate) fn type_name_at<'t>(
    text: &Text,
    names: &mut Names,
    tokens: &'t [Token],
    limit: u32,
) -> Result<Found<'t, TypeName>, Stop>
    requires limit { limit ≤ 500 }
    ensures ok { IfOk result (λ f. type_name (readers limit) (at names.old text.now tokens.now) ≡ Some (type_name_seen f.tree, at names.new text.now f.rest.now)) }
    ensures high { IfOk result (λ f. f.height ≡ type_name_height (type_name_seen f.tree)) }
    ensures none { IfErr result (λ e. Fails e (type_name (readers limit) (at names.old text.now tokens.now))) }
    ensures low { IfOk result (λ f. f.height ≤ limit) }
    ensures shorter { IfOk result (λ f. length f.rest.now < length tokens.now) }
{
    let line = line_of(tokens);
    let specifiers = specifiers_at(text, names, tokens, limit)?;
    let mut met = NamesMet::none();
    let declarator = match maybe_declarator_at(
        text,
        names,
        &mut met,
        true,
        specifiers.rest,
        limit,
    ) {
        Ok(declarator) => declarator,
        Err(stop) => return Err(met.in_type_name(stop)),
    };
    if !is_abstract_or_none(&declarator.tree) {
        return Err(met.in_type_name(no_parse(declarator.rest)));
    }
    Ok(Found {
        tree: type_name(line, specifiers.tree, declarator.tree),
        height: specifiers.height.max(declarator.height),
        rest: declarator.rest,
    })
}
