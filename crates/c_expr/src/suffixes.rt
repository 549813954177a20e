//! Readers of a declarator's suffixes.
ghost use Rattle.std.specs.Prelude.{◌≡◌, ◌<◌, ◌≤◌, ◌∷◌, Some, None, map, length, IfOk, IfErr, OnOk, List, ℕ};
ghost use Rattle.c_expr.specs.Answers.{at, Fails};
ghost use Rattle.c_ast.specs.Heights.{suffix_height, suffixes_height};
ghost use Rattle.c_ast.specs.Views.{suffixes_of};
ghost use Rattle.c_lexer.specs.declared.token.Token.{Token as Tokens};
ghost use Rattle.c_readings.specs.Reading.{close_state};
ghost use Rattle.c_readings.specs.Readers.{parameter_list, readers, size, suffix, suffixes};
ghost use Rattle.c_ast.specs.Seen.{suffix_seen};

use crate::expressions::piece_at;
use crate::found::Found;
use crate::names_met::NamesMet;
use crate::parameters::{names_at, parameters_at};
use crate::questions::{begins_names, begins_suffix};
use crate::stop::Stop;
use crate::tokens::{Text, after, expect, line_of};
use crate::type_nodes::{array, name_list, no_parameters, prototype};
use c_ast::{Suffix, sign};
use c_lexer::Token;
use lcc_base::{Items, Memory};
use names_in_force::Names;

/// The suffixes that are next. Own: the first is that of the declared name of a declarator that is
/// no part of another; the names of its parameters are kept.
#[cycle(syntax)]
#[tactic(auto, using(crate::proofs::Chained::suffixes_high), unfolding(c_readings::specs::Readers::suffixes))]
pub(crate) fn suffixes_at<'t>(
    text: &Text,
    names: &mut Names,
    met: &mut NamesMet,
    own: bool,
    tokens: &'t [Token],
    limit: u32,
) -> Result<Found<'t, Items<Suffix>>, Stop>
    requires limit { limit ≤ 500 }
    ensures ok { IfOk result (λ f. suffixes (readers limit) own (at names.old text.now tokens.now) ≡ Some (suffixes_of (map suffix_seen f.tree), at names.new text.now f.rest.now)) }
    ensures high { IfOk result (λ f. f.height ≡ suffixes_height (suffixes_of (map suffix_seen f.tree))) }
    ensures none { IfErr result (λ e. Fails e (suffixes (readers limit) own (at names.old text.now tokens.now))) }
    ensures low { IfOk result (λ f. f.height ≤ limit) }
    ensures shorter { IfOk result (λ f. length f.rest.now ≤ length tokens.now) }
{
    let mut suffixes = Items::new(text.alloc);
    let mut own = own;
    let mut height: u32 = 0;
    let mut rest = tokens;
    while begins_suffix(text, names, rest) {
        let found = suffix_at(text, names, met, own, rest, limit)?;
        own = false;
        height = height.max(found.height);
        rest = found.rest;
        suffixes.push(found.tree)?;
    }
    Ok(Found {
        tree: suffixes,
        height,
        rest,
    })
}

/// The suffix that is next.
#[cycle(syntax)]
#[tactic(auto, unfolding(c_readings::specs::Readers::suffix))]
fn suffix_at<'t>(
    text: &Text,
    names: &mut Names,
    met: &mut NamesMet,
    own: bool,
    tokens: &'t [Token],
    limit: u32,
) -> Result<Found<'t, Suffix>, Stop>
    requires limit { limit ≤ 500 }
    ensures ok { IfOk result (λ f. suffix (readers limit) own (at names.old text.now tokens.now) ≡ Some (suffix_seen f.tree, at names.new text.now f.rest.now)) }
    ensures high { IfOk result (λ f. f.height ≡ suffix_height (suffix_seen f.tree)) }
    ensures none { IfErr result (λ e. Fails e (suffix (readers limit) own (at names.old text.now tokens.now))) }
    ensures low { IfOk result (λ f. f.height ≤ limit) }
    ensures shorter { IfOk result (λ f. length f.rest.now < length tokens.now) }
{
    let line = line_of(tokens);
    if let Some(behind) = after(text, tokens, sign::OPEN_BRACKET) {
        return size_at(text, names, line, behind, limit);
    }
    let behind = expect(text, tokens, sign::OPEN)?;
    names.open()?;
    let found = list_at(text, names, met, line, behind, limit)?;
    end_list(names, own)?;
    Ok(found)
}

/// The scope of a parameter list ends.
fn end_list(names: &mut Names, own: bool) -> Result<(), Memory>
    ensures { OnOk result ((source : List ℕ) (tokens : List Tokens) → at names.new source tokens ≡ close_state own (at names.old source tokens)) }
{
    if own {
        names.keep()
    } else {
        names.close();
        Ok(())
    }
}

/// An array's size behind `[`, if there is one, and `]`.
#[cycle(syntax)]
#[tactic(auto, unfolding(c_readings::specs::Readers::size))]
fn size_at<'t>(
    text: &Text,
    names: &mut Names,
    line: u32,
    tokens: &'t [Token],
    limit: u32,
) -> Result<Found<'t, Suffix>, Stop>
    requires limit { limit ≤ 500 }
    ensures ok { IfOk result (λ f. size (readers limit) line (at names.old text.now tokens.now) ≡ Some (suffix_seen f.tree, at names.new text.now f.rest.now)) }
    ensures high { IfOk result (λ f. f.height ≡ suffix_height (suffix_seen f.tree)) }
    ensures none { IfErr result (λ e. Fails e (size (readers limit) line (at names.old text.now tokens.now))) }
    ensures low { IfOk result (λ f. f.height ≤ limit) }
    ensures shorter { IfOk result (λ f. length f.rest.now < length tokens.now) }
{
    if let Some(rest) = after(text, tokens, sign::CLOSE_BRACKET) {
        return Ok(Found {
            tree: array(line, None),
            height: 0,
            rest,
        });
    }
    let size = piece_at(text, names, 2, tokens, limit)?;
    Ok(Found {
        tree: array(line, Some(size.tree)),
        height: size.height,
        rest: expect(text, size.rest, sign::CLOSE_BRACKET)?,
    })
}

/// Behind `(`: nothing, names or parameters, and `)`.
#[cycle(syntax)]
#[tactic(auto, unfolding(c_readings::specs::Readers::parameter_list))]
fn list_at<'t>(
    text: &Text,
    names: &mut Names,
    met: &mut NamesMet,
    line: u32,
    tokens: &'t [Token],
    limit: u32,
) -> Result<Found<'t, Suffix>, Stop>
    requires limit { limit ≤ 500 }
    ensures ok { IfOk result (λ f. parameter_list (readers limit) line (at names.old text.now tokens.now) ≡ Some (suffix_seen f.tree, at names.new text.now f.rest.now)) }
    ensures high { IfOk result (λ f. f.height ≡ suffix_height (suffix_seen f.tree)) }
    ensures none { IfErr result (λ e. Fails e (parameter_list (readers limit) line (at names.old text.now tokens.now))) }
    ensures low { IfOk result (λ f. f.height ≤ limit) }
    ensures shorter { IfOk result (λ f. length f.rest.now < length tokens.now) }
{
    if let Some(rest) = after(text, tokens, sign::CLOSE) {
        return Ok(Found {
            tree: no_parameters(line),
            height: 0,
            rest,
        });
    }
    if begins_names(text, names, tokens) {
        met.list(tokens.len());
        let (list, rest) = names_at(text, names, tokens)?;
        return Ok(Found {
            tree: name_list(line, list),
            height: 0,
            rest,
        });
    }
    let found = parameters_at(text, names, tokens, limit)?;
    Ok(Found {
        tree: prototype(line, found.tree.list, found.tree.more),
        height: found.height,
        rest: found.rest,
    })
}
