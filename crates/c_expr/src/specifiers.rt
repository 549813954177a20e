//! Readers of specifiers.
ghost use Rattle.std.specs.Prelude.{◌≡◌, ◌<◌, ◌≤◌, ◌||◌, Some, length, IfOk, IfErr};
ghost use Rattle.c_expr.specs.Answers.{at, Fails};
ghost use Rattle.c_ast.specs.ExprMarks.{says_type};
ghost use Rattle.c_ast.specs.Heights.{specifier_height, specifiers_height};
ghost use Rattle.c_readings.specs.Readers.{readers, specifier, specifiers, word_by};
ghost use Rattle.c_ast.specs.Seen.{specifier_seen, specifiers_seen};
ghost use Rattle.c_expr.specs.Words.{seen_word};

use crate::enumerations::enumeration_at;
use crate::found::Found;
use crate::questions::begins_specifier;
use crate::records::record_at;
use crate::stop::Stop;
use crate::tokens::{Text, first, line_of, no_parse};
use crate::traits_of_trees::says_type;
use crate::type_nodes::{basic, named_type, qualified, specified, stored};
use crate::words::{Word, word_of};
use c_ast::{Class, Specifier, Specifiers};
use c_lexer::Token;
use lcc_base::Items;
use names_in_force::Names;

/// Whether one of the specifiers says a type, where those before say so or don't.
fn is_typed(before: bool, specifier: &Specifier) -> bool
    ensures { result ≡ (before || says_type (specifier_seen specifier.now)) }
{
    before || says_type(specifier)
}

/// The specifiers that are next, at least one.
#[cycle(syntax)]
#[tactic(auto, using(crate::proofs::Chained::specifiers_high), unfolding(c_readings::specs::Readers::specifiers))]
pub(crate) fn specifiers_at<'t>(
    text: &Text,
    names: &mut Names,
    tokens: &'t [Token],
    limit: u32,
) -> Result<Found<'t, Specifiers>, Stop>
    requires limit { limit ≤ 500 }
    ensures ok { IfOk result (λ f. specifiers (readers limit) (at names.old text.now tokens.now) ≡ Some (specifiers_seen f.tree, at names.new text.now f.rest.now)) }
    ensures high { IfOk result (λ f. f.height ≡ specifiers_height (specifiers_seen f.tree)) }
    ensures none { IfErr result (λ e. Fails e (specifiers (readers limit) (at names.old text.now tokens.now))) }
    ensures low { IfOk result (λ f. f.height ≤ limit) }
    ensures shorter { IfOk result (λ f. length f.rest.now < length tokens.now) }
{
    let line = line_of(tokens);
    let mut list = Items::with_capacity(text.alloc, 1)?;
    let mut typed = false;
    let mut height: u32 = 0;
    let mut rest = tokens;
    while begins_specifier(text, names, typed, rest) {
        let found = specifier_at(text, names, rest, limit)?;
        typed = is_typed(typed, &found.tree);
        list.push(found.tree)?;
        height = height.max(found.height);
        rest = found.rest;
    }
    if list.is_empty() {
        return Err(no_parse(tokens));
    }
    Ok(Found {
        tree: specified(line, list),
        height,
        rest,
    })
}

/// A specifier that is one token.
fn one_word<'t>(tree: Specifier, rest: &'t [Token]) -> Found<'t, Specifier>
    ensures tree { result.tree ≡ tree }
    ensures rest { result.rest.now ≡ rest.now }
    ensures height { result.height ≡ 0 }
{
    Found {
        tree,
        height: 0,
        rest,
    }
}

/// The specifier that is next.
#[cycle(syntax)]
#[tactic(auto, unfolding(c_readings::specs::Readers::specifier))]
fn specifier_at<'t>(
    text: &Text,
    names: &mut Names,
    tokens: &'t [Token],
    limit: u32,
) -> Result<Found<'t, Specifier>, Stop>
    requires limit { limit ≤ 500 }
    ensures ok { IfOk result (λ f. specifier (readers limit) (at names.old text.now tokens.now) ≡ Some (specifier_seen f.tree, at names.new text.now f.rest.now)) }
    ensures high { IfOk result (λ f. f.height ≡ specifier_height (specifier_seen f.tree)) }
    ensures none { IfErr result (λ e. Fails e (specifier (readers limit) (at names.old text.now tokens.now))) }
    ensures low { IfOk result (λ f. f.height ≤ limit) }
    ensures shorter { IfOk result (λ f. length f.rest.now < length tokens.now) }
{
    let Some((token, rest)) = first(tokens) else {
        return Err(no_parse(tokens));
    };
    match token.class {
        Class::Name => Ok(one_word(named_type(token.line, text.name(token)?), rest)),
        Class::Keyword(keyword) => match word_of(keyword) {
            Some(word) => worded_at(text, names, token.line, word, rest, limit),
            None => Err(no_parse(tokens)),
        },
        _ => Err(no_parse(tokens)),
    }
}

/// The specifier that begins with the keyword, from behind it.
#[cycle(syntax)]
fn worded_at<'t>(
    text: &Text,
    names: &mut Names,
    line: u32,
    word: Word,
    tokens: &'t [Token],
    limit: u32,
) -> Result<Found<'t, Specifier>, Stop>
    requires limit { limit ≤ 500 }
    ensures ok { IfOk result (λ f. word_by (readers limit) line (Some (seen_word word)) (at names.old text.now tokens.now) ≡ Some (specifier_seen f.tree, at names.new text.now f.rest.now)) }
    ensures high { IfOk result (λ f. f.height ≡ specifier_height (specifier_seen f.tree)) }
    ensures none { IfErr result (λ e. Fails e (word_by (readers limit) line (Some (seen_word word)) (at names.old text.now tokens.now))) }
    ensures low { IfOk result (λ f. f.height ≤ limit) }
    ensures shorter { IfOk result (λ f. length f.rest.now ≤ length tokens.now) }
{
    match word {
        Word::Storage(storage) => Ok(one_word(stored(line, storage), tokens)),
        Word::Qualifier(qualifier) => Ok(one_word(qualified(line, qualifier), tokens)),
        Word::Basic(word) => Ok(one_word(basic(line, word), tokens)),
        Word::Record(kind) => record_at(text, names, line, kind, tokens, limit),
        Word::Enum => enumeration_at(text, names, line, tokens, limit),
    }
}
