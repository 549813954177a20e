//! Readers of parameters.
ghost use Rattle.std.specs.Prelude.{◌≡◌, ◌<◌, ◌≤◌, ◌∷◌, Some, None, map, length, IfOk, IfErr, OnOk, List, ℕ};
ghost use Rattle.c_expr.specs.Answers.{at, dots_end, Fails};
ghost use Rattle.c_ast.specs.ExprMarks.{maybe_name};
ghost use Rattle.c_ast.specs.Heights.{parameter_height, parameters_height};
ghost use Rattle.c_ast.specs.Trees.{ParameterTrees};
ghost use Rattle.c_ast.specs.Views.{parameters_of};
ghost use Rattle.c_lexer.specs.declared.token.Token.{Token as Tokens};
ghost use Rattle.c_readings.specs.Reading.{put_state};
ghost use Rattle.c_readings.specs.Readers.{either, name_list, parameter, parameter_name, parameters, readers};
ghost use Rattle.c_ast.specs.Seen.{maybe_declarator_seen, parameter_seen};

use crate::found::Found;
use crate::names_met::NamesMet;
use crate::questions::after_comma;
use crate::specifiers::specifiers_at;
use crate::stop::Stop;
use crate::tokens::{Text, after, expect, expect_name, line_of, no_parse};
use crate::traits_of_trees::{declared_name, has_typedef, is_abstract};
use crate::type_names::maybe_declarator_at;
use crate::type_nodes::parameter;
use c_ast::{Declarator, Parameter, sign};
use c_lexer::Token;
use lcc_base::{Bytes, Items, Memory};
use names_in_force::Names;

/// Parameters, and whether `...` stands behind the last.
#[derive(Drop)]
pub(crate) struct Parameters {
    pub(crate) list: Items<Parameter>,
    pub(crate) more: bool,
}

/// The name that is next, which declares a parameter, and the tokens behind it.
#[tactic(auto, unfolding(c_readings::specs::Readers::parameter_name))]
fn parameter_name<'t>(
    text: &Text,
    names: &mut Names,
    tokens: &'t [Token],
) -> Result<(Bytes, &'t [Token]), Stop>
    ensures ok { IfOk result (λ r. parameter_name (at names.old text.now tokens.now) ≡ Some (r.0, at names.new text.now r.1.now)) }
    ensures none { IfErr result (λ e. Fails e (parameter_name (at names.old text.now tokens.now))) }
    ensures shorter { IfOk result (λ r. length r.1.now < length tokens.now) }
{
    let (token, rest) = expect_name(text, tokens)?;
    names.put(text.bytes(token), false)?;
    Ok((text.name(token)?, rest))
}

/// Names between commas, at least one, and `)`.
pub(crate) fn names_at<'t>(
    text: &Text,
    names: &mut Names,
    tokens: &'t [Token],
) -> Result<(Items<Bytes>, &'t [Token]), Stop>
    ensures ok { IfOk result (λ r. name_list (at names.old text.now tokens.now) ≡ Some (r.0, at names.new text.now r.1.now)) }
    ensures none { IfErr result (λ e. Fails e (name_list (at names.old text.now tokens.now))) }
    ensures shorter { IfOk result (λ r. length r.1.now < length tokens.now) }
{
    let mut list = Items::new(text.alloc);
    let (begun, mut rest) = parameter_name(text, names, tokens)?;
    list.push(begun)?;
    while let Some(behind) = after(text, rest, sign::COMMA) {
        let (other, end) = parameter_name(text, names, behind)?;
        list.push(other)?;
        rest = end;
    }
    Ok((list, expect(text, rest, sign::CLOSE)?))
}

/// Whether `, ...` stands before the `)` that is next, and the tokens behind it.
fn end_at<'t>(text: &Text, names: &Names, tokens: &'t [Token]) -> Result<(bool, &'t [Token]), Stop>
    ensures ok { IfOk result (λ r. (ps : ParameterTrees) → dots_end ps (at names.now text.now tokens.now) ≡ Some ((ps, r.0), at names.now text.now r.1.now)) }
    ensures none { IfErr result (λ e. (ps : ParameterTrees) → dots_end ps (at names.now text.now tokens.now) ≡ None) }
    ensures shorter { IfOk result (λ r. length r.1.now < length tokens.now) }
{
    match after(text, tokens, sign::COMMA) {
        Some(behind) => {
            let dots = expect(text, behind, sign::DOTS)?;
            Ok((true, expect(text, dots, sign::CLOSE)?))
        }
        None => Ok((false, expect(text, tokens, sign::CLOSE)?)),
    }
}

/// Parameters between commas, at least one, perhaps `, ...`, and `)`.
#[cycle(syntax)]
#[tactic(auto, using(crate::proofs::Chained::parameters_high), unfolding(c_readings::specs::Readers::parameters))]
pub(crate) fn parameters_at<'t>(
    text: &Text,
    names: &mut Names,
    tokens: &'t [Token],
    limit: u32,
) -> Result<Found<'t, Parameters>, Stop>
    requires limit { limit ≤ 500 }
    ensures ok { IfOk result (λ f. parameters (readers limit) (at names.old text.now tokens.now) ≡ Some ((parameters_of (map parameter_seen f.tree.list), f.tree.more), at names.new text.now f.rest.now)) }
    ensures high { IfOk result (λ f. f.height ≡ parameters_height (parameters_of (map parameter_seen f.tree.list))) }
    ensures none { IfErr result (λ e. Fails e (parameters (readers limit) (at names.old text.now tokens.now))) }
    ensures low { IfOk result (λ f. f.height ≤ limit) }
    ensures shorter { IfOk result (λ f. length f.rest.now < length tokens.now) }
{
    let begun = parameter_at(text, names, tokens, limit)?;
    let mut list = Items::with_capacity(text.alloc, 1)?;
    list.push(begun.tree)?;
    let mut height = begun.height;
    let mut rest = begun.rest;
    while let Some(behind) = after_comma(text, rest, sign::DOTS) {
        let other = parameter_at(text, names, behind, limit)?;
        list.push(other.tree)?;
        height = height.max(other.height);
        rest = other.rest;
    }
    let (more, end) = end_at(text, names, rest)?;
    Ok(Found {
        tree: Parameters { list, more },
        height,
        rest: end,
    })
}

/// Whether it has a name, or none and no list of names either; or isn't there.
#[tactic(auto, using(crate::proofs::Bare::named_if, crate::proofs::Bare::unnamed_if))]
fn is_either(declarator: &Option<Declarator>) -> bool
    ensures { result ≡ either (maybe_declarator_seen declarator.now) }
{
    match declarator {
        Some(declarator) => match declared_name(declarator) {
            Some(_) => true,
            None => is_abstract(declarator),
        },
        None => true,
    }
}

/// The name of a declarator, if there are both, is in force, as a typedef name or as another.
fn put_declared(
    names: &mut Names,
    declarator: &Option<Declarator>,
    typedef: bool,
) -> Result<(), Memory>
    ensures { OnOk result ((source : List ℕ) (tokens : List Tokens) → at names.new source tokens ≡ put_state (maybe_name (maybe_declarator_seen declarator.now)) typedef (at names.old source tokens)) }
{
    match declarator {
        Some(declarator) => match declared_name(declarator) {
            Some(name) => names.put(name.as_slice(), typedef),
            None => Ok(()),
        },
        None => Ok(()),
    }
}

/// The parameter that is next, whose name is in force from its declarator's end.
#[cycle(syntax)]
#[tactic(auto, unfolding(c_readings::specs::Readers::parameter))]
fn parameter_at<'t>(
    text: &Text,
    names: &mut Names,
    tokens: &'t [Token],
    limit: u32,
) -> Result<Found<'t, Parameter>, Stop>
    requires limit { limit ≤ 500 }
    ensures ok { IfOk result (λ f. parameter (readers limit) (at names.old text.now tokens.now) ≡ Some (parameter_seen f.tree, at names.new text.now f.rest.now)) }
    ensures high { IfOk result (λ f. f.height ≡ parameter_height (parameter_seen f.tree)) }
    ensures none { IfErr result (λ e. Fails e (parameter (readers limit) (at names.old text.now tokens.now))) }
    ensures low { IfOk result (λ f. f.height ≤ limit) }
    ensures shorter { IfOk result (λ f. length f.rest.now < length tokens.now) }
{
    let line = line_of(tokens);
    let specifiers = specifiers_at(text, names, tokens, limit)?;
    let mut met = NamesMet::none();
    let declarator = match maybe_declarator_at(
        text,
        names,
        &mut met,
        true,
        specifiers.rest,
        limit,
    ) {
        Ok(declarator) => declarator,
        Err(stop) => return Err(met.in_parameter(stop)),
    };
    if !is_either(&declarator.tree) {
        return Err(met.in_parameter(no_parse(declarator.rest)));
    }
    put_declared(names, &declarator.tree, has_typedef(&specifiers.tree))?;
    Ok(Found {
        tree: parameter(line, specifiers.tree, declarator.tree),
        height: specifiers.height.max(declarator.height),
        rest: declarator.rest,
    })
}
