//! A rule with places for names.
ghost use Rattle.std.specs.Prelude.{◌≡◌, ◌≤◌, Some, map, length, IfOk};
ghost use Rattle.lcc_text.specs.Names.{bytes_of, place_of};
ghost use Rattle.lburg_lines.specs.NamedTree.{named_of};
ghost use Rattle.lburg_lines.specs.Grammar.{cost_of, rule_of};
ghost use Rattle.lburg_faults.specs.Terminals.{Among};
ghost use Rattle.lburg_model.specs.Range.{IsRangeFor};
ghost use Rattle.lburg_model.specs.Pattern.{pattern_of as pattern_view};
ghost use Rattle.lburg_grammar.specs.DescriptionText.{CostMeans};
ghost use Rattle.lburg_grammar.specs.Places.{AreKnown, IsPrice, IsResolvable, AreResolvable, RuleFor, RulesFor, pattern_for};

use indexmap::IndexSet;
use lburg_lines::{CostWritten, NamedTree, RuleLine};
use lburg_model::{Pattern, Range, Rule};
use lcc_base::{Bytes, Memory};
use lcc_text::{decimal_value, find};
use std::alloc::Global;

/// The greatest cost of a rule.
const MOST_COST: u32 = 32_766;

/// A rule's cost and range.
#[derive(Clone, Copy)]
struct Price {
    cost: u16,
    range: Option<Range>,
}

/// What a cost means.
fn price_of(cost: CostWritten) -> Price
    requires { IsPrice (cost_of cost) }
    ensures means { CostMeans (cost_of cost.entry) result.cost result.range }
    ensures small { result.cost ≤ 32766 }
    ensures range { IsRangeFor result.cost result.range }
{
    match cost {
        CostWritten::Omitted => Price {
            cost: 0,
            range: None,
        },
        CostWritten::Fixed(digits) => Price {
            cost: decimal_value(digits, MOST_COST).unwrap_or(0) as u16,
            range: None,
        },
        CostWritten::Range { low, high } => Price {
            cost: 0,
            range: Some(Range {
                low: low.value().unwrap_or(0),
                high: high.value().unwrap_or(0),
            }),
        },
    }
}

/// The place of a name that is among the names.
pub(crate) fn place_in<'a>(names: &IndexSet<&'a [u8]>, name: &'a [u8]) -> usize
    requires { Among name.now (bytes_of names.now) }
    ensures { place_of (bytes_of names.now) name.now ≡ Some result }
{
    match find(names, name) {
        Some(place) => place,
        None => 0,
    }
}

/// The pattern of a tree, whose names are all known.
fn pattern_of<'a>(
    alloc: Global,
    terminals: &IndexSet<&'a [u8]>,
    nonterminals: &IndexSet<&'a [u8]>,
    tree: &NamedTree<'a>,
) -> Result<Pattern, Memory>
    requires few_terminals { length (bytes_of terminals.now) ≤ 1023 }
    requires few_nonterminals { length (bytes_of nonterminals.now) ≤ 127 }
    requires known { AreKnown (bytes_of terminals.now) (bytes_of nonterminals.now) (named_of tree.now) }
    ensures { IfOk result (λ p. pattern_for (bytes_of terminals.now) (bytes_of nonterminals.now) (named_of tree.now) ≡ Some (pattern_view p)) }
{
    match tree {
        NamedTree::Leaf(name) => match find(terminals, name) {
            Some(place) => Ok(Pattern::Leaf(place as u16 + 1)),
            None => Ok(Pattern::Nonterminal(place_in(nonterminals, name) as u16)),
        },
        NamedTree::Unary(name, a) => {
            let op = place_in(terminals, name) as u16 + 1;
            let a = pattern_of(alloc, terminals, nonterminals, a)?;
            Ok(Pattern::Unary(op, Box::new(alloc, a)?))
        }
        NamedTree::Binary(name, a, b) => {
            let op = place_in(terminals, name) as u16 + 1;
            let a = pattern_of(alloc, terminals, nonterminals, a)?;
            let b = pattern_of(alloc, terminals, nonterminals, b)?;
            Ok(Pattern::Binary(op, Box::new(alloc, a)?, Box::new(alloc, b)?))
        }
    }
}

/// A rule, whose names are all known.
fn resolved_rule<'a>(
    alloc: Global,
    terminals: &IndexSet<&'a [u8]>,
    nonterminals: &IndexSet<&'a [u8]>,
    line: &RuleLine<'a>,
) -> Result<Rule, Memory>
    requires few_terminals { length (bytes_of terminals.now) ≤ 1023 }
    requires few_nonterminals { length (bytes_of nonterminals.now) ≤ 127 }
    requires known { IsResolvable (bytes_of terminals.now) (bytes_of nonterminals.now) (rule_of line.now) }
    ensures { IfOk result (λ r. RuleFor (bytes_of terminals.now) (bytes_of nonterminals.now) (rule_of line.now) r) }
{
    let pattern = pattern_of(alloc, terminals, nonterminals, &line.tree)?;
    let template = Bytes::copied(alloc, line.template)?;
    let price = price_of(line.cost);
    Ok(Rule {
        left: place_in(nonterminals, line.left) as u16,
        pattern,
        template,
        cost: price.cost,
        range: price.range,
    })
}

/// The rules in order, with places for names.
pub(crate) fn resolved_rules<'a>(
    alloc: Global,
    terminals: &IndexSet<&'a [u8]>,
    nonterminals: &IndexSet<&'a [u8]>,
    lines: &[RuleLine<'a>],
) -> Result<Vec<Rule>, Memory>
    requires few_terminals { length (bytes_of terminals.now) ≤ 1023 }
    requires few_nonterminals { length (bytes_of nonterminals.now) ≤ 127 }
    requires known { AreResolvable (bytes_of terminals.now) (bytes_of nonterminals.now) (map rule_of lines.now) }
    ensures { IfOk result (λ rs. RulesFor (bytes_of terminals.now) (bytes_of nonterminals.now) (map rule_of lines.now) rs.items) }
{
    let mut rules = Vec::new(alloc);
    for line in lines {
        rules.push(resolved_rule(alloc, terminals, nonterminals, line)?)?;
    }
    Ok(rules)
}
