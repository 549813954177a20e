//! The description that lines without a fault mean.
ghost use Rattle.std.specs.Prelude.{◌≡◌, ◌≤◌, List, ℕ, Some, length, map, option_map, option_to_list, IfOk};
ghost use Rattle.lcc_text.specs.Names.{bytes_of};
ghost use Rattle.lburg_lines.specs.Grammar.{rule_of};
ghost use Rattle.lburg_faults.specs.Ruling.{lefts_of};
ghost use Rattle.lburg_faults.specs.Terminals.{Among};
ghost use Rattle.lburg_grammar.specs.FirstUses.{AreFirsts};
ghost use Rattle.lburg_grammar.specs.Places.{StartFor};
ghost use Rattle.lburg_faults.specs.CheckedText.{IsChecked};
ghost use Rattle.lburg_grammar.specs.DescriptionText.{Means};

use crate::resolved_rule::{place_in, resolved_rules};
use indexmap::IndexSet;
use lburg_faults::CheckedText;
use lburg_lines::{RuleLine, one_tree};
use lburg_model::{Description, Terminal};
use lcc_base::{Bytes, Memory};
use lcc_text::place;
use std::alloc::Global;

/// The left sides of the rules in the order of their first rules.
fn left_sides<'a>(alloc: Global, rules: &[RuleLine<'a>]) -> Result<IndexSet<&'a [u8]>, Memory>
    ensures { IfOk result (λ names. AreFirsts (lefts_of (map rule_of rules.now)) (bytes_of names)) }
{
    let mut names = IndexSet::new(alloc);
    for rule in rules {
        place(&mut names, rule.left)?;
    }
    Ok(names)
}

/// The place of the start symbol: the declared one, or the first left side.
fn start_place<'a>(nonterminals: &IndexSet<&'a [u8]>, start: Option<&'a [u8]>) -> u16
    requires few { length (bytes_of nonterminals.now) ≤ 127 }
    requires known { (name : List ℕ) → option_map (λ n. n.now) start ≡ Some name → Among name (bytes_of nonterminals.now) }
    ensures { StartFor (bytes_of nonterminals.now) (option_to_list (option_map (λ n. n.now) start.entry)) result }
{
    match start {
        Some(name) => place_in(nonterminals, name) as u16,
        None => 0,
    }
}

/// The terminals with their numbers and arities.
fn described(alloc: Global, checked: &CheckedText) -> Result<Vec<Terminal>, Memory>
    requires numbers { length checked.now.numbers.keys ≡ length (bytes_of checked.now.terminals) }
    requires arities { length checked.now.arities.items ≡ length (bytes_of checked.now.terminals) }
    ensures names { IfOk result (λ ts. map (λ t. t.name) ts.items ≡ bytes_of checked.now.terminals) }
    ensures numbers { IfOk result (λ ts. map (λ t. t.number) ts.items ≡ checked.now.numbers.keys) }
    ensures arities { IfOk result (λ ts. map (λ t. t.arity) ts.items ≡ checked.now.arities.items) }
{
    let numbers = checked.numbers.as_slice();
    let mut terminals = Vec::new(alloc);
    for (place, name) in checked.terminals.as_slice().iter().enumerate() {
        terminals.push(Terminal {
            name: Bytes::copied(alloc, name)?,
            number: numbers[place],
            arity: checked.arities[place],
        })?;
    }
    Ok(terminals)
}

/// Copies of the names, in order.
fn copied_names(alloc: Global, names: &IndexSet<&[u8]>) -> Result<Vec<Bytes>, Memory>
    ensures { IfOk result (λ copies. copies.items ≡ bytes_of names.now) }
{
    let mut copies = Vec::new(alloc);
    for name in names.as_slice() {
        copies.push(Bytes::copied(alloc, name)?)?;
    }
    Ok(copies)
}

/// The description that a text without a fault means.
pub(crate) fn resolved<'a>(alloc: Global, checked: &CheckedText<'a>) -> Result<Description, Memory>
    requires { (text : List ℕ) × IsChecked checked.now text }
    ensures { IfOk result (λ d. (text : List ℕ) (is : IsChecked checked.now text) → Means is.written d) }
{
    one_tree();
    let lefts = left_sides(alloc, &checked.rules)?;
    let start = start_place(&lefts, checked.start);
    let rules = resolved_rules(alloc, &checked.terminals, &lefts, &checked.rules)?;
    let terminals = described(alloc, checked)?;
    let nonterminals = copied_names(alloc, &lefts)?;
    Ok(Description::of_parts(terminals, nonterminals, start, rules))
}
