//! The shipped MIPS description, built from its tables of terminals, nonterminals and rules.
ghost use Rattle.std.specs.Prelude.{◌≡◌, ℕ, List, Option, map, IfOk};
ghost use Rattle.lburg_model.specs.Pattern.{pattern_of};
ghost use Rattle.vcode.specs.RuleSets.{row_of};
ghost use Rattle.frame_rules.specs.Rows.{nonterminals, stmt};
ghost use Rattle.mips_rules.specs.MipsRows.{rows, costs, ranges};
ghost use Rattle.mips_rules.specs.MipsTerminals.{terminals};
ghost use Rattle.mips_rules.specs.Shipped.{IsShipped, DerivesStatements, CoversRoots};
ghost use Rattle.mips_rules.specs.Tables.{terminal_of, form_pattern, row_in, cost_in, range_in};

use crate::rule_line::{Form, NONTERMINALS, RULES, RuleLine, STMT};
use crate::terminal_line::TERMINALS;
use lburg_model::{Description, Pattern, Rule, Terminal};
use lcc_base::{Bytes, Memory};
use std::alloc::Global;

/// The terminals of these lines.
fn terminals_of(alloc: Global, lines: &[(&[u8], u32, Option<u8>)]) -> Result<Vec<Terminal>, Memory>
    ensures { IfOk result (λ all. all.items ≡ map terminal_of lines.now) }
{
    let mut all = Vec::new(alloc);
    for (name, number, arity) in lines {
        all.push(Terminal {
            name: Bytes::copied(alloc, name)?,
            number: *number,
            arity: *arity,
        })?;
    }
    Ok(all)
}

/// Copies of the names.
fn names_of(alloc: Global, names: &[&[u8]]) -> Result<Vec<Bytes>, Memory>
    ensures { IfOk result (λ copies. copies.items ≡ map (λ n. n.now) names.now) }
{
    let mut copies = Vec::new(alloc);
    for name in names {
        copies.push(Bytes::copied(alloc, name)?)?;
    }
    Ok(copies)
}

/// The pattern of a form.
fn pattern_in(alloc: Global, form: Form) -> Result<Pattern, Memory>
    ensures { IfOk result (λ p. pattern_of p ≡ form_pattern form) }
{
    Ok(match form {
        Form::Chain(nonterminal) => Pattern::Nonterminal(nonterminal),
        Form::Leaf(op) => Pattern::Leaf(op),
        Form::Unary(op, a) => Pattern::Unary(op, Box::new(alloc, Pattern::Nonterminal(a))?),
        Form::Binary(op, a, b) => Pattern::Binary(
            op,
            Box::new(alloc, Pattern::Nonterminal(a))?,
            Box::new(alloc, Pattern::Nonterminal(b))?,
        ),
    })
}

/// The rules of these lines.
fn rules_of(alloc: Global, lines: &[RuleLine]) -> Result<Vec<Rule>, Memory>
    ensures rows { IfOk result (λ all. map row_of all.items ≡ map row_in lines.now) }
    ensures costs { IfOk result (λ all. map (λ r. r.cost) all.items ≡ map cost_in lines.now) }
    ensures ranges { IfOk result (λ all. map (λ r. r.range) all.items ≡ map range_in lines.now) }
{
    let mut all = Vec::new(alloc);
    for line in lines {
        all.push(Rule {
            left: line.left,
            pattern: pattern_in(alloc, line.form)?,
            template: Bytes::copied(alloc, line.template)?,
            cost: line.cost,
            range: None,
        })?;
    }
    Ok(all)
}

/// The shipped description: it declares all 69 operators by their names and numbers, and has 13
/// rules, which derive each statement of integers made of constants, sums, differences, products,
/// negatives, argument words, calls and returns. So each root of a well-formed forest whose
/// operators have rules has a derivation.
/// Source: Fraser and Hanson, A Retargetable C Compiler, chapter 16.
pub fn description(alloc: Global) -> Result<Description, Memory>
    ensures terminals { IfOk result (λ d. d.terminals ≡ terminals) }
    ensures nonterminals { IfOk result (λ d. d.nonterminals ≡ nonterminals) }
    ensures start { IfOk result (λ d. d.start ≡ stmt) }
    ensures rows { IfOk result (λ d. map row_of d.rules ≡ rows) }
    ensures costs { IfOk result (λ d. map (λ r. r.cost) d.rules ≡ costs) }
    ensures ranges { IfOk result (λ d. map (λ r. r.range) d.rules ≡ ranges) }
    ensures shipped { IfOk result (λ d. IsShipped d) }
    ensures derives { IfOk result (λ d. DerivesStatements d) }
    ensures covers { IfOk result (λ d. CoversRoots d) }
{
    let terminals = terminals_of(alloc, &TERMINALS)?;
    let nonterminals = names_of(alloc, &NONTERMINALS)?;
    let rules = rules_of(alloc, &RULES)?;
    Ok(Description::of_parts(terminals, nonterminals, STMT, rules))
}
