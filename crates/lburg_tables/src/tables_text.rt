//! Tables as a text.
ghost use Rattle.std.specs.Prelude.{◌≡◌, ◌++◌, ◌∷◌, [], ◌+◌, map, codes, decimal, IfOk, OnOk};
ghost use Rattle.std.specs.Fmt.{signed_decimal};
ghost use Rattle.lburg_model.specs.Pattern.{pattern_of};
ghost use Rattle.lburg_model.specs.CoverText.{spaced};
ghost use Rattle.lburg_tables.specs.TablesText.{start_line, arity_text, operator_line, operator_lines, price_text, item_text, checks_text, leaves_text, rule_line, rule_lines, chain_line, chain_lines, tables_text};

use crate::tables::Tables;
use itoa::Buffer;
use lburg_model::{Description, Pattern, Range, Rule, Terminal};
use lcc_base::{Bytes, Memory};
use std::alloc::Global;

fn push_number(out: &mut Bytes, number: u32) -> Result<(), Memory>
    ensures { OnOk result (out.new ≡ out.old ++ decimal number) }
{
    let mut buffer = Buffer::new();
    out.extend(buffer.format(number).as_bytes())
}

fn push_signed(out: &mut Bytes, number: i64) -> Result<(), Memory>
    ensures { OnOk result (out.new ≡ out.old ++ signed_decimal number) }
{
    let mut buffer = Buffer::new();
    out.extend(buffer.format(number).as_bytes())
}

/// The numbers of the rules at these places, each behind a blank.
fn push_numbers(out: &mut Bytes, places: &[u16]) -> Result<(), Memory>
    ensures { OnOk result (out.new ≡ out.old ++ spaced (map (λ place. place + 1) places.now)) }
{
    for place in places {
        out.extend(b" ")?;
        push_number(out, u32::from(*place) + 1)?;
    }
    Ok(())
}

fn push_start(out: &mut Bytes, d: &Description) -> Result<(), Memory>
    ensures { OnOk result (out.new ≡ out.old ++ start_line d.now) }
{
    out.extend(b"start ")?;
    out.extend(d.nonterminal_name(d.start()))?;
    out.extend(b"\n")
}

fn push_arity(out: &mut Bytes, arity: Option<u8>) -> Result<(), Memory>
    ensures { OnOk result (out.new ≡ out.old ++ arity_text arity) }
{
    match arity {
        None => out.extend(b"-"),
        Some(n) => push_number(out, u32::from(n)),
    }
}

/// The line of an operator.
fn push_operator(
    out: &mut Bytes,
    tables: &Tables,
    op: u16,
    terminal: &Terminal,
) -> Result<(), Memory>
    ensures { OnOk result (out.new ≡ out.old ++ operator_line tables.now.rules op terminal.now) }
{
    out.extend(b"op ")?;
    out.extend(terminal.name.as_slice())?;
    out.extend(b" ")?;
    push_arity(out, terminal.arity)?;
    out.extend(b":")?;
    push_numbers(out, tables.rules_on(op))?;
    out.extend(b"\n")
}

fn push_operators(out: &mut Bytes, tables: &Tables) -> Result<(), Memory>
    ensures { OnOk result (out.new ≡ out.old ++ operator_lines tables.now.rules 1 tables.now.terminals) }
{
    let terminals = tables.description().terminals();
    for (place, terminal) in terminals.iter().enumerate() {
        push_operator(out, tables, place as u16 + 1, terminal)?;
    }
    Ok(())
}

fn push_price(out: &mut Bytes, cost: u16, range: Option<Range>) -> Result<(), Memory>
    ensures { OnOk result (out.new ≡ out.old ++ price_text cost range) }
{
    match range {
        None => {
            out.extend(b" cost ")?;
            push_number(out, u32::from(cost))
        }
        Some(range) => {
            out.extend(b" range ")?;
            push_signed(out, range.low)?;
            out.extend(b" ")?;
            push_signed(out, range.high)
        }
    }
}

/// A name of a pattern with its path.
fn push_item(out: &mut Bytes, path: &[u8], name: &[u8]) -> Result<(), Memory>
    ensures { OnOk result (out.new ≡ out.old ++ item_text path.now name.now) }
{
    out.extend(b" ")?;
    if path.is_empty() {
        out.extend(b".")?;
    } else {
        out.extend(path)?;
    }
    out.extend(b":")?;
    out.extend(name)
}

/// A path with one step more.
fn longer(alloc: Global, path: &[u8], step: u8) -> Result<Bytes, Memory>
    ensures { IfOk result (λ longer. longer ≡ path.now ++ step ∷ []) }
{
    let mut longer = Bytes::copied(alloc, path)?;
    longer.push(step)?;
    Ok(longer)
}

/// The operators of a pattern at a path, in preorder.
fn push_checks(
    alloc: Global,
    out: &mut Bytes,
    d: &Description,
    path: &[u8],
    pattern: &Pattern,
) -> Result<(), Memory>
    ensures { OnOk result (out.new ≡ out.old ++ checks_text d.now path.now (pattern_of pattern.now)) }
{
    match pattern {
        Pattern::Nonterminal(_) => Ok(()),
        Pattern::Leaf(op) => push_item(out, path, d.operator_name(*op)),
        Pattern::Unary(op, p) => {
            push_item(out, path, d.operator_name(*op))?;
            push_checks(alloc, out, d, longer(alloc, path, b'0')?.as_slice(), p)
        }
        Pattern::Binary(op, p, q) => {
            push_item(out, path, d.operator_name(*op))?;
            push_checks(alloc, out, d, longer(alloc, path, b'0')?.as_slice(), p)?;
            push_checks(alloc, out, d, longer(alloc, path, b'1')?.as_slice(), q)
        }
    }
}

/// The nonterminals of a pattern at a path, in preorder.
fn push_leaves(
    alloc: Global,
    out: &mut Bytes,
    d: &Description,
    path: &[u8],
    pattern: &Pattern,
) -> Result<(), Memory>
    ensures { OnOk result (out.new ≡ out.old ++ leaves_text d.now path.now (pattern_of pattern.now)) }
{
    match pattern {
        Pattern::Nonterminal(n) => push_item(out, path, d.nonterminal_name(*n)),
        Pattern::Leaf(_) => Ok(()),
        Pattern::Unary(_, p) => {
            push_leaves(alloc, out, d, longer(alloc, path, b'0')?.as_slice(), p)
        }
        Pattern::Binary(_, p, q) => {
            push_leaves(alloc, out, d, longer(alloc, path, b'0')?.as_slice(), p)?;
            push_leaves(alloc, out, d, longer(alloc, path, b'1')?.as_slice(), q)
        }
    }
}

/// The line of the rule of this number.
fn push_rule(
    alloc: Global,
    out: &mut Bytes,
    d: &Description,
    number: u32,
    rule: &Rule,
) -> Result<(), Memory>
    ensures { OnOk result (out.new ≡ out.old ++ rule_line d.now number rule.now) }
{
    out.extend(b"rule ")?;
    push_number(out, number)?;
    out.extend(b": ")?;
    out.extend(d.nonterminal_name(rule.left))?;
    push_price(out, rule.cost, rule.range)?;
    out.extend(b" checks")?;
    push_checks(alloc, out, d, b"", &rule.pattern)?;
    out.extend(b" leaves")?;
    push_leaves(alloc, out, d, b"", &rule.pattern)?;
    out.extend(b"\n")
}

fn push_rules(alloc: Global, out: &mut Bytes, d: &Description) -> Result<(), Memory>
    ensures { OnOk result (out.new ≡ out.old ++ rule_lines d.now 1 d.now.rules) }
{
    let rules = d.rules();
    for (place, rule) in rules.iter().enumerate() {
        push_rule(alloc, out, d, place as u32 + 1, rule)?;
    }
    Ok(())
}

/// The line of the nonterminal at a place.
fn push_chain(out: &mut Bytes, tables: &Tables, n: u16, name: &[u8]) -> Result<(), Memory>
    ensures { OnOk result (out.new ≡ out.old ++ chain_line tables.now.rules n name.now) }
{
    out.extend(b"chain ")?;
    out.extend(name)?;
    out.extend(b":")?;
    push_numbers(out, tables.chains_from(n))?;
    out.extend(b"\n")
}

fn push_chains(out: &mut Bytes, tables: &Tables) -> Result<(), Memory>
    ensures { OnOk result (out.new ≡ out.old ++ chain_lines tables.now.rules 0 tables.now.nonterminals) }
{
    let names = tables.description().nonterminals();
    for (place, name) in names.iter().enumerate() {
        push_chain(out, tables, place as u16, name.as_slice())?;
    }
    Ok(())
}

/// The text of tables: the start symbol; for each operator its arity and the rules with it at the root of their
/// patterns; for each rule its left side, its cost or range, the operators and the nonterminals of its pattern with
/// their paths; for each nonterminal the chain rules from it. `Memory` comes where an allocation is refused.
pub fn text(alloc: Global, t: &Tables) -> Result<Bytes, Memory>
    ensures { IfOk result (λ text. text ≡ tables_text t.now) }
{
    let mut out = Bytes::new(alloc);
    push_start(&mut out, t.description())?;
    push_operators(&mut out, t)?;
    push_rules(alloc, &mut out, t.description())?;
    push_chains(&mut out, t)?;
    Ok(out)
}
