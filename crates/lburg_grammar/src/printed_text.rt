//! A description as a text.
ghost use Rattle.std.specs.Prelude.{◌≡◌, ◌++◌, codes, decimal, IfOk, OnOk};
ghost use Rattle.std.specs.Fmt.{signed_decimal};
ghost use Rattle.lburg_model.specs.Pattern.{pattern_of};
ghost use Rattle.lburg_grammar.specs.DescriptionText.{IsText};
ghost use Rattle.lburg_grammar.specs.Printed.{start_line, terminal_line, terminal_lines, pattern_text, cost_text, rule_line, rule_lines, printed};

use itoa::Buffer;
use lburg_model::{Description, Pattern, Range, Rule, Terminal};
use lcc_base::{Bytes, Memory};
use std::alloc::Global;

fn push_number(out: &mut Bytes, number: u32) -> Result<(), Memory>
    ensures { OnOk result (out.new ≡ out.old ++ decimal number) }
{
    let mut buffer = Buffer::new();
    out.extend(buffer.format(number).as_bytes())
}

fn push_signed(out: &mut Bytes, number: i64) -> Result<(), Memory>
    ensures { OnOk result (out.new ≡ out.old ++ signed_decimal number) }
{
    let mut buffer = Buffer::new();
    out.extend(buffer.format(number).as_bytes())
}

fn push_start(out: &mut Bytes, d: &Description) -> Result<(), Memory>
    ensures { OnOk result (out.new ≡ out.old ++ start_line d.now) }
{
    out.extend(b"%start ")?;
    out.extend(d.nonterminal_name(d.start()))?;
    out.extend(b"\n")
}

fn push_terminal(out: &mut Bytes, terminal: &Terminal) -> Result<(), Memory>
    ensures { OnOk result (out.new ≡ out.old ++ terminal_line terminal.now) }
{
    out.extend(b"%term ")?;
    out.extend(terminal.name.as_slice())?;
    out.extend(b"=")?;
    push_number(out, terminal.number)?;
    out.extend(b"\n")
}

fn push_terminals(out: &mut Bytes, terminals: &[Terminal]) -> Result<(), Memory>
    ensures { OnOk result (out.new ≡ out.old ++ terminal_lines terminals.now) }
{
    for terminal in terminals {
        push_terminal(out, terminal)?;
    }
    Ok(())
}

fn push_pattern(out: &mut Bytes, d: &Description, pattern: &Pattern) -> Result<(), Memory>
    ensures { OnOk result (out.new ≡ out.old ++ pattern_text d.now (pattern_of pattern.now)) }
{
    match pattern {
        Pattern::Nonterminal(n) => out.extend(d.nonterminal_name(*n)),
        Pattern::Leaf(op) => out.extend(d.operator_name(*op)),
        Pattern::Unary(op, p) => {
            out.extend(d.operator_name(*op))?;
            out.extend(b"(")?;
            push_pattern(out, d, p)?;
            out.extend(b")")
        }
        Pattern::Binary(op, p, q) => {
            out.extend(d.operator_name(*op))?;
            out.extend(b"(")?;
            push_pattern(out, d, p)?;
            out.extend(b",")?;
            push_pattern(out, d, q)?;
            out.extend(b")")
        }
    }
}

fn push_cost(out: &mut Bytes, cost: u16, range: Option<Range>) -> Result<(), Memory>
    ensures { OnOk result (out.new ≡ out.old ++ cost_text cost range) }
{
    match range {
        None => push_number(out, u32::from(cost)),
        Some(range) => {
            out.extend(b"range(a,")?;
            push_signed(out, range.low)?;
            out.extend(b",")?;
            push_signed(out, range.high)?;
            out.extend(b")")
        }
    }
}

fn push_rule(out: &mut Bytes, d: &Description, rule: &Rule) -> Result<(), Memory>
    ensures { OnOk result (out.new ≡ out.old ++ rule_line d.now rule.now) }
{
    out.extend(d.nonterminal_name(rule.left))?;
    out.extend(b": ")?;
    push_pattern(out, d, &rule.pattern)?;
    out.extend(b" \"")?;
    out.extend(rule.template.as_slice())?;
    out.extend(b"\" ")?;
    push_cost(out, rule.cost, rule.range)?;
    out.extend(b"\n")
}

fn push_rules(out: &mut Bytes, d: &Description, rules: &[Rule]) -> Result<(), Memory>
    ensures { OnOk result (out.new ≡ out.old ++ rule_lines d.now rules.now) }
{
    for rule in rules {
        push_rule(out, d, rule)?;
    }
    Ok(())
}

/// The description as a text: `%start NAME`, a line `%term NAME=NUMBER` for each terminal, `%%`, and a line
/// `LEFT: TREE "TEMPLATE" COST` for each rule, the tree without blanks, a range as `range(a,LO,HI)`. It is a text of
/// the description: what is read from it has the same parts. `Memory` comes where an allocation is refused.
pub fn print(alloc: Global, d: &Description) -> Result<Bytes, Memory>
    ensures printed { IfOk result (λ text. text ≡ printed d.now) }
    ensures read_back { IfOk result (λ text. IsText d.now text) }
{
    let mut out = Bytes::new(alloc);
    push_start(&mut out, d)?;
    push_terminals(&mut out, d.terminals())?;
    out.extend(b"%%\n")?;
    push_rules(&mut out, d, d.rules())?;
    Ok(out)
}
