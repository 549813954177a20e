//! Rules with the numbers of their lines.
ghost use Rattle.std.specs.Prelude.{◌≡◌, [], IfErr, OnOk};
ghost use Rattle.lburg_lines.specs.Grammar.{line_of};
ghost use Rattle.lburg_faults.specs.Reads.{AddsLine};

use crate::desc_fault::DescFault;
use lburg_lines::{Line, RuleLine};
use std::alloc::Global;

/// Rules in order, with the number of each one's line.
#[derive(Drop)]
pub(crate) struct NumberedRules<'a> {
    pub(crate) lines: Vec<RuleLine<'a>>,
    pub(crate) numbers: Vec<u32>,
}

impl<'a> NumberedRules<'a> {
    /// No rules.
    pub(crate) fn new(alloc: Global) -> Self
        ensures lines { result.lines.items ≡ [] }
        ensures numbers { result.numbers.items ≡ [] }
    {
        NumberedRules {
            lines: Vec::new(alloc),
            numbers: Vec::new(alloc),
        }
    }

    /// Adds the line with this number, if it is a rule.
    pub(crate) fn add(&mut self, line: Line<'a>, number: u32) -> Result<(), DescFault>
        ensures ok { OnOk result (AddsLine self.old self.new (line_of line.entry) number) }
        ensures err { IfErr result (λ f. f ≡ DescFault.Memory) }
    {
        if let Line::Rule(rule) = line {
            self.lines.push(rule)?;
            self.numbers.push(number)?;
        }
        Ok(())
    }
}
