//! Lines added to a program so far.
ghost use Rattle.std.specs.Prelude.{◌≡◌, ◌⊎◌, ◌∷◌, [], IfOk, OnOk, IfErr};
ghost use Rattle.asm_lines.specs.Tokens.{views};
ghost use Rattle.asm_text.specs.Addresses.{IsAddressable};
ghost use Rattle.asm_text.specs.FaultAt.{fault_at};
ghost use Rattle.asm_text.specs.FirstFault.{HasDouble, Stands};
ghost use Rattle.asm_text.specs.LabelsTaken.{TakesLabels};
ghost use Rattle.asm_text.specs.Lines.{MLine, AreTokens};
ghost use Rattle.asm_text.specs.Made.{next_place, with_labels, with_line};
ghost use Rattle.asm_text.specs.Makes.{IsAllowed, IsNew, IsWithinLimits, label_names, program_of};

use crate::asm_fault::AsmFault;
use crate::assembly::{Assembly, MOST_DATA};
use crate::place::Place;
use asm_lines::{Section, StatementFault, Token, label_at, read_statement};
use std::alloc::Global;

/// A statement's fault, told with its line.
fn at_line(fault: StatementFault, line: u32) -> AsmFault
    ensures { result ≡ fault_at line fault }
{
    match fault {
        StatementFault::BadLine => AsmFault::BadLine { line },
        StatementFault::UnknownInstruction => AsmFault::UnknownInstruction { line },
        StatementFault::BadOperand => AsmFault::BadOperand { line },
        StatementFault::Memory => AsmFault::Memory,
    }
}

impl<'a> Assembly<'a> {
    /// The next place of the section.
    fn next_place(&self) -> Place
        ensures place { result ≡ next_place self.now.section self.now.code self.now.datums }
        ensures within { IsAddressable result }
    {
        match self.section {
            Section::Text => Place::Code(self.code.len() as u32),
            Section::Data => Place::Data(self.size),
        }
    }

    /// Adds a label at the next place.
    fn add_label(&mut self, name: &'a [u8], line: u32) -> Result<(), AsmFault>
        ensures new { OnOk result (IsNew (label_names self.old.labels) name.now) }
        ensures made { OnOk result (self.new ≡ with_labels self.old (name.now ∷ [])) }
        ensures fault { IfErr result (λ f. (f ≡ AsmFault.Memory) ⊎ ((f ≡ AsmFault.DoubleLabel line) × (IsNew (label_names self.old.labels) name.now → ⊥))) }
    {
        let place = self.next_place();
        if self.labels.add(name, place)? {
            Ok(())
        } else {
            Err(AsmFault::DoubleLabel { line })
        }
    }

    /// Adds the labels at the front of the tokens: the tokens behind them.
    fn add_labels<'t>(
        &mut self,
        tokens: &'t [Token<'a>],
        line: u32,
    ) -> Result<&'t [Token<'a>], AsmFault>
        ensures labels { IfOk result (λ rest. TakesLabels self.old (views tokens.now) (views rest.now) self.new) }
        ensures fault { IfErr result (λ f. (f ≡ AsmFault.Memory) ⊎ ((f ≡ AsmFault.DoubleLabel line) × HasDouble self.old (views tokens.now))) }
    {
        let mut rest = tokens;
        while let Some(name) = label_at(rest) {
            self.add_label(name, line)?;
            rest = &rest[2..];
        }
        Ok(rest)
    }

    /// Adds the line of these tokens and this number.
    pub(crate) fn add_line(
        &mut self,
        alloc: Global,
        tokens: &[Token<'a>],
        line: u32,
    ) -> Result<(), AsmFault>
        ensures made { OnOk result ((l : MLine) × AreTokens (views tokens.now) l × (l.number ≡ line) × IsAllowed self.old l × (self.new ≡ with_line self.old l)) }
        ensures within { OnOk result (IsWithinLimits (program_of self.new)) }
        ensures fault { IfErr result (λ f. (f ≡ AsmFault.Memory) ⊎ Stands self.old (views tokens.now) line f) }
    {
        let behind = self.add_labels(tokens, line)?;
        match read_statement(alloc, self.section, behind) {
            Ok(statement) => {
                self.add_statement(statement, line)?;
                prove!(self.size <= MOST_DATA);
                Ok(())
            }
            Err(fault) => Err(at_line(fault, line)),
        }
    }
}
