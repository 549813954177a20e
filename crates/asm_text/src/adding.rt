//! Statements added to a program so far.
ghost use Rattle.std.specs.Prelude.{◌≡◌, ◌≤◌, ◌⊎◌, ◌∷◌, ◌^◌, [], length, map, slice_get, option_map, Some, OnOk, IfOk, IfErr, IfSome};
ghost use Rattle.lcc_base.specs.declared.which.Which.{Which as Whichs};
ghost use Rattle.asm_lines.specs.Sections.{StandsIn};
ghost use Rattle.asm_lines.specs.Statements.{instruction_with, item_of, told};
ghost use Rattle.asm_text.specs.Added.{with_names, with_code, with_data, with_words, IsDataFault, IsAligned};
ghost use Rattle.asm_text.specs.Made.{padding, with_statement};
ghost use Rattle.asm_text.specs.Names.{datum_with, name_at, name_in, names_of_datum, names_of_instruction};
ghost use Rattle.asm_text.specs.Program.{data_size, size_of};
ghost use Rattle.asm_text.specs.ProgramTable.{AreBelow};
ghost use Rattle.asm_text.specs.FirstFault.{IsPast};
ghost use Rattle.asm_text.specs.Uses.{used_names};
ghost use Rattle.asm_text.specs.declared.datum.Datum.TheVariants as variant;

use crate::asm_fault::AsmFault;
use crate::assembly::{Assembly, MOST_CODE, MOST_DATA};
use crate::datum::Datum;
use crate::naming::{name_of, push_named};
use asm_lines::{Instruction, Item, Section, Statement};
use lcc_base::{Memory, Which};

/// The bytes that a datum takes.
fn size_of(datum: Datum<u32>) -> u32
    ensures { result ≡ size_of datum }
{
    match datum {
        Datum::Byte(_) => 1,
        Datum::Half(_) => 2,
        Datum::Word(_) => 4,
        Datum::Named(_, _) => 4,
        Datum::Zeros(count) => count,
    }
}

/// The zero bytes behind so many, up to a multiple of 2^n.
fn padding(size: u32, n: u8) -> u32
    requires { n ≤ 4 }
    ensures { result ≡ padding size (2 ^ n) }
{
    let to = 1 << u32::from(n);
    (to - size % to) % to
}

impl<'a> Assembly<'a> {
    /// Adds the name to those that are used, if there is one: its number, or 0.
    fn use_name(&mut self, name: Option<&'a [u8]>, line: u32) -> Result<u32, Memory>
        ensures made { OnOk result (self.new ≡ with_names self.old line (name_in (option_map (λ n. n.now) name.entry))) }
        ensures number { IfOk result (λ n. IfSome name.entry (λ name. slice_get (used_names self.new.uses) n ≡ Some name.now)) }
    {
        match name {
            Some(name) => self.uses.add(name, line),
            None => Ok(0),
        }
    }

    /// Adds an instruction.
    fn add_instruction(
        &mut self,
        instruction: &Instruction<&'a [u8]>,
        line: u32,
    ) -> Result<(), AsmFault>
        ensures made { OnOk result (let i = instruction_with (λ n. n.now) instruction.now in self.new ≡ with_code (with_names self.old line (names_of_instruction i)) line i) }
        ensures fault { IfErr result (λ f. (f ≡ AsmFault.Memory) ⊎ ((f ≡ AsmFault.TooLarge line Which.Code) × (4194304 ≤ length self.old.code))) }
    {
        if self.code.len() == MOST_CODE {
            return Err(AsmFault::TooLarge {
                line,
                which: Which::Code,
            });
        }
        let number = self.use_name(name_of(instruction), line)?;
        push_named(&mut self.code, instruction, number)?;
        self.numbers.push(line)?;
        Ok(())
    }

    /// Adds a datum.
    fn add_datum(&mut self, datum: Datum<u32>, line: u32) -> Result<(), AsmFault>
        requires { AreBelow (length self.old.uses) (names_of_datum datum) }
        ensures made { OnOk result (self.new ≡ with_data self.old (datum_with (name_at (used_names self.old.uses)) datum ∷ [])) }
        ensures fault { IfErr result (IsDataFault line (with_data self.old (datum_with (name_at (used_names self.old.uses)) datum ∷ []))) }
    {
        let size = size_of(datum);
        if size > MOST_DATA - self.size {
            return Err(AsmFault::TooLarge {
                line,
                which: Which::Data,
            });
        }
        self.datums.push(datum)?;
        self.size += size;
        Ok(())
    }

    /// Adds a word of data.
    fn add_word(&mut self, item: Item<&'a [u8]>, line: u32) -> Result<(), AsmFault>
        ensures made { OnOk result (self.new ≡ with_words self.old line (item_of item.entry ∷ [])) }
        ensures fault { IfErr result (IsDataFault line (with_words self.old line (item_of item.entry ∷ []))) }
    {
        match item.name {
            Some(name) => {
                let number = self.use_name(Some(name), line)?;
                self.add_datum(Datum::Named(number, item.value), line)
            }
            None => self.add_datum(Datum::Word(item.value), line),
        }
    }

    /// Adds words of data.
    fn add_words(&mut self, items: &[Item<&'a [u8]>], line: u32) -> Result<(), AsmFault>
        ensures made { OnOk result (self.new ≡ with_words self.old line (map item_of items.now)) }
        ensures fault { IfErr result (IsDataFault line (with_words self.old line (map item_of items.now))) }
    {
        for item in items {
            self.add_word(*item, line)?;
        }
        Ok(())
    }

    /// Adds data of two bytes each.
    fn add_halves(&mut self, halves: &[u16], line: u32) -> Result<(), AsmFault>
        ensures made { OnOk result (self.new ≡ with_data self.old (map (λ n. variant.Half n) halves.now)) }
        ensures fault { IfErr result (IsDataFault line (with_data self.old (map (λ n. variant.Half n) halves.now))) }
    {
        for half in halves {
            self.add_datum(Datum::Half(*half), line)?;
        }
        Ok(())
    }

    /// Adds bytes of data.
    fn add_bytes(&mut self, bytes: &[u8], line: u32) -> Result<(), AsmFault>
        ensures made { OnOk result (self.new ≡ with_data self.old (map (λ n. variant.Byte n) bytes.now)) }
        ensures fault { IfErr result (IsDataFault line (with_data self.old (map (λ n. variant.Byte n) bytes.now))) }
    {
        for byte in bytes {
            self.add_datum(Datum::Byte(*byte), line)?;
        }
        Ok(())
    }

    /// Adds so many bytes of data that are zero.
    fn add_zeros(&mut self, count: u32, line: u32) -> Result<(), AsmFault>
        ensures made { OnOk result (self.new ≡ with_data self.old (variant.Zeros count ∷ [])) }
        ensures fault { IfErr result (IsDataFault line (with_data self.old (variant.Zeros count ∷ []))) }
    {
        self.add_datum(Datum::Zeros(count), line)
    }

    /// Adds zero bytes up to a multiple of 2^n.
    fn align(&mut self, n: u8, line: u32) -> Result<(), AsmFault>
        requires { n ≤ 4 }
        ensures made { OnOk result (self.new ≡ with_data self.old (variant.Zeros (padding (data_size self.old.datums) (2 ^ n)) ∷ [])) }
        ensures fault { IfErr result (IsDataFault line (with_data self.old (variant.Zeros (padding (data_size self.old.datums) (2 ^ n)) ∷ []))) }
    {
        self.add_zeros(padding(self.size, n), line)
    }

    /// Adds a statement of the section on the line of this number.
    pub(crate) fn add_statement(
        &mut self,
        statement: Statement<&'a [u8]>,
        line: u32,
    ) -> Result<(), AsmFault>
        requires here { StandsIn self.old.section (told statement) }
        requires aligned { IsAligned (told statement) }
        ensures made { OnOk result (self.new ≡ with_statement self.old line (told statement.entry)) }
        ensures fault { IfErr result (λ f. (f ≡ AsmFault.Memory) ⊎ ((w : Whichs) × (f ≡ AsmFault.TooLarge line w) × IsPast (with_statement self.old line (told statement.entry)) w)) }
    {
        match statement {
            Statement::Nothing => Ok(()),
            Statement::Text => {
                self.section = Section::Text;
                Ok(())
            }
            Statement::Data => {
                self.section = Section::Data;
                Ok(())
            }
            Statement::Global(name) => {
                self.use_name(Some(name), line)?;
                Ok(())
            }
            Statement::Align(n) => self.align(n, line),
            Statement::Words(items) => self.add_words(items.as_slice(), line),
            Statement::Halves(halves) => self.add_halves(halves.as_slice(), line),
            Statement::Bytes(bytes) => self.add_bytes(bytes.as_slice(), line),
            Statement::Space(count) => self.add_zeros(count, line),
            Statement::Instruction(instruction) => self.add_instruction(&instruction, line),
        }
    }
}
