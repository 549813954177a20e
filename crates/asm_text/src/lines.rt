//! A table of the lines of an assembly text, in which names are kept by their numbers.
ghost use Rattle.std.specs.Prelude.{◌≡◌, ◌<◌, ◌+◌, ◌++◌, ◌∷◌, [], map, length, All, IfOk, OnOk, OnErr};
ghost use Rattle.asm_lines.specs.Statements.{told, told_by, item_of, item_by, instruction_with};
ghost use Rattle.asm_text.specs.Grown.{HasGrown, AddsLabels};
ghost use Rattle.asm_text.specs.IsPrefix.{IsPrefix};
ghost use Rattle.asm_text.specs.LineTable.{numbers_of_items, numbers_in};
ghost use Rattle.asm_text.specs.Names.{name_at, name_in, names_of_instruction};
ghost use Rattle.asm_text.specs.ProgramTable.{AreBelow};

use crate::name_table::NameTable;
use crate::naming::{name_of, named};
use asm_lines::{Instruction, Item, Statement};
use lcc_base::{Items, Memory};
use std::alloc::Global;
use std::marker::Model;

/// A line: how many labels it has, and its statement, with names by their numbers.
#[derive(Debug, Drop)]
pub(crate) struct Line {
    pub(crate) labels: usize,
    pub(crate) statement: Statement<u32>,
}

/// Lines of a text, one behind the other, numbered from 1. Contracts see the list of them, with names as bytes.
#[derive(Debug, Drop)]
pub struct Lines {
    pub(crate) names: NameTable,
    /// The names of all labels, line by line.
    pub(crate) labels: Vec<u32>,
    pub(crate) lines: Vec<Line>,
}

impl Model for Lines {
    ghost use Rattle.std.specs.Prelude.{List};
    ghost use Rattle.asm_text.specs.Lines.{MLine};
    ghost use Rattle.asm_text.specs.IsPrefix.{IsPrefix};
    ghost use Rattle.asm_text.specs.LineTable.{lines_behind, AreLineTable};

    ghost Value = { List MLine };

    ghost view = { λ l. lines_behind l.names 1 l.labels.items l.lines.items };

    ghost invariant = { λ l. AreLineTable l.names l.labels.items l.lines.items };
}

impl Lines {
    /// No lines, without an allocation.
    pub fn new(alloc: Global) -> Self
        ensures { result ≡ [] }
    {
        Lines {
            names: NameTable::new(alloc),
            labels: Vec::new(alloc),
            lines: Vec::new(alloc),
        }
    }

    /// Adds a line with these labels and this statement, with the next number. `Memory` comes where an allocation is
    /// refused, or there are too many names for numbers of 32 bits. After an error the lines are as before.
    pub fn push(
        &mut self,
        alloc: Global,
        labels: &[&[u8]],
        statement: Statement<&[u8]>,
    ) -> Result<(), Memory>
        ensures ok { OnOk result (self.new ≡ self.old ++ record { labels = map (λ n. n.now) labels.now; statement = told statement.entry; number = length self.old + 1 } ∷ []) }
        ensures err { OnErr result (self.new ≡ self.old) }
    {
        let statement = kept(alloc, &mut self.names, statement)?;
        let before = self.labels.len();
        match add_line(
            &mut self.names,
            &mut self.labels,
            &mut self.lines,
            labels,
            statement,
        ) {
            Ok(()) => Ok(()),
            Err(error) => {
                self.labels.truncate(before);
                Err(error)
            }
        }
    }
}

/// Adds a name to those of the table: its number.
fn add_name(names: &mut NameTable, name: &[u8]) -> Result<u32, Memory>
    ensures grown { HasGrown names.old names.new }
    ensures number { IfOk result (λ n. (n < length names.new) × (name_at names.new n ≡ name.now)) }
{
    let number = u32::try_from(names.len()).map_err(|_| Memory)?;
    names.push(name)?;
    Ok(number)
}

/// Adds a name, if there is one, to those of the table: its number, or 0.
fn add_if_some(names: &mut NameTable, name: Option<&[u8]>) -> Result<u32, Memory>
    ensures grown { HasGrown names.old names.new }
    ensures number { IfOk result (λ n. All (λ a. (n < length names.new) × (name_at names.new n ≡ a.now)) (name_in name.entry)) }
{
    match name {
        Some(name) => add_name(names, name),
        None => Ok(0),
    }
}

/// Adds the names of labels to those of the table, and their numbers to the numbers of labels.
fn add_labels(names: &mut NameTable, numbers: &mut Vec<u32>, labels: &[&[u8]]) -> Result<(), Memory>
    ensures grown { HasGrown names.old names.new }
    ensures front { IsPrefix numbers.old.items numbers.new.items }
    ensures added { OnOk result (AddsLabels names.new numbers.old.items numbers.new.items (map (λ n. n.now) labels.now)) }
{
    for label in labels {
        let number = add_name(names, label)?;
        numbers.push(number)?;
    }
    Ok(())
}

/// Adds a line with these labels. After an error the lines are as before, but some of the labels may be there.
fn add_line(
    names: &mut NameTable,
    numbers: &mut Vec<u32>,
    lines: &mut Vec<Line>,
    labels: &[&[u8]],
    statement: Statement<u32>,
) -> Result<(), Memory>
    ensures grown { HasGrown names.old names.new }
    ensures front { IsPrefix numbers.old.items numbers.new.items }
    ensures labels { OnOk result (AddsLabels names.new numbers.old.items numbers.new.items (map (λ n. n.now) labels.now)) }
    ensures lines { OnOk result (lines.new.items ≡ lines.old.items ++ record { labels = length labels.now; statement = statement } ∷ []) }
    ensures err { OnErr result (lines.new.items ≡ lines.old.items) }
{
    add_labels(names, numbers, labels)?;
    lines.push(Line {
        labels: labels.len(),
        statement,
    })?;
    Ok(())
}

/// The instruction with the number of its name, if it has one.
fn kept_instruction(
    names: &mut NameTable,
    instruction: &Instruction<&[u8]>,
) -> Result<Instruction<u32>, Memory>
    ensures grown { HasGrown names.old names.new }
    ensures below { IfOk result (λ i. AreBelow (length names.new) (names_of_instruction i)) }
    ensures same { IfOk result (λ i. instruction_with (name_at names.new) i ≡ instruction_with (λ n. n.now) instruction.now) }
{
    let number = add_if_some(names, name_of(instruction))?;
    Ok(named(instruction, number))
}

/// The item with the number of its name, if it has one.
fn kept_item(names: &mut NameTable, item: Item<&[u8]>) -> Result<Item<u32>, Memory>
    ensures grown { HasGrown names.old names.new }
    ensures below { IfOk result (λ i. AreBelow (length names.new) (name_in i.name)) }
    ensures same { IfOk result (λ i. item_by (name_at names.new) i ≡ item_of item.entry) }
{
    let name = match item.name {
        Some(name) => {
            let number = add_name(names, name)?;
            Some(number)
        }
        None => None,
    };
    Ok(Item {
        name,
        value: item.value,
    })
}

/// The items with the numbers of their names.
fn kept_items(
    alloc: Global,
    names: &mut NameTable,
    items: &Items<Item<&[u8]>>,
) -> Result<Items<Item<u32>>, Memory>
    ensures grown { HasGrown names.old names.new }
    ensures below { IfOk result (λ is. AreBelow (length names.new) (numbers_of_items is)) }
    ensures same { IfOk result (λ is. map (item_by (name_at names.new)) is ≡ map item_of items.now) }
{
    let mut found = Items::with_capacity(alloc, items.len())?;
    for item in items.as_slice() {
        let item = kept_item(names, *item)?;
        found.push(item)?;
    }
    Ok(found)
}

/// The statement with the numbers of its names, which are added to those of the table.
fn kept(
    alloc: Global,
    names: &mut NameTable,
    statement: Statement<&[u8]>,
) -> Result<Statement<u32>, Memory>
    ensures grown { HasGrown names.old names.new }
    ensures below { IfOk result (λ s. AreBelow (length names.new) (numbers_in s)) }
    ensures same { IfOk result (λ s. told_by (name_at names.new) s ≡ told statement.entry) }
{
    match statement {
        Statement::Nothing => Ok(Statement::Nothing),
        Statement::Text => Ok(Statement::Text),
        Statement::Data => Ok(Statement::Data),
        Statement::Global(name) => {
            let number = add_name(names, name)?;
            Ok(Statement::Global(number))
        }
        Statement::Align(n) => Ok(Statement::Align(n)),
        Statement::Words(items) => {
            let items = kept_items(alloc, names, &items)?;
            Ok(Statement::Words(items))
        }
        Statement::Halves(halves) => Ok(Statement::Halves(halves)),
        Statement::Bytes(bytes) => Ok(Statement::Bytes(bytes)),
        Statement::Space(count) => Ok(Statement::Space(count)),
        Statement::Instruction(instruction) => {
            let instruction = kept_instruction(names, &instruction)?;
            Ok(Statement::Instruction(instruction))
        }
    }
}
