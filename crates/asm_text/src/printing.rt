//! Lines as text.
ghost use Rattle.std.specs.Prelude.{◌≡◌, ◌++◌, map, length, All, IfOk, OnOk};
ghost use Rattle.lcc_text.specs.Lines.{lines_of};
ghost use Rattle.asm_lines.specs.Printed.{printed_statement};
ghost use Rattle.asm_lines.specs.Statements.{told_by, item_of, item_by, instruction_with};
ghost use Rattle.asm_text.specs.AssemblyText.{IsText};
ghost use Rattle.asm_text.specs.LineBack.{IsLabelBack, IsStatementBack, IsLineBack};
ghost use Rattle.asm_text.specs.LineTable.{lines_behind, numbers_of_items, numbers_in, AreLineTable};
ghost use Rattle.asm_text.specs.Lines.{AreLines};
ghost use Rattle.asm_text.specs.Makes.{Makes};
ghost use Rattle.asm_text.specs.Names.{name_at, name_in, names_of_instruction};
ghost use Rattle.asm_text.specs.Printable.{ArePrintable};
ghost use Rattle.asm_text.specs.Printed.{labels_text, lines_text};
ghost use Rattle.asm_text.specs.Program.{MProgram};
ghost use Rattle.asm_text.specs.ProgramTable.{AreBelow};

use crate::lines::{Line, Lines};
use crate::name_table::NameTable;
use crate::naming::{name_of, named};
use asm_lines::{
    Instruction, Item, Statement, print_bytes, print_halves, print_label, print_statement,
    print_words,
};
use lcc_base::{Bytes, Memory};
use std::alloc::Global;

/// The instruction with its name, if it has one.
fn named_instruction<'n>(
    names: &'n NameTable,
    instruction: &Instruction<u32>,
) -> Instruction<&'n [u8]>
    requires { AreBelow (length names.now) (names_of_instruction instruction.now) }
    ensures { instruction_with (λ n. n.now) result ≡ instruction_with (name_at names.now) instruction.now }
{
    match name_of(instruction) {
        Some(number) => named(instruction, names.name(number as usize)),
        None => named(instruction, &[]),
    }
}

/// The item with its name, if it has one.
fn named_item<'n>(names: &'n NameTable, item: Item<u32>) -> Item<&'n [u8]>
    requires { AreBelow (length names.now) (name_in item.name) }
    ensures { item_of result ≡ item_by (name_at names.now) item }
{
    Item {
        name: match item.name {
            Some(number) => Some(names.name(number as usize)),
            None => None,
        },
        value: item.value,
    }
}

/// The items with their names.
fn named_items<'n>(
    alloc: Global,
    names: &'n NameTable,
    items: &[Item<u32>],
) -> Result<Vec<Item<&'n [u8]>>, Memory>
    requires { AreBelow (length names.now) (numbers_of_items items.now) }
    ensures { IfOk result (λ v. map item_of v.items ≡ map (item_by (name_at names.now)) items.now) }
{
    let mut found = Vec::with_capacity(alloc, items.len())?;
    for item in items {
        found.push(named_item(names, *item))?;
    }
    Ok(found)
}

/// Adds a statement `.word` with these items.
fn add_words(
    alloc: Global,
    out: &mut Bytes,
    names: &NameTable,
    items: &[Item<u32>],
) -> Result<(), Memory>
    requires { AreBelow (length names.now) (numbers_of_items items.now) }
    ensures text { OnOk result (out.new ≡ out.old ++ printed_statement (told_by (name_at names.now) (Statement.Words items.now))) }
    ensures back { OnOk result (IsStatementBack (told_by (name_at names.now) (Statement.Words items.now))) }
{
    let found = named_items(alloc, names, items)?;
    print_words(out, &found)
}

/// Adds a statement and a line feed.
fn add_statement(
    alloc: Global,
    out: &mut Bytes,
    names: &NameTable,
    statement: &Statement<u32>,
) -> Result<(), Memory>
    requires { AreBelow (length names.now) (numbers_in statement.now) }
    ensures text { OnOk result (out.new ≡ out.old ++ printed_statement (told_by (name_at names.now) statement.now)) }
    ensures back { OnOk result (IsStatementBack (told_by (name_at names.now) statement.now)) }
{
    match statement {
        Statement::Nothing => print_statement(out, &Statement::Nothing),
        Statement::Text => print_statement(out, &Statement::Text),
        Statement::Data => print_statement(out, &Statement::Data),
        Statement::Global(number) => {
            print_statement(out, &Statement::Global(names.name(*number as usize)))
        }
        Statement::Align(n) => print_statement(out, &Statement::Align(*n)),
        Statement::Words(items) => add_words(alloc, out, names, items.as_slice()),
        Statement::Halves(halves) => print_halves(out, halves.as_slice()),
        Statement::Bytes(bytes) => print_bytes(out, bytes.as_slice()),
        Statement::Space(count) => print_statement(out, &Statement::Space(*count)),
        Statement::Instruction(instruction) => print_statement(
            out,
            &Statement::Instruction(named_instruction(names, instruction)),
        ),
    }
}

/// Adds labels, without a line feed.
fn add_labels(out: &mut Bytes, names: &NameTable, labels: &[u32]) -> Result<(), Memory>
    requires { AreBelow (length names.now) labels.now }
    ensures text { OnOk result (out.new ≡ out.old ++ labels_text (map (name_at names.now) labels.now)) }
    ensures back { OnOk result (All IsLabelBack (map (name_at names.now) labels.now)) }
{
    for label in labels {
        print_label(out, names.name(*label as usize))?;
    }
    Ok(())
}

/// Adds the lines, of which the first has the first of these labels.
fn add_lines(
    alloc: Global,
    out: &mut Bytes,
    names: &NameTable,
    labels: &[u32],
    lines: &[Line],
) -> Result<(), Memory>
    requires { AreLineTable names.now labels.now lines.now }
    ensures text { OnOk result (out.new ≡ out.old ++ lines_text (lines_behind names.now 1 labels.now lines.now)) }
    ensures back { OnOk result (All IsLineBack (lines_behind names.now 1 labels.now lines.now)) }
{
    let mut rest = labels;
    for line in lines {
        let (own, behind) = rest.split_at(line.labels);
        add_labels(out, names, own)?;
        add_statement(alloc, out, names, &line.statement)?;
        rest = behind;
    }
    Ok(())
}

/// The lines as text: the labels of a line without blanks, and then its statement, with a tab before its word and before its
/// first operand, registers by their numbers, and numbers without a sign. `Memory` comes where an allocation is refused.
pub fn print(alloc: Global, lines: &Lines) -> Result<Bytes, Memory>
    // It is their text.
    ensures text { IfOk result (λ bytes. bytes ≡ lines_text lines.now) }
    // The lines of the text are these.
    ensures lines { IfOk result (λ bytes. ArePrintable lines.now → AreLines (lines_of bytes) 1 lines.now) }
    // The text is one of the lines' program, also where that is beyond the limits of what is read.
    ensures program { IfOk result (λ bytes. (p : MProgram) → ArePrintable lines.now → Makes lines.now p → IsText bytes p) }
{
    let mut out = Bytes::new(alloc);
    add_lines(alloc, &mut out, &lines.names, &lines.labels, &lines.lines)?;
    Ok(out)
}
