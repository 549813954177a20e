//! The lines of a unit.
ghost use Rattle.std.specs.Prelude.{◌≡◌, ◌+◌, ◌++◌, [], ◌∷◌, length, OnOk};
ghost use Rattle.asm_lines.specs.Statements.{told};
ghost use Rattle.unit_text.specs.UnitLines.{plain, named, numbered};

use asm_text::{Lines, Statement};
use lcc_base::Memory;
use std::alloc::Global;

/// Adds a line without a label.
pub fn push_plain(
    alloc: Global,
    lines: &mut Lines,
    statement: Statement<&[u8]>,
) -> Result<(), Memory>
    ensures { OnOk result (lines.new ≡ lines.old ++ numbered (length lines.old + 1) (plain (told statement.entry) ∷ [])) }
{
    lines.push(alloc, &[], statement)
}

/// Adds the lines that a function begins with: its name, which is seen from outside.
pub fn push_name(alloc: Global, lines: &mut Lines, name: &[u8]) -> Result<(), Memory>
    ensures { OnOk result (lines.new ≡ lines.old ++ numbered (length lines.old + 1) (named name.now)) }
{
    push_plain(alloc, lines, Statement::Global(name))?;
    lines.push(alloc, &[name], Statement::Nothing)
}
