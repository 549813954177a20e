//! Assembled programs: code, data and labels, with the addresses of the names in use.
ghost use Rattle.std.specs.Prelude.{◌≡◌, ◌≤◌, length, map, All, IfSome};
ghost use Rattle.asm_lines.specs.Statements.{instruction_with};

use crate::datum::Datum;
use crate::name_table::NameTable;
use crate::place::Place;
use asm_lines::Instruction;
use std::marker::Model;

/// A program: what the lines of a text make. Contracts see its instructions with the number of each one's line, its data and
/// its labels, all with names as bytes.
#[derive(Debug, Drop)]
pub struct Program {
    /// The names that code and data use, by their numbers, and the address of each.
    pub(crate) used: NameTable,
    pub(crate) addresses: Vec<u32>,
    pub(crate) code: Vec<Instruction<u32>>,
    pub(crate) numbers: Vec<u32>,
    pub(crate) data: Vec<Datum<u32>>,
    /// The names of the labels in order, and the place of each.
    pub(crate) label_names: NameTable,
    pub(crate) places: Vec<Place>,
    /// The instruction at which the label `main` stands.
    pub(crate) main: Option<u32>,
}

impl Model for Program {
    ghost use Rattle.asm_text.specs.Program.{MProgram};
    ghost use Rattle.asm_text.specs.ProgramTable.{program_view, IsProgramTable};

    ghost Value = { MProgram };

    ghost view = { λ p. program_view p.used p.code.items p.numbers.items p.data.items p.label_names p.places.items };

    ghost invariant = { λ p. IsProgramTable (program_view p.used p.code.items p.numbers.items p.data.items p.label_names p.places.items) p.used p.addresses.items p.code.items p.data.items p.main };
}
