//! A program so far: what the lines that were read make.
ghost use Rattle.std.specs.Prelude.{◌≡◌};
ghost use Rattle.asm_text.specs.Made.{nothing};

use crate::datum::Datum;
use crate::labels::Labels;
use crate::uses::Uses;
use asm_lines::{Instruction, Section};
use std::alloc::Global;
use std::marker::Model;

/// The most instructions of a program.
pub(crate) const MOST_CODE: usize = 4_194_304;

/// The most bytes of its data.
pub(crate) const MOST_DATA: u32 = 33_554_432;

/// What lines make, with names by their numbers. Contracts see names as bytes.
#[derive(Drop)]
pub(crate) struct Assembly<'a> {
    pub(crate) section: Section,
    pub(crate) code: Vec<Instruction<u32>>,
    pub(crate) numbers: Vec<u32>,
    pub(crate) datums: Vec<Datum<u32>>,
    /// The bytes of the data.
    pub(crate) size: u32,
    pub(crate) labels: Labels<'a>,
    pub(crate) uses: Uses<'a>,
}

impl<'a> Model for Assembly<'a> {
    ghost use Rattle.asm_text.specs.Made.{Made};
    ghost use Rattle.asm_text.specs.MadeTable.{made_view, IsMadeTable};

    ghost Value = { Made };

    ghost view = { λ a. made_view a.section a.code.items a.numbers.items a.datums.items a.labels a.uses };

    ghost invariant = { λ a. IsMadeTable a.code.items a.datums.items a.size a.uses };
}

impl<'a> Assembly<'a> {
    /// What no lines make, without an allocation.
    pub(crate) fn new(alloc: Global) -> Self
        ensures { result ≡ nothing }
    {
        Assembly {
            section: Section::Text,
            code: Vec::new(alloc),
            numbers: Vec::new(alloc),
            datums: Vec::new(alloc),
            size: 0,
            labels: Labels::new(alloc),
            uses: Uses::new(alloc),
        }
    }
}
