//! The search of a switch over its tables: a table of one label is a test for its number, any other one is an object, by which a jump
//! goes on where the number isn't below its first one nor above its last one.
ghost use Rattle.std.specs.Prelude.{OnOk};
ghost use Rattle.lowered_statements.specs.Functions.{placed_cases};
ghost use Rattle.lowered_statements.specs.Rows.{chosen_by};
ghost use Rattle.lowered_statements.specs.Searches as searches;
ghost use Rattle.statement_steps.specs.Functions.{function_of};
ghost use Rattle.statement_steps.specs.Progresses.{Does};
ghost use Rattle.statement_steps.specs.Sides.{SearchesHalves, TestsNumber, TestsTable, choice_of, side_of};
ghost use Rattle.switch_tables.specs.Searches.{search_over};

use crate::cases::tables_in;
use crate::progress::Progress;
use crate::sides::{is_alone, way};
use crate::site::FunctionSite;
use crate::tests::{test_number, test_range, through};
use c_meaning::CoreCase;
use lcc_base::Memory;
use switch_tables::{Halves, Table, halved};

/// Where a switch's number is, whether it has a sign, and where it goes by no case.
#[derive(Clone, Copy, Debug)]
pub struct Choice {
    pub slot: i32,
    pub signed: bool,
    pub default: u32,
}

/// The search of a switch with these cases. `Memory` comes where an allocation is refused, where the block or the frame is full or no
/// label is left, and where no checked unit has the cases; `into` is given up then.
pub fn search_cases(
    f: &FunctionSite,
    choice: Choice,
    cases: &[CoreCase],
    into: &mut Progress,
) -> Result<(), Memory>
    ensures { OnOk result (Does (λ b. chosen_by (function_of f.now) (choice_of choice) (placed_cases (function_of f.now) cases.now) b) into.old into.new) }
{
    let alloc = *into.state.done.allocator();
    let tables = tables_in(alloc, f, choice.signed, cases, choice.default)?;
    search(f, choice, tables.as_slice(), into)
}

// The search over tables, by halves.
#[cycle(searching)]
fn search(
    f: &FunctionSite,
    choice: Choice,
    tables: &[Table],
    into: &mut Progress,
) -> Result<(), Memory>
    ensures { OnOk result (Does (λ b. searches.searched (function_of f.now) (choice_of choice) (search_over tables.now) b) into.old into.new) }
{
    match halved(tables) {
        Some(halves) => at_table(f, choice, halves, into),
        None => into.state.jump(choice.default),
    }
}

// The table in the middle, and those on both sides of it.
#[cycle(searching)]
fn at_table(
    f: &FunctionSite,
    choice: Choice,
    halves: Halves,
    into: &mut Progress,
) -> Result<(), Memory>
    ensures { OnOk result (SearchesHalves f.now choice halves.entry into.old into.new) }
{
    let labels = halves.table.labels.as_slice();
    let count = labels.len();
    if count == 1 {
        one_number(f, choice, halves, labels[0], into)
    } else {
        one_table(f, choice, halves, into)
    }
}

// A table of one label.
#[cycle(searching)]
fn one_number(
    f: &FunctionSite,
    choice: Choice,
    halves: Halves,
    label: u32,
    into: &mut Progress,
) -> Result<(), Memory>
    ensures { OnOk result (TestsNumber f.now choice halves.entry label into.old into.new) }
{
    let below = way(halves.less, choice.default, &mut into.state)?;
    let alone = is_alone(halves.less, halves.greater);
    test_number(
        choice,
        halves.table.low,
        label,
        alone,
        below,
        &mut into.state,
    )?;
    search(f, choice, halves.greater, into)?;
    side(f, choice, halves.less, below, into)
}

// Any other table.
#[cycle(searching)]
fn one_table(
    f: &FunctionSite,
    choice: Choice,
    halves: Halves,
    into: &mut Progress,
) -> Result<(), Memory>
    ensures { OnOk result (TestsTable f.now choice halves.entry into.old into.new) }
{
    let below = way(halves.less, choice.default, &mut into.state)?;
    let above = way(halves.greater, choice.default, &mut into.state)?;
    test_range(choice, halves.table, below, above, &mut into.state)?;
    through(f, choice, halves.table, into)?;
    side(f, choice, halves.greater, above, into)?;
    side(f, choice, halves.less, below, into)
}

// The tables on one side, from their label on, if there are any.
#[cycle(searching)]
fn side(
    f: &FunctionSite,
    choice: Choice,
    tables: &[Table],
    label: u32,
    into: &mut Progress,
) -> Result<(), Memory>
    ensures { let g = function_of f.now in let x = choice_of choice in OnOk result (Does (λ b. searches.side_at (side_of g x tables.now) label b) into.old into.new) }
{
    if tables.is_empty() {
        return Ok(());
    }
    into.state.mark(label)?;
    search(f, choice, tables, into)
}
