//! The tests of a switch's number, and jumps by tables.
ghost use Rattle.std.specs.Prelude.{◌≡◌, ◌+◌, false, IfOk, OnOk};
ghost use Rattle.c_pointers_agree.specs.Pointers.{moved};
ghost use Rattle.c_rows_agree.specs.Places.{loaded_pointer};
ghost use Rattle.c_rows_agree.specs.Typed.{head};
ghost use Rattle.lowered_forms.specs.Lows.{acted_one};
ghost use Rattle.lowered_statements.specs.Searches as searches;
ghost use Rattle.lowering_steps.specs.Asking.{Acts};
ghost use Rattle.lowering_steps.specs.Operands.{typed_of};
ghost use Rattle.statement_steps.specs.Functions.{function_of};
ghost use Rattle.statement_steps.specs.Progresses.{Does, Goes};
ghost use Rattle.statement_steps.specs.Sides.{choice_of};
ghost use Rattle.switch_tables.specs.Searches.{last_in};

use crate::numbers::{number, sum};
use crate::progress::Progress;
use crate::searches::Choice;
use crate::site::FunctionSite;
use dag_forest::Kids;
use lcc_base::{Items, Memory};
use lowering_steps::{Jump, OpenBlock, Operand, State};
use objects::{Binary, Comparison};
use op_forest::{Op, Operator, Suffix, Sym};
use std::alloc::Global;
use switch_tables::Table;

// A jump to a label where the number compares so with this one.
fn compare(
    comparison: Comparison,
    choice: Choice,
    n: u32,
    label: u32,
    into: &mut State,
) -> Result<(), Memory>
    ensures { OnOk result (Goes (λ l. searches.compared_with comparison (choice_of choice) n label l) into.old into.new) }
{
    let jump = Jump { when: true, label };
    let number = Operand::slot(Suffix::I, choice.slot);
    let other = Operand::number(choice.signed, n);
    into.block
        .compare(comparison, choice.signed, jump, number, other)?;
    into.end()
}

/// The tests for a number: whether the switch's number is it, and unless it is alone, whether that is below it.
pub(crate) fn test_number(
    choice: Choice,
    n: u32,
    label: u32,
    alone: bool,
    below: u32,
    into: &mut State,
) -> Result<(), Memory>
    ensures { let x = choice_of choice in OnOk result (Goes (λ l. searches.below_tested alone x n below (searches.compared_with Comparison.Equal x n label l)) into.old into.new) }
{
    compare(Comparison::Equal, choice, n, label, into)?;
    if alone {
        Ok(())
    } else {
        compare(Comparison::Less, choice, n, below, into)
    }
}

/// The tests for a table: whether the switch's number is below its first one, and whether it is above its last one.
pub(crate) fn test_range(
    choice: Choice,
    table: &Table,
    below: u32,
    above: u32,
    into: &mut State,
) -> Result<(), Memory>
    ensures { OnOk result (Goes (λ l. searches.range_tested (choice_of choice) table.now below above l) into.old into.new) }
{
    compare(Comparison::Less, choice, table.low, below, into)?;
    compare(Comparison::Greater, choice, last_number(table), above, into)
}

// The last number of a table, its first one if it has no label.
fn last_number(table: &Table) -> u32
    ensures { result ≡ last_in table.now }
{
    let behind = table.labels.len().saturating_sub(1);
    table.low.wrapping_add((behind % (1 << 32)) as u32)
}

/// A jump by a table, which is made.
pub(crate) fn through(
    f: &FunctionSite,
    choice: Choice,
    table: &Table,
    into: &mut Progress,
) -> Result<(), Memory>
    ensures { OnOk result (Does (λ b. searches.through (function_of f.now) (choice_of choice) table.now b) into.old into.new) }
{
    let alloc = *into.tables.allocator();
    let name = name_behind(f.tables, into.tables.len())?;
    jump_by(choice, table.low, name, &mut into.state.block)?;
    into.state.end()?;
    let labels = copied(alloc, table.labels.as_slice())?;
    into.tables.push(labels)?;
    Ok(())
}

// The name behind so many others from this one on. `Memory` comes where that is 2^32 or more.
fn name_behind(first: u32, others: usize) -> Result<u32, Memory>
    ensures { IfOk result (λ n. n ≡ first + others) }
{
    sum(first, number(others)?)
}

// A copy of labels.
fn copied(alloc: Global, labels: &[u32]) -> Result<Items<u32>, Memory>
    ensures { IfOk result (λ copy. copy ≡ labels.now) }
{
    let mut copy = Vec::new(alloc);
    copy.extend_from_slice(labels)?;
    Ok(Items::from_vec(copy))
}

// The jump by a table of this name.
fn jump_by(choice: Choice, low: u32, name: u32, block: &mut OpenBlock) -> Result<(), Memory>
    ensures { OnOk result (Acts block.old (λ l. acted_one (head Op.Jump Suffix.V) (loaded_pointer (searches.place_in_table (choice_of choice) low name)).tree l) block.new) }
{
    let table = block.operand(Operand::name(name, 0))?;
    let number = Operand::slot(Suffix::I, choice.slot);
    let first = Operand::number(choice.signed, low);
    let index = block.binary(Binary::Subtract, choice.signed, number, first)?;
    jump_at(Operand::node(table, Suffix::P), index, block)
}

// The jump to where the label at an index of a table says.
fn jump_at(table: Operand, index: Operand, block: &mut OpenBlock) -> Result<(), Memory>
    ensures { OnOk result (Acts block.old (λ l. acted_one (head Op.Jump Suffix.V) (loaded_pointer (moved 4 false (typed_of table) (typed_of index))).tree l) block.new) }
{
    let place = block.moved(4, false, table, index)?;
    let target = block.loaded_pointer(place)?;
    let target = block.operand(target)?;
    let operator = Operator {
        op: Op::Jump,
        suffix: Suffix::V,
    };
    block.root(operator, Kids::One(target), Sym::Nothing)
}
