//! The functions of a unit, with the tables of their switches.
ghost use Rattle.std.specs.Prelude.{◌≡◌, ◌+◌, if◌then◌else◌, IfOk, OnOk};
ghost use Rattle.c_lower_unit.specs.Lowerings.{AddsFunction, IsLowering};
ghost use Rattle.c_worlds.specs.Programs.{HasNames, unit_of};
ghost use Rattle.lowered_units.specs.Tables.{first_table};

use crate::tables::add_tables;
use c_lower_stmt::lower_body;
use c_meaning::CoreFunction;
use c_worlds::Program;
use lcc_base::{Items, Memory};
use op_forest::{Forest, LoweredFunction, LoweredObject};
use statement_steps::{Progress, word_count};
use std::alloc::Global;

/// How far a unit's functions are lowered: those that are, and the objects, with the tables of their switches behind others, of which there
/// are so many.
#[derive(Drop)]
pub(crate) struct Lowering {
    pub(crate) functions: Items<LoweredFunction>,
    pub(crate) objects: Items<LoweredObject>,
    pub(crate) tables: usize,
}

/// All functions of a program; the tables are behind these objects. `Memory` comes where an allocation is refused, and as for a function.
pub(crate) fn lower_functions(
    alloc: Global,
    program: &Program,
    objects: Items<LoweredObject>,
) -> Result<Lowering, Memory>
    requires { HasNames program.now }
    ensures { IfOk result (λ l. IsLowering program.now objects l) }
{
    let first = first_name(program)?;
    let mut into = Lowering {
        functions: Items::new(alloc),
        objects,
        tables: 0,
    };
    let functions = program.core.functions();
    for f in functions {
        add_function(alloc, program, first, f, &mut into)?;
    }
    Ok(into)
}

// One more. The tables are named from this name on.
fn add_function(
    alloc: Global,
    program: &Program,
    first: u32,
    f: &CoreFunction,
    into: &mut Lowering,
) -> Result<(), Memory>
    requires { HasNames program.now }
    ensures { OnOk result (AddsFunction program.now first f.now into.old into.new) }
{
    let number = numbered(into.functions.len())?;
    let name = name_behind(first, into.tables)?;
    let Progress { state, tables } = lower_body(alloc, program, number, name, f)?;
    let function = LoweredFunction {
        name: number,
        words: word_count(program.core.types(), f)?,
        forest: Forest {
            roots: Items::from_vec(state.done),
            frame: state.frame,
        },
    };
    into.functions.push(function)?;
    add_tables(alloc, number, name, tables.as_slice(), &mut into.objects)?;
    into.tables = into.tables.checked_add(tables.len()).ok_or(Memory)?;
    Ok(())
}

// A place as a number. `Memory` comes where it is 2^32 or more.
fn numbered(place: usize) -> Result<u32, Memory>
    ensures { IfOk result (λ n. n ≡ place) }
{
    u32::try_from(place).map_err(|_| Memory)
}

// The name behind so many others from this one on.
fn name_behind(first: u32, others: usize) -> Result<u32, Memory>
    ensures { IfOk result (λ n. n ≡ first + others) }
{
    first.checked_add(numbered(others)?).ok_or(Memory)
}

// The name of the first table: behind those of the built-in functions that the unit doesn't define.
fn first_name(program: &Program) -> Result<u32, Memory>
    requires { HasNames program.now }
    ensures { IfOk result (λ n. n ≡ first_table (unit_of program.now)) }
{
    let names = program.names;
    let count = missing(names.putchar) + missing(names.getchar) + missing(names.exit);
    names.first.checked_add(count).ok_or(Memory)
}

// One where there is no such function.
fn missing(is_there: bool) -> u32
    ensures { result ≡ (if is_there then 0 else 1) }
{
    if is_there { 0 } else { 1 }
}
