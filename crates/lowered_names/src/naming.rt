//! The names of a lowered unit.
ghost use Rattle.std.specs.Prelude.{◌≡◌, ◌++◌, ◌∷◌, [], if◌then◌else◌, IfOk, OnOk, All, map};
ghost use Rattle.lburg_model.specs.Description.{AreDistinct};
ghost use Rattle.op_forest.specs.Lowered.{IsUnitName};
ghost use Rattle.c_worlds.specs.BuiltIns.{numbered_built_ins};
ghost use Rattle.c_worlds.specs.Programs.{HasNames, unit_of};
ghost use Rattle.lowered_names.specs.UnitNames.{AreUnitNames, built_in_name, numbered};

use crate::own_names::{add_functions, add_objects};
use c_worlds::{Names, Program};
use itoa::Buffer;
use lcc_base::{Bytes, Items, Memory};
use std::alloc::Global;

/// The names of a lowered unit with so many tables, in the order of their numbers. `Memory` comes too where a function or object has
/// a name that no checked unit has.
pub fn unit_names(alloc: Global, program: &Program, tables: usize) -> Result<Items<Bytes>, Memory>
    requires { HasNames program.now }
    ensures names { IfOk result (λ all. AreUnitNames (unit_of program.now) tables all) }
    ensures distinct { IfOk result (λ all. AreDistinct all) }
    ensures each { IfOk result (λ all. All IsUnitName all) }
{
    let core = program.core;
    let mut all = Items::new(alloc);
    add_functions(alloc, core.functions(), &mut all)?;
    add_objects(alloc, core.objects(), &mut all)?;
    add_numbered(alloc, b"text.", core.texts().len(), &mut all)?;
    add_built_ins(alloc, program.names, &mut all)?;
    add_numbered(alloc, b"table.", tables, &mut all)?;
    Ok(all)
}

// So many names are added, by their numbers from 0.
fn add_numbered(
    alloc: Global,
    front: &[u8],
    count: usize,
    all: &mut Items<Bytes>,
) -> Result<(), Memory>
    ensures { OnOk result (all.new ≡ all.old ++ numbered front.now count) }
{
    for n in 0..count {
        let mut name = Bytes::copied(alloc, front)?;
        let mut buffer = Buffer::new();
        name.extend(buffer.format(n).as_bytes())?;
        all.push(name)?;
    }
    Ok(())
}

// The names of the built-in functions that the unit doesn't define.
fn add_built_ins(alloc: Global, names: Names, all: &mut Items<Bytes>) -> Result<(), Memory>
    ensures { OnOk result (all.new ≡ all.old ++ map built_in_name (numbered_built_ins names)) }
{
    add_unless(alloc, names.putchar, b"putchar", all)?;
    add_unless(alloc, names.getchar, b"getchar", all)?;
    add_unless(alloc, names.exit, b"exit", all)
}

// One, unless the unit defines it.
fn add_unless(
    alloc: Global,
    is_defined: bool,
    name: &[u8],
    all: &mut Items<Bytes>,
) -> Result<(), Memory>
    ensures { OnOk result (all.new ≡ all.old ++ (if is_defined then [] else name.now ∷ [])) }
{
    if is_defined {
        return Ok(());
    }
    all.push(Bytes::copied(alloc, name)?)
}
