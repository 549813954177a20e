//! Programs as they run: a checked unit, its order of bytes and its built-in functions.
ghost use Rattle.std.specs.Prelude.{◌≡◌};
ghost use Rattle.c_meaning.specs.Units.{unit_seen};
ghost use Rattle.c_runs.specs.Calls.{first_built_in as first_number};
ghost use Rattle.c_worlds.specs.Programs.{AreNamesOf, HasNames, is_defined as is_name_defined};

use crate::defining::{has_function, has_object};
use crate::names::Names;
use c_meaning::Core;
use lcc_base::Order;

/// A checked unit that runs, and the order of bytes in memory.
#[derive(Clone, Copy)]
pub struct Program<'a> {
    pub core: &'a Core,
    pub order: Order,
    pub names: Names,
}

impl<'a> Program<'a> {
    /// The program of a unit.
    pub fn new(core: &'a Core, order: Order) -> Self
        ensures core { result.core.now ≡ core.now }
        ensures order { result.order ≡ order }
        ensures names { HasNames result }
    {
        Program {
            core,
            order,
            names: names_of(core),
        }
    }
}

/// How the built-in functions are numbered that the unit doesn't define.
fn names_of(core: &Core) -> Names
    ensures { AreNamesOf (unit_seen core.now) result }
{
    Names {
        first: first_built_in(core),
        putchar: is_defined(core, b"putchar"),
        getchar: is_defined(core, b"getchar"),
        exit: is_defined(core, b"exit"),
    }
}

/// How many functions, objects and texts the unit has.
fn first_built_in(core: &Core) -> u32
    ensures { result ≡ first_number (unit_seen core.now) }
{
    let count = core.functions().len() + (core.objects().len() + core.texts().len());
    count as u32
}

/// Whether the unit defines a function or an object of this name.
fn is_defined(core: &Core, name: &[u8]) -> bool
    ensures { result ≡ is_name_defined (unit_seen core.now) name.now }
{
    has_function(core.functions(), name) || has_object(core.objects(), name)
}
