//! Where the expressions of a function stand.
ghost use Rattle.std.specs.Prelude.{◌≡◌, ◌+◌, IfOk};
ghost use Rattle.c_runs.specs.Calls as calls;
ghost use Rattle.c_worlds.specs.BuiltIns.{numbered_built_ins};
ghost use Rattle.c_worlds.specs.Programs.{HasNames, unit_of};
ghost use Rattle.lowered_forms.specs.Contexts as contexts;

use c_meaning::BuiltIn;
use c_worlds::{Names, Program};
use lcc_base::Memory;

/// Where a function's expressions stand: the program, how many parameters the function has, and where each of its locals is. A place
/// below 0 is an offset from the frame's top, any other one from the first parameter word. At that of a parameter of
/// structure type stands the address of its bytes.
#[derive(Clone, Copy)]
pub struct Site<'a> {
    pub program: Program<'a>,
    pub parameters: u32,
    pub places: &'a [i32],
}

/// The number of an object's name. `Memory` where it is above 2^32 - 1, which it is in no checked unit.
pub fn object_name(program: &Program, n: u32) -> Result<u32, Memory>
    ensures { IfOk result (λ m. m ≡ contexts.object_name (unit_of program.now) n) }
{
    name_behind(program.core.functions().len(), n)
}

/// The number of a text's name. `Memory` as above.
pub fn text_name(program: &Program, n: u32) -> Result<u32, Memory>
    ensures { IfOk result (λ m. m ≡ contexts.text_name (unit_of program.now) n) }
{
    let name = name_behind(program.core.objects().len(), n)?;
    name_behind(program.core.functions().len(), name)
}

/// The number of a built-in function's name. `Memory` as above.
pub fn built_in_name(program: &Program, b: BuiltIn) -> Result<u32, Memory>
    requires { HasNames program.now }
    ensures { IfOk result (λ m. m ≡ contexts.built_in_name (unit_of program.now) b) }
{
    match program
        .names
        .first
        .checked_add(place_among(program.names, b))
    {
        Some(name) => Ok(name),
        None => Err(Memory),
    }
}

// A number behind so many others.
fn name_behind(others: usize, n: u32) -> Result<u32, Memory>
    ensures { IfOk result (λ m. m ≡ others + n) }
{
    let Some(name) = others.checked_add(n as usize) else {
        return Err(Memory);
    };
    match u32::try_from(name) {
        Ok(name) => Ok(name),
        Err(_) => Err(Memory),
    }
}

// How many built-in functions that the unit doesn't define stand before this one, or in all, if it defines this one.
fn place_among(names: Names, b: BuiltIn) -> u32
    ensures { result ≡ calls.place_among b (numbered_built_ins names) }
{
    let putchar = if names.putchar { 0 } else { 1 };
    let getchar = if names.getchar { 0 } else { 1 };
    let exit = if names.exit { 0 } else { 1 };
    match b {
        BuiltIn::Putchar if names.putchar => getchar + exit,
        BuiltIn::Putchar => 0,
        BuiltIn::Getchar if names.getchar => putchar + exit,
        BuiltIn::Getchar => putchar,
        BuiltIn::Exit => putchar + getchar,
    }
}
