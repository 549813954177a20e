//! Names that a unit defines.
ghost use Rattle.std.specs.Prelude.{◌≡◌, List, map};
ghost use Rattle.c_types.specs.CType.{CType};
ghost use Rattle.c_meaning.specs.Units.{function_seen, object_seen};
ghost use Rattle.c_runs.specs.Calls as calls;

use c_meaning::{CoreFunction, CoreObject};

/// Whether a function among these has this name.
pub fn has_function(functions: &[CoreFunction], name: &[u8]) -> bool
    ensures { (types : List CType) → result ≡ calls.has_function (map (function_seen types) functions.now) name.now }
{
    for function in functions {
        if function.name.as_slice() == name {
            return true;
        }
    }
    false
}

/// Whether an object among these has this name.
pub fn has_object(objects: &[CoreObject], name: &[u8]) -> bool
    ensures { (types : List CType) → result ≡ calls.has_object (map (object_seen types) objects.now) name.now }
{
    for object in objects {
        if object.name.as_slice() == name {
            return true;
        }
    }
    false
}
