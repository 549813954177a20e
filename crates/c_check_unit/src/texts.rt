//! The texts of a unit's string literals (C89 3.1.4).
ghost use Rattle.std.specs.Prelude.{◌≡◌, map, IfOk, OnOk};
ghost use Rattle.c_check_decl.specs.Declares.{defined_in};
ghost use Rattle.c_types.specs.Table.{Table};
ghost use Rattle.c_unit_parts.specs.PartsIn.{function_in, parts_in};
ghost use Rattle.c_units.specs.Wholes.{function_literals, object_literals, once, texts_of};

use c_check_decl::DefinedObject;
use c_unit_parts::{DefinedFunction, UnitParts};
use c_wholes::{Texts, note_function, note_object};
use lcc_base::Memory;
use std::alloc::Global;

/// The texts of a unit's functions, then those of its objects.
pub(crate) fn noted(alloc: Global, parts: &UnitParts) -> Result<Texts, Memory>
    ensures { IfOk result (λ l. (t : Table) → l ≡ texts_of (parts_in t parts.now)) }
{
    let mut texts = Texts::new(alloc);
    note_functions(&mut texts, parts.functions.as_slice())?;
    note_objects(&mut texts, parts.objects.as_slice())?;
    Ok(texts)
}

/// Notes the string literals of functions in order.
fn note_functions(texts: &mut Texts, list: &[DefinedFunction]) -> Result<(), Memory>
    ensures { OnOk result ((t : Table) → texts.new ≡ once texts.old (function_literals (map (function_in t) list.now))) }
{
    for f in list {
        note_function(texts, &f.function)?;
    }
    Ok(())
}

/// Notes the string literals that objects begin with, in order.
fn note_objects(texts: &mut Texts, list: &[DefinedObject]) -> Result<(), Memory>
    ensures { OnOk result ((t : Table) → texts.new ≡ once texts.old (object_literals (map (defined_in t) list.now))) }
{
    for o in list {
        note_object(texts, &o.object)?;
    }
    Ok(())
}
