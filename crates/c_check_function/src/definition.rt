//! The declarator of a function's definition: its constraints, its type, and the name in force and defined from there
//! on (C89 3.7.1, 3.1.2.1).
ghost use Rattle.std.specs.Prelude.{◌≡◌, ◌<◌, length};
ghost use Rattle.c_ast.specs.Seen.{declarator_seen};
ghost use Rattle.c_types.specs.Table.{Table};
ghost use Rattle.c_check_expr.specs.Known.{AreSymbolsIn, state_of};
ghost use Rattle.c_check_expr.specs.PartsSeen.{AreStepsIn, declared_seen, specified_seen, steps_seen};
ghost use Rattle.c_check_expr.specs.Walks.{Walks};
ghost use Rattle.c_units.specs.Definitions.{has_many_names as lists_many, own_step};
ghost use Rattle.c_units.specs.Functions.{definition as definition_of};
ghost use Rattle.c_check_function.specs.Headings.{IsHeadingIn, heading_seen};
ghost use Rattle.c_check_function.specs.FunctionsSeen.{IsDefinitionIn, defined_at, definition_in, definition_seen};

use crate::heading::{Heading, broken};
use crate::own_step::names;
use c_ast::Declarator;
use c_check_decl::pieces::{
    Naming, declare_name, first_class, given_linkage, makes_function, name_or_empty, note,
};
use c_check_expr::pieces::{Declared, Specified, Step, declarator, limited};
use c_symbols::Scopes;
use c_types::{TypeId, TypeTable};
use c_values::CheckFault;
use lcc_base::{Items, Which};
use std::alloc::Global;

/// The declarator of a function's definition, with the type that it gives the function.
#[derive(Drop)]
pub(crate) struct Definition {
    pub(crate) naming: Naming,
    /// The type of its specifiers.
    pub(crate) base: TypeId,
    pub(crate) steps: Items<Step>,
}

/// The declarator of a definition on this line, over the type of its specifiers.
pub(crate) fn define(
    alloc: Global,
    scopes: &mut Scopes,
    types: &mut TypeTable,
    line: u32,
    base: &Specified,
    d: &Declarator,
) -> Result<Definition, CheckFault>
    requires symbols { AreSymbolsIn (length types.old.forms) scopes.old.symbols }
    requires base { base.now.of < length types.old.forms }
    ensures { Walks definition_seen IsDefinitionIn (definition_in scopes.old types.old line (specified_seen types.old base.now) (declarator_seen d.now)) scopes.old types.old scopes.new types.new result }
{
    let declared = declarator(alloc, scopes, types, d)?;
    define_checked(alloc, scopes, types, line, base, declared)
}

/// A declarator whose parts are checked, as that of a definition on this line.
fn define_checked(
    alloc: Global,
    scopes: &mut Scopes,
    types: &mut TypeTable,
    line: u32,
    base: &Specified,
    d: Declared,
) -> Result<Definition, CheckFault>
    requires symbols { AreSymbolsIn (length types.old.forms) scopes.old.symbols }
    requires base { base.now.of < length types.old.forms }
    requires steps { AreStepsIn (length types.old.forms) d.steps }
    ensures { Walks definition_seen IsDefinitionIn (defined_at (state_of scopes.old types.old) line (specified_seen types.old base.now) (declared_seen types.old d)) scopes.old types.old scopes.new types.new result }
{
    let own = d.line;
    let h = heading(alloc, scopes, types, base, d);
    if let Some(number) = broken(alloc, scopes, types, &h)? {
        return Err(CheckFault::Constraint { number, line: own });
    }
    let of = limited(alloc, types, own, h.base, h.steps.as_slice())?;
    if has_many_names(h.steps.as_slice()) {
        return Err(CheckFault::Limit {
            which: Which::Parameters,
            line: own,
        });
    }
    let naming = Naming {
        class: h.class,
        name: h.name,
        of,
        linkage: h.linkage,
    };
    declare_name(scopes, types, line, &naming)?;
    let link = scopes.linked(naming.name.as_slice());
    note(scopes, types, true, link)?;
    Ok(Definition {
        naming,
        base: h.base,
        steps: h.steps,
    })
}

/// What the declarator says over the type of the specifiers.
fn heading(
    alloc: Global,
    scopes: &Scopes,
    types: &TypeTable,
    base: &Specified,
    d: Declared,
) -> Heading
    requires base { base.now.of < length types.now.forms }
    requires steps { AreStepsIn (length types.now.forms) d.steps }
    ensures is { heading_seen types.now result ≡ definition_of (state_of scopes.now types.now) (specified_seen types.now base.now) (declared_seen types.now d) }
    ensures within { IsHeadingIn (length types.now.forms) result }
{
    let class = first_class(base.classes.as_slice());
    let name = name_or_empty(alloc, d.name);
    let function = makes_function(types, base.of, d.steps.as_slice());
    let linkage = given_linkage(scopes, class, name.as_slice(), function);
    Heading {
        class,
        name,
        linkage,
        base: base.of,
        steps: d.steps,
    }
}

/// Whether the last step lists more than 127 names.
fn has_many_names(steps: &[Step]) -> bool
    ensures { (t : Table) → result ≡ lists_many (own_step (steps_seen t steps.now)) }
{
    names(steps).len() > 127
}
