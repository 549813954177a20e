//! A declared name at its declarator: its constraints, its type, and the name in force from there on (C89 3.5, 3.5.4).
ghost use Rattle.std.specs.Prelude.{◌≡◌, ◌<◌, length};
ghost use Rattle.c_ast.specs.Seen.{declarator_seen};
ghost use Rattle.c_meaning.specs.Declaring.{first_class as first_of_classes};
ghost use Rattle.c_meaning.specs.TypeRows.{name_or_empty as or_empty};
ghost use Rattle.c_check_expr.specs.Known.{AreSymbolsIn, state_of};
ghost use Rattle.c_check_expr.specs.PartsSeen.{AreStepsIn, declared_seen, specified_seen};
ghost use Rattle.c_check_expr.specs.Walks.{Walks};
ghost use Rattle.c_check_decl.specs.DeclaredIn.{name_in, named_at};
ghost use Rattle.c_check_decl.specs.Named.{IsNamingIn, naming_in};

use crate::fitting::makes_function;
use crate::linkage::given_linkage;
use crate::linked::declare_name;
use crate::name_faults::name_fault;
use crate::naming::Naming;
use c_ast::{Declarator, Storage};
use c_check_expr::pieces::{Declared, Specified, declarator, shape};
use c_symbols::Scopes;
use c_types::TypeTable;
use c_values::CheckFault;
use lcc_base::Bytes;
use std::alloc::Global;

/// The storage class among specifiers, which have one at most (C89 3.5.1).
pub fn first_class(classes: &[Storage]) -> Option<Storage>
    ensures { result ≡ first_of_classes classes.now }
{
    classes.first().copied()
}

/// The bytes of the name, none where there is no name.
fn name_bytes(name: &Option<Bytes>) -> &[u8]
    ensures { result.now ≡ or_empty name.now }
{
    match name {
        Some(name) => name.as_slice(),
        None => &[],
    }
}

/// The name of a declarator, and the empty one where it has none.
pub fn name_or_empty(alloc: Global, name: Option<Bytes>) -> Bytes
    ensures { result ≡ or_empty name }
{
    match name {
        Some(name) => name,
        None => Bytes::new(alloc),
    }
}

/// A declarator whose parts are checked, as that of a name of a declaration on this line.
fn named(
    alloc: Global,
    scopes: &mut Scopes,
    types: &mut TypeTable,
    line: u32,
    base: &Specified,
    d: Declared,
) -> Result<Naming, CheckFault>
    requires symbols { AreSymbolsIn (length types.old.forms) scopes.old.symbols }
    requires base { base.now.of < length types.old.forms }
    requires steps { AreStepsIn (length types.old.forms) d.steps }
    ensures { Walks naming_in IsNamingIn (named_at (state_of scopes.old types.old) line (specified_seen types.old base.now) (declared_seen types.old d)) scopes.old types.old scopes.new types.new result }
{
    let class = first_class(base.classes.as_slice());
    let name = name_bytes(&d.name);
    let steps = d.steps.as_slice();
    let linkage = given_linkage(scopes, class, name, makes_function(types, base.of, steps));
    if let Some(number) = name_fault(scopes, types, class, name, linkage, (base.of, steps)) {
        let line = d.line;
        return Err(CheckFault::Constraint { number, line });
    }
    let shaped = shape(alloc, types, base.of, d)?;
    let n = Naming {
        class,
        name: name_or_empty(alloc, shaped.name),
        of: shaped.of,
        linkage,
    };
    declare_name(scopes, types, line, &n)?;
    Ok(n)
}

/// A declared name: its declarator, over the type of the specifiers.
pub(crate) fn name(
    alloc: Global,
    scopes: &mut Scopes,
    types: &mut TypeTable,
    line: u32,
    base: &Specified,
    d: &Declarator,
) -> Result<Naming, CheckFault>
    requires symbols { AreSymbolsIn (length types.old.forms) scopes.old.symbols }
    requires base { base.now.of < length types.old.forms }
    ensures { Walks naming_in IsNamingIn (name_in scopes.old types.old line (specified_seen types.old base.now) (declarator_seen d.now)) scopes.old types.old scopes.new types.new result }
{
    let declared = declarator(alloc, scopes, types, d)?;
    named(alloc, scopes, types, line, base, declared)
}
