//! What a declaration declares, part by part.
ghost use Rattle.std.specs.Prelude.{◌≡◌, ◌++◌, IfOk};
ghost use Rattle.c_types.specs.Table.{Table};
ghost use Rattle.c_meaning.specs.Declarations.{nothing as no_parts, together as both_parts};
ghost use Rattle.c_check_decl.specs.Declares.{AreDeclaredIn, declares_in};

use c_meaning::{CoreObject, CoreStmt};
use c_symbols::SymbolId;
use c_types::TypeId;
use lcc_base::{Items, Memory};
use std::alloc::Global;

/// An object with static storage that is defined (C89 3.7.2).
#[derive(Drop)]
pub struct DefinedObject {
    /// The symbol that names it: that of its declaration, or of all declarations of its name where that has
    /// linkage.
    pub symbol: SymbolId,
    pub object: CoreObject,
}

/// One declaration of a name with linkage (C89 3.1.2.2).
#[derive(Clone, Copy, Debug)]
pub struct LinkedName {
    /// The symbol of all declarations of the name.
    pub symbol: SymbolId,
    /// The type that this declaration's declarator gives it.
    pub of: TypeId,
    /// The line of this declaration.
    pub line: u32,
}

/// What a declaration declares beside the names that are known from then on (C89 3.5).
#[derive(Drop)]
pub struct Declares {
    /// The objects with static storage that it defines, in order. Tentative definitions are none.
    pub objects: Items<DefinedObject>,
    /// The types of the local objects, which are the next ones of their function.
    pub locals: Items<TypeId>,
    /// What the local objects begin with, in order.
    pub fills: Items<CoreStmt>,
    /// The names with linkage, in order.
    pub linked: Items<LinkedName>,
}

/// What declares no object and no name with linkage.
pub fn nothing(alloc: Global) -> Declares
    ensures is { (t : Table) → declares_in t result ≡ no_parts }
    ensures within { (n : _) → AreDeclaredIn n result }
{
    Declares {
        objects: Items::new(alloc),
        locals: Items::new(alloc),
        fills: Items::new(alloc),
        linked: Items::new(alloc),
    }
}

/// What two declarations declare, one behind the other.
pub fn together(before: Declares, more: Declares) -> Result<Declares, Memory>
    ensures is { IfOk result (λ all. (t : Table) → declares_in t all ≡ both_parts (declares_in t before) (declares_in t more)) }
    ensures within { IfOk result (λ all. (n : _) → AreDeclaredIn n before → AreDeclaredIn n more → AreDeclaredIn n all) }
{
    Ok(Declares {
        objects: appended(before.objects, more.objects)?,
        locals: appended(before.locals, more.locals)?,
        fills: appended(before.fills, more.fills)?,
        linked: appended(before.linked, more.linked)?,
    })
}

/// The items, and the others behind them.
fn appended<T: Drop>(items: Items<T>, more: Items<T>) -> Result<Items<T>, Memory>
    ensures { IfOk result (λ all. all ≡ items ++ more) }
{
    let mut all = items;
    for item in more.into_vec() {
        all.push(item)?;
    }
    Ok(all)
}
