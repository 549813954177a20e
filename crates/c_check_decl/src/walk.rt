//! The walk over a declaration: its specifiers, its names in order, and then the declaration (C89 3.5).
ghost use Rattle.std.specs.Prelude.{◌≡◌, ◌<◌, ℕ, length, map, IfOk};
ghost use Rattle.c_ast.specs.Seen.{specifier_form_seen, specifier_seen, specifiers_seen};
ghost use Rattle.c_ast.specs.SeenUnits.{declaration_seen, init_seen};
ghost use Rattle.c_ast.specs.Views.{specifier_list_of};
ghost use Rattle.c_types.specs.Table.{Table, type_at};
ghost use Rattle.c_meaning.specs.Declaring.{declare_tag, declares_something as something, declares_tag as tags, list_of, type_filled};
ghost use Rattle.c_meaning.specs.Linkage.{local_count as locals_so_far};
ghost use Rattle.c_check_expr.specs.Known.{AreSymbolsIn, state_of};
ghost use Rattle.c_check_expr.specs.PartsSeen.{specified_seen};
ghost use Rattle.c_check_expr.specs.Walks.{Walks};
ghost use Rattle.c_check_decl.specs.Declares.{AreDeclaredIn, IsMaybeFilledIn, declares_in, maybe_filled_in};
ghost use Rattle.c_check_decl.specs.DeclaredIn.{declaration_in, init_in, inits_in};

use crate::counting::local_count;
use crate::declares::{Declares, nothing, together};
use crate::forming::name;
use crate::initialising::{initialised, maybe_initialised, type_here};
use crate::own_specifiers::own_specifiers;
use crate::whole::{Spot, at_whole};
use c_ast::{Declaration, InitDeclarator, Specifier, SpecifierForm, Specifiers};
use c_check_expr::pieces::Specified;
use c_initialisers::Filled;
use c_symbols::Scopes;
use c_types::{TypeId, TypeTable};
use c_values::CheckFault;
use lcc_base::Memory;
use std::alloc::Global;

/// The place that the next local object has in its function.
fn next_place(scopes: &Scopes) -> Result<u32, Memory>
    ensures { (t : Table) → IfOk result (λ n. n ≡ locals_so_far (state_of scopes.now t)) }
{
    // No function has as many locals.
    u32::try_from(local_count(scopes)).map_err(|_| Memory)
}

/// The type that a name has behind its initialiser, if it has one.
fn filled_type(of: TypeId, filled: &Option<Filled>) -> TypeId
    ensures means { (t : Table) → type_at t result ≡ type_filled (type_at t of) (maybe_filled_in t filled.now) }
    ensures within { (n : ℕ) → of < n → IsMaybeFilledIn n filled.now → result < n }
{
    match filled {
        Some(filled) => filled.of,
        None => of,
    }
}

/// A name of a declaration on this line, with its initialiser.
fn init(
    alloc: Global,
    scopes: &mut Scopes,
    types: &mut TypeTable,
    line: u32,
    base: &Specified,
    i: &InitDeclarator,
) -> Result<Declares, CheckFault>
    requires symbols { AreSymbolsIn (length types.old.forms) scopes.old.symbols }
    requires base { base.now.of < length types.old.forms }
    ensures { Walks declares_in AreDeclaredIn (init_in scopes.old types.old line (specified_seen types.old base.now) (init_seen i.now)) scopes.old types.old scopes.new types.new result }
{
    let place = next_place(scopes)?;
    let mut n = name(alloc, scopes, types, line, base, &i.declarator)?;
    let of = n.of;
    n.of = type_here(scopes, types, &n);
    let object = initialised(scopes, types, &n);
    let filled = maybe_initialised(alloc, scopes, types, object, &i.initialiser)?;
    n.of = filled_type(n.of, &filled);
    let own = i.line;
    let spot = Spot {
        line,
        own,
        place,
        of,
    };
    at_whole(alloc, scopes, types, spot, (&n, &i.initialiser), filled)
}

/// The names of a declaration on this line, in order.
fn inits(
    alloc: Global,
    scopes: &mut Scopes,
    types: &mut TypeTable,
    line: u32,
    base: &Specified,
    list: &[InitDeclarator],
) -> Result<Declares, CheckFault>
    requires symbols { AreSymbolsIn (length types.old.forms) scopes.old.symbols }
    requires base { base.now.of < length types.old.forms }
    ensures { Walks declares_in AreDeclaredIn (inits_in scopes.old types.old line (specified_seen types.old base.now) (map init_seen list.now)) scopes.old types.old scopes.new types.new result }
{
    let mut all = nothing(alloc);
    for i in list {
        let one = init(alloc, scopes, types, line, base, i)?;
        all = together(all, one)?;
    }
    Ok(all)
}

/// Whether a structure, union or enumeration with a tag, or an enumerator, is declared among the specifiers.
fn declares_tag(list: &Specifiers) -> bool
    ensures { result ≡ declare_tag (list_of (specifiers_seen list.now)) }
{
    is_any_tag(list.list.as_slice())
}

/// Whether one of the specifiers is such.
fn is_any_tag(list: &[Specifier]) -> bool
    ensures { result ≡ declare_tag (specifier_list_of (map specifier_seen list.now)) }
{
    for specifier in list {
        if is_tag(&specifier.form) {
            return true;
        }
    }
    false
}

/// Whether the specifier is a structure or union with a tag, or an enumeration.
fn is_tag(form: &SpecifierForm) -> bool
    ensures { (line : _) → result ≡ tags (specifier_form_seen form.now line) }
{
    match form {
        SpecifierForm::Record { tag, .. } => tag.is_some(),
        SpecifierForm::RecordTag { .. } | SpecifierForm::Enum { .. } | SpecifierForm::EnumTag(_) =>
            true,
        SpecifierForm::Storage(_)
        | SpecifierForm::Qualifier(_)
        | SpecifierForm::Basic(_)
        | SpecifierForm::Named(_) => false,
    }
}

/// Whether the declaration declares a name, a tag or an enumerator (C89 3.5).
pub fn declares_something(d: &Declaration) -> bool
    ensures { result ≡ something (declaration_seen d.now) }
{
    !d.declarators.is_empty() || declares_tag(&d.specifiers)
}

/// A declaration, checked: what `check_declaration` gives, with a contract that walks around it go on from.
pub fn declaration(
    alloc: Global,
    scopes: &mut Scopes,
    types: &mut TypeTable,
    d: &Declaration,
) -> Result<Declares, CheckFault>
    requires { AreSymbolsIn (length types.old.forms) scopes.old.symbols }
    ensures { Walks declares_in AreDeclaredIn (declaration_in scopes.old types.old (declaration_seen d.now)) scopes.old types.old scopes.new types.new result }
{
    let list = d.declarators.as_slice();
    let base = own_specifiers(alloc, scopes, types, &d.specifiers, list)?;
    let all = inits(alloc, scopes, types, d.line, &base, list)?;
    if !declares_something(d) {
        let line = d.line;
        return Err(CheckFault::Constraint { number: 4, line });
    }
    Ok(all)
}
