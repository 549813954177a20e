//! The specifiers of a declaration: a tag that stands alone, and storage classes at file scope (C89 3.5, 3.5.2.3, 3.7).
ghost use Rattle.std.specs.Prelude.{◌≡◌, false, length, map, IfNone, IfSome};
ghost use Rattle.c_ast.specs.Trees.{NoSpecifiers, RecordTag, Specifiers as MoreSpecifiers};
ghost use Rattle.c_ast.specs.Views.{specifier_list_of};
ghost use Rattle.c_ast.specs.Seen.{specifier_seen, specifiers_seen};
ghost use Rattle.c_ast.specs.SeenUnits.{init_seen};
ghost use Rattle.c_types.specs.Table.{type_at};
ghost use Rattle.c_meaning.specs.Declarations.{is_inner_class as stays_inside};
ghost use Rattle.c_meaning.specs.Declaring.{typed_alone};
ghost use Rattle.c_check_expr.specs.Known.{AreSymbolsIn, state_of};
ghost use Rattle.c_check_expr.specs.PartsSeen.{specified_seen};
ghost use Rattle.c_check_expr.specs.Walks.{IsBelow, IsSpecifiedIn, Walks};
ghost use Rattle.c_check_decl.specs.DeclaredIn.{inside_in, own_specifiers_in};
ghost use Rattle.c_check_decl.specs.LoneTags.{is_lone_tag, lone_tag_in};

use crate::linkage::is_outside;
use c_ast::{InitDeclarator, RecordKind, Specifier, SpecifierForm, Specifiers, Storage};
use c_check_expr::pieces::{
    Part, Specified, is_of_kind, new_tag, record_form, specified, specifiers, symbol_type, tag_key,
};
use c_symbols::Scopes;
use c_types::{TypeId, TypeTable};
use c_values::CheckFault;
use std::alloc::Global;

/// Whether the first storage class means nothing at file scope.
pub fn is_inner_class(classes: &[Storage]) -> bool
    ensures { result ≡ stays_inside classes.now }
{
    matches!(classes.first(), Some(Storage::Auto | Storage::Register))
}

/// A tag of a structure or union that stands alone, as in `struct s;`: the innermost scope's, or a new one
/// there, whatever the scopes around have.
fn lone_tag(
    alloc: Global,
    scopes: &mut Scopes,
    types: &mut TypeTable,
    line: u32,
    kind: RecordKind,
    tag: &[u8],
) -> Result<TypeId, CheckFault>
    requires { AreSymbolsIn (length types.old.forms) scopes.old.symbols }
    ensures { Walks type_at IsBelow (lone_tag_in scopes.old types.old line kind tag.now) scopes.old types.old scopes.new types.new result }
{
    let key = tag_key(alloc, tag)?;
    let Some(id) = scopes.find_here(&key) else {
        return Ok(new_tag(scopes, types, line, &key, record_form(kind), None)?);
    };
    let of = symbol_type(scopes, types, id);
    if is_of_kind(types, kind, of) {
        Ok(of)
    } else {
        Err(CheckFault::Constraint { number: 8, line })
    }
}

/// A tag of a structure or union that stands alone, in specifiers on this line.
fn alone(
    alloc: Global,
    scopes: &mut Scopes,
    types: &mut TypeTable,
    line: u32,
    tag: (u32, RecordKind),
    name: &[u8],
) -> Result<Specified, CheckFault>
    requires { AreSymbolsIn (length types.old.forms) scopes.old.symbols }
    ensures { Walks specified_seen IsSpecifiedIn (typed_alone (state_of scopes.old types.old) line tag.0 tag.1 name.now) scopes.old types.old scopes.new types.new result }
{
    let of = lone_tag(alloc, scopes, types, tag.0, tag.1, name)?;
    specified(alloc, types, line, &[Part::Whole(of)])
}

/// The tag of a structure or union that specifiers consist of, if they are nothing else: its line, its kind
/// and its bytes.
fn lone_record(list: &[Specifier]) -> Option<(u32, RecordKind, &[u8])>
    ensures some { IfSome result (λ r. specifier_list_of (map specifier_seen list.now) ≡ MoreSpecifiers (RecordTag r.0 r.1 r.2.now) NoSpecifiers) }
    ensures none { IfNone result (is_lone_tag (specifier_list_of (map specifier_seen list.now)) ≡ false) }
{
    if list.len() != 1 {
        return None;
    }
    match &list[0].form {
        SpecifierForm::RecordTag { kind, tag } => Some((list[0].line, *kind, tag.as_slice())),
        SpecifierForm::Storage(_)
        | SpecifierForm::Qualifier(_)
        | SpecifierForm::Basic(_)
        | SpecifierForm::Record { .. }
        | SpecifierForm::Enum { .. }
        | SpecifierForm::EnumTag(_)
        | SpecifierForm::Named(_) => None,
    }
}

/// The specifiers before these declarators, checked: the storage classes and the type. Where there is no
/// declarator, a tag of a structure or union that is all of them means the innermost scope's, or a new one
/// there (C89 3.5.2.3).
pub fn inside(
    alloc: Global,
    scopes: &mut Scopes,
    types: &mut TypeTable,
    list: &Specifiers,
    declarators: &[InitDeclarator],
) -> Result<Specified, CheckFault>
    requires { AreSymbolsIn (length types.old.forms) scopes.old.symbols }
    ensures { Walks specified_seen IsSpecifiedIn (inside_in scopes.old types.old (specifiers_seen list.now) (map init_seen declarators.now)) scopes.old types.old scopes.new types.new result }
{
    if !declarators.is_empty() {
        return specifiers(alloc, scopes, types, list);
    }
    match lone_record(list.list.as_slice()) {
        Some((line, kind, tag)) => alone(alloc, scopes, types, list.line, (line, kind), tag),
        None => specifiers(alloc, scopes, types, list),
    }
}

/// The specifiers of a declaration with these declarators, checked: what `inside` gives, where at file scope
/// `auto` and `register` break constraint 3 (C89 3.7).
pub fn own_specifiers(
    alloc: Global,
    scopes: &mut Scopes,
    types: &mut TypeTable,
    list: &Specifiers,
    declarators: &[InitDeclarator],
) -> Result<Specified, CheckFault>
    requires { AreSymbolsIn (length types.old.forms) scopes.old.symbols }
    ensures { Walks specified_seen IsSpecifiedIn (own_specifiers_in scopes.old types.old (specifiers_seen list.now) (map init_seen declarators.now)) scopes.old types.old scopes.new types.new result }
{
    let base = inside(alloc, scopes, types, list, declarators)?;
    if is_outside(scopes) && is_inner_class(base.classes.as_slice()) {
        let line = list.line;
        return Err(CheckFault::Constraint { number: 3, line });
    }
    Ok(base)
}
