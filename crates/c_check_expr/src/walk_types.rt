//! The walk over type names and specifiers (C89 3.5.2, 3.5.3, 3.5.5).
ghost use Rattle.std.specs.Prelude.{◌≡◌, ◌<◌, ◌∷◌, [], pos, true, length, map};
ghost use Rattle.c_ast.specs.Trees as tree;
ghost use Rattle.c_ast.specs.Views.{enumerators_of, fields_of, members_of, specifier_list_of};
ghost use Rattle.c_ast.specs.Seen.{enumerator_seen, field_seen, maybe_declarator_seen, member_seen, specifier_seen, specifiers_seen, type_name_seen};
ghost use Rattle.c_types.specs.Table.{AreMembersBelow, type_at};
ghost use Rattle.c_meaning.specs.Nodes as node;
ghost use Rattle.c_meaning.specs.State.{place_of};
ghost use Rattle.c_meaning.specs.Typing.{named_type};
ghost use Rattle.c_check_expr.specs.Known.{AreSymbolsIn, state_of};
ghost use Rattle.c_check_expr.specs.PartsSeen.{ArePartsIn, IsPartIn, part_seen, parts_seen, shaped_seen, specified_seen};
ghost use Rattle.c_check_expr.specs.TypedIn.{enumerator_in, enumerators_in, field_in, fields_in, member_in, members_in, name_in, part_in, parts_in, shape_in, specifiers_in};
ghost use Rattle.c_check_expr.specs.Walks.{IsAnyNumber, IsBelow, IsShapeIn, IsSpecifiedIn, Walks, members as members_at, next_number};

use crate::member_list::MemberList;
use crate::parts::{Part, Shaped, Specified};
use crate::specifiers::specified;
use crate::tags::{OpenRecord, symbol_type};
use crate::walk_declarators::declarator;
use crate::walk_expr::maybe_expression;
use crate::{declarators, members, tags};
use c_ast::{
    Declarator, Enumerator, Member, MemberDeclarator, RecordKind, Specifier, SpecifierForm,
    Specifiers, TypeName,
};
use c_symbols::Scopes;
use c_types::{TypeId, TypeTable};
use c_values::CheckFault;
use c_values::basic_places::INT;
use lcc_base::{Bytes, Items};
use std::alloc::Global;

/// A type's name.
#[cycle(walk)]
pub(crate) fn type_name(
    alloc: Global,
    scopes: &mut Scopes,
    types: &mut TypeTable,
    name: &TypeName,
) -> Result<TypeId, CheckFault>
    requires { AreSymbolsIn (length types.old.forms) scopes.old.symbols }
    ensures { Walks type_at IsBelow (name_in scopes.old types.old (type_name_seen name.now)) scopes.old types.old scopes.new types.new result }
{
    let base = specifiers(alloc, scopes, types, &name.specifiers)?;
    let shape = shape(alloc, scopes, types, base.of, &name.declarator)?;
    Ok(shape.of)
}

/// A declarator that may be left out, over the type of the specifiers.
#[cycle(walk)]
pub(crate) fn shape(
    alloc: Global,
    scopes: &mut Scopes,
    types: &mut TypeTable,
    base: TypeId,
    d: &Option<Declarator>,
) -> Result<Shaped, CheckFault>
    requires symbols { AreSymbolsIn (length types.old.forms) scopes.old.symbols }
    requires base { base < length types.old.forms }
    ensures { Walks shaped_seen IsShapeIn (shape_in scopes.old types.old base (maybe_declarator_seen d.now)) scopes.old types.old scopes.new types.new result }
{
    match d {
        Some(d) => {
            let steps = declarator(alloc, scopes, types, d)?;
            declarators::shape(alloc, types, base, steps)
        }
        None => Ok(Shaped {
            name: None,
            of: base,
        }),
    }
}

/// Specifiers.
#[cycle(walk)]
pub fn specifiers(
    alloc: Global,
    scopes: &mut Scopes,
    types: &mut TypeTable,
    specifiers: &Specifiers,
) -> Result<Specified, CheckFault>
    requires { AreSymbolsIn (length types.old.forms) scopes.old.symbols }
    ensures { Walks specified_seen IsSpecifiedIn (specifiers_in scopes.old types.old (specifiers_seen specifiers.now)) scopes.old types.old scopes.new types.new result }
{
    let parts = parts(alloc, scopes, types, specifiers.list.as_slice())?;
    specified(alloc, types, specifiers.line, parts.as_slice())
}

/// What stands in specifiers, one behind the other.
#[cycle(walk)]
fn parts(
    alloc: Global,
    scopes: &mut Scopes,
    types: &mut TypeTable,
    list: &[Specifier],
) -> Result<Items<Part>, CheckFault>
    requires { AreSymbolsIn (length types.old.forms) scopes.old.symbols }
    ensures { Walks parts_seen ArePartsIn (parts_in scopes.old types.old (specifier_list_of (map specifier_seen list.now))) scopes.old types.old scopes.new types.new result }
{
    let mut all = Items::with_capacity(alloc, list.len())?;
    for specifier in list {
        let found = part(alloc, scopes, types, specifier)?;
        all.push(found)?;
    }
    Ok(all)
}

/// A specifier.
#[cycle(walk)]
fn part(
    alloc: Global,
    scopes: &mut Scopes,
    types: &mut TypeTable,
    specifier: &Specifier,
) -> Result<Part, CheckFault>
    requires { AreSymbolsIn (length types.old.forms) scopes.old.symbols }
    ensures { Walks part_seen IsPartIn (part_in scopes.old types.old (specifier_seen specifier.now)) scopes.old types.old scopes.new types.new result }
{
    let line = specifier.line;
    match &specifier.form {
        SpecifierForm::Storage(class) => Ok(Part::Stored(*class)),
        SpecifierForm::Qualifier(qualifier) => Ok(Part::Qualified(*qualifier)),
        SpecifierForm::Basic(word) => Ok(Part::Word(*word)),
        SpecifierForm::Record { kind, tag, members } => {
            record(alloc, scopes, types, (line, *kind), tag, members.as_slice())
        }
        SpecifierForm::RecordTag { kind, tag } => {
            let of = tags::record_tag(alloc, scopes, types, line, *kind, tag.as_slice())?;
            Ok(Part::Whole(of))
        }
        SpecifierForm::Enum {
            tag,
            enumerators,
            ..
        } => enumeration(alloc, scopes, types, line, tag, enumerators.as_slice()),
        SpecifierForm::EnumTag(tag) => {
            let of = tags::enumeration_tag(alloc, scopes, types, line, tag.as_slice())?;
            Ok(Part::Whole(of))
        }
        SpecifierForm::Named(name) => Ok(Part::Whole(typedef_type(scopes, types, name.as_slice()))),
    }
}

/// The type that a typedef name names.
fn typedef_type(scopes: &Scopes, types: &TypeTable, name: &[u8]) -> TypeId
    requires { AreSymbolsIn (length types.now.forms) scopes.now.symbols }
    ensures means { type_at types.now result ≡ named_type (state_of scopes.now types.now) (place_of (state_of scopes.now types.now) name.now) }
    ensures within { result < length types.now.forms }
{
    match scopes.find(name) {
        Some(id) => symbol_type(scopes, types, id),
        None => types.basic_type(INT),
    }
}

/// A structure or union with its members.
#[cycle(walk)]
fn record(
    alloc: Global,
    scopes: &mut Scopes,
    types: &mut TypeTable,
    start: (u32, RecordKind),
    tag: &Option<Bytes>,
    list: &[Member],
) -> Result<Part, CheckFault>
    requires { AreSymbolsIn (length types.old.forms) scopes.old.symbols }
    ensures { Walks part_seen IsPartIn (part_in scopes.old types.old (tree.Record start.0 start.1 tag.now (members_of (map member_seen list.now)))) scopes.old types.old scopes.new types.new result }
{
    let (line, kind) = start;
    let id = tags::open_record(alloc, scopes, types, line, kind, tag)?;
    let members = member_lines(alloc, scopes, types, list)?;
    let begun = OpenRecord { line, kind, id };
    let of = tags::complete_record(alloc, scopes, types, tag, begun, members.into_members())?;
    Ok(Part::Whole(of))
}

/// The members of a structure or union.
#[cycle(walk)]
fn member_lines(
    alloc: Global,
    scopes: &mut Scopes,
    types: &mut TypeTable,
    list: &[Member],
) -> Result<MemberList, CheckFault>
    requires { AreSymbolsIn (length types.old.forms) scopes.old.symbols }
    ensures { Walks members_at AreMembersBelow (members_in scopes.old types.old [] (members_of (map member_seen list.now))) scopes.old types.old scopes.new types.new result }
{
    let mut all = MemberList::new(alloc);
    for m in list {
        all = member_line(alloc, scopes, types, all, m)?;
    }
    Ok(all)
}

/// A line of members behind others.
#[cycle(walk)]
fn member_line(
    alloc: Global,
    scopes: &mut Scopes,
    types: &mut TypeTable,
    before: MemberList,
    m: &Member,
) -> Result<MemberList, CheckFault>
    requires symbols { AreSymbolsIn (length types.old.forms) scopes.old.symbols }
    requires before { AreMembersBelow (length types.old.forms) before }
    ensures { Walks members_at AreMembersBelow (member_in scopes.old types.old before (member_seen m.now)) scopes.old types.old scopes.new types.new result }
{
    let base = specifiers_behind(alloc, scopes, types, &before, &m.specifiers)?;
    fields(
        alloc,
        scopes,
        types,
        before,
        base.of,
        m.declarators.as_slice(),
    )
}

/// Specifiers behind members, whose types stay in the table.
#[cycle(walk)]
fn specifiers_behind(
    alloc: Global,
    scopes: &mut Scopes,
    types: &mut TypeTable,
    before: &MemberList,
    list: &Specifiers,
) -> Result<Specified, CheckFault>
    requires symbols { AreSymbolsIn (length types.old.forms) scopes.old.symbols }
    requires before { AreMembersBelow (length types.old.forms) before.now }
    ensures walk { Walks specified_seen IsSpecifiedIn (specifiers_in scopes.old types.old (specifiers_seen list.now)) scopes.old types.old scopes.new types.new result }
    ensures before { AreMembersBelow (length types.new.forms) before.now }
{
    specifiers(alloc, scopes, types, list)
}

/// Members of the same specifiers, behind others.
#[cycle(walk)]
fn fields(
    alloc: Global,
    scopes: &mut Scopes,
    types: &mut TypeTable,
    before: MemberList,
    base: TypeId,
    list: &[MemberDeclarator],
) -> Result<MemberList, CheckFault>
    requires symbols { AreSymbolsIn (length types.old.forms) scopes.old.symbols }
    requires before { AreMembersBelow (length types.old.forms) before }
    requires base { base < length types.old.forms }
    ensures { Walks members_at AreMembersBelow (fields_in scopes.old types.old before base (fields_of (map field_seen list.now))) scopes.old types.old scopes.new types.new result }
{
    let mut all = before;
    for f in list {
        all = field(alloc, scopes, types, all, base, f)?;
    }
    Ok(all)
}

/// A member behind others.
#[cycle(walk)]
fn field(
    alloc: Global,
    scopes: &mut Scopes,
    types: &mut TypeTable,
    before: MemberList,
    base: TypeId,
    f: &MemberDeclarator,
) -> Result<MemberList, CheckFault>
    requires symbols { AreSymbolsIn (length types.old.forms) scopes.old.symbols }
    requires before { AreMembersBelow (length types.old.forms) before }
    requires base { base < length types.old.forms }
    ensures { Walks members_at AreMembersBelow (field_in scopes.old types.old before base (field_seen f.now)) scopes.old types.old scopes.new types.new result }
{
    let shape = shape(alloc, scopes, types, base, &f.declarator)?;
    let width = maybe_expression(alloc, scopes, types, &f.width)?;
    let mut all = before;
    members::field(types, f.line, &mut all, shape, width)?;
    Ok(all)
}

/// Enumerators so far, and the value that the next one has where none is written.
#[derive(Drop)]
pub(crate) struct EnumeratorList {
    list: Items<c_types::Enumerator>,
    next: i64,
}

/// An enumeration with its enumerators.
#[cycle(walk)]
fn enumeration(
    alloc: Global,
    scopes: &mut Scopes,
    types: &mut TypeTable,
    line: u32,
    tag: &Option<Bytes>,
    list: &[Enumerator],
) -> Result<Part, CheckFault>
    requires { AreSymbolsIn (length types.old.forms) scopes.old.symbols }
    ensures { Walks part_seen IsPartIn (part_in scopes.old types.old (tree.Enum line tag.now (enumerators_of (map enumerator_seen list.now)) true)) scopes.old types.old scopes.new types.new result }
{
    tags::open_enumeration(alloc, scopes, types, line, tag)?;
    let all = enumerators(alloc, scopes, types, list)?;
    let of = tags::enumeration(alloc, scopes, types, line, tag, all.list)?;
    Ok(Part::Whole(of))
}

/// The enumerators of an enumeration.
#[cycle(walk)]
fn enumerators(
    alloc: Global,
    scopes: &mut Scopes,
    types: &mut TypeTable,
    list: &[Enumerator],
) -> Result<EnumeratorList, CheckFault>
    requires { AreSymbolsIn (length types.old.forms) scopes.old.symbols }
    ensures { Walks next_number IsAnyNumber (enumerators_in scopes.old types.old (pos 0) (enumerators_of (map enumerator_seen list.now))) scopes.old types.old scopes.new types.new result }
{
    let mut all = EnumeratorList {
        list: Items::with_capacity(alloc, list.len())?,
        next: 0,
    };
    for e in list {
        all = enumerator(alloc, scopes, types, all, e)?;
    }
    Ok(all)
}

/// An enumerator behind others.
#[cycle(walk)]
fn enumerator(
    alloc: Global,
    scopes: &mut Scopes,
    types: &mut TypeTable,
    before: EnumeratorList,
    e: &Enumerator,
) -> Result<EnumeratorList, CheckFault>
    requires { AreSymbolsIn (length types.old.forms) scopes.old.symbols }
    ensures { Walks next_number IsAnyNumber (enumerator_in scopes.old types.old before.next (enumerator_seen e.now)) scopes.old types.old scopes.new types.new result }
{
    let value = maybe_expression(alloc, scopes, types, &e.value)?;
    let z = members::enumerator(scopes, types, e.line, e.name.as_slice(), value, before.next)?;
    let mut list = before.list;
    list.push(c_types::Enumerator {
        name: Bytes::copied(alloc, e.name.as_slice())?,
        value: z,
    })?;
    Ok(EnumeratorList {
        list,
        next: i64::from(z) + 1,
    })
}
