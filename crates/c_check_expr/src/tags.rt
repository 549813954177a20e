//! Nodes of structures, unions and enumerations, and what their tags mean (C89 3.5.2.1 to 3.5.2.3).
ghost use Rattle.std.specs.Prelude.{ℕ, ◌≡◌, ◌≢◌, ◌<◌, pos, true, false, List, Some, None, is_some, length, IfSome, IfNone, IfOk, IfErr, OnOk};
ghost use Rattle.c_symbols.specs.Scoping.{Scoping, symbol_named};
ghost use Rattle.c_types.specs.BitFields.{are_fields};
ghost use Rattle.c_types.specs.CType.{CType};
ghost use Rattle.c_types.specs.Layout.{MemberType};
ghost use Rattle.c_types.specs.Table.{AreMembersBelow, Extends, Table, formed, is_tagged, member_types, tagged as count, tags, type_at, types as table_types};
ghost use Rattle.c_meaning.specs.Nodes as node;
ghost use Rattle.c_meaning.specs.State.{counted, declared, known_at, replaced};
ghost use Rattle.c_meaning.specs.TypeConstraints.{is_enumeration as enumerates, is_of_kind as is_of, misuses_tag};
ghost use Rattle.c_meaning.specs.TypeRows.{awaited, enumerated, enumeration_type, named, number_of, opened, record_type, tag_key as key_of, tagged};
ghost use Rattle.c_meaning.specs.Typing.{Fine, at_record, at_tag};
ghost use Rattle.c_values.specs.declared.check_fault.CheckFault.TheVariants.{Constraint, Memory as NoMemory};
ghost use Rattle.c_check_expr.specs.AtNode.{Tells};
ghost use Rattle.c_check_expr.specs.Completed.{IsPassed, IsRecordAt, record_limit, record_tags};
ghost use Rattle.c_check_expr.specs.Listed.{is_listed};
ghost use Rattle.c_check_expr.specs.Keeps.{Keeps};
ghost use Rattle.c_check_expr.specs.Known.{AreSymbolsIn, state_of};

use crate::declaring::{declare, level};
use c_ast::RecordKind;
use c_symbols::{Scopes, Storage, Symbol, SymbolId};
use c_types::{Enumerator, Member, TypeFault, TypeForm, TypeId, TypeTable};
use c_values::CheckFault;
use c_values::basic_places::INT;
use lcc_base::{Bytes, Items, Memory, Which};
use std::alloc::Global;

/// A structure or union whose members come, on its line.
#[derive(Clone, Copy, Debug)]
pub(crate) struct OpenRecord {
    pub(crate) line: u32,
    pub(crate) kind: RecordKind,
    pub(crate) id: TypeId,
}

/// The name under which a tag stands among the names: with a blank before it, as no other name.
pub fn tag_key(alloc: Global, tag: &[u8]) -> Result<Vec<u8>, Memory>
    ensures { IfOk result (λ key. key.items ≡ key_of tag.now) }
{
    let mut key = Vec::new(alloc);
    key.push(b' ')?;
    key.extend_from_slice(tag)?;
    Ok(key)
}

/// The type that a symbol was declared as. Each name's symbol was declared; of another it is int.
pub fn symbol_type(scopes: &Scopes, types: &TypeTable, id: SymbolId) -> TypeId
    requires { AreSymbolsIn (length types.now.forms) scopes.now.symbols }
    ensures means { type_at types.now result ≡ (known_at (state_of scopes.now types.now) id).of }
    ensures within { result < length types.now.forms }
{
    if id < scopes.count() {
        scopes.symbol(id).of
    } else {
        types.basic_type(INT)
    }
}

/// Whether the list of the enumeration that the symbol stands for has stood.
fn has_stood(scopes: &Scopes, id: SymbolId) -> bool
    ensures { (t : Table) → result ≡ is_some (known_at (state_of scopes.now t) id).value }
{
    id < scopes.count() && scopes.symbol(id).value.is_some()
}

/// Whether the type is a structure, or a union, as asked.
pub fn is_of_kind(types: &TypeTable, kind: RecordKind, id: TypeId) -> bool
    requires { id < length types.now.forms }
    ensures { result ≡ is_of kind (type_at types.now id) }
{
    let (base, _) = types.unqualified(id);
    match types.form(base) {
        TypeForm::Structure => kind == RecordKind::Struct,
        TypeForm::Union => kind == RecordKind::Union,
        _ => false,
    }
}

/// Whether the type is an enumeration.
fn is_enumeration(types: &TypeTable, id: TypeId) -> bool
    requires { id < length types.now.forms }
    ensures { result ≡ enumerates (type_at types.now id) }
{
    let (base, _) = types.unqualified(id);
    matches!(types.form(base), TypeForm::Enumeration { .. })
}

/// The form of a structure or a union.
pub fn record_form(kind: RecordKind) -> TypeForm
    ensures tagged { is_tagged result ≡ true }
    ensures means { (known : List CType) → (n : ℕ) → formed known n result ≡ record_type kind n }
{
    match kind {
        RecordKind::Struct => TypeForm::Structure,
        RecordKind::Union => TypeForm::Union,
    }
}

/// A new structure, union or enumeration, which passes no limit.
fn add_tagged(types: &mut TypeTable, form: TypeForm) -> Result<TypeId, Memory>
    requires { is_tagged form ≡ true }
    ensures means { IfOk result (λ id. type_at types.new id ≡ formed (table_types types.old) (count types.old.forms) form) }
    ensures within { IfOk result (λ id. id < length types.new.forms) }
    ensures state { OnOk result ((s : Scoping) → AreSymbolsIn (length types.old.forms) s.symbols → state_of s types.new ≡ counted (state_of s types.old)) }
    ensures extends { Extends types.old types.new }
{
    match types.add(form) {
        Ok(id) => Ok(id),
        Err(_) => Err(Memory),
    }
}

/// A new structure, union or enumeration, under a name that the innermost scope doesn't have.
pub fn new_tag(
    scopes: &mut Scopes,
    types: &mut TypeTable,
    line: u32,
    key: &[u8],
    form: TypeForm,
    value: Option<i64>,
) -> Result<TypeId, Memory>
    requires symbols { AreSymbolsIn (length types.old.forms) scopes.old.symbols }
    requires absent { symbol_named scopes.old.inner key.now ≡ None }
    requires tagged { is_tagged form ≡ true }
    ensures means { IfOk result (λ id. type_at types.new id ≡ formed (table_types types.old) (count types.old.forms) form) }
    ensures within { IfOk result (λ id. id < length types.new.forms) }
    ensures state { IfOk result (λ id. state_of scopes.new types.new ≡ declared (counted (state_of scopes.old types.old)) key.now (tagged line (length scopes.old.outer) (type_at types.new id) value)) }
    ensures keeps { Keeps scopes.old types.old scopes.new types.new }
{
    let level = level(scopes)?;
    let of = add_tagged(types, form)?;
    let symbol = Symbol {
        class: Storage::Tag,
        of,
        line,
        level,
        value,
    };
    declare(scopes, types, key, symbol)?;
    Ok(of)
}

/// A structure or union by its tag.
pub(crate) fn record_tag(
    alloc: Global,
    scopes: &mut Scopes,
    types: &mut TypeTable,
    line: u32,
    kind: RecordKind,
    tag: &[u8],
) -> Result<TypeId, CheckFault>
    requires { AreSymbolsIn (length types.old.forms) scopes.old.symbols }
    ensures ok { IfOk result (λ id. at_tag (state_of scopes.old types.old) line (node.RecordTag kind tag.now) (named (state_of scopes.old types.old) line tag.now (record_type kind (state_of scopes.old types.old).count)) ≡ Fine (state_of scopes.new types.new) (node.Whole (type_at types.new id))) }
    ensures err { IfErr result (λ e. Tells e (at_tag (state_of scopes.old types.old) line (node.RecordTag kind tag.now) (named (state_of scopes.old types.old) line tag.now (record_type kind (state_of scopes.old types.old).count)))) }
    ensures within { IfOk result (λ id. id < length types.new.forms) }
    ensures keeps { Keeps scopes.old types.old scopes.new types.new }
{
    let key = tag_key(alloc, tag)?;
    let Some(id) = scopes.find(&key) else {
        return Ok(new_tag(scopes, types, line, &key, record_form(kind), None)?);
    };
    let of = symbol_type(scopes, types, id);
    if is_of_kind(types, kind, of) {
        Ok(of)
    } else {
        Err(CheckFault::Constraint { number: 8, line })
    }
}

/// An enumeration by its tag.
pub(crate) fn enumeration_tag(
    alloc: Global,
    scopes: &mut Scopes,
    types: &mut TypeTable,
    line: u32,
    tag: &[u8],
) -> Result<TypeId, CheckFault>
    requires { AreSymbolsIn (length types.old.forms) scopes.old.symbols }
    ensures ok { IfOk result (λ id. at_tag (state_of scopes.old types.old) line (node.EnumerationTag tag.now) (named (state_of scopes.old types.old) line tag.now (enumeration_type (state_of scopes.old types.old).count)) ≡ Fine (state_of scopes.new types.new) (node.Whole (type_at types.new id))) }
    ensures err { IfErr result (λ e. Tells e (at_tag (state_of scopes.old types.old) line (node.EnumerationTag tag.now) (named (state_of scopes.old types.old) line tag.now (enumeration_type (state_of scopes.old types.old).count)))) }
    ensures within { IfOk result (λ id. id < length types.new.forms) }
    ensures keeps { Keeps scopes.old types.old scopes.new types.new }
{
    let key = tag_key(alloc, tag)?;
    let Some(id) = scopes.find(&key) else {
        let form = TypeForm::Enumeration {
            members: Items::new(alloc),
        };
        return Ok(new_tag(scopes, types, line, &key, form, None)?);
    };
    let of = symbol_type(scopes, types, id);
    if is_enumeration(types, of) {
        Ok(of)
    } else {
        Err(CheckFault::Constraint { number: 8, line })
    }
}

/// Puts the tag of an enumeration in force before its list: where the innermost scope doesn't have it,
/// it means a whole type without enumerators there.
pub(crate) fn open_enumeration(
    alloc: Global,
    scopes: &mut Scopes,
    types: &mut TypeTable,
    line: u32,
    tag: &Option<Bytes>,
) -> Result<(), Memory>
    requires { AreSymbolsIn (length types.old.forms) scopes.old.symbols }
    ensures state { OnOk result (state_of scopes.new types.new ≡ awaited (state_of scopes.old types.old) line tag.now) }
    ensures keeps { Keeps scopes.old types.old scopes.new types.new }
{
    let Some(tag) = tag else {
        return Ok(());
    };
    let key = tag_key(alloc, tag.as_slice())?;
    match scopes.find_here(&key) {
        None => {
            let form = TypeForm::Enumeration {
                members: Items::new(alloc),
            };
            new_tag(scopes, types, line, &key, form, None)?;
            Ok(())
        }
        Some(_) => Ok(()),
    }
}

/// An enumeration with its enumerators, whose tag the innermost scope has.
fn listed(
    scopes: &mut Scopes,
    types: &mut TypeTable,
    line: u32,
    id: SymbolId,
    form: TypeForm,
) -> Result<TypeId, CheckFault>
    requires symbols { AreSymbolsIn (length types.old.forms) scopes.old.symbols }
    requires tagged { is_tagged form ≡ true }
    ensures ok { OnOk result (is_listed (state_of scopes.old types.old) id ≡ false) }
    ensures state { IfOk result (λ of. state_of scopes.new types.new ≡ replaced (counted (state_of scopes.old types.old)) id (tagged line (length scopes.old.outer) (type_at types.new of) (Some (pos 0)))) }
    ensures means { IfOk result (λ of. type_at types.new of ≡ formed (table_types types.old) (count types.old.forms) form) }
    ensures within { IfOk result (λ of. of < length types.new.forms) }
    ensures err { IfErr result (λ e. e ≢ NoMemory → (is_listed (state_of scopes.old types.old) id ≡ true) × (e ≡ Constraint 8 line)) }
    ensures keeps { Keeps scopes.old types.old scopes.new types.new }
{
    let before = symbol_type(scopes, types, id);
    if !is_enumeration(types, before) || has_stood(scopes, id) {
        return Err(CheckFault::Constraint { number: 8, line });
    }
    let level = level(scopes)?;
    let of = add_tagged(types, form)?;
    let symbol = Symbol {
        class: Storage::Tag,
        of,
        line,
        level,
        value: Some(0),
    };
    scopes.replace(id, symbol);
    Ok(of)
}

/// An enumeration with its enumerators, which stand in the scopes.
pub(crate) fn enumeration(
    alloc: Global,
    scopes: &mut Scopes,
    types: &mut TypeTable,
    line: u32,
    tag: &Option<Bytes>,
    enumerators: Items<Enumerator>,
) -> Result<TypeId, CheckFault>
    requires { AreSymbolsIn (length types.old.forms) scopes.old.symbols }
    ensures ok { IfOk result (λ id. at_tag (state_of scopes.old types.old) line (node.Enumeration tag.now) (enumerated (state_of scopes.old types.old) line tag.now) ≡ Fine (state_of scopes.new types.new) (node.Whole (type_at types.new id))) }
    ensures err { IfErr result (λ e. Tells e (at_tag (state_of scopes.old types.old) line (node.Enumeration tag.now) (enumerated (state_of scopes.old types.old) line tag.now))) }
    ensures within { IfOk result (λ id. id < length types.new.forms) }
    ensures keeps { Keeps scopes.old types.old scopes.new types.new }
{
    let form = TypeForm::Enumeration {
        members: enumerators,
    };
    let Some(tag) = tag else {
        return Ok(add_tagged(types, form)?);
    };
    let key = tag_key(alloc, tag.as_slice())?;
    match scopes.find_here(&key) {
        None => Ok(new_tag(scopes, types, line, &key, form, Some(0))?),
        Some(id) => listed(scopes, types, line, id, form),
    }
}

/// The structure or union whose members come: the innermost scope's of this tag, or else a new one.
pub(crate) fn open_record(
    alloc: Global,
    scopes: &mut Scopes,
    types: &mut TypeTable,
    line: u32,
    kind: RecordKind,
    tag: &Option<Bytes>,
) -> Result<TypeId, Memory>
    requires { AreSymbolsIn (length types.old.forms) scopes.old.symbols }
    ensures state { OnOk result (state_of scopes.new types.new ≡ (opened (state_of scopes.old types.old) line kind tag.now).state) }
    ensures means { IfOk result (λ id. type_at types.new id ≡ (opened (state_of scopes.old types.old) line kind tag.now).of) }
    ensures within { IfOk result (λ id. id < length types.new.forms) }
    ensures keeps { Keeps scopes.old types.old scopes.new types.new }
{
    let Some(tag) = tag else {
        return add_tagged(types, record_form(kind));
    };
    let key = tag_key(alloc, tag.as_slice())?;
    match scopes.find_here(&key) {
        None => new_tag(scopes, types, line, &key, record_form(kind), None),
        Some(id) => Ok(symbol_type(scopes, types, id)),
    }
}

/// The place of a structure or union without qualifiers, if it is of this kind.
fn record_base(types: &TypeTable, kind: RecordKind, id: TypeId) -> Option<TypeId>
    requires { id < length types.now.forms }
    ensures some { IfSome result (λ base. IsRecordAt types.now kind id base) }
    ensures none { IfNone result (is_of kind (type_at types.now id) ≡ false) }
{
    let (base, _) = types.unqualified(id);
    // The form is named, so that the type at its place is known here.
    let _form = types.form(base);
    if is_of_kind(types, kind, id) {
        Some(base)
    } else {
        None
    }
}

/// Whether the tag stands in the innermost scope for another kind, or for what has its members.
fn is_misused(
    alloc: Global,
    scopes: &Scopes,
    types: &TypeTable,
    kind: RecordKind,
    tag: &Option<Bytes>,
) -> Result<bool, Memory>
    requires { AreSymbolsIn (length types.now.forms) scopes.now.symbols }
    ensures { IfOk result (λ b. (n : ℕ) → (ms : List MemberType) → b ≡ misuses_tag (state_of scopes.now types.now) (node.Record kind tag.now n ms)) }
{
    let Some(tag) = tag else {
        return Ok(false);
    };
    let key = tag_key(alloc, tag.as_slice())?;
    let Some(id) = scopes.find_here(&key) else {
        return Ok(false);
    };
    match record_base(types, kind, symbol_type(scopes, types, id)) {
        Some(base) => Ok(!types.is_open(base)),
        None => Ok(true),
    }
}

/// The structure or union that is open, with its members.
fn complete(
    types: &mut TypeTable,
    begun: OpenRecord,
    members: Items<Member>,
) -> Result<TypeId, CheckFault>
    requires begun { begun.id < length types.old.forms }
    requires members { AreMembersBelow (length types.old.forms) members }
    requires fields { are_fields (member_types (table_types types.old) members) ≡ true }
    ensures means { IfOk result (λ whole. type_at types.new whole ≡ record_type begun.kind (number_of (type_at types.old begun.id))) }
    ensures within { IfOk result (λ whole. whole < length types.new.forms) }
    ensures forms { OnOk result (types.new.forms ≡ types.old.forms) }
    ensures tags { OnOk result (tags types.new ≡ record_tags types.old begun.kind begun.id members) }
    ensures accepted { OnOk result (record_limit types.old begun.kind members ≡ None) }
    ensures err { IfErr result (λ e. IsPassed e begun.line (record_limit types.old begun.kind members)) }
    ensures extends { Extends types.old types.new }
{
    let Some(base) = record_base(types, begun.kind, begun.id) else {
        // A tag that another kind has was told; what was opened without one is of this kind.
        return Err(CheckFault::Memory);
    };
    if !types.is_open(base) {
        // A tag that was defined meanwhile was told; nothing else defines what was opened.
        return Err(CheckFault::Memory);
    }
    match types.complete(base, members) {
        Ok(()) => Ok(base),
        Err(TypeFault::TooLarge) => Err(CheckFault::Limit {
            which: Which::Object,
            line: begun.line,
        }),
        Err(TypeFault::TooDeep) => Err(CheckFault::Limit {
            which: Which::Depth,
            line: begun.line,
        }),
        // The members of a checked list are objects.
        Err(TypeFault::Incomplete | TypeFault::Memory) => Err(CheckFault::Memory),
    }
}

/// The structure or union that is open, with its members.
pub(crate) fn complete_record(
    alloc: Global,
    scopes: &mut Scopes,
    types: &mut TypeTable,
    tag: &Option<Bytes>,
    begun: OpenRecord,
    members: Items<Member>,
) -> Result<TypeId, CheckFault>
    requires symbols { AreSymbolsIn (length types.old.forms) scopes.old.symbols }
    requires begun { begun.id < length types.old.forms }
    requires members { AreMembersBelow (length types.old.forms) members }
    requires fields { are_fields (member_types (table_types types.old) members) ≡ true }
    ensures ok { IfOk result (λ whole. at_record (state_of scopes.old types.old) begun.line begun.kind tag.now (number_of (type_at types.old begun.id)) (member_types (table_types types.old) members) ≡ Fine (state_of scopes.new types.new) (node.Whole (type_at types.new whole))) }
    ensures err { IfErr result (λ e. Tells e (at_record (state_of scopes.old types.old) begun.line begun.kind tag.now (number_of (type_at types.old begun.id)) (member_types (table_types types.old) members))) }
    ensures within { IfOk result (λ whole. whole < length types.new.forms) }
    ensures keeps { Keeps scopes.old types.old scopes.new types.new }
{
    if is_misused(alloc, scopes, types, begun.kind, tag)? {
        return Err(CheckFault::Constraint {
            number: 8,
            line: begun.line,
        });
    }
    complete(types, begun, members)
}
