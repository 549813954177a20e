//! Nodes of members and enumerators (C89 3.5.2.1, 3.5.2.2).
ghost use Rattle.std.specs.Prelude.{◌≡◌, ◌<◌, ◌≤◌, ◌∷◌, ◌++◌, [], ◌≤ℤ◌, pos, negsuc, length, true, false, Some, IfSome, IfNone, IfOk, IfErr, OnOk, OnErr, List};
ghost use Rattle.c_types.specs.BitFields.{is_field_type as is_bits};
ghost use Rattle.c_types.specs.Layout.{MemberType};
ghost use Rattle.c_types.specs.Table.{AreMembersBelow, member_types, tags, type_at, types as table_types};
ghost use Rattle.c_meaning.specs.Nodes as node;
ghost use Rattle.c_meaning.specs.State.{State};
ghost use Rattle.c_meaning.specs.TypeConstraints.{is_bad_field, is_in_int, is_width, written_or as written_value};
ghost use Rattle.c_meaning.specs.TypeRows.{enumerator_value, field_width, member as row, with_enumerator};
ghost use Rattle.c_meaning.specs.Typing.{Fine, at};
ghost use Rattle.c_values.specs.declared.check_fault.CheckFault.TheVariants.{Constraint};
ghost use Rattle.c_check_expr.specs.AtNode.{Tells};
ghost use Rattle.c_check_expr.specs.Keeps.{Keeps};
ghost use Rattle.c_check_expr.specs.Known.{AreSymbolsIn, state_of};
ghost use Rattle.c_check_expr.specs.MemberNames.{is_repeated as repeats};
ghost use Rattle.c_check_expr.specs.PartsSeen.{IsSizeIn, size_seen};

use crate::declaring::{declare, level};
use crate::member_list::MemberList;
use crate::parts::Shaped;
use c_meaning::CoreExpr;
use c_symbols::{Scopes, Storage, Symbol};
use c_types::{TypeForm, TypeId, TypeTable};
use c_values::basic_places::INT;
use c_values::{CheckFault, constant_value};
use lcc_base::Bytes;

/// Whether a member has this name already.
fn is_repeated(members: &MemberList, name: &Option<Bytes>) -> bool
    ensures { result ≡ repeats members.now name.now }
{
    match name {
        Some(name) => members.has(name.as_slice()),
        None => false,
    }
}

/// Whether a bit-field can have the type: int or unsigned.
fn is_field_type(types: &TypeTable, id: TypeId) -> bool
    requires { id < length types.now.forms }
    ensures { result ≡ is_bits (type_at types.now id) }
{
    let (base, _) = types.unqualified(id);
    matches!(types.form(base), TypeForm::Int | TypeForm::Unsigned)
}

/// The value as a width, from 0 to 32, and 0 only where there is no name.
fn as_width(name: &Option<Bytes>, value: Option<i64>) -> Option<u8>
    ensures some { IfSome result (λ n. value ≡ Some (pos n)) }
    ensures held { IfSome result (λ n. is_width name.now value ≡ true) }
    ensures none { IfNone result (is_width name.now value ≡ false) }
{
    let width = u8::try_from(value?).ok()?;
    if width > 32 || (width == 0 && name.is_some()) {
        return None;
    }
    Some(width)
}

/// The bits of a member that is a bit-field.
fn field_bits(
    types: &TypeTable,
    line: u32,
    shape: &Shaped,
    width: &Option<CoreExpr>,
) -> Result<Option<u8>, CheckFault>
    requires of { shape.now.of < length types.now.forms }
    requires width { IsSizeIn (length types.now.forms) width.now }
    ensures ok { IfOk result (λ bits. bits ≡ field_width (size_seen types.now width.now)) }
    ensures good { OnOk result ((s : State) → (before : List MemberType) → is_bad_field s (node.Field before shape.now.name (type_at types.now shape.now.of) (size_seen types.now width.now)) ≡ false) }
    ensures err { IfErr result (λ e. e ≡ Constraint 11 line) }
    ensures bad { OnErr result ((s : State) → (before : List MemberType) → is_bad_field s (node.Field before shape.now.name (type_at types.now shape.now.of) (size_seen types.now width.now)) ≡ true) }
{
    let Some(written) = width else {
        return Ok(None);
    };
    let bits = as_width(&shape.name, constant_value(types, written));
    if bits.is_none() || !is_field_type(types, shape.of) {
        return Err(CheckFault::Constraint { number: 11, line });
    }
    Ok(bits)
}

/// A member behind others, with its width where it is a bit-field.
pub(crate) fn field(
    types: &TypeTable,
    line: u32,
    members: &mut MemberList,
    shape: Shaped,
    width: Option<CoreExpr>,
) -> Result<(), CheckFault>
    requires members { AreMembersBelow (length types.now.forms) members.old }
    requires of { shape.of < length types.now.forms }
    requires width { IsSizeIn (length types.now.forms) width }
    ensures ok { IfOk result (λ u. (s : State) → s.tags ≡ tags types.now → at s line (node.Typing (node.Field (member_types (table_types types.now) members.old) shape.name (type_at types.now shape.of) (size_seen types.now width))) s (row shape.name (type_at types.now shape.of) (size_seen types.now width)) ≡ Fine s (row shape.name (type_at types.now shape.of) (size_seen types.now width))) }
    ensures added { IfOk result (λ u. member_types (table_types types.now) members.new ≡ member_types (table_types types.now) members.old ++ row shape.name (type_at types.now shape.of) (size_seen types.now width) ∷ []) }
    ensures err { IfErr result (λ e. (s : State) → s.tags ≡ tags types.now → Tells e (at s line (node.Typing (node.Field (member_types (table_types types.now) members.old) shape.name (type_at types.now shape.of) (size_seen types.now width))) s (row shape.name (type_at types.now shape.of) (size_seen types.now width)))) }
    ensures within { IfOk result (λ u. AreMembersBelow (length types.now.forms) members.new) }
{
    if is_repeated(members, &shape.name) {
        return Err(CheckFault::Constraint { number: 9, line });
    }
    if types.size(shape.of).is_none() {
        return Err(CheckFault::Constraint { number: 10, line });
    }
    let bits = field_bits(types, line, &shape, &width)?;
    members.push(shape.name, shape.of, bits)?;
    Ok(())
}

/// The value that is written, or else the next one. None where what is written is no constant.
fn written_or(types: &TypeTable, value: &Option<CoreExpr>, next: i64) -> Option<i64>
    requires { IsSizeIn (length types.now.forms) value.now }
    ensures { result ≡ written_value (size_seen types.now value.now) next }
{
    match value {
        Some(written) => constant_value(types, written),
        None => Some(next),
    }
}

/// The value, if int holds it.
fn int_value(value: Option<i64>) -> Option<i32>
    ensures some { IfSome result (λ z. value ≡ Some z) }
    ensures held { IfSome result (λ z. is_in_int value ≡ true) }
    ensures none { IfNone result (is_in_int value ≡ false) }
{
    i32::try_from(value?).ok()
}

/// An enumerator, with its value where one is written, and the value that it has where none is.
pub(crate) fn enumerator(
    scopes: &mut Scopes,
    types: &TypeTable,
    line: u32,
    name: &[u8],
    value: Option<CoreExpr>,
    next: i64,
) -> Result<i32, CheckFault>
    requires symbols { AreSymbolsIn (length types.now.forms) scopes.old.symbols }
    requires value { IsSizeIn (length types.now.forms) value }
    ensures ok { IfOk result (λ z. at (state_of scopes.old types.now) line (node.Typing (node.Enumerator name.now (size_seen types.now value) next)) (with_enumerator (state_of scopes.old types.now) line name.now (enumerator_value (size_seen types.now value) next)) (enumerator_value (size_seen types.now value) next) ≡ Fine (state_of scopes.new types.now) z) }
    ensures err { IfErr result (λ e. Tells e (at (state_of scopes.old types.now) line (node.Typing (node.Enumerator name.now (size_seen types.now value) next)) (with_enumerator (state_of scopes.old types.now) line name.now (enumerator_value (size_seen types.now value) next)) (enumerator_value (size_seen types.now value) next))) }
    ensures keeps { Keeps scopes.old types.now scopes.new types.now }
{
    if scopes.find_here(name).is_some() {
        return Err(CheckFault::Constraint { number: 5, line });
    }
    let Some(number) = int_value(written_or(types, &value, next)) else {
        return Err(CheckFault::Constraint { number: 12, line });
    };
    let symbol = Symbol {
        class: Storage::Enumerator,
        of: types.basic_type(INT),
        line,
        level: level(scopes)?,
        value: Some(i64::from(number)),
    };
    declare(scopes, types, name, symbol)?;
    Ok(number)
}
