//! Members of structures and unions as expressions reach them (C89 3.3.2.3).
ghost use Rattle.std.specs.Prelude.{◌≡◌, ◌≢◌, ◌<◌, [], length, true, option_map, IfOk, IfErr, IfSome};
ghost use Rattle.c_ast.specs.declared.operator.MemberOperator.TheVariants as member;
ghost use Rattle.c_types.specs.Members.{member_of};
ghost use Rattle.c_types.specs.Table.{Grows, member_seen, tags, type_at, types as table_types};
ghost use Rattle.c_meaning.specs.CoreTrees.{IsIn, seen, type_of};
ghost use Rattle.c_meaning.specs.Nodes as node;
ghost use Rattle.c_meaning.specs.Rows.{pointed as pointed_by, selected_at};
ghost use Rattle.c_meaning.specs.Types.{is_pointer};
ghost use Rattle.c_check_expr.specs.AtNode.{Becomes, IsRefused};

use crate::access::pointed;
use c_meaning::{CoreExpr, CoreKind};
use c_types::{MemberPlace, TypeId, TypeTable};
use c_values::forming::{into_value, with_one};
use c_values::values::{target, value_type};
use c_values::{CheckFault, kinds};
use lcc_base::Memory;
use std::alloc::Global;

/// `a.m`.
pub(crate) fn member_of_place(
    alloc: Global,
    types: &mut TypeTable,
    line: u32,
    a: CoreExpr,
    name: &[u8],
) -> Result<CoreExpr, CheckFault>
    requires within { IsIn (length types.old.forms) a }
    requires name { name.now ≢ [] }
    ensures ok { IfOk result (λ core. Becomes types.old line (node.Member member.Dot (seen (type_at types.old) a) name.now) types.new core) }
    ensures err { IfErr result (λ e. IsRefused types.old line (node.Member member.Dot (seen (type_at types.old) a) name.now) e) }
    ensures within { IfOk result (λ core. IsIn (length types.new.forms) core) }
    ensures grows { Grows types.old types.new }
{
    types.types_are_within_limits();
    match found(types, a.of, name)? {
        Some(place) => Ok(selected(alloc, types, line, a, place)?),
        None => Err(CheckFault::Constraint { number: 33, line }),
    }
}

/// `a->m`.
pub(crate) fn member_through_pointer(
    alloc: Global,
    types: &mut TypeTable,
    line: u32,
    a: CoreExpr,
    name: &[u8],
) -> Result<CoreExpr, CheckFault>
    requires within { IsIn (length types.old.forms) a }
    requires name { name.now ≢ [] }
    ensures ok { IfOk result (λ core. Becomes types.old line (node.Member member.Arrow (seen (type_at types.old) a) name.now) types.new core) }
    ensures err { IfErr result (λ e. IsRefused types.old line (node.Member member.Arrow (seen (type_at types.old) a) name.now) e) }
    ensures within { IfOk result (λ core. IsIn (length types.new.forms) core) }
    ensures grows { Grows types.old types.new }
{
    types.types_are_within_limits();
    let Some(to) = target(types, value_type(types, &a)) else {
        return Err(CheckFault::Constraint { number: 33, line });
    };
    match found(types, to.of, name)? {
        Some(place) => {
            let v = into_value(alloc, types, line, a)?;
            Ok(reached(alloc, types, line, v, place)?)
        }
        None => Err(CheckFault::Constraint { number: 33, line }),
    }
}

/// Where the member of the name stands, if the type has one. Its own type is one of the table.
fn found(types: &TypeTable, id: TypeId, name: &[u8]) -> Result<Option<MemberPlace>, Memory>
    requires id { id < length types.now.forms }
    requires name { name.now ≢ [] }
    ensures some { IfOk result (λ r. option_map (member_seen (table_types types.now)) r ≡ member_of (tags types.now) (type_at types.now id) name.now) }
    ensures within { IfOk result (λ r. IfSome r (λ p. p.of < length types.now.forms)) }
{
    match types.member(id, name) {
        // The members of a structure were of types of the table when it was completed.
        Some(place) if place.of >= types.len() => Err(Memory),
        place => Ok(place),
    }
}

/// The member at the place of what a pointer points to.
fn reached(
    alloc: Global,
    types: &mut TypeTable,
    line: u32,
    v: CoreExpr,
    place: MemberPlace,
) -> Result<CoreExpr, Memory>
    requires within { IsIn (length types.old.forms) v }
    requires pointer { is_pointer (type_at types.old (type_of v)) ≡ true }
    requires place { place.of < length types.old.forms }
    ensures means { IfOk result (λ c. seen (type_at types.new) c ≡ selected_at line (pointed_by line (seen (type_at types.old) v)) (member_seen (table_types types.old) place)) }
    ensures within { IfOk result (λ c. IsIn (length types.new.forms) c) }
    ensures grows { Grows types.old types.new }
{
    let a = pointed(alloc, types, line, v)?;
    selected(alloc, types, line, a, place)
}

/// The member at the place, with the qualifiers of its structure or union beside its own.
fn selected(
    alloc: Global,
    types: &mut TypeTable,
    line: u32,
    a: CoreExpr,
    place: MemberPlace,
) -> Result<CoreExpr, Memory>
    requires within { IsIn (length types.old.forms) a }
    requires place { place.of < length types.old.forms }
    ensures means { IfOk result (λ c. seen (type_at types.new) c ≡ selected_at line (seen (type_at types.old) a) (member_seen (table_types types.old) place)) }
    ensures within { IfOk result (λ c. IsIn (length types.new.forms) c) }
    ensures grows { Grows types.old types.new }
{
    let qualifiers = kinds::qualifiers(types, a.of);
    let of = types.qualified(place.of, qualifiers)?;
    let what = CoreKind::Member {
        offset: place.offset,
        first: place.first,
        width: place.width,
    };
    with_one(alloc, what, of, line, a)
}
