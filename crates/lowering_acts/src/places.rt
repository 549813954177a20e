//! Places of locals, and of members of what stands at places.
ghost use Rattle.std.specs.Prelude.{◌≡◌, ◌+ℤ◌, pos, nat_lt, slice_get, IfOk};
ghost use Rattle.lowering_acts.specs.Sites.{context_of, tree_in, type_in};
ghost use Rattle.lowered_forms.specs.Places as places;
ghost use Rattle.lowering_steps.specs.Asking.{Places};
ghost use Rattle.lowering_steps.specs.Operands.{typed_of};

use crate::site::Site;
use c_meaning::{CoreExpr, CoreKind};
use c_types::TypeId;
use c_worlds::{is_record, size};
use lcc_base::Memory;
use lowering_steps::{OpenBlock, Operand, Source, Stem};
use op_forest::{Op, Sym};

/// The place of a local of this type, which is read where it is a parameter that is passed by its address.
pub fn local_place(
    site: &Site,
    block: &mut OpenBlock,
    n: u32,
    of: TypeId,
) -> Result<Operand, Memory>
    ensures { IfOk result (λ v. Places block.old (places.local_place (context_of site.now) n (type_in site.now of)) v block.new) }
{
    let Some(offset) = offset_of(site, n) else {
        return Ok(Operand::number(true, 0));
    };
    let place = address_at(offset);
    if is_passed_whole(site, n, of) {
        block.loaded_pointer(place)
    } else {
        block.placed(place)
    }
}

/// The place of a local that is a copy of a structure. `Memory` where it is a parameter, which no copy is in a checked unit.
pub fn copy_place(site: &Site, n: u32, of: TypeId) -> Result<Operand, Memory>
    ensures { IfOk result (λ v. typed_of v ≡ places.local_place (context_of site.now) n (type_in site.now of)) }
{
    if is_passed_whole(site, n, of) {
        return Err(Memory);
    }
    match offset_of(site, n) {
        Some(offset) => Ok(address_at(offset)),
        None => Ok(Operand::number(true, 0)),
    }
}

// The offset of a local, if there are so many.
fn offset_of(site: &Site, n: u32) -> Option<i32>
    ensures { result ≡ slice_get site.now.places.now n }
{
    match site.places.get(n as usize) {
        Some(offset) => Some(*offset),
        None => None,
    }
}

// The place at an offset.
fn address_at(offset: i32) -> Operand
    ensures { typed_of result ≡ places.address_at offset }
{
    if offset >= 0 {
        Operand::parameter(offset)
    } else {
        Operand::local(offset)
    }
}

// Whether a local is a parameter of structure type.
fn is_passed_whole(site: &Site, n: u32, of: TypeId) -> bool
    ensures { result ≡ places.is_passed_whole (context_of site.now) n (type_in site.now of) }
{
    n < site.parameters && is_record(site.program.core.types(), of)
}

/// The place of a member so many bytes behind the place of an expression.
pub fn member(
    site: &Site,
    block: &mut OpenBlock,
    e: &CoreExpr,
    offset: u32,
    place: Operand,
) -> Result<Operand, Memory>
    ensures { let s = context_of site.now in IfOk result (λ v. Places block.old (places.further (nat_lt offset (places.room_of s (tree_in site.now e.now))) offset (typed_of place)) v block.new) }
{
    if offset < room(site, e) {
        further(block, offset, place)
    } else {
        block.displaced(offset, place)
    }
}

// How many bytes from the place of an expression on are those of an object with a name. It looks through as many parts as structures
// stand in one another.
fn room(site: &Site, e: &CoreExpr) -> u32
    ensures { result ≡ places.room_of (context_of site.now) (tree_in site.now e.now) }
{
    match e.what {
        CoreKind::Local { place, .. } => {
            if is_passed_whole(site, place, e.of) {
                0
            } else {
                size(site.program.core.types(), e.of)
            }
        }
        CoreKind::Object(_) | CoreKind::Text(_) => size(site.program.core.types(), e.of),
        CoreKind::Member { offset, .. } => match e.kids.as_slice() {
            [first, ..] => room(site, first).saturating_sub(offset),
            [] => 0,
        },
        _ => 0,
    }
}

// A place so many bytes further in an object with a name, where it is a name's or a local's.
fn further(block: &mut OpenBlock, by: u32, place: Operand) -> Result<Operand, Memory>
    ensures { IfOk result (λ v. Places block.old (places.tree_further (typed_of place).tree by (typed_of place)) v block.new) }
{
    let Source::Leaf(stem) = place.source else {
        return block.displaced(by, place);
    };
    match (stem.operator.op, stem.sym, stem.value) {
        (Op::Addrg, Sym::Global { name, offset }, _) => {
            let offset = offset_behind(i64::from(offset), by)?;
            Ok(Operand::name(name, offset))
        }
        (Op::Addrl, _, Some(offset)) => {
            let offset = offset_behind(offset, by)?;
            Ok(Operand::local(offset))
        }
        _ => block.displaced(by, place),
    }
}

// An offset so many bytes further. `Memory` where it is no number of 32 bits.
fn offset_behind(offset: i64, by: u32) -> Result<i32, Memory>
    ensures { IfOk result (λ z. z ≡ offset +ℤ pos by) }
{
    let Some(sum) = offset.checked_add(i64::from(by)) else {
        return Err(Memory);
    };
    match i32::try_from(sum) {
        Ok(sum) => Ok(sum),
        Err(_) => Err(Memory),
    }
}
