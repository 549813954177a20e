//! A local's first value: zeros as a whole, and a value at each place that is filled.
ghost use Rattle.std.specs.Prelude.{◌≡◌, ◌≤◌, ◌+◌, [], false, length, min, pos, get_or, IfOk, OnOk};
ghost use Rattle.c_types.specs.CType.{Array, CType};
ghost use Rattle.c_meaning.specs.CoreTrees.{what_of};
ghost use Rattle.c_meaning.specs.StmtTrees.{filled_of, place_seen};
ghost use Rattle.c_meaning.specs.Types as kinds;
ghost use Rattle.c_pointers_agree.specs.Pointers.{name};
ghost use Rattle.c_worlds.specs.Programs.{unit_of};
ghost use Rattle.lowered_forms.specs.Accesses.{written};
ghost use Rattle.lowered_forms.specs.Contexts as contexts;
ghost use Rattle.lowered_statements.specs.Initialisers as initialisers;
ghost use Rattle.lowering_acts.specs.Sites.{context_of, type_in};
ghost use Rattle.lowering_steps.specs.Asking.{Acts, Places};
ghost use Rattle.lowering_steps.specs.Operands.{typed_of};
ghost use Rattle.statement_steps.specs.Functions.{function_of};
ghost use Rattle.statement_steps.specs.Places.{CopiesString, FillsArray, filled_otherwise, spot_at, text_of};
ghost use Rattle.statement_steps.specs.Progresses.{Goes};

use crate::numbers::{number, sum};
use crate::site::FunctionSite;
use crate::zeroing::{further, zero, zero_each};
use c_meaning::{CoreExpr, CoreKind, FilledPlace};
use c_types::MemberPlace;
use c_worlds::{Program, array_length, is_record, scalar, size};
use lcc_base::Memory;
use lowering_acts::{Site, copy};
use lowering_steps::{OpenBlock, Operand, State};
use objects::{Field, Width};

/// Zeros in a whole local of so many bytes, where it is said: by words, and by bytes where they end in a part of one. `Memory` comes where
/// an allocation is refused, where the block or the frame is full or no label is left, and where no checked unit holds it; the state is
/// given up then.
pub fn zero_whole(into: &mut State, says: bool, base: Operand, size: u32) -> Result<(), Memory>
    ensures { OnOk result (Goes (λ l. initialisers.zeroed_whole says (typed_of base) size l) into.old into.new) }
{
    if !says {
        return Ok(());
    }
    let words = size / 4;
    zero(into, base, Width::Four, 0, words)?;
    zero_each(&mut into.block, base, Width::One, 4 * words, size % 4)
}

/// The value of a place that is filled has come to this operand, and is stored there: a string in an array of characters, a structure
/// as a whole, a scalar or a bit-field. `Memory` comes as for `zero_whole`.
pub fn fill_place(
    f: &FunctionSite,
    base: Operand,
    place: &FilledPlace,
    value: Operand,
    into: &mut State,
) -> Result<(), Memory>
    ensures { let p = place_seen (type_in f.now.site) (filled_of place.now) in OnOk result (Goes (λ l. initialisers.filled_by (kinds.is_array p.of) (kinds.is_record p.of) (function_of f.now) (typed_of base) p (typed_of value) l) into.old into.new) }
{
    let types = f.site.program.core.types();
    match array_length(types, place.at.of) {
        Some(count) => fill_array(f, base, place, count, into),
        None => fill_other(&f.site, base, &place.at, value, &mut into.block),
    }
}

// An array of characters by a string, if it has a length. Where what fills it is no string it stays as it is.
fn fill_array(
    f: &FunctionSite,
    base: Operand,
    place: &FilledPlace,
    count: Option<u32>,
    into: &mut State,
) -> Result<(), Memory>
    ensures { OnOk result (FillsArray f.now place.now count (typed_of base) into.old into.new) }
{
    let Some(room) = count else {
        return Ok(());
    };
    match text_in(&place.value) {
        Some(n) => fill_text(&f.site, base, place.at.offset, room, n, into),
        None => Ok(()),
    }
}

// The number of a string, if a value is one.
fn text_in(value: &CoreExpr) -> Option<u32>
    ensures { result ≡ text_of (what_of value.now) }
{
    match value.what {
        CoreKind::Text(n) => Some(n),
        _ => None,
    }
}

// A string's bytes with its null where there is room, at an offset, and zeros in the rest of the room.
fn fill_text(
    site: &Site,
    base: Operand,
    offset: u32,
    room: u32,
    n: u32,
    into: &mut State,
) -> Result<(), Memory>
    ensures { let u = unit_of site.now.program in OnOk result (CopiesString u n offset room (typed_of base) into.old into.new) }
{
    let name = text_name(&site.program, n)?;
    let bytes = text_bytes(site, n, room);
    let to = part_at(&mut into.block, room, offset, base)?;
    into.block.copy(bytes, 1, to, Operand::name(name, 0))?;
    let behind = sum(offset, bytes)?;
    zero(into, base, Width::One, behind, room - bytes)
}

// The number of a text's name. `Memory` where it is above 2^32 - 1, which it is in no checked unit.
fn text_name(program: &Program, n: u32) -> Result<u32, Memory>
    ensures { IfOk result (λ m. m ≡ contexts.text_name (unit_of program.now) n) }
{
    let core = program.core;
    let behind = sum(number(core.objects().len())?, n)?;
    sum(number(core.functions().len())?, behind)
}

// How many bytes of a text and the null behind it have room.
fn text_bytes(site: &Site, n: u32, room: u32) -> u32
    ensures is { result ≡ min room (length (get_or (context_of site.now).unit.texts n []) + 1) }
    ensures within { result ≤ room }
{
    match site.program.core.texts().get(n as usize) {
        Some(text) if text.len() < room as usize => text.len() as u32 + 1,
        Some(_) => room,
        None => room.min(1),
    }
}

// The place of so many bytes at an offset; of none it may stand behind the local's last byte. `Memory` comes as for `further`.
fn part_at(block: &mut OpenBlock, size: u32, offset: u32, base: Operand) -> Result<Operand, Memory>
    ensures { IfOk result (λ v. Places block.old (initialisers.part_at size offset (typed_of base)) v block.new) }
{
    if size == 0 {
        block.displaced(offset, base)
    } else {
        let place = further(offset, base)?;
        block.placed(place)
    }
}

// A structure as a whole, a scalar or a bit-field.
fn fill_other(
    site: &Site,
    base: Operand,
    at: &MemberPlace,
    value: Operand,
    block: &mut OpenBlock,
) -> Result<(), Memory>
    ensures { OnOk result (Acts block.old (λ l. filled_otherwise (context_of site.now) (spot_at site.now at.now) at.now.offset (typed_of base) (typed_of value) l) block.new) }
{
    let types = site.program.core.types();
    if is_record(types, at.of) {
        let to = part_at(block, size(types, at.of), at.offset, base)?;
        copy(site, block, at.of, to, value)
    } else {
        let to = further(at.offset, base)?;
        store(site, at, to, value, block)
    }
}

// A scalar or a bit-field at its place.
fn store(
    site: &Site,
    at: &MemberPlace,
    to: Operand,
    value: Operand,
    block: &mut OpenBlock,
) -> Result<(), Memory>
    ensures { OnOk result (Acts block.old (λ l. written false site.now.program.order (spot_at site.now at.now) (typed_of to) (typed_of value) l) block.new) }
{
    let scalar = scalar(site.program.core.types(), at.of);
    if at.width == 0 {
        return block.store(scalar.width, to, value);
    }
    // In a checked unit each bit-field lies in its unit of 32 bits.
    if u32::from(at.first) + u32::from(at.width) > 32 {
        return Err(Memory);
    }
    let field = Field {
        first: at.first,
        width: at.width,
        signed: scalar.signed,
    };
    block.store_field(false, site.program.order, field, to, value)
}
