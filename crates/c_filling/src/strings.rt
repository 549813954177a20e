//! The bytes of arrays that strings fill.
ghost use Rattle.std.specs.Prelude.{◌≡◌, ◌<◌, ◌^◌, [], IfOk, get_or, length};
ghost use Rattle.c_meaning.specs.CoreTrees.{what_of};
ghost use Rattle.c_meaning.specs.Filling.{characters as characters_of};
ghost use Rattle.c_runs.specs.Statements.{string_of};
ghost use Rattle.c_types.specs.CType.{Array, CType};
ghost use Rattle.c_worlds.specs.Programs.{unit_of};

use c_meaning::{CoreExpr, CoreKind};
use c_worlds::Program;
use std::alloc::{AllocError, Global};

/// So many characters of these, and zeros behind them where they are fewer.
fn characters(alloc: Global, count: u32, bytes: &[u8]) -> Result<Vec<u8>, AllocError>
    ensures is { IfOk result (λ v. v.items ≡ characters_of count bytes.now) }
    ensures len { IfOk result (λ v. length v.items ≡ count) }
{
    let mut all = Vec::new(alloc);
    all.extend_from_slice(bytes)?;
    all.resize(count as usize, 0)?;
    Ok(all)
}

/// So many characters of a text of the program, which is empty where the program has none at that place.
fn text(alloc: Global, program: &Program, count: u32, n: u32) -> Result<Vec<u8>, AllocError>
    ensures is { IfOk result (λ v. v.items ≡ characters_of count (get_or (unit_of program.now).texts n [])) }
    ensures len { IfOk result (λ v. length v.items ≡ count) }
{
    match program.core.texts().get(n as usize) {
        Some(text) => characters(alloc, count, text.as_slice()),
        None => characters(alloc, count, &[]),
    }
}

/// What an array of this length gets by an expression: none but a string of the program gives it anything.
pub(crate) fn string(
    alloc: Global,
    program: &Program,
    count: Option<u32>,
    e: &CoreExpr,
) -> Result<Vec<u8>, AllocError>
    ensures is { IfOk result (λ v. (of : CType) → v.items ≡ string_of (unit_of program.now) (Array of count) (what_of e.now)) }
    ensures few { IfOk result (λ v. length v.items < 2 ^ 32) }
{
    match (count, &e.what) {
        (Some(count), CoreKind::Text(n)) => text(alloc, program, count, *n),
        _ => Ok(Vec::new(alloc)),
    }
}
