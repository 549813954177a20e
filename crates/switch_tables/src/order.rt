//! The order of a switch's cases by their numbers, signed or unsigned.
ghost use Rattle.std.specs.Prelude.{◌≡◌, ◌<◌, ◌^◌, true, IfOk, OnOk};
ghost use Rattle.c_meaning.specs.Units.{are_apart, numbers};
ghost use Rattle.switch_tables.specs.Cases.{AreWords};
ghost use Rattle.switch_tables.specs.Order.{rank, rising};

use c_meaning::CoreCase;
use lcc_base::Memory;
use std::alloc::Global;

/// The place of a number in the order of its type, from the least one on.
pub(crate) fn rank_of(signed: bool, number: u32) -> u32
    ensures { result ≡ rank signed number }
{
    if signed {
        number.wrapping_add(1 << 31)
    } else {
        number
    }
}

/// The cases in rising order. Their numbers are words.
pub(crate) fn in_order(
    alloc: Global,
    signed: bool,
    cases: &[CoreCase],
) -> Result<Vec<CoreCase>, Memory>
    requires { are_apart (numbers cases.now) ≡ true }
    ensures sorted { IfOk result (λ sorted. sorted.items ≡ rising signed cases.now) }
    ensures words { OnOk result (AreWords cases.now) }
{
    let mut sorted = copied(alloc, cases)?;
    sorted.sort_unstable_by_key(
        |case: &CoreCase| -> u32
            ensures { result ≡ rank signed case.now.number }
        { rank_of(signed, case.number) },
    );
    Ok(sorted)
}

/// The cases, of which each is read.
fn copied(alloc: Global, cases: &[CoreCase]) -> Result<Vec<CoreCase>, Memory>
    ensures same { IfOk result (λ copies. copies.items ≡ cases.now) }
    ensures words { OnOk result (AreWords cases.now) }
{
    let mut copies = Vec::with_capacity(alloc, cases.len())?;
    for case in cases {
        copies.push(read_case(case))?;
    }
    Ok(copies)
}

/// The case, whose number is a word.
fn read_case(case: &CoreCase) -> CoreCase
    ensures same { result ≡ case.now }
    ensures word { case.now.number < 2 ^ 32 }
{
    CoreCase {
        number: word(case.number),
        label: case.label,
    }
}

/// The number, which a `u32` can be.
fn word(number: u32) -> u32
    ensures same { result ≡ number }
    ensures below { number < 2 ^ 32 }
{
    number
}
