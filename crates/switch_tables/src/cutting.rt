//! A switch's cases are sorted and cut into jump tables of which at least half is filled.
ghost use Rattle.std.specs.Prelude.{◌≡◌, ◌≢◌, ◌<◌, ◌≤◌, ◌*◌, ◌^◌, ◌∷◌, [], ℕ, Bool, true, length, take, drop, map, nat_le, IfOk, OnOk, ◌+◌};
ghost use Rattle.c_meaning.specs.Units.{are_apart, numbers};
ghost use Rattle.switch_tables.specs.Cases.{AreWords, label_of};
ghost use Rattle.switch_tables.specs.Order.{IsRising};
ghost use Rattle.switch_tables.specs.Cuts.{cut, offset};
ghost use Rattle.switch_tables.specs.Tables.{first_number, label_count, last_number, table_of, tables_of};
ghost use Rattle.switch_tables.specs.Searches.{found, search_over};

use crate::order::in_order;
use crate::table::Table;
use c_meaning::CoreCase;
use lcc_base::{Items, Memory};
use std::alloc::Global;

/// The tables of a switch's cases in rising order, signed or unsigned as the switch's value is. A number that has no case, in
/// a table or outside of all, leads to the default's label. They have at most twice as many labels as there are cases.
pub fn tables(
    alloc: Global,
    signed: bool,
    cases: &[CoreCase],
    default: u32,
) -> Result<Items<Table>, Memory>
    requires { are_apart (numbers cases.now) ≡ true }
    ensures tables { IfOk result (λ ts. ts ≡ tables_of signed default cases.now) }
    ensures leads { IfOk result (λ ts. (n : ℕ) → n < 2 ^ 32 → found signed default n (search_over ts) ≡ label_of cases.now default n) }
    ensures words { OnOk result (AreWords cases.now) }
    ensures size { IfOk result (λ ts. label_count ts ≤ 2 * length cases.now) }
{
    let sorted = in_order(alloc, signed, cases)?;
    let tables = cut_all(alloc, signed, default, &sorted)?;
    Ok(Items::from_vec(tables))
}

/// The tables of cases in rising order.
fn cut_all(
    alloc: Global,
    signed: bool,
    default: u32,
    cases: &[CoreCase],
) -> Result<Vec<Table>, Memory>
    requires words { AreWords cases.now }
    requires rising { IsRising signed cases.now }
    ensures { IfOk result (λ ts. ts.items ≡ map (table_of default) (cut cases.now)) }
{
    let mut tables = Vec::new(alloc);
    let mut rest = cases;
    while !rest.is_empty() {
        let (front, behind) = rest.split_at(first_cut(rest));
        tables.push(filled(alloc, default, front)?)?;
        rest = behind;
    }
    Ok(tables)
}

/// How many of the cases, from the first one on, stand in one table.
fn first_cut(cases: &[CoreCase]) -> usize
    requires { cases.now ≢ [] }
    ensures within { result ≤ length cases.now }
    ensures some { 0 < result }
    ensures cut { cut cases.now ≡ take result cases.now ∷ cut (drop result cases.now) }
{
    let low = first_of(cases);
    let mut count = 1;
    while count < cases.len() && may_join(low, count, cases[count].number) {
        count += 1;
    }
    count
}

/// Whether at least half of the numbers from `low` on up to `number` are cases, with one for `number` beside so many others.
fn may_join(low: u32, count: usize, number: u32) -> bool
    ensures { result ≡ nat_le (offset low number + 1) (2 * (count + 1)) }
{
    place_in(low, number) / 2 <= count
}

/// How far a number lies behind another, modulo 2^32.
fn place_in(low: u32, number: u32) -> usize
    ensures value { result ≡ offset low number }
    ensures within { result < 2 ^ 32 }
{
    number.wrapping_sub(low) as usize
}

fn first_of(cases: &[CoreCase]) -> u32
    requires { cases.now ≢ [] }
    ensures { result ≡ first_number cases.now }
{
    cases[0].number
}

fn last_of(cases: &[CoreCase]) -> u32
    requires { cases.now ≢ [] }
    ensures { result ≡ last_number cases.now }
{
    cases[cases.len() - 1].number
}

/// The table of cases in rising order.
fn filled(alloc: Global, default: u32, cases: &[CoreCase]) -> Result<Table, Memory>
    requires some { cases.now ≢ [] }
    requires words { AreWords cases.now }
    requires rising { (signed : Bool) × IsRising signed cases.now }
    ensures { IfOk result (λ t. t ≡ table_of default cases.now) }
{
    let low = first_of(cases);
    let room = place_in(low, last_of(cases)) + 1;
    let mut labels = Vec::from_elem(alloc, default, room)?;
    for case in cases {
        labels[place_in(low, case.number)] = case.label;
    }
    Ok(Table {
        low,
        labels: Items::from_vec(labels),
    })
}
