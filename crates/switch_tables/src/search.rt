//! Binary search over jump tables for the label to which a number leads.
ghost use Rattle.std.specs.Prelude.{◌≡◌, ◌+◌, ◌-◌, ◌%◌, ◌<◌, ◌^◌, ◌++◌, ◌∷◌, [], length, slice_index_or, MatchOption};
ghost use Rattle.objects.specs.Arithmetic.{is_less};
ghost use Rattle.switch_tables.specs.Cuts.{offset};
ghost use Rattle.switch_tables.specs.Searches.{At, found, last_in, search_over};

use crate::table::Table;

/// The table in the middle of tables in rising order, and those before it and behind it.
#[derive(Clone, Copy)]
pub struct Halves<'a> {
    pub less: &'a [Table],
    pub table: &'a Table,
    pub greater: &'a [Table],
}

/// The halves of tables. There are none exactly where there is no table.
pub fn halved(tables: &[Table]) -> Option<Halves>
    ensures parts { MatchOption result (tables.now ≡ []) (λ h. tables.now ≡ h.less.now ++ h.table.now ∷ h.greater.now) }
    ensures search { MatchOption result (tables.now ≡ []) (λ h. search_over tables.now ≡ At h.table.now (search_over h.less.now) (search_over h.greater.now)) }
{
    if tables.is_empty() {
        return None;
    }
    let middle = tables.len() / 2;
    Some(Halves {
        less: &tables[..middle],
        table: &tables[middle],
        greater: &tables[middle + 1..],
    })
}

/// The label to which a number leads by tables in rising order: a search by halves, signed or unsigned as the tables are.
pub fn label_at(signed: bool, tables: &[Table], default: u32, number: u32) -> u32
    ensures { result ≡ found signed default number (search_over tables.now) }
{
    match halved(tables) {
        None => default,
        Some(h) => {
            if is_below(signed, number, h.table.low) {
                label_at(signed, h.less, default, number)
            } else if is_below(signed, last_number(h.table), number) {
                label_at(signed, h.greater, default, number)
            } else {
                label_in(h.table, default, number)
            }
        }
    }
}

fn is_below(signed: bool, a: u32, b: u32) -> bool
    ensures { result ≡ is_less signed a b }
{
    if signed {
        a.cast_signed() < b.cast_signed()
    } else {
        a < b
    }
}

/// The last number of a table, its first one if it has no label.
fn last_number(table: &Table) -> u32
    ensures { result ≡ last_in table.now }
{
    let behind = table.labels.len().saturating_sub(1);
    table.low.wrapping_add((behind % (1 << 32)) as u32)
}

fn label_in(table: &Table, default: u32, number: u32) -> u32
    ensures { result ≡ slice_index_or table.now.labels (offset table.now.low number) default }
{
    let place = number.wrapping_sub(table.low) as usize;
    match table.labels.as_slice().get(place) {
        Some(label) => *label,
        None => default,
    }
}
