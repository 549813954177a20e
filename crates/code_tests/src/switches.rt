//! The tables of two switches, and where numbers lead by them.
ghost use Rattle.std.specs.Prelude.{◌≡◌};

use c_meaning::CoreCase;
use std::test::Fail;
use switch_tables::{label_at, tables};

fn case(number: u32, label: u32) -> CoreCase
    ensures { result ≡ record { number = number; label = label } }
{
    CoreCase { number, label }
}

#[test]
fn four_cases_of_six_are_a_table(rt: HostRuntime) -> Result<(), Fail> {
    let alloc = rt.alloc();
    let cases = [case(1, 11), case(2, 12), case(3, 13), case(6, 16)];
    let tables = tables(alloc, true, &cases, 9)?;
    let text = format!(in alloc; "{:?}", tables.as_slice())?;
    assert_eq!(rt;
        text.as_str(),
        "[Table { low: 1, labels: Items { items: [11, 12, 13, 9, 9, 16] } }]"
    );
    Ok(())
}

#[test]
fn a_far_case_is_a_test(rt: HostRuntime) -> Result<(), Fail> {
    let alloc = rt.alloc();
    let cases = [case(30, 3), case(2, 2), case(1, 1)];
    let tables = tables(alloc, true, &cases, 9)?;
    let text = format!(in alloc; "{:?}", tables.as_slice())?;
    assert_eq!(rt;
        text.as_str(),
        "[Table { low: 1, labels: Items { items: [1, 2] } }, Table { low: 30, labels: Items { items: [3] } }]"
    );
    Ok(())
}

#[test]
fn negative_numbers_are_below_others(rt: HostRuntime) -> Result<(), Fail> {
    let alloc = rt.alloc();
    let cases = [case(1, 2), case(4_294_967_295, 1), case(2_147_483_647, 3)];
    let tables = tables(alloc, true, &cases, 9)?;
    let labels = [
        label_at(true, tables.as_slice(), 9, 4_294_967_295),
        label_at(true, tables.as_slice(), 9, 0),
        label_at(true, tables.as_slice(), 9, 2_147_483_647),
        label_at(true, tables.as_slice(), 9, 2_147_483_648),
    ];
    assert_eq!(rt; labels, [1, 9, 3, 9]);
    Ok(())
}
