//! Arenas: each value is dropped once, also where it is given back; values of no size and of a page.
ghost use Rattle.std.specs.Prelude.{◌≡◌, ◌+◌, ◌<◌, length, slice_index, slice_set, OnOk};

use lcc_base::Memory;
use node_arena::Arena;
use std::alloc::Global;
use std::cell::Cell;
use std::test::Fail;

/// Counts its drops.
struct Counted<'a> {
    drops: &'a Cell<u32>,
    number: u32,
}

impl Drop for Counted<'_> {
    fn drop(self) {
        let Counted { drops, number: _ } = self;
        drops.set(drops.get().wrapping_add(1));
    }
}

#[derive(Clone, Copy)]
struct Nothing;

#[derive(Clone, Copy)]
struct Page {
    bytes: [u8; 4096],
}

/// A caller knows what the arena is after a write.
fn write(arena: &mut Arena<u32>, id: u32, value: u32)
    requires { id < length arena.old.values }
    ensures values { arena.new.values ≡ slice_set arena.old.values id value }
    ensures spare { arena.new.spare ≡ arena.old.spare }
{
    *arena.get_mut(id) = value;
}

/// And after a write to the later of two.
fn copy_up(arena: &mut Arena<u32>, lo: u32, hi: u32)
    requires ordered { lo < hi }
    requires inside { hi < length arena.old.values }
    ensures values { arena.new.values ≡ slice_set arena.old.values hi (slice_index arena.old.values lo) }
    ensures spare { arena.new.spare ≡ arena.old.spare }
{
    let (read, write) = arena.pair(lo, hi);
    *write = *read;
}

/// Tells how many values came back, where an allocation was refused.
fn fill_counted<'a>(arena: &mut Arena<Counted<'a>>, drops: &'a Cell<u32>, count: u32) -> u32
    requires { length arena.old.values + count < 1000 }
    ensures { length arena.new.values + result ≡ length arena.old.values + count }
{
    let mut refused = 0;
    for number in 0..count {
        if let Err(back) = arena.push(Counted { drops, number }) {
            drop(back);
            refused += 1;
        }
    }
    refused
}

fn fill_boxes<'a>(
    alloc: Global,
    arena: &mut Arena<Box<Counted<'a>>>,
    drops: &'a Cell<u32>,
    count: u32,
) -> Result<(), Memory>
    requires { length arena.old.values + count < 1000 }
    ensures { OnOk result (length arena.new.values ≡ length arena.old.values + count) }
{
    for number in 0..count {
        let value = Box::new(alloc, Counted { drops, number })?;
        arena.push(value).map_err(|_| Memory)?;
    }
    Ok(())
}

fn fill<T: Copy>(arena: &mut Arena<T>, value: T, count: u32) -> Result<(), Memory>
    requires { length arena.old.values + count < 1000 }
    ensures { OnOk result (length arena.new.values ≡ length arena.old.values + count) }
{
    for _number in 0..count {
        arena.push(value).map_err(|_| Memory)?;
    }
    Ok(())
}

#[test]
fn boxes_go_once(rt: HostRuntime) -> Result<(), Fail> {
    let alloc = rt.alloc();
    let drops = Cell::new(0);
    let mut arena = Arena::new(alloc);
    assert_eq!(rt; (arena.len(), arena.spare()), (0, 0));
    fill_boxes(alloc, &mut arena, &drops, 70)?;
    let mark = arena.mark();
    fill_boxes(alloc, &mut arena, &drops, 130)?;
    assert_eq!(rt; arena.get(150).number, 80);
    assert_eq!(rt; drops.get(), 0);
    arena.release(mark);
    assert_eq!(rt; (arena.len(), drops.get()), (70, 130));
    let spare = arena.spare();
    assert!(rt; spare >= 130);
    fill_boxes(alloc, &mut arena, &drops, 130)?;
    assert_eq!(rt; arena.spare().saturating_add(130), spare);
    arena.get_mut(3).number = 777;
    let (read, written) = arena.pair(0, 1);
    assert_eq!(rt; (read.number, written.number), (0, 1));
    let numbers = [
        arena.get(0).number,
        arena.get(3).number,
        arena.get(199).number,
    ];
    assert_eq!(rt; numbers, [0, 777, 129]);
    arena.release(0);
    fill_boxes(alloc, &mut arena, &drops, 10)?;
    assert_eq!(rt; drops.get(), 330);
    drop(arena);
    assert_eq!(rt; drops.get(), 340);
    Ok(())
}

#[test]
fn values_of_no_size_and_of_a_page(rt: HostRuntime) -> Result<(), Fail> {
    let mut none = Arena::new(rt.alloc());
    let mut pages = Arena::new(rt.alloc());
    none.reserve(40)?;
    pages.reserve(3)?;
    assert_eq!(rt; (none.spare(), pages.spare()), (40, 3));
    fill(&mut none, Nothing, 100)?;
    fill(&mut pages, Page { bytes: [1; 4096] }, 99)?;
    fill(&mut pages, Page { bytes: [2; 4096] }, 1)?;
    assert_eq!(rt; (none.len(), pages.len()), (100, 100));
    assert_eq!(rt; (pages.get(98).bytes[4095], pages.get(99).bytes[0]), (1, 2));
    let (_, last) = none.pair(0, 99);
    *last = Nothing;
    let (read, written) = pages.pair(2, 99);
    *written = *read;
    assert_eq!(rt; pages.get(99).bytes[4095], 1);
    none.release(0);
    assert!(rt; none.spare() >= 100);
    Ok(())
}

#[test]
fn writes_in_place(rt: HostRuntime) -> Result<(), Fail> {
    let mut arena = Arena::new(rt.alloc());
    arena.push(5).map_err(|_| Memory)?;
    arena.push(6).map_err(|_| Memory)?;
    write(&mut arena, 1, 9);
    assert_eq!(rt; arena.reserve(usize::MAX), Err(Memory));
    assert_eq!(rt; (*arena.get(0), *arena.get(1)), (5, 9));
    Ok(())
}

#[test]
fn writes_the_later_of_two(rt: HostRuntime) -> Result<(), Fail> {
    let mut arena = Arena::new(rt.alloc());
    fill(&mut arena, 7, 1)?;
    fill(&mut arena, 8, 31)?;
    fill(&mut arena, 9, 200)?;
    copy_up(&mut arena, 0, 31);
    assert_eq!(rt;
        [
            *arena.get(0),
            *arena.get(30),
            *arena.get(31),
            *arena.get(32)
        ],
        [7, 8, 7, 9]
    );
    copy_up(&mut arena, 31, 32);
    copy_up(&mut arena, 1, 231);
    assert_eq!(rt;
        [
            *arena.get(32),
            *arena.get(33),
            *arena.get(230),
            *arena.get(231)
        ],
        [7, 9, 9, 8]
    );
    Ok(())
}

/// With ample memory no value comes back. Where an allocation is refused, each is still dropped once.
#[test]
fn refused_values_go_once(rt: HostRuntime) -> Result<(), Fail> {
    let drops = Cell::new(0);
    let mut arena = Arena::new(rt.alloc());
    let refused = fill_counted(&mut arena, &drops, 200);
    assert_eq!(rt; drops.get(), refused);
    assert_eq!(rt; arena.len().checked_add(refused), Some(200));
    drop(arena);
    assert_eq!(rt; drops.get(), 200);
    Ok(())
}
