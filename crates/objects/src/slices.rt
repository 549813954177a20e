//! Bytes written over others, and masks.
ghost use Rattle.std.specs.Prelude.{◌≡◌, ◌≤◌, ◌<◌, ◌+◌, ◌^◌, ◌++◌, ◌==◌, true, set, length, take, drop, replicate, OnOk, OnErr, if◌then◌else◌};
ghost use Rattle.std.specs.BTreeMap.{get};
ghost use Rattle.std.specs.Ordering.{nat_cmp};
ghost use Rattle.objects.specs.Held.{shown as shown_byte};
ghost use Rattle.lcc_base.specs.NumberIn.{number_in};
ghost use Rattle.objects.specs.Objects.{overwritten};
ghost use Rattle.objects.specs.Values.{bytes_in};

use crate::{Byte, Value, Width};
use lcc_base::{Memory, Order, join};
use std::collections::BTreeMap;

/// Writes bytes over those of a vector, from a place on.
pub fn paste(bytes: &mut Vec<u8>, at: usize, new: &[u8])
    requires { at + length new.now ≤ length bytes.old.items }
    ensures { bytes.new.items ≡ overwritten at new.now bytes.old.items }
{
    paste_slice(bytes, at, new);
}

/// Writes bytes over those from a place on.
#[inline(always)]
pub fn paste_slice(bytes: &mut [u8], at: usize, new: &[u8])
    requires { at + length new.now ≤ length bytes.old }
    ensures { bytes.new ≡ overwritten at new.now bytes.old }
{
    bytes[at..at + new.len()].copy_from_slice(new);
}

/// Makes so many masks full, from a place on.
pub fn fill_up(masks: &mut Vec<u8>, at: usize, count: usize)
    requires { at + count ≤ length masks.old.items }
    ensures { masks.new.items ≡ overwritten at (replicate count 255) masks.old.items }
{
    fill_slice(masks, at, count);
}

/// Makes so many of these masks full, from a place on.
#[inline(always)]
pub fn fill_slice(masks: &mut [u8], at: usize, count: usize)
    requires { at + count ≤ length masks.old }
    ensures { masks.new ≡ overwritten at (replicate count 255) masks.old }
{
    masks[at..at + count].fill(255);
}

/// Puts full masks behind so many values, if there are none. After `Memory` they are as before.
pub fn complete(bytes: &mut Vec<u8>, size: usize) -> Result<(), Memory>
    requires small { size < 2 ^ 32 }
    ensures ok { OnOk result (bytes.new.items ≡ (if length bytes.old.items == size then bytes.old.items ++ replicate size 255 else bytes.old.items)) }
    ensures err { OnErr result (bytes.new.items ≡ bytes.old.items) }
{
    if bytes.len() == size {
        let alloc = *bytes.allocator();
        let mut more = vec![in alloc; 255u8; 2 * size]?;
        paste(&mut more, 0, bytes);
        *bytes = more;
    }
    Ok(())
}

/// The byte at a place, given its mask and its value.
pub fn shown(parts: &BTreeMap<u32, Byte<Value>>, place: u32, known: u8, value: u8) -> Byte<Value>
    ensures { result ≡ shown_byte (get nat_cmp parts.now place) known value }
{
    if known != 0 {
        return Byte::Bits { known, value };
    }
    match parts.get(&place) {
        Some(part) => *part,
        None => Byte::Bits { known, value },
    }
}

/// The unsigned number of so many bytes from a place on.
pub fn number_at(bytes: &[u8], order: Order, width: Width, at: usize) -> u32
    requires { at + bytes_in width ≤ length bytes.now }
    ensures { result ≡ number_in order (take (bytes_in width) (drop at bytes.now)) }
{
    match width {
        Width::One => join(order, &bytes[at..at + 1]),
        Width::Two => join(order, &bytes[at..at + 2]),
        Width::Four => join(order, &bytes[at..at + 4]),
    }
}

/// Whether all bits of so many bytes from a place on are known, by their masks.
pub fn are_full(masks: &[u8], width: Width, at: usize) -> bool
    requires { at + bytes_in width ≤ length masks.now }
    ensures { result ≡ true → take (bytes_in width) (drop at masks.now) ≡ replicate (bytes_in width) 255 }
{
    match width {
        Width::One => masks[at] == 255,
        Width::Two => masks[at] == 255 && masks[at + 1] == 255,
        Width::Four => {
            masks[at] == 255 && masks[at + 1] == 255 && masks[at + 2] == 255 && masks[at + 3] == 255
        }
    }
}
