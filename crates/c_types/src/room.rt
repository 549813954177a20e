//! The layout of structures: where each member and bit-field goes, and the bytes that it takes.
ghost use Rattle.std.specs.Prelude.{◌≡◌, ◌≤◌, ◌<◌, ◌+◌};
ghost use Rattle.c_types.specs.Layout.{round_up, start, spot_at, bit_spot, room_after, bits_after, spot_in, next_room};
ghost use Rattle.c_types.specs.Bounds.{IsBounded};

use crate::extent::Extent;

/// Bits of a bit-field's unit.
const UNIT: u32 = 32;

/// What is taken of a structure: its bytes, and how many bits are filled of the unit that is the
/// last four of them, 32 where no unit is open.
#[derive(Clone, Copy, Debug)]
pub(crate) struct Room {
    pub(crate) bytes: u32,
    pub(crate) bits: u8,
}

/// Where a member begins: the offset of it or of its unit, and the bits of the unit that are filled
/// before it.
#[derive(Clone, Copy, Debug)]
pub(crate) struct Spot {
    pub(crate) offset: u32,
    pub(crate) first: u8,
}

/// The next multiple of the unit.
pub(crate) fn round_up(n: u32, unit: u32) -> u32
    requires n { n ≤ 33554432 }
    requires unit { (0 < unit) × (unit ≤ 4) }
    ensures is { result ≡ round_up n unit }
    ensures bound { result ≤ n + 4 }
    ensures above { n ≤ result }
{
    (n + (unit - 1)) / unit * unit
}

impl Room {
    /// No bytes.
    pub(crate) fn start() -> Self
        ensures { result ≡ start }
    {
        Room { bytes: 0, bits: 32 }
    }

    /// Where a member goes that isn't a bit-field, or is one of so many bits.
    fn spot(self, extent: Extent, width: Option<u8>) -> Spot
        requires bytes { self.bytes ≤ 16777216 }
        requires extent { IsBounded extent }
        ensures { result ≡ spot_at self extent width }
    {
        match width {
            None => Spot {
                offset: round_up(self.bytes, extent.align),
                first: 0,
            },
            Some(width) => self.bit_spot(width),
        }
    }

    /// Where a bit-field of so many bits goes.
    fn bit_spot(self, width: u8) -> Spot
        requires bytes { self.bytes ≤ 16777216 }
        ensures { result ≡ bit_spot self width }
    {
        if u32::from(self.bits) + u32::from(width) <= UNIT {
            Spot {
                offset: self.bytes.saturating_sub(4),
                first: self.bits,
            }
        } else {
            Spot {
                offset: round_up(self.bytes, 4),
                first: 0,
            }
        }
    }

    /// What is taken with such a member.
    fn after(self, extent: Extent, width: Option<u8>) -> Room
        requires bytes { self.bytes ≤ 16777216 }
        requires extent { IsBounded extent }
        ensures is { result ≡ room_after self extent width }
        ensures grown { self.bytes ≤ result.bytes }
        ensures bound { result.bytes ≤ 33554440 }
    {
        match width {
            None => Room {
                bytes: round_up(self.bytes, extent.align) + extent.size.unwrap_or(0),
                bits: 32,
            },
            Some(width) => self.after_bits(width),
        }
    }

    /// What is taken with a bit-field of so many bits.
    fn after_bits(self, width: u8) -> Room
        requires bytes { self.bytes ≤ 16777216 }
        ensures is { result ≡ bits_after self width }
        ensures grown { self.bytes ≤ result.bytes }
        ensures bound { result.bytes ≤ 33554440 }
    {
        if width == 0 {
            Room {
                bytes: self.bytes,
                bits: 32,
            }
        } else if u32::from(self.bits) + u32::from(width) <= UNIT {
            Room {
                bytes: self.bytes,
                bits: self.bits + width,
            }
        } else {
            Room {
                bytes: round_up(self.bytes, 4) + 4,
                bits: width,
            }
        }
    }

    /// Where the next member goes, of a union or of a structure.
    pub(crate) fn spot_in(self, is_union: bool, extent: Extent, width: Option<u8>) -> Spot
        requires bytes { self.bytes ≤ 16777216 }
        requires extent { IsBounded extent }
        ensures { result ≡ spot_in is_union self extent width }
    {
        if is_union {
            Room::start().spot(extent, width)
        } else {
            self.spot(extent, width)
        }
    }

    /// What is taken with the next member, of a union or of a structure.
    pub(crate) fn next(self, is_union: bool, extent: Extent, width: Option<u8>) -> Room
        requires bytes { self.bytes ≤ 16777216 }
        requires extent { IsBounded extent }
        ensures is { result ≡ next_room is_union self extent width }
        ensures bound { result.bytes ≤ 33554440 }
    {
        if is_union {
            Room {
                bytes: self.bytes.max(Room::start().after(extent, width).bytes),
                bits: 32,
            }
        } else {
            self.after(extent, width)
        }
    }
}
