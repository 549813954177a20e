//! The scalar types as storage sees them: a width in bytes, and whether there is a sign.
ghost use Rattle.std.specs.Prelude.{◌≡◌, ◌≤◌};
ghost use Rattle.objects.specs.Values.{bytes_in};

/// How many bytes a scalar has.
#[derive(Clone, Copy, Debug, PartialEq, Eq)]
pub enum Width {
    /// One byte, as of char.
    One,
    /// Two bytes, as of short.
    Two,
    /// Four bytes, as of int, long and pointers.
    Four,
}

impl Width {
    /// The number of bytes.
    pub fn bytes(self) -> u32
        ensures is { result ≡ bytes_in self }
        ensures few { result ≤ 4 }
    {
        match self {
            Width::One => 1,
            Width::Two => 2,
            Width::Four => 4,
        }
    }
}

/// A scalar type, as far as bytes and conversions are concerned.
#[derive(Clone, Copy, Debug, PartialEq, Eq)]
pub struct Scalar {
    /// How many bytes it has.
    pub width: Width,
    /// Whether its numbers have a sign.
    pub signed: bool,
}
