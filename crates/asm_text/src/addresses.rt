//! The memory map of a program: where code, data, stack and built-in functions stand.
ghost use Rattle.std.specs.Prelude.{◌≡◌};
ghost use Rattle.asm_text.specs.Addresses.{address_at, built_in_at, IsAddressable};

use crate::place::Place;

/// Where code starts.
pub const CODE_START: u32 = 0x0040_0000;

/// Where data start.
pub const DATA_START: u32 = 0x1000_0000;

/// The address above the stack.
pub const STACK_TOP: u32 = 0x7fff_0000;

/// The built-in function that prints a byte.
pub const PUTCHAR_AT: u32 = 0x0030_0000;

/// The built-in function that reads a byte.
pub const GETCHAR_AT: u32 = 0x0030_0004;

/// The built-in function that ends a run.
pub const EXIT_AT: u32 = 0x0030_0008;

/// Where a run ends.
pub const END_AT: u32 = 0x0030_0040;

/// The address of the built-in function of this name, if there is one.
pub(crate) fn built_in_at(name: &[u8]) -> Option<u32>
    ensures { result ≡ built_in_at name.now }
{
    if name == b"putchar".as_slice() {
        Some(PUTCHAR_AT)
    } else if name == b"getchar".as_slice() {
        Some(GETCHAR_AT)
    } else if name == b"exit".as_slice() {
        Some(EXIT_AT)
    } else {
        None
    }
}

/// The address of a place within the limits.
pub(crate) fn address_at(place: Place) -> u32
    requires { IsAddressable place }
    ensures { result ≡ address_at place }
{
    match place {
        Place::Code(n) => CODE_START + 4 * n,
        Place::Data(n) => DATA_START + n,
    }
}
