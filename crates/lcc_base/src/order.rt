//! Big-endian and little-endian byte order, and how numbers are split and joined in either.
ghost use Rattle.std.specs.Prelude.{◌≡◌, ◌<◌, ◌⊎◌, length, All};
ghost use Rattle.lcc_base.specs.NumberIn.{number_in};

/// The order of a number's bytes in memory.
#[derive(Clone, Copy, Debug, PartialEq, Eq)]
pub enum Order {
    /// The first byte weighs most.
    Big,
    /// The first byte weighs least.
    Little,
}

/// The four bytes of a number, in this order.
pub fn split(order: Order, n: u32) -> [u8; 4]
    ensures number { number_in order result ≡ n }
    ensures four { length result ≡ 4 }
    ensures bytes { All (λ byte. byte < 256) result }
{
    match order {
        Order::Big => n.to_be_bytes(),
        Order::Little => n.to_le_bytes(),
    }
}

/// The unsigned number of 1, 2 or 4 bytes in this order.
pub fn join(order: Order, bytes: &[u8]) -> u32
    requires { (length bytes.now ≡ 1) ⊎ (length bytes.now ≡ 2) ⊎ (length bytes.now ≡ 4) }
    ensures { result ≡ number_in order bytes.now }
{
    match (order, bytes) {
        (_, [a]) => *a as u32,
        (Order::Big, [a, b]) => u32::from_be_bytes([0, 0, *a, *b]),
        (Order::Big, [a, b, c, d]) => u32::from_be_bytes([*a, *b, *c, *d]),
        (Order::Little, [a, b]) => u32::from_le_bytes([*a, *b, 0, 0]),
        (Order::Little, [a, b, c, d]) => u32::from_le_bytes([*a, *b, *c, *d]),
        _ => unreachable!(),
    }
}
