//! The type qualifiers const and volatile, as a set of flags.
ghost use Rattle.std.specs.Prelude.{⊤, [], ◌∷◌, ◌≡◌, codes, bit_or};

use bitflags::{Flag, Flags, bitflag_items};

/// The qualifiers of a type (C89 3.5.3), as a set of flags.
#[derive(Clone, Copy, PartialEq, Eq, Debug)]
pub struct Qualifiers(u8);

bitflag_items! {
    impl Qualifiers: u8 {
        const CONST = 1;
        const VOLATILE = 2;
    }
}

impl Flags for Qualifiers {
    type Bits = u8;

    ghost exact = { ⊤ };

    ghost table = { (codes "CONST", 1) ∷ (codes "VOLATILE", 2) ∷ [] };

    ghost set_of = { λ p. p.0 };

    fn flags<'a>() -> &'a [Flag<Qualifiers>] {
        Qualifiers::FLAGS
    }

    fn bits(&self) -> u8 {
        self.0
    }

    fn from_bits_retain(bits: u8) -> Qualifiers {
        Qualifiers(bits)
    }
}

impl Qualifiers {
    /// No qualifiers.
    pub fn none() -> Self
        ensures { result.0 ≡ 0 }
    {
        Qualifiers(0)
    }

    /// These and the others.
    pub fn with(self, others: Self) -> Self
        ensures { result.0 ≡ bit_or self.0 others.0 }
    {
        Qualifiers(self.0 | others.0)
    }

    /// They as bits: 1 for const, 2 for volatile.
    pub fn number(self) -> u8
        ensures { result ≡ self.0 }
    {
        self.0
    }
}
