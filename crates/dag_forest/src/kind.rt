//! The kinds of values that temporaries keep.
ghost use Rattle.std.specs.Prelude.{◌≡◌};
ghost use Rattle.dag_forest.specs.Choice.{kind_of};

use op_forest::Suffix;

/// What is kept in a temporary: a number of 8 or 16 bits, a signed or unsigned one, or an address.
#[derive(Clone, Copy, Debug, PartialEq, Eq)]
pub enum Kind {
    Char,
    Short,
    Signed,
    Unsigned,
    Address,
}

impl Kind {
    /// What a node of this suffix is kept as.
    pub(crate) fn of(suffix: Suffix) -> Self
        ensures { result ≡ kind_of suffix }
    {
        match suffix {
            Suffix::C => Kind::Char,
            Suffix::S => Kind::Short,
            Suffix::U => Kind::Unsigned,
            Suffix::P => Kind::Address,
            _ => Kind::Signed,
        }
    }
}
