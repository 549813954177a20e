//! What an access to an object needs to know of its place: scalar type and bit-field.
ghost use Rattle.std.specs.Prelude.{◌≡◌, ◌≤◌, ◌+◌, IfOk, IfErr};
ghost use Rattle.c_acts.specs.Spots.{LiesInUnit, bits_of, kept_of};
ghost use Rattle.c_meaning.specs.CoreTrees.{seen};
ghost use Rattle.c_runs.specs.Places.{Spot as SpotOf, spot_of};
ghost use Rattle.c_types.specs.Table.{type_at};
ghost use Rattle.c_worlds.specs.declared.stop.Stop.TheVariants.{Memory};

use c_meaning::{CoreExpr, CoreKind};
use c_types::TypeTable;
use c_worlds::{Stop, scalar};
use objects::{Field, Scalar};

/// What stands at a place: the width and sign of its type, and where it is a bit-field, how many bits of its unit were
/// filled before it, and its width, else 0.
#[derive(Clone, Copy, Debug)]
pub struct Spot {
    pub scalar: Scalar,
    pub first: u8,
    pub width: u8,
}

impl Spot {
    /// That of an expression of a place. `Memory` where a bit-field doesn't lie in its unit of 32 bits, which no checked unit
    /// has.
    #[inline(always)]
    pub fn of(types: &TypeTable, place: &CoreExpr) -> Result<Self, Stop>
        ensures is { IfOk result (λ x. x ≡ kept_of (spot_of (seen (type_at types.now) place.now))) }
        ensures inside { IfOk result LiesInUnit }
        ensures err { IfErr result (λ stop. stop ≡ Memory) }
    {
        let scalar = scalar(types, place.of);
        match place.what {
            CoreKind::Member { first, width, .. } => Self::of_member(scalar, first, width),
            _ => Ok(Spot {
                scalar,
                first: 0,
                width: 0,
            }),
        }
    }

    /// That of a member whose type has this width and sign. `Memory` as above.
    pub fn of_member(scalar: Scalar, first: u8, width: u8) -> Result<Self, Stop>
        ensures is { IfOk result (λ x. x ≡ record { scalar = scalar; first = first; width = width }) }
        ensures inside { IfOk result LiesInUnit }
        ensures err { IfErr result (λ stop. stop ≡ Memory) }
    {
        if width != 0 && first as u32 + width as u32 > 32 {
            Err(Stop::Memory)
        } else {
            Ok(Spot {
                scalar,
                first,
                width,
            })
        }
    }

    /// Its bits, where it is a bit-field.
    pub(crate) fn field(self) -> Field
        ensures { result ≡ bits_of self }
    {
        Field {
            first: self.first,
            width: self.width,
            signed: self.scalar.signed,
        }
    }
}
