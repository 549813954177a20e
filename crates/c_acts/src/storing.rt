//! What is written at a place.
ghost use Rattle.c_acts.specs.Spots.{LiesInUnit, stored_at};
ghost use Rattle.c_worlds.specs.Stops.{Stores};

use crate::spot::Spot;
use c_worlds::{Stop, store_at_line};
use lcc_base::Order;
use objects::{Purpose, Storage, Value};

/// For what something is written, in which order of bytes, and at which line.
#[derive(Clone, Copy)]
pub struct Writing {
    pub purpose: Purpose,
    pub order: Order,
    pub line: u32,
}

/// Writes a value of its type where the last one points to. After an `Undefined` nothing has changed, and after `Memory`
/// some of its bytes are written.
#[inline(always)]
pub fn store(
    storage: &mut Storage,
    how: Writing,
    spot: Spot,
    value: Value,
    p: Value,
) -> Result<(), Stop>
    requires { LiesInUnit spot }
    ensures { Stores (stored_at how.purpose how.order spot value storage.old.objects p) how.line storage.old storage.new result }
{
    if spot.width == 0 {
        let width = spot.scalar.width;
        store_at_line(
            how.line,
            storage.write(how.purpose, how.order, width, value, p),
        )
    } else {
        store_at_line(
            how.line,
            storage.write_field(how.purpose, how.order, spot.field(), value, p),
        )
    }
}
