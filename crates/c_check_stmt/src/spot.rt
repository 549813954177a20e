//! Where a statement stands in a function.
ghost use Rattle.std.specs.Prelude.{◌≡◌};
ghost use Rattle.c_units.specs.Bodies.{in_loop as in_loop_of, in_switch as in_switch_of};
ghost use Rattle.c_stmt_parts.specs.BodiesSeen.{around_seen};

use c_stmt_parts::{Around, Within};

/// Where a statement stands: its line, the function around it, and what stands around it there.
#[derive(Clone, Copy)]
pub(crate) struct Spot<'a> {
    pub(crate) line: u32,
    pub(crate) within: &'a Within,
    pub(crate) around: Around,
}

/// What stands around the body of a loop.
pub(crate) fn in_loop(around: Around) -> Around
    ensures { around_seen result ≡ in_loop_of (around_seen around) }
{
    Around {
        in_loop: true,
        in_switch: around.in_switch,
    }
}

/// What stands around the body of a `switch`.
pub(crate) fn in_switch(around: Around) -> Around
    ensures { around_seen result ≡ in_switch_of (around_seen around) }
{
    Around {
        in_loop: around.in_loop,
        in_switch: true,
    }
}
