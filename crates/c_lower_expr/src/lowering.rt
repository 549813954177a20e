//! The lowering of a function of a core.
ghost use Rattle.std.specs.Prelude.{◌≡◌, ℕ, slice_get, IfOk};
ghost use Rattle.c_lower_expr.specs.Keeping.{NodeKeeps};
ghost use Rattle.c_lower_expr.specs.Places.{NodeComes, context_in, parameters_of};
ghost use Rattle.c_meaning.specs.CoreTrees.{seen};
ghost use Rattle.c_types.specs.Table.{type_in, types};
ghost use Rattle.lowered_forms.specs.Handed.{low_node};
ghost use Rattle.lowered_forms.specs.Lows.{Low};
ghost use Rattle.lowering_steps.specs.States.{Shows};

use crate::whole::lower_node;
use c_meaning::{Core, CoreExpr};
use c_worlds::Program;
use lcc_base::{Items, Memory, Order};
use lowering_acts::Site;
use lowering_steps::State;

/// A function that is lowered: its place in the core, the order of bytes in memory, the place of each of its locals, and how far it is
/// lowered. A place below 0 is an offset from the frame's top, any other one from the first parameter word; that of a parameter of
/// structure type is the place of the word with its address.
#[derive(Drop)]
pub struct Lowering {
    pub function: u32,
    pub order: Order,
    pub places: Items<i32>,
    pub state: State,
}

/// An expression's node in the block that is open afterwards: of a structure that of its address, of a void expression a 0. `Memory`
/// comes where an allocation is refused, where the block or the frame is full or no label is left, and where no checked unit holds the
/// expression; `into` is given up then.
pub fn lower_expr(core: &Core, e: &CoreExpr, into: &mut Lowering) -> Result<u32, Memory>
    ensures node { let s = context_in core.now into.old.function into.old.order into.old.places in (l : Low) → Shows into.old.state l → IfOk result (λ n. NodeComes into.new.state n (low_node s (seen (λ id. type_in (types core.now.types) id) e.now) l)) }
    ensures keeps { let s = context_in core.now into.old.function into.old.order into.old.places in (l : Low) → NodeKeeps s (seen (λ id. type_in (types core.now.types) id) e.now) l }
    ensures function { into.new.function ≡ into.old.function }
    ensures order { into.new.order ≡ into.old.order }
    ensures places { into.new.places ≡ into.old.places }
{
    let program = Program::new(core, into.order);
    let count = parameters(core, into.function);
    let places = into.places.as_slice();
    let site = Site {
        program,
        parameters: count,
        places,
    };
    lower_node(&site, e, &mut into.state)
}

// How many parameters a function of the core has; none where it isn't there.
fn parameters(core: &Core, function: u32) -> u32
    ensures { result ≡ parameters_of (slice_get core.now.functions function) }
{
    match core.functions().get(function as usize) {
        Some(function) => function.parameters,
        None => 0,
    }
}
