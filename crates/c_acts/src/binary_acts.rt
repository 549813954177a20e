//! Expressions with two parts.
ghost use Rattle.std.specs.Prelude.{◌≡◌, false, [], ◌∷◌};
ghost use Rattle.c_acts.specs.Kinds.{is_call, is_writing};
ghost use Rattle.c_acts.specs.Tests.{both_of, either_of, given_by, truth_of};
ghost use Rattle.c_runs.specs.Expressions.{compared_by, moved_among, row};
ghost use Rattle.c_worlds.specs.Programs.{Calls, known, setting_of, tree};
ghost use Rattle.c_worlds.specs.Shown.{Comes, Gets, StaysBelow, giving};
ghost use Rattle.c_worlds.specs.Stops.{Tells};
ghost use Rattle.c_meaning.specs.CoreTrees.{what_of, type_of, line_of};

use crate::asking::asked;
use crate::assigning::assign;
use crate::changing::change_place;
use crate::comparing::{Compared, compare_values, truth};
use crate::moving::{Moving, Typed, move_among};
use crate::unary_acts::given;
use c_meaning::{CoreExpr, CoreKind};
use c_worlds::{Program, Stop, World, at_line};
use lcc_base::Cause;
use objects::{Storage, Value, binary};

/// The two parts of an expression, and the values that they gave.
#[derive(Clone, Copy)]
pub struct Parts<'a> {
    pub left: &'a CoreExpr,
    pub left_value: Value,
    pub right: &'a CoreExpr,
    pub right_value: Value,
}

/// What an expression other than a call gives, whose two parts gave values: an operation, a comparison, a pointer moved,
/// or a place assigned or changed. `Undefined` comes as the row of its kind has it, and with `Outside` where the kind
/// wants other parts; then nothing has changed. `Memory` comes where a store wants some, and where a bit-field doesn't lie
/// in its unit or an element has 2^31 bytes, which no checked unit has; some bytes of the place may then be written.
pub fn binary_act(
    program: &Program,
    world: &mut World,
    e: &CoreExpr,
    parts: &Parts,
) -> Result<Option<Value>, Stop>
    requires { is_call (what_of e.now) ≡ false }
    ensures comes { (calls : Calls) → Comes (λ k w. row (setting_of program.now calls) (what_of e.now) (known program.now (type_of e.now)) (line_of e.now) (giving (tree program.now parts.now.left.now) parts.now.left_value ∷ giving (tree program.now parts.now.right.now) parts.now.right_value ∷ []) k w) world.old world.new result }
    ensures stays { StaysBelow world.old world.new }
{
    match &e.what {
        CoreKind::Assign => given(assign(program, world, e.of, parts, e.line)),
        CoreKind::Change(by) => given(change_place(program, world, *by, false, parts, e.line)),
        CoreKind::Postfix(by) => given(change_place(program, world, *by, true, parts, e.line)),
        _ => combine(program, world, e, parts),
    }
}

/// The same of an expression that writes nothing.
pub fn combine(
    program: &Program,
    world: &World,
    e: &CoreExpr,
    parts: &Parts,
) -> Result<Option<Value>, Stop>
    requires call { is_call (what_of e.now) ≡ false }
    requires reads { is_writing (what_of e.now) ≡ false }
    ensures { (calls : Calls) → Comes (λ k w. row (setting_of program.now calls) (what_of e.now) (known program.now (type_of e.now)) (line_of e.now) (giving (tree program.now parts.now.left.now) parts.now.left_value ∷ giving (tree program.now parts.now.right.now) parts.now.right_value ∷ []) k w) world.now world.now result }
{
    let (left, right) = (parts.left_value, parts.right_value);
    match &e.what {
        CoreKind::Binary { operator, signed } => {
            given(at_line(e.line, binary(*signed, *operator, left, right)))
        }
        CoreKind::Compare { operator, signed } => {
            let what = Compared {
                operator: *operator,
                signed: *signed,
            };
            given(at_line(e.line, compare_parts(program, &world.storage, what, parts)))
        }
        CoreKind::Move { size, back } => {
            let how = Moving {
                size: *size,
                back: *back,
                line: e.line,
            };
            given(move_parts(program, &world.storage, how, parts))
        }
        CoreKind::Difference { size } => {
            given(at_line(e.line, world.storage.subtract(*size, left, right)))
        }
        CoreKind::And => answered(both(program, world, parts, e.line)),
        CoreKind::Or => answered(either(program, world, parts, e.line)),
        CoreKind::Comma => Ok(Some(right)),
        _ => Err(Stop::Undefined(Cause::Outside, e.line)),
    }
}

/// A comparison of two values, as 1 or 0.
fn compare_parts(
    program: &Program,
    storage: &Storage,
    what: Compared,
    parts: &Parts,
) -> Result<Value, Cause>
    ensures { result ≡ compared_by (type_of (tree program.now parts.now.left.now)) what.signed what.operator storage.now.objects parts.now.left_value parts.now.right_value }
{
    let left = parts.left;
    let types = program.core.types();
    compare_values(
        types,
        left.of,
        storage,
        what,
        parts.left_value,
        parts.right_value,
    )
}

/// One of two values moved by as many elements as the other one says.
fn move_parts(
    program: &Program,
    storage: &Storage,
    how: Moving,
    parts: &Parts,
) -> Result<Value, Stop>
    ensures { Tells (moved_among how.size how.back (type_of (tree program.now parts.now.left.now)) (type_of (tree program.now parts.now.right.now)) storage.now.objects parts.now.left_value parts.now.right_value) how.line result }
{
    let (a, b) = (parts.left, parts.right);
    let left = Typed {
        value: parts.left_value,
        of: a.of,
    };
    let right = Typed {
        value: parts.right_value,
        of: b.of,
    };
    move_among(program.core.types(), storage, how, left, right)
}

/// Whether both values hold as tests; the right one is asked only where the left one holds.
fn both(program: &Program, world: &World, parts: &Parts, line: u32) -> Result<bool, Stop>
    ensures { Gets (λ k w. both_of (giving (tree program.now parts.now.left.now) parts.now.left_value) (giving (tree program.now parts.now.right.now) parts.now.right_value) line k w) world.now world.now (truth_of result) }
{
    if asked(program, world, parts.left, parts.left_value, line)? {
        asked(program, world, parts.right, parts.right_value, line)
    } else {
        Ok(false)
    }
}

/// Whether one of two values holds as a test; the right one is asked only where the left one doesn't.
fn either(program: &Program, world: &World, parts: &Parts, line: u32) -> Result<bool, Stop>
    ensures { Gets (λ k w. either_of (giving (tree program.now parts.now.left.now) parts.now.left_value) (giving (tree program.now parts.now.right.now) parts.now.right_value) line k w) world.now world.now (truth_of result) }
{
    if asked(program, world, parts.left, parts.left_value, line)? {
        Ok(true)
    } else {
        asked(program, world, parts.right, parts.right_value, line)
    }
}

/// 1 or 0, as an answer holds, or why there is none.
fn answered(answer: Result<bool, Stop>) -> Result<Option<Value>, Stop>
    ensures { result ≡ given_by (truth_of answer) }
{
    match answer {
        Ok(holds) => Ok(Some(truth(holds))),
        Err(stop) => Err(stop),
    }
}
