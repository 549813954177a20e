//! Expressions with one part.
ghost use Rattle.std.specs.Prelude.{◌≡◌, false, [], ◌∷◌};
ghost use Rattle.c_acts.specs.Kinds.{is_call};
ghost use Rattle.c_acts.specs.Tests.{given_by};
ghost use Rattle.c_runs.specs.Expressions.{row};
ghost use Rattle.c_worlds.specs.Programs.{Calls, known, setting_of, tree};
ghost use Rattle.c_worlds.specs.Shown.{Comes, giving};
ghost use Rattle.c_meaning.specs.CoreTrees.{what_of, type_of, line_of};

use crate::asking::asked;
use crate::comparing::truth;
use crate::reading::read_place;
use c_meaning::{Conversion, CoreExpr, CoreKind};
use c_worlds::{Program, Stop, World, at_line};
use lcc_base::Cause;
use objects::{Value, convert, unary};

/// What an expression other than a call gives, whose only part gave a value: what a place holds, a place moved to a
/// member, a value converted or changed by an operator. `Undefined` comes as the row of its kind has it, and with
/// `Outside` where the kind wants other parts; `Memory` where a bit-field that is read doesn't lie in its unit.
pub fn unary_act(
    program: &Program,
    world: &World,
    e: &CoreExpr,
    part: &CoreExpr,
    value: Value,
) -> Result<Option<Value>, Stop>
    requires { is_call (what_of e.now) ≡ false }
    ensures { (calls : Calls) → Comes (λ k w. row (setting_of program.now calls) (what_of e.now) (known program.now (type_of e.now)) (line_of e.now) (giving (tree program.now part.now) value ∷ []) k w) world.now world.now result }
{
    match &e.what {
        CoreKind::Read => given(read_place(program, &world.storage, part, value, e.line)),
        CoreKind::Convert(Conversion::Integer(scalar)) => {
            given(at_line(part.line, convert(*scalar, value)))
        }
        CoreKind::Member { offset, .. } => {
            given(at_line(e.line, world.storage.move_by(value, *offset as i64)))
        }
        CoreKind::Unary(operator) => given(at_line(e.line, unary(*operator, value))),
        CoreKind::Not => {
            let holds = asked(program, world, part, value, e.line)?;
            Ok(Some(truth(!holds)))
        }
        CoreKind::Pointed
        | CoreKind::Address
        | CoreKind::First
        | CoreKind::Convert(Conversion::Pointer)
        | CoreKind::Comma => Ok(Some(value)),
        CoreKind::Convert(Conversion::Void) => Ok(None),
        _ => Err(Stop::Undefined(Cause::Outside, e.line)),
    }
}

/// A value that is given, or why there is none.
pub fn given(value: Result<Value, Stop>) -> Result<Option<Value>, Stop>
    ensures { result ≡ given_by value }
{
    match value {
        Ok(value) => Ok(Some(value)),
        Err(stop) => Err(stop),
    }
}
