//! What the kinds of expressions make of numbers and pointers that are found at once.
ghost use Rattle.std.specs.Prelude.{◌≡◌, [], ◌∷◌, Some, Ok, IfSome};
ghost use Rattle.c_acts.specs.Shapes.{shape_of};
ghost use Rattle.c_acts.specs.declared.shape.Shape.TheVariants as shaped;
ghost use Rattle.c_meaning.specs.CoreTrees.{what_of, type_of, line_of};
ghost use Rattle.c_plain.specs.AtOnce.{GivesAtOnce};
ghost use Rattle.c_runs.specs.Expressions.{row};
ghost use Rattle.c_worlds.specs.Programs.{Calls, HasNames, known, setting_of, tree};
ghost use Rattle.c_worlds.specs.Shown.{Comes, giving};
ghost use Rattle.objects.specs.declared.value.Value.TheVariants.{Number};

use crate::parts::first_part;
use c_acts::{leaf, read_number};
use c_meaning::{Conversion, CoreExpr, CoreKind};
use c_worlds::{Program, Stop, World, is_pointer};
use objects::{Value, change, combine, compare_words, to_scalar};

/// The value that an act gave, if it gave one.
pub(crate) fn found(given: Result<Option<Value>, Stop>) -> Option<Value>
    ensures { IfSome result (λ v. given ≡ Ok (Some v)) }
{
    match given {
        Ok(value) => value,
        Err(_) => None,
    }
}

/// The number of a constant.
#[inline(always)]
pub(crate) fn leaf_word(e: &CoreExpr) -> Option<u32>
    ensures { IfSome result (λ n. (p : Program) → (w : World) → GivesAtOnce p w e.now (Number n)) }
{
    match (&e.what, e.kids.as_slice()) {
        (CoreKind::Number(n), []) => Some(*n),
        _ => None,
    }
}

/// The pointer to an object.
#[inline(always)]
pub(crate) fn leaf_pointer(program: &Program, world: &World, e: &CoreExpr) -> Option<Value>
    requires names { HasNames program.now }
    requires shape { shape_of (what_of e.now) ≡ shaped.Leaf }
    ensures { IfSome result (λ v. GivesAtOnce program.now world.now e.now v) }
{
    match first_part(e) {
        None => match e.what {
            CoreKind::Local { place, .. } => world.locals.get(place),
            _ => found(leaf(program, world, e)),
        },
        Some(_) => None,
    }
}

/// The pointer to an object of the running call, where it is kept.
#[inline(always)]
pub(crate) fn local_place<'a>(world: &'a World, e: &CoreExpr) -> Option<&'a Value>
    ensures { IfSome result (λ v. (p : Program) → GivesAtOnce p world.now e.now v.now) }
{
    match first_part(e) {
        None => match e.what {
            CoreKind::Local { place, .. } => world.locals.find(place),
            _ => None,
        },
        Some(_) => None,
    }
}

/// The number that a place holds, other than a bit-field.
#[inline(always)]
pub(crate) fn read_word(
    program: &Program,
    world: &World,
    e: &CoreExpr,
    part: &CoreExpr,
    p: Value,
) -> Option<u32>
    ensures { IfSome result (λ n. (calls : Calls) → Comes (λ k w. row (setting_of program.now calls) (what_of e.now) (known program.now (type_of e.now)) (line_of e.now) (giving (tree program.now part.now) p ∷ []) k w) world.now world.now (Ok (Some (Number n)))) }
{
    match e.what {
        CoreKind::Read => read_number(program, &world.storage, part, p),
        _ => None,
    }
}

/// What one with one part makes of a number.
#[inline(always)]
pub(crate) fn changed_word(e: &CoreExpr, part: &CoreExpr, n: u32) -> Option<u32>
    ensures { IfSome result (λ m. (p : Program) → (x : World) → (calls : Calls) → Comes (λ k w. row (setting_of p calls) (what_of e.now) (known p (type_of e.now)) (line_of e.now) (giving (tree p part.now) (Number n) ∷ []) k w) x x (Ok (Some (Number m)))) }
{
    match e.what {
        CoreKind::Convert(Conversion::Integer(scalar)) => Some(to_scalar(scalar, n)),
        CoreKind::Unary(operator) => Some(change(operator, n)),
        _ => None,
    }
}

/// What one with two parts makes of two numbers.
#[inline(always)]
pub(crate) fn combined_word(
    program: &Program,
    e: &CoreExpr,
    left: &CoreExpr,
    n: u32,
    right: &CoreExpr,
    m: u32,
) -> Option<u32>
    ensures { IfSome result (λ o. (x : World) → (calls : Calls) → Comes (λ k w. row (setting_of program.now calls) (what_of e.now) (known program.now (type_of e.now)) (line_of e.now) (giving (tree program.now left.now) (Number n) ∷ giving (tree program.now right.now) (Number m) ∷ []) k w) x x (Ok (Some (Number o)))) }
{
    match e.what {
        CoreKind::Binary { operator, signed } => combine(signed, operator, n, m).ok(),
        CoreKind::Compare { operator, signed } if !is_pointer(program.core.types(), left.of) => {
            Some(compare_words(signed, operator, n, m) as u32)
        }
        _ => None,
    }
}
