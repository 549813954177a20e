//! Numbers and pointers that are found at once: the common case, without results that are handed on. Nothing is written
//! here, and what isn't found at once is left to `plain_value`, which tells why.
ghost use Rattle.std.specs.Prelude.{◌≡◌, IfSome};
ghost use Rattle.c_acts.specs.Shapes.{shape_of};
ghost use Rattle.c_acts.specs.declared.shape.Shape.TheVariants as shaped;
ghost use Rattle.c_meaning.specs.CoreTrees.{NoCore, kids_of, what_of};
ghost use Rattle.c_plain.specs.AtOnce.{GivesAtOnce};
ghost use Rattle.c_worlds.specs.Programs.{HasNames};
ghost use Rattle.objects.specs.declared.value.Value.TheVariants.{Number};

use crate::found::{
    changed_word, combined_word, found, leaf_pointer, leaf_word, local_place, read_word,
};
use crate::parts::{one_part, two_parts};
use c_acts::{Parts, Shape, combine, unary_act};
use c_meaning::{CoreExpr, CoreKind};
use c_worlds::{Program, World};
use objects::Value;

/// The number that an expression gives that writes nothing, where it is found at once; `None` says nothing.
#[cycle(word)]
pub fn plain_word(program: &Program, world: &World, e: &CoreExpr) -> Option<u32>
    requires { HasNames program.now }
    ensures { IfSome result (λ n. GivesAtOnce program.now world.now e.now (Number n)) }
{
    match Shape::of(&e.what) {
        Shape::Leaf => leaf_word(e),
        Shape::Unary => unary_word(program, world, e),
        Shape::Binary => binary_word(program, world, e),
        _ => None,
    }
}

/// The number that one with one part gives.
#[cycle(word)]
fn unary_word(program: &Program, world: &World, e: &CoreExpr) -> Option<u32>
    requires names { HasNames program.now }
    requires shape { shape_of (what_of e.now) ≡ shaped.Unary }
    ensures { IfSome result (λ n. GivesAtOnce program.now world.now e.now (Number n)) }
{
    let part = one_part(e)?;
    match e.what {
        CoreKind::Read => match local_place(world, part) {
            Some(p) => read_word(program, world, e, part, *p),
            None => {
                let p = plain_pointer(program, world, part)?;
                read_word(program, world, e, part, p)
            }
        },
        _ => {
            let n = plain_word(program, world, part)?;
            changed_word(e, part, n)
        }
    }
}

/// The number that one with two parts gives.
#[cycle(word)]
fn binary_word(program: &Program, world: &World, e: &CoreExpr) -> Option<u32>
    requires names { HasNames program.now }
    requires shape { shape_of (what_of e.now) ≡ shaped.Binary }
    ensures { IfSome result (λ n. GivesAtOnce program.now world.now e.now (Number n)) }
{
    let (left, right) = two_parts(e)?;
    let n = plain_word(program, world, left)?;
    let m = plain_word(program, world, right)?;
    combined_word(program, e, left, n, right, m)
}

/// The pointer, or other value, that such an expression gives, where it is found at once.
#[cycle(word)]
pub fn plain_pointer(program: &Program, world: &World, e: &CoreExpr) -> Option<Value>
    requires { HasNames program.now }
    ensures { IfSome result (λ v. GivesAtOnce program.now world.now e.now v) }
{
    match Shape::of(&e.what) {
        Shape::Leaf => leaf_pointer(program, world, e),
        Shape::Unary => unary_pointer(program, world, e),
        Shape::Binary => moved_pointer(program, world, e),
        _ => None,
    }
}

/// That of one with one part.
#[cycle(word)]
fn unary_pointer(program: &Program, world: &World, e: &CoreExpr) -> Option<Value>
    requires names { HasNames program.now }
    requires shape { shape_of (what_of e.now) ≡ shaped.Unary }
    ensures { IfSome result (λ v. GivesAtOnce program.now world.now e.now v) }
{
    let part = one_part(e)?;
    let p = plain_pointer(program, world, part)?;
    found(unary_act(program, world, e, part, p))
}

/// That of a pointer moved by elements.
#[cycle(word)]
fn moved_pointer(program: &Program, world: &World, e: &CoreExpr) -> Option<Value>
    requires names { HasNames program.now }
    requires shape { shape_of (what_of e.now) ≡ shaped.Binary }
    ensures { IfSome result (λ v. GivesAtOnce program.now world.now e.now v) }
{
    let CoreKind::Move { .. } = e.what else {
        return None;
    };
    let (left, right) = two_parts(e)?;
    let left_value = plain_pointer(program, world, left)?;
    let n = plain_word(program, world, right)?;
    let parts = Parts {
        left,
        left_value,
        right,
        right_value: Value::Number(n),
    };
    found(combine(program, world, e, &parts))
}
