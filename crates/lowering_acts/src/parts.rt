//! The parts of an expression, as many as its kind has. `Memory` comes where it has others, which it has in no checked unit.
ghost use Rattle.std.specs.Prelude.{◌≡◌, IfOk, OnOk};
ghost use Rattle.c_meaning.specs.CoreTrees.{Cores, NoCore, cores_of, kids_of, one, three, two};

use c_meaning::CoreExpr;
use lcc_base::Memory;

/// None.
pub fn no_part(e: &CoreExpr) -> Result<(), Memory>
    ensures { OnOk result (kids_of e.now ≡ NoCore) }
{
    match e.kids.as_slice() {
        [] => Ok(()),
        [_, ..] => Err(Memory),
    }
}

/// The only part.
pub fn one_part(e: &CoreExpr) -> Result<&CoreExpr, Memory>
    ensures { IfOk result (λ a. kids_of e.now ≡ one a.now) }
{
    match e.kids.as_slice() {
        [a] => Ok(a),
        [] | [_, _, ..] => Err(Memory),
    }
}

/// Both parts.
pub fn two_parts(e: &CoreExpr) -> Result<(&CoreExpr, &CoreExpr), Memory>
    ensures { IfOk result (λ r. kids_of e.now ≡ two r.0.now r.1.now) }
{
    match e.kids.as_slice() {
        [a, b] => Ok((a, b)),
        [] | [_] | [_, _, _, ..] => Err(Memory),
    }
}

/// The three parts.
pub fn three_parts(e: &CoreExpr) -> Result<(&CoreExpr, &CoreExpr, &CoreExpr), Memory>
    ensures { IfOk result (λ r. kids_of e.now ≡ three r.0.now r.1.now r.2.now) }
{
    match e.kids.as_slice() {
        [a, b, c] => Ok((a, b, c)),
        [] | [_] | [_, _] | [_, _, _, _, ..] => Err(Memory),
    }
}

/// The first part, and those behind it.
pub fn first_part(e: &CoreExpr) -> Result<(&CoreExpr, &[CoreExpr]), Memory>
    ensures { IfOk result (λ r. kids_of e.now ≡ Cores r.0.now (cores_of r.1.now)) }
{
    match e.kids.as_slice() {
        [first, rest @ ..] => Ok((first, rest)),
        [] => Err(Memory),
    }
}
