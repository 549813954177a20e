//! The parts of an expression, as many as its kind has.
ghost use Rattle.std.specs.Prelude.{◌≡◌, ◌≢◌, ℕ, IfNone, IfSome};
ghost use Rattle.lcc_base.specs.declared.cause.Cause.TheVariants.{Outside as OutsideCause};
ghost use Rattle.c_meaning.specs.CoreTrees.{Cores, NoCore, cores_of, kids_of, line_of, one, three, two};
ghost use Rattle.c_plain.specs.Counts.{count};
ghost use Rattle.c_worlds.specs.declared.stop.Stop.TheVariants as stop;

use c_meaning::CoreExpr;
use c_worlds::Stop;
use lcc_base::Cause;

/// The only part.
#[inline(always)]
pub(crate) fn one_part(e: &CoreExpr) -> Option<&CoreExpr>
    ensures some { IfSome result (λ a. kids_of e.now ≡ one a.now) }
    ensures none { IfNone result (count (kids_of e.now) ≢ 1) }
{
    match e.kids.as_slice() {
        [a] => Some(a),
        [] => None,
        [_, _, ..] => None,
    }
}

/// Both parts.
#[inline(always)]
pub(crate) fn two_parts(e: &CoreExpr) -> Option<(&CoreExpr, &CoreExpr)>
    ensures some { IfSome result (λ r. kids_of e.now ≡ two r.0.now r.1.now) }
    ensures none { IfNone result (count (kids_of e.now) ≢ 2) }
{
    match e.kids.as_slice() {
        [a, b] => Some((a, b)),
        [] | [_] => None,
        [_, _, _, ..] => None,
    }
}

/// The three parts.
pub(crate) fn three_parts(e: &CoreExpr) -> Option<(&CoreExpr, &CoreExpr, &CoreExpr)>
    ensures some { IfSome result (λ r. kids_of e.now ≡ three r.0.now r.1.now r.2.now) }
    ensures none { IfNone result (count (kids_of e.now) ≢ 3) }
{
    match e.kids.as_slice() {
        [a, b, c] => Some((a, b, c)),
        [] | [_] | [_, _] => None,
        [_, _, _, _, ..] => None,
    }
}

/// The first part, and those behind it.
#[inline(always)]
pub(crate) fn first_part(e: &CoreExpr) -> Option<(&CoreExpr, &[CoreExpr])>
    ensures some { IfSome result (λ r. kids_of e.now ≡ Cores r.0.now (cores_of r.1.now)) }
    ensures none { IfNone result (kids_of e.now ≡ NoCore) }
{
    match e.kids.as_slice() {
        [first, rest @ ..] => Some((first, rest)),
        [] => None,
    }
}

/// Why an expression that has other parts than its kind can't be evaluated.
pub(crate) fn stray(e: &CoreExpr) -> Stop
    ensures { result ≡ stop.Undefined OutsideCause (line_of e.now) }
{
    Stop::Undefined(Cause::Outside, e.line)
}
