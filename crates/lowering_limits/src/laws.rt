//! Laws of the limits.
ghost use Rattle.lowering_limits.specs.Limits.{NoneWithin, OneLimit};

/// Of a unit one limit at most is told, and none of a unit that keeps them; `Memory` besides.
pub fn one_limit()
    ensures one { OneLimit }
    ensures within { NoneWithin }
{}
