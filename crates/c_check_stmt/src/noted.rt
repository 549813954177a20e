//! The cases that a switch has so far (C89 3.6.4.2).
ghost use Rattle.std.specs.Prelude.{◌≡◌, ℕ};
ghost use Rattle.c_types.specs.Table.{Table};
ghost use Rattle.c_units.specs.Bodies.{with_cases};
ghost use Rattle.c_stmt_parts.specs.BodiesSeen.{IsBodyIn, body_in};

use c_stmt_parts::{Body, Cases};

/// The cases of a switch so far, and the label of its default.
#[derive(Drop)]
pub(crate) struct Noted {
    pub(crate) cases: Cases,
    pub(crate) default: Option<u32>,
}

/// Notes these in place of those of the innermost switch, which are given.
pub(crate) fn replace_noted(body: &mut Body, noted: Noted) -> Noted
    ensures noted { (t : Table) → body_in t body.new ≡ with_cases noted.cases noted.default (body_in t body.old) }
    ensures within { (n : ℕ) → IsBodyIn n body.old → IsBodyIn n body.new }
    ensures cases { result.cases ≡ body.old.cases }
    ensures default { result.default ≡ body.old.default }
{
    Noted {
        cases: std::mem::replace(&mut body.cases, noted.cases),
        default: std::mem::replace(&mut body.default, noted.default),
    }
}
