//! What is asked of a type before a further step of a declarator (C89 3.5.4), told without forming the type.
ghost use Rattle.std.specs.Prelude.{◌≡◌, ◌<◌, ◌*◌, ℕ, List, Option, length, min};
ghost use Rattle.c_types.specs.CType.{CType};
ghost use Rattle.c_types.specs.Layout.{Tag, extent, times};
ghost use Rattle.c_types.specs.Table.{is_above, tags, type_at};
ghost use Rattle.c_meaning.specs.TypeRows.{formed_by, length_of};
ghost use Rattle.c_check_expr.specs.Outlines.{IsOutline, capped};
ghost use Rattle.c_check_expr.specs.PartsSeen.{IsSizeIn, IsStepIn, size_seen, step_seen};

use crate::parts::Step;
use c_meaning::CoreExpr;
use c_types::{TypeId, TypeTable};
use c_values::{constant_value, kinds};

/// The greatest size of an object, in bytes.
pub(crate) const LARGEST: u32 = 16_777_216;

/// What is asked of a type.
#[derive(Clone, Copy, Debug)]
pub(crate) struct Outline {
    /// The size in bytes; one more than the greatest where it is above that. None where the type is a
    /// function or incomplete.
    pub(crate) size: Option<u32>,
    /// Whether it is a function or an array.
    pub(crate) is_composed: bool,
}

/// That of a type of the table.
pub(crate) fn outline_of(types: &TypeTable, id: TypeId) -> Outline
    requires { id < length types.now.forms }
    ensures { IsOutline (tags types.now) (type_at types.now id) result }
{
    let size = match types.size(id) {
        Some(size) => Some(size.min(LARGEST + 1)),
        None => None,
    };
    Outline {
        size,
        is_composed: kinds::is_function(types, id) || kinds::element(types, id).is_some(),
    }
}

/// Whether the type is above the greatest size.
pub(crate) fn is_large(of: Outline) -> bool
    ensures { (k : List Tag) (t : CType) → IsOutline k t of → result ≡ is_above (extent k t).size }
{
    match of.size {
        Some(size) => size > LARGEST,
        None => false,
    }
}

/// That of what a step makes of the type.
pub(crate) fn after(types: &TypeTable, before: Outline, step: &Step) -> Outline
    requires { IsStepIn (length types.now.forms) step.now }
    ensures { (t : CType) → IsOutline (tags types.now) t before → IsOutline (tags types.now) (formed_by (step_seen types.now step.now) t) result }
{
    match step {
        Step::Pointer(_) => Outline {
            size: Some(4),
            is_composed: false,
        },
        Step::Array(size) => Outline {
            size: array_size(array_length(types, size), before.size),
            is_composed: true,
        },
        Step::Function { .. } | Step::Named(_) | Step::Open => Outline {
            size: None,
            is_composed: true,
        },
    }
}

/// The length that the expression of an array's size gives. None where it is no constant above 0.
pub fn array_length(types: &TypeTable, size: &Option<CoreExpr>) -> Option<u64>
    requires { IsSizeIn (length types.now.forms) size.now }
    ensures { result ≡ length_of (size_seen types.now size.now) }
{
    match size {
        None => None,
        Some(c) => match constant_value(types, c) {
            Some(n) if n > 0 => Some(n as u64),
            _ => None,
        },
    }
}

/// The size of so many elements.
fn array_size(count: Option<u64>, element: Option<u32>) -> Option<u32>
    ensures { (s : Option ℕ) → element ≡ capped s → result ≡ capped (times count s) }
{
    match (count, element) {
        (Some(count), Some(element)) => Some(product(count, element)),
        _ => None,
    }
}

/// The product, or one more than the greatest size.
fn product(count: u64, size: u32) -> u32
    ensures { (s : ℕ) → size ≡ min s 16777217 → result ≡ min (count * s) 16777217 }
{
    let most = u64::from(LARGEST) + 1;
    (count.min(most) * u64::from(size)).min(most) as u32
}
