//! Comparisons of numbers and of pointers.
ghost use Rattle.std.specs.Prelude.{◌≡◌};
ghost use Rattle.c_meaning.specs.Types.{is_pointer as is_pointer_type};
ghost use Rattle.c_runs.specs.Expressions.{compared_by, is_so as is_answered, pointers_compared};
ghost use Rattle.c_runs.specs.Outcomes.{truth as truth_value};
ghost use Rattle.c_types.specs.Table.{type_at};

use c_types::{TypeId, TypeTable};
use c_worlds::is_pointer;
use lcc_base::Cause;
use objects::{Comparison, Storage, Value, compare};
use std::cmp::Ordering;

/// A comparison, of numbers signed or unsigned, or of pointers.
#[derive(Clone, Copy)]
pub struct Compared {
    pub operator: Comparison,
    pub signed: bool,
}

/// Whether the comparison of two values holds, the left one of this type, as 1 or 0. Of numbers `PointerNumber` comes, of
/// pointers `Dead`, `PointerOrder` and `PointerEqual`.
pub fn compare_values(
    types: &TypeTable,
    of: TypeId,
    storage: &Storage,
    what: Compared,
    left: Value,
    right: Value,
) -> Result<Value, Cause>
    ensures { result ≡ compared_by (type_at types.now of) what.signed what.operator storage.now.objects left right }
{
    let holds = if is_pointer(types, of) {
        compare_pointers(storage, what.operator, left, right)?
    } else {
        compare(what.signed, what.operator, left, right)?
    };
    Ok(truth(holds))
}

/// Whether the comparison of two pointers holds. Equality isn't asked by their order.
fn compare_pointers(
    storage: &Storage,
    operator: Comparison,
    left: Value,
    right: Value,
) -> Result<bool, Cause>
    ensures { result ≡ pointers_compared operator storage.now.objects left right }
{
    match operator {
        Comparison::Equal => storage.compare(left, right),
        Comparison::NotEqual => Ok(!storage.compare(left, right)?),
        _ => Ok(is_so(operator, storage.order(left, right)?)),
    }
}

/// How an order answers a comparison.
fn is_so(operator: Comparison, order: Ordering) -> bool
    ensures { result ≡ is_answered operator order }
{
    match (operator, order) {
        (Comparison::Less, Ordering::Less) => true,
        (Comparison::Less, _) => false,
        (Comparison::LessEqual, Ordering::Greater) => false,
        (Comparison::LessEqual, _) => true,
        (Comparison::Greater, Ordering::Greater) => true,
        (Comparison::Greater, _) => false,
        (Comparison::GreaterEqual, Ordering::Less) => false,
        (Comparison::GreaterEqual, _) => true,
        (Comparison::Equal, Ordering::Equal) => true,
        (Comparison::Equal, _) => false,
        (Comparison::NotEqual, Ordering::Equal) => false,
        (Comparison::NotEqual, _) => true,
    }
}

/// 1 or 0.
pub fn truth(holds: bool) -> Value
    ensures { result ≡ truth_value holds }
{
    Value::Number(if holds { 1 } else { 0 })
}
