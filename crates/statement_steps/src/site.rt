//! What a function's statements are lowered in.
ghost use Rattle.std.specs.Prelude.{◌≡◌, IfOk};
ghost use Rattle.c_types.specs.Table.{type_at};
ghost use Rattle.c_meaning.specs.Rows.{result_type};
ghost use Rattle.lowered_statements.specs.Functions.{label_or as label_or_of};
ghost use Rattle.statement_steps.specs.Functions.{function_of};

use crate::labels::Labels;
use c_types::{TypeId, TypeTable};
use c_worlds::known_type;
use lcc_base::Memory;
use lowering_acts::Site;

/// The place of the type void in each table of types.
const VOID: TypeId = 0;

/// What a function's statements are lowered in: where its expressions stand, the types of its locals and of its result, whether a
/// return without a value gives 0, its labels, and the name of its first table.
#[derive(Clone, Copy)]
pub struct FunctionSite<'a> {
    pub site: Site<'a>,
    pub locals: &'a [TypeId],
    pub result: TypeId,
    pub gives_zero: bool,
    pub labels: &'a Labels,
    pub tables: u32,
}

/// The number of a label that may be left away; without it that of the end. `Memory` comes where it is 2^32 or more.
pub fn label_or(f: &FunctionSite, end: u32, label: Option<u32>) -> Result<u32, Memory>
    ensures { IfOk result (λ n. n ≡ label_or_of (function_of f.now) end label) }
{
    match label {
        Some(label) => f.labels.number(label),
        None => Ok(end),
    }
}

/// The type of the result of a function of this type.
pub fn result_of(types: &TypeTable, of: TypeId) -> TypeId
    ensures { type_at types.now result ≡ result_type (type_at types.now of) }
{
    let (base, _) = types.unqualified(known_type(types, of));
    match types.function_of(base) {
        Some((result, _, _)) => result,
        None => types.basic_type(VOID),
    }
}
