//! The tables on one side of another one.
ghost use Rattle.std.specs.Prelude.{◌≡◌, IfOk};
ghost use Rattle.lowered_statements.specs.Searches as searches;
ghost use Rattle.statement_steps.specs.Sides.{TakesWay};
ghost use Rattle.switch_tables.specs.Searches.{search_over};

use lcc_base::Memory;
use lowering_steps::State;
use switch_tables::Table;

/// The label to which a number goes on one side: a new one, or the default's where there is no table. `Memory` comes where no label is
/// left.
pub(crate) fn way(tables: &[Table], default: u32, into: &mut State) -> Result<u32, Memory>
    ensures { IfOk result (λ n. TakesWay tables.now default n into.old into.new) }
{
    if tables.is_empty() {
        Ok(default)
    } else {
        into.new_label()
    }
}

/// Whether there is no table on either side.
pub(crate) fn is_alone(less: &[Table], greater: &[Table]) -> bool
    ensures { result ≡ searches.is_alone (search_over less.now) (search_over greater.now) }
{
    less.is_empty() && greater.is_empty()
}
