//! Checked units as code has them.
ghost use Rattle.c_ast.specs.Levels.{FitsExternals};
ghost use Rattle.c_ast.specs.Trees.{UnitTree};
ghost use Rattle.c_meaning.specs.State.{State};
ghost use Rattle.c_meaning.specs.Units.{unit_seen};
ghost use Rattle.c_tree_names.specs.Names.{AllExternalNames};
ghost use Rattle.c_units.specs.UnitsRelation.{TypesUnit};
ghost use Rattle.c_checked_units.specs.Checked.{IsCheckedUnit};

use crate::laws::units_are_checked;
use c_meaning::Core;

/// A core that is what a unit of the grammar is typed as keeps what its lowering needs of it.
pub fn core_is_checked(core: &Core)
    ensures { (t : UnitTree) → (s : State) → FitsExternals t.externals → AllExternalNames t.externals → TypesUnit t s (unit_seen core.now) → IsCheckedUnit (unit_seen core.now) }
{
    units_are_checked();
    let _functions = core.functions();
    core.types().types_are_within_limits();
}
