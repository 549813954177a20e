//! Units, checked (C89 3.7).
ghost use Rattle.std.specs.Prelude.{◌≡◌, ℕ, Err, Some, length, map, IfErr, IfOk};
ghost use Rattle.lcc_base.specs.declared.which.Which.{Which};
ghost use Rattle.c_ast.specs.UnitViews.{unit_of};
ghost use Rattle.c_meaning.specs.Constraints.{Breaks, Passes};
ghost use Rattle.c_meaning.specs.Each.{EachIs};
ghost use Rattle.c_meaning.specs.State.{State};
ghost use Rattle.c_meaning.specs.Typing.{Fine};
ghost use Rattle.c_meaning.specs.Units.{IsFunctionIn, IsObjectIn, IsUnit, unit_seen};
ghost use Rattle.c_values.specs.declared.check_fault.CheckFault.TheVariants.{Constraint, Limit};
ghost use Rattle.c_check_expr.specs.AtNode.{Tells};
ghost use Rattle.c_check_expr.specs.Known.{AreSymbolsIn, state_of};
ghost use Rattle.c_units.specs.UnitNodes.{first_in, unit_nodes};
ghost use Rattle.c_units.specs.UnitsRelation.{TypesUnit};
ghost use Rattle.c_tree_names.specs.Names.{IsGrammatical};
ghost use Rattle.c_core_fits.specs.Counted.{IsCounted};
ghost use Rattle.c_unit_parts.specs.PartsIn.{ArePartsIn, parts_in};
ghost use Rattle.c_check_unit.specs.ExternalsIn.{external_seen};
ghost use Rattle.c_check_unit.specs.EndIn.{typed_end, unit_in};
ghost use Rattle.c_check_unit.specs.WholeSeen.{whole_seen};

use crate::externals::externals;
use crate::whole::{WholeUnit, whole};
use c_ast::Unit;
use c_core_fits::typed_units_are_units;
use c_meaning::Core;
use c_symbols::Scopes;
use c_types::TypeTable;
use c_unit_ends::{constants, define_tentative, names, standings};
use c_unit_parts::UnitParts;
use c_units::typing_units_is_a_function;
use c_values::CheckFault;
use c_wholes::is_numbered;
use lcc_base::Memory;
use std::alloc::Global;

/// What a unit is, made whole: what its external declarations define, in order, and behind them what is only
/// defined tentatively. Where the unit, or a construct in it, breaks a constraint or passes a limit, the first one
/// that does is told, each behind its parts, and the unit itself last. `Memory` comes also where the unit has 2^31
/// functions, locals, statements, objects and texts or more, as no source has.
/// Source: C89 3.7.
pub fn check_unit(alloc: Global, unit: &Unit) -> Result<Core, CheckFault>
    requires { IsGrammatical (unit_of unit.now) }
    ensures typed { IfOk result (λ u. (s : State) × TypesUnit (unit_of unit.now) s (unit_seen u)) }
    ensures constraint { (number line : ℕ) → result ≡ Err (Constraint number line) → first_in (unit_nodes (unit_of unit.now)) ≡ Some (Breaks number line) }
    ensures limit { (limit : Which) → (line : ℕ) → result ≡ Err (Limit limit line) → first_in (unit_nodes (unit_of unit.now)) ≡ Some (Passes limit line) }
{
    typed_units_are_units();
    let whole = whole_unit(alloc, unit)?;
    Ok(core(whole)?)
}

/// The unit made whole, while it isn't numbered.
fn whole_unit(alloc: Global, unit: &Unit) -> Result<WholeUnit, CheckFault>
    ensures typed { IfOk result (λ u. (s : State) × TypesUnit (unit_of unit.now) s (whole_seen u)) }
    ensures constraint { (number line : ℕ) → result ≡ Err (Constraint number line) → first_in (unit_nodes (unit_of unit.now)) ≡ Some (Breaks number line) }
    ensures limit { (limit : Which) → (line : ℕ) → result ≡ Err (Limit limit line) → first_in (unit_nodes (unit_of unit.now)) ≡ Some (Passes limit line) }
    ensures functions { IfOk result (λ u. EachIs (IsFunctionIn (length u.types.forms)) u.functions) }
    ensures objects { IfOk result (λ u. EachIs (IsObjectIn (length u.types.forms)) u.objects) }
{
    typing_units_is_a_function();
    checked(alloc, unit)
}

/// The core of a unit that keeps what it promises, unless it is too large to be numbered.
fn core(u: WholeUnit) -> Result<Core, Memory>
    requires unit { IsCounted (whole_seen u) → IsUnit (whole_seen u) }
    requires functions { EachIs (IsFunctionIn (length u.types.forms)) u.functions }
    requires objects { EachIs (IsObjectIn (length u.types.forms)) u.objects }
    ensures { IfOk result (λ c. unit_seen c ≡ whole_seen u) }
{
    if !is_numbered(
        u.functions.as_slice(),
        u.objects.as_slice(),
        u.texts.as_slice(),
    ) {
        return Err(Memory);
    }
    Ok(Core::new(u.functions, u.objects, u.texts, u.types, u.main))
}

/// The unit, checked.
fn checked(alloc: Global, unit: &Unit) -> Result<WholeUnit, CheckFault>
    ensures is { IfOk result (λ u. (s : State) × (unit_in (map external_seen unit.now.externals) ≡ Fine s (whole_seen u))) }
    ensures told { IfErr result (λ e. Tells e (unit_in (map external_seen unit.now.externals))) }
    ensures functions { IfOk result (λ u. EachIs (IsFunctionIn (length u.types.forms)) u.functions) }
    ensures objects { IfOk result (λ u. EachIs (IsObjectIn (length u.types.forms)) u.objects) }
{
    let mut scopes = Scopes::new(alloc)?;
    let mut types = TypeTable::new(alloc);
    let parts = externals(alloc, &mut scopes, &mut types, unit.externals.as_slice())?;
    ended(alloc, &scopes, types, parts)
}

/// The unit that has these parts at its end.
fn ended(
    alloc: Global,
    scopes: &Scopes,
    types: TypeTable,
    parts: UnitParts,
) -> Result<WholeUnit, CheckFault>
    requires symbols { AreSymbolsIn (length types.forms) scopes.now.symbols }
    requires parts { ArePartsIn (length types.forms) parts }
    ensures is { IfOk result (λ u. typed_end (state_of scopes.now types) (parts_in types parts) ≡ Fine (state_of scopes.now types) (whole_seen u)) }
    ensures told { IfErr result (λ e. Tells e (typed_end (state_of scopes.now types) (parts_in types parts))) }
    ensures functions { IfOk result (λ u. EachIs (IsFunctionIn (length u.types.forms)) u.functions) }
    ensures objects { IfOk result (λ u. EachIs (IsObjectIn (length u.types.forms)) u.objects) }
{
    let mut types = types;
    let mut parts = parts;
    define_tentative(alloc, scopes, &mut types, &mut parts)?;
    constants(alloc, &types, &parts)?;
    let known = standings(alloc, scopes, &parts)?;
    names(alloc, scopes, &types, &parts, &known)?;
    Ok(whole(alloc, scopes, types, &known, parts)?)
}
