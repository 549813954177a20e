//! Initialisers of whole objects, checked (C89 3.5.7).
ghost use Rattle.std.specs.Prelude.{◌≡◌, ◌<◌, ℕ, Err, Some, false, length, IfOk};
ghost use Rattle.lcc_base.specs.declared.which.Which.{Which};
ghost use Rattle.c_ast.specs.UnitViews.{initialiser_of};
ghost use Rattle.c_types.specs.Table.{type_at};
ghost use Rattle.c_meaning.specs.Constraints.{Breaks, Passes};
ghost use Rattle.c_meaning.specs.DeclaringNodes.{first_any, initialiser_nodes};
ghost use Rattle.c_meaning.specs.DeclaringRelation.{TypesInitialiser};
ghost use Rattle.c_values.specs.declared.check_fault.CheckFault.TheVariants.{Constraint, Limit};
ghost use Rattle.c_check_expr.specs.Keeps.{Keeps};
ghost use Rattle.c_check_expr.specs.Known.{AreSymbolsIn, state_of};
ghost use Rattle.c_initialisers.specs.Objects.{IsFilledIn, filled_in, object_in};

use crate::filled::Filled;
use crate::whole::whole;
use c_ast::Initialiser;
use c_meaning::declaring_is_a_function;
use c_symbols::Scopes;
use c_types::{TypeId, TypeTable};
use c_values::CheckFault;
use std::alloc::Global;

/// An object that is initialised: its type, whether its storage is static, so that only constants may
/// stand in its initialiser, and whether no initialiser may stand there at all, as on a typedef and on a
/// block's `extern`.
#[derive(Clone, Copy)]
pub struct Initialised {
    pub of: TypeId,
    pub is_static: bool,
    pub is_barred: bool,
}

/// Which place of the object gets which expression of its initialiser, where what scopes and the table
/// tell is known before it, and the object's type, whose size an initialiser may tell. Where the
/// initialiser, or a construct in it, breaks a constraint or passes a limit, the first one that does is
/// told, each behind its parts. What else changes of scopes and types is as `check_expr` has it.
/// Source: C89 3.5.7.
pub fn initialise(
    alloc: Global,
    scopes: &mut Scopes,
    types: &mut TypeTable,
    object: Initialised,
    i: &Initialiser,
) -> Result<Filled, CheckFault>
    requires symbols { AreSymbolsIn (length types.old.forms) scopes.old.symbols }
    requires of { object.of < length types.old.forms }
    ensures typed { IfOk result (λ f. TypesInitialiser (state_of scopes.old types.old) (object_in types.old object) (initialiser_of i.now) (state_of scopes.new types.new) (filled_in types.new f)) }
    ensures constraint { (number line : ℕ) → result ≡ Err (Constraint number line) → first_any (initialiser_nodes (state_of scopes.old types.old) (object_in types.old object) (initialiser_of i.now)) ≡ Some (Breaks number line) }
    ensures limit { (limit : Which) → (line : ℕ) → result ≡ Err (Limit limit line) → first_any (initialiser_nodes (state_of scopes.old types.old) (object_in types.old object) (initialiser_of i.now)) ≡ Some (Passes limit line) }
    ensures within { IfOk result (IsFilledIn (length types.new.forms)) }
    ensures keeps { Keeps scopes.old types.old scopes.new types.new }
{
    declaring_is_a_function();
    whole(alloc, scopes, types, object, i)
}

/// Which place of a local object of the type gets which expression of its initialiser, as `initialise` has
/// it.
pub fn fill(
    alloc: Global,
    scopes: &mut Scopes,
    types: &mut TypeTable,
    of: TypeId,
    i: &Initialiser,
) -> Result<Filled, CheckFault>
    requires symbols { AreSymbolsIn (length types.old.forms) scopes.old.symbols }
    requires of { of < length types.old.forms }
    ensures typed { IfOk result (λ f. TypesInitialiser (state_of scopes.old types.old) (record { of = type_at types.old of; static = false; barred = false }) (initialiser_of i.now) (state_of scopes.new types.new) (filled_in types.new f)) }
    ensures constraint { (number line : ℕ) → result ≡ Err (Constraint number line) → first_any (initialiser_nodes (state_of scopes.old types.old) (record { of = type_at types.old of; static = false; barred = false }) (initialiser_of i.now)) ≡ Some (Breaks number line) }
    ensures limit { (limit : Which) → (line : ℕ) → result ≡ Err (Limit limit line) → first_any (initialiser_nodes (state_of scopes.old types.old) (record { of = type_at types.old of; static = false; barred = false }) (initialiser_of i.now)) ≡ Some (Passes limit line) }
    ensures within { IfOk result (IsFilledIn (length types.new.forms)) }
    ensures keeps { Keeps scopes.old types.old scopes.new types.new }
{
    let object = Initialised {
        of,
        is_static: false,
        is_barred: false,
    };
    initialise(alloc, scopes, types, object, i)
}
