//! Declarations, checked.
ghost use Rattle.std.specs.Prelude.{◌≡◌, ℕ, Err, Some, length, IfOk};
ghost use Rattle.lcc_base.specs.declared.which.Which.{Which};
ghost use Rattle.c_ast.specs.UnitViews.{declaration_of};
ghost use Rattle.c_meaning.specs.Constraints.{Breaks, Passes};
ghost use Rattle.c_meaning.specs.DeclaringNodes.{declaration_nodes, first_any};
ghost use Rattle.c_meaning.specs.DeclaringRelation.{TypesDeclaration};
ghost use Rattle.c_values.specs.declared.check_fault.CheckFault.TheVariants.{Constraint, Limit};
ghost use Rattle.c_check_expr.specs.Keeps.{Keeps};
ghost use Rattle.c_check_expr.specs.Known.{AreSymbolsIn, state_of};
ghost use Rattle.c_check_decl.specs.Declares.{AreDeclaredIn, declares_in};

use crate::declares::Declares;
use crate::walk::declaration;
use c_ast::Declaration;
use c_meaning::declaring_is_a_function;
use c_symbols::Scopes;
use c_types::TypeTable;
use c_values::CheckFault;
use std::alloc::Global;

/// What a declaration declares, where what scopes and the table tell is known before it: its names are in
/// the innermost scope from their declarators on, those with linkage have one symbol more for all their
/// declarations, with the composite of all their types, and objects that are defined are given with the
/// places that their initialisers fill. Where the declaration, or a construct in it, breaks a constraint
/// or passes a limit, the first one that does is told, each behind its parts. What else changes of
/// scopes and types is as `check_expr` has it.
/// Source: C89 3.5.
pub fn check_declaration(
    alloc: Global,
    scopes: &mut Scopes,
    types: &mut TypeTable,
    d: &Declaration,
) -> Result<Declares, CheckFault>
    requires { AreSymbolsIn (length types.old.forms) scopes.old.symbols }
    ensures typed { IfOk result (λ what. TypesDeclaration (state_of scopes.old types.old) (declaration_of d.now) (state_of scopes.new types.new) (declares_in types.new what)) }
    ensures constraint { (number line : ℕ) → result ≡ Err (Constraint number line) → first_any (declaration_nodes (state_of scopes.old types.old) (declaration_of d.now)) ≡ Some (Breaks number line) }
    ensures limit { (limit : Which) → (line : ℕ) → result ≡ Err (Limit limit line) → first_any (declaration_nodes (state_of scopes.old types.old) (declaration_of d.now)) ≡ Some (Passes limit line) }
    ensures within { IfOk result (AreDeclaredIn (length types.new.forms)) }
    ensures keeps { Keeps scopes.old types.old scopes.new types.new }
{
    declaring_is_a_function();
    declaration(alloc, scopes, types, d)
}
