//! Expressions checked, and the types that specifiers and declarators declare.
ghost use Rattle.std.specs.Prelude.{◌≡◌, ◌<◌, ℕ, Err, Some, length, IfOk};
ghost use Rattle.lcc_base.specs.declared.which.Which.{Which};
ghost use Rattle.c_ast.specs.Trees.{ADeclarator};
ghost use Rattle.c_ast.specs.Views.{declarator_of, expr_of, specifiers_of};
ghost use Rattle.c_ast.specs.Seen.{declarator_seen, specifiers_seen};
ghost use Rattle.c_types.specs.Table.{type_at};
ghost use Rattle.c_meaning.specs.Constraints.{Breaks, Passes};
ghost use Rattle.c_meaning.specs.CoreTrees.{IsIn, seen};
ghost use Rattle.c_meaning.specs.Postorder.{declared_nodes, first_fault, nodes};
ghost use Rattle.c_meaning.specs.TypingRelation.{Types, TypesDeclared};
ghost use Rattle.c_values.specs.declared.check_fault.CheckFault.TheVariants.{Constraint, Limit};
ghost use Rattle.c_check_expr.specs.Keeps.{Keeps};
ghost use Rattle.c_check_expr.specs.Known.{AreSymbolsIn, state_of};
ghost use Rattle.c_check_expr.specs.TypedIn.{declared_in, shape_in};
ghost use Rattle.c_check_expr.specs.Walks.{IsBelow, IsShapeIn, Walks};
ghost use Rattle.c_check_expr.specs.PartsSeen.{shaped_seen};

use crate::declarators;
use crate::parts::Shaped;
use crate::walk_declarators::declarator;
use crate::walk_expr::expression;
use crate::walk_types::specifiers;
use c_ast::{Declarator, Expr, Specifiers};
use c_meaning::{CoreExpr, typing_is_a_function};
use c_symbols::Scopes;
use c_types::{TypeId, TypeTable};
use c_values::CheckFault;
use std::alloc::Global;

/// The expression with the type of each part, where what scopes and the table tell is known before it.
/// The scopes around stay, a call of an undeclared name declares it (C89 3.3.2.2), and so may types that
/// are named in it. Where a construct in it breaks a constraint or passes a limit, the first one that
/// does is told, each behind its parts.
/// Source: C89 3.3.
pub fn check_expr(
    alloc: Global,
    scopes: &mut Scopes,
    types: &mut TypeTable,
    e: &Expr,
) -> Result<CoreExpr, CheckFault>
    requires { AreSymbolsIn (length types.old.forms) scopes.old.symbols }
    ensures typed { IfOk result (λ c. Types (state_of scopes.old types.old) (expr_of e.now) (state_of scopes.new types.new) (seen (type_at types.new) c)) }
    ensures constraint { (number line : ℕ) → result ≡ Err (Constraint number line) → first_fault (nodes (state_of scopes.old types.old) (expr_of e.now)) ≡ Some (Breaks number line) }
    ensures limit { (limit : Which) → (line : ℕ) → result ≡ Err (Limit limit line) → first_fault (nodes (state_of scopes.old types.old) (expr_of e.now)) ≡ Some (Passes limit line) }
    ensures within { IfOk result (λ c. IsIn (length types.new.forms) c) }
    ensures keeps { Keeps scopes.old types.old scopes.new types.new }
{
    typing_is_a_function();
    expression(alloc, scopes, types, e)
}

/// The place of the type that the specifiers and the declarator declare, with what `check_expr` says of
/// scopes, types and faults. The storage classes among the specifiers aren't looked at.
/// Source: C89 3.5.2 to 3.5.4.
pub fn declared_type(
    alloc: Global,
    scopes: &mut Scopes,
    types: &mut TypeTable,
    s: &Specifiers,
    d: &Declarator,
) -> Result<TypeId, CheckFault>
    requires { AreSymbolsIn (length types.old.forms) scopes.old.symbols }
    ensures typed { IfOk result (λ id. TypesDeclared (state_of scopes.old types.old) (specifiers_of s.now) (declarator_of d.now) (state_of scopes.new types.new) (type_at types.new id)) }
    ensures constraint { (number line : ℕ) → result ≡ Err (Constraint number line) → first_fault (declared_nodes (state_of scopes.old types.old) (specifiers_of s.now) (declarator_of d.now)) ≡ Some (Breaks number line) }
    ensures limit { (limit : Which) → (line : ℕ) → result ≡ Err (Limit limit line) → first_fault (declared_nodes (state_of scopes.old types.old) (specifiers_of s.now) (declarator_of d.now)) ≡ Some (Passes limit line) }
    ensures within { IfOk result (λ id. id < length types.new.forms) }
    ensures keeps { Keeps scopes.old types.old scopes.new types.new }
{
    typing_is_a_function();
    declared(alloc, scopes, types, s, d)
}

/// The type that the specifiers and the declarator declare.
fn declared(
    alloc: Global,
    scopes: &mut Scopes,
    types: &mut TypeTable,
    s: &Specifiers,
    d: &Declarator,
) -> Result<TypeId, CheckFault>
    requires { AreSymbolsIn (length types.old.forms) scopes.old.symbols }
    ensures { Walks type_at IsBelow (declared_in scopes.old types.old (specifiers_seen s.now) (declarator_seen d.now)) scopes.old types.old scopes.new types.new result }
{
    let base = specifiers(alloc, scopes, types, s)?;
    let shape = shape_of(alloc, scopes, types, base.of, d)?;
    Ok(shape.of)
}

/// A declarator over the type of the specifiers.
fn shape_of(
    alloc: Global,
    scopes: &mut Scopes,
    types: &mut TypeTable,
    base: TypeId,
    d: &Declarator,
) -> Result<Shaped, CheckFault>
    requires symbols { AreSymbolsIn (length types.old.forms) scopes.old.symbols }
    requires base { base < length types.old.forms }
    ensures { Walks shaped_seen IsShapeIn (shape_in scopes.old types.old base (ADeclarator (declarator_seen d.now))) scopes.old types.old scopes.new types.new result }
{
    let steps = declarator(alloc, scopes, types, d)?;
    declarators::shape(alloc, types, base, steps)
}
