//! A function's definition (C89 3.7.1).
ghost use Rattle.std.specs.Prelude.{◌≡◌, ◌<◌, ℕ, length, map, IfOk};
ghost use Rattle.c_ast.specs.SeenUnits.{declaration_seen};
ghost use Rattle.c_types.specs.Table.{Table, type_at};
ghost use Rattle.c_meaning.specs.Rows.{result_type};
ghost use Rattle.c_check_expr.specs.Known.{AreSymbolsIn, state_of};
ghost use Rattle.c_check_expr.specs.Walks.{Walks};
ghost use Rattle.c_check_decl.specs.Named.{IsNamingIn, naming_in};
ghost use Rattle.c_stmt_parts.specs.StatementsIn.{IsCodeIn, code_in};
ghost use Rattle.c_stmt_parts.specs.StatementsSeen.{block_seen};
ghost use Rattle.c_check_function.specs.Defined.{AreDefinedIn, IsOwnIn, defines_in, function_by, function_in, function_seen, in_scope_in};

use crate::definition::define;
use crate::old_declarations::old_declarations;
use crate::parameters::{Parameters, own_parameters, parameter_types, reopen};
use crate::result_types::result_specifiers;
use c_ast::FunctionDefinition;
use c_check_decl::pieces::{Naming, set_count};
use c_check_decl::{DefinedObject, LinkedName};
use c_check_stmt::block;
use c_meaning::{CoreFunction, CoreStmt};
use c_stmt_parts::{Around, Body, Within, labels};
use c_symbols::Scopes;
use c_types::{TypeId, TypeTable};
use c_unit_parts::DefinedFunction;
use c_values::CheckFault;
use c_values::basic_places::VOID;
use lcc_base::{Items, Memory};
use std::alloc::Global;

/// What a function's definition defines: the function, and what its blocks define and declare.
#[derive(Drop)]
pub struct Defines {
    pub function: DefinedFunction,
    /// The objects with static storage, in order.
    pub objects: Items<DefinedObject>,
    /// The names with linkage that are declared, in order.
    pub linked: Items<LinkedName>,
}

/// A definition whose parameters' scope is open.
#[derive(Drop)]
struct Own {
    naming: Naming,
    parameters: Parameters,
}

/// A function's definition on this line, checked.
pub fn function(
    alloc: Global,
    scopes: &mut Scopes,
    types: &mut TypeTable,
    line: u32,
    f: &FunctionDefinition,
) -> Result<Defines, CheckFault>
    requires { AreSymbolsIn (length types.old.forms) scopes.old.symbols }
    ensures { Walks defines_in AreDefinedIn (function_in scopes.old types.old line (function_seen f.now)) scopes.old types.old scopes.new types.new result }
{
    let base = result_specifiers(alloc, scopes, types, &f.specifiers)?;
    let d = define(alloc, scopes, types, line, &base, &f.declarator)?;
    let (scope, parameters) = own_parameters(alloc, d.steps);
    let own = Own {
        naming: d.naming,
        parameters,
    };
    reopen(scopes, scope)?;
    let defines = in_scope(alloc, scopes, types, line, own, f);
    scopes.leave();
    defines
}

/// The definition on this line where its parameters' scope is open, in which the body stands too.
fn in_scope(
    alloc: Global,
    scopes: &mut Scopes,
    types: &mut TypeTable,
    line: u32,
    own: Own,
    f: &FunctionDefinition,
) -> Result<Defines, CheckFault>
    requires symbols { AreSymbolsIn (length types.old.forms) scopes.old.symbols }
    requires own { IsOwnIn (length types.old.forms) own }
    ensures { Walks defines_in AreDefinedIn (in_scope_in scopes.old types.old line own (map declaration_seen f.now.parameters) (block_seen f.now.body)) scopes.old types.old scopes.new types.new result }
{
    let names = own.parameters.names();
    old_declarations(alloc, scopes, types, names, f.parameters.as_slice())?;
    let locals = parameter_types(alloc, scopes, types, line, &own.parameters)?;
    let count = locals.len();
    set_count(scopes, types, count as u64)?;
    let within = Within {
        result: result_of(types, own.naming.of),
        labels: labels(alloc, &f.body)?,
    };
    let nowhere = Around {
        in_loop: false,
        in_switch: false,
    };
    let mut body = Body::new(alloc, locals);
    let code = block(scopes, types, &mut body, &within, nowhere, &f.body)?;
    if body.lost {
        return Err(CheckFault::Constraint { number: 50, line });
    }
    Ok(with_body(scopes, own.naming, count, body, code)?)
}

/// The type of the result of a function of this type.
fn result_of(types: &TypeTable, of: TypeId) -> TypeId
    requires { of < length types.now.forms }
    ensures means { type_at types.now result ≡ result_type (type_at types.now of) }
    ensures within { result < length types.now.forms }
{
    let (base, _) = types.unqualified(of);
    match types.function_of(base) {
        Some((result, _, _)) => result,
        None => types.basic_type(VOID),
    }
}

/// The function, with what its body has at its end.
fn with_body(
    scopes: &Scopes,
    naming: Naming,
    parameters: usize,
    body: Body,
    code: CoreStmt,
) -> Result<Defines, Memory>
    ensures is { IfOk result (λ d. (t : Table) → defines_in t d ≡ function_by (state_of scopes.now t) (naming_in t naming) parameters (code_in t (body, code))) }
    ensures within { IfOk result (λ d. (n : ℕ) → IsNamingIn n naming → IsCodeIn n (body, code) → AreDefinedIn n d) }
{
    let Naming { name, of, .. } = naming;
    // A definition's name has linkage, and no source has as many parameters.
    let symbol = scopes.linked(name.as_slice()).unwrap_or(0);
    let parameters = u32::try_from(parameters).map_err(|_| Memory)?;
    let Body {
        locals,
        objects,
        linked,
        ..
    } = body;
    let function = CoreFunction {
        name,
        of,
        parameters,
        locals,
        body: code,
    };
    Ok(Defines {
        function: DefinedFunction { symbol, function },
        objects,
        linked,
    })
}
