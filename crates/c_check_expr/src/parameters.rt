//! The node of a prototype's parameter (C89 3.5.4.3).
ghost use Rattle.std.specs.Prelude.{◌≡◌, ◌<◌, false, length, nat_lt, IfOk, IfErr, OnOk};
ghost use Rattle.c_types.specs.CType.{depth};
ghost use Rattle.c_types.specs.Layout.{extent};
ghost use Rattle.c_types.specs.Table.{Grows, is_above, tags, type_at};
ghost use Rattle.c_meaning.specs.TypeConstraints.{is_other_class as other_class};
ghost use Rattle.c_meaning.specs.TypeRows.{adjusted as pointer_instead, parameter_class, with_parameter};
ghost use Rattle.c_meaning.specs.Typing.{Fine};
ghost use Rattle.c_values.specs.TooDeep.{IsTooDeep};
ghost use Rattle.c_check_expr.specs.AtNode.{Tells};
ghost use Rattle.c_check_expr.specs.Keeps.{Keeps};
ghost use Rattle.c_check_expr.specs.Known.{AreSymbolsIn, state_of};
ghost use Rattle.c_check_expr.specs.ParameterNode.{parameter_at};
ghost use Rattle.c_check_expr.specs.PartsSeen.{parameter_seen};
ghost use Rattle.c_check_expr.specs.StepFaults.{parameter_broken};

use crate::declaring::{declare, level};
use crate::parts::{NamedParameter, Shaped};
use c_ast::Storage;
use c_symbols::{Scopes, Storage as Class, Symbol};
use c_types::{TypeId, TypeTable};
use c_values::forming::pointer_type;
use c_values::values::plain;
use c_values::{CheckFault, kinds};
use lcc_base::{Bytes, Memory};

/// Where a parameter stands: its line, its place among the parameters, and whether it stands alone.
#[derive(Clone, Copy, Debug)]
pub struct ParameterSpot {
    pub line: u32,
    pub index: usize,
    pub alone: bool,
}

/// A parameter with these storage classes, its name and its type. The name is in force from here on.
pub(crate) fn parameter(
    scopes: &mut Scopes,
    types: &mut TypeTable,
    spot: ParameterSpot,
    classes: &[Storage],
    shape: Shaped,
) -> Result<NamedParameter, CheckFault>
    requires symbols { AreSymbolsIn (length types.old.forms) scopes.old.symbols }
    requires of { shape.of < length types.old.forms }
    ensures ok { IfOk result (λ p. parameter_at (state_of scopes.old types.old) spot classes.now shape.name (type_at types.old shape.of) ≡ Fine (state_of scopes.new types.new) (parameter_seen types.new p)) }
    ensures err { IfErr result (λ e. Tells e (parameter_at (state_of scopes.old types.old) spot classes.now shape.name (type_at types.old shape.of))) }
    ensures within { IfOk result (λ p. p.of < length types.new.forms) }
    ensures keeps { Keeps scopes.old types.old scopes.new types.new }
{
    let Shaped { name, of } = shape;
    if let Some(number) = broken(types, spot, classes, &name, of) {
        return Err(CheckFault::Constraint {
            number,
            line: spot.line,
        });
    }
    let of = adjusted(types, spot.line, of)?;
    declare_parameter(scopes, types, spot, classes, &name, of)?;
    Ok(NamedParameter { name, of })
}

/// The number of the first constraint that a parameter of this type breaks.
fn broken(
    types: &TypeTable,
    spot: ParameterSpot,
    classes: &[Storage],
    name: &Option<Bytes>,
    of: TypeId,
) -> Option<u8>
    requires { of < length types.now.forms }
    ensures { result ≡ parameter_broken classes.now name.now (type_at types.now of) spot.alone }
{
    if is_other_class(classes) {
        Some(3)
    } else if kinds::is_void(types, of) && (!spot.alone || name.is_some()) {
        Some(17)
    } else {
        None
    }
}

/// Whether there is another storage class than `register`, which is the only one that a parameter may have
/// (C89 3.5.4.3).
pub fn is_other_class(classes: &[Storage]) -> bool
    ensures { result ≡ other_class classes.now }
{
    !matches!(classes, [] | [Storage::Register, ..])
}

/// The storage class of a parameter.
fn class(classes: &[Storage]) -> Class
    ensures { result ≡ parameter_class classes.now }
{
    match classes {
        [Storage::Register, ..] => Class::Register,
        _ => Class::Auto,
    }
}

/// The place of the type that a parameter declared with this one has: where it is an array's or a
/// function's, the pointer's in its stead (C89 3.7.1). Where that pointer passes the limit on depth, that is
/// told with this line.
pub fn adjusted(types: &mut TypeTable, line: u32, of: TypeId) -> Result<TypeId, CheckFault>
    requires { of < length types.old.forms }
    ensures means { IfOk result (λ id. type_at types.new id ≡ pointer_instead (type_at types.old of)) }
    ensures within { IfOk result (λ id. id < length types.new.forms) }
    ensures size { is_above (extent (tags types.old) (pointer_instead (type_at types.old of))).size ≡ false }
    ensures nesting { nat_lt 500 (extent (tags types.old) (pointer_instead (type_at types.old of))).nesting ≡ false }
    ensures shallow { OnOk result (nat_lt 500 (depth (pointer_instead (type_at types.old of))) ≡ false) }
    ensures deep { IfErr result (λ e. IsTooDeep e line (pointer_instead (type_at types.old of))) }
    ensures grows { Grows types.old types.new }
{
    types.types_are_within_limits();
    match kinds::element(types, of) {
        Some(element) => pointer_type(types, line, element),
        None if kinds::is_function(types, of) => pointer_type(types, line, plain(of)),
        None => Ok(of),
    }
}

/// Declares the parameter's name, if it has one, in the innermost scope, as an object with its place among
/// the parameters (C89 3.1.2.1). Where the scope has the name, the answer is that of refused memory: who asks
/// has told the constraint.
pub fn declare_parameter(
    scopes: &mut Scopes,
    types: &TypeTable,
    spot: ParameterSpot,
    classes: &[Storage],
    name: &Option<Bytes>,
    of: TypeId,
) -> Result<(), Memory>
    requires symbols { AreSymbolsIn (length types.now.forms) scopes.old.symbols }
    requires of { of < length types.now.forms }
    ensures state { OnOk result (state_of scopes.new types.now ≡ with_parameter (state_of scopes.old types.now) spot.line spot.index classes.now name.now (type_at types.now of)) }
    ensures keeps { Keeps scopes.old types.now scopes.new types.now }
{
    let Some(name) = name else {
        return Ok(());
    };
    let name = name.as_slice();
    // It is told at the declarator where the name stands in the scope.
    if scopes.find_here(name).is_some() {
        return Err(Memory);
    }
    // No source has as many parameters as a number of 64 bits counts.
    let place = i64::try_from(spot.index).map_err(|_| Memory)?;
    let symbol = Symbol {
        class: class(classes),
        of,
        line: spot.line,
        level: level(scopes)?,
        value: Some(place),
    };
    declare(scopes, types, name, symbol)
}
