//! Lines that tell what is checked.
ghost use Rattle.std.specs.Prelude.{◌<◌, length};

use c_check_decl::Declares;
use c_meaning::{CoreExpr, CoreKind, CoreObject, CoreStmt, FilledPlace};
use c_types::{TypeForm, TypeId, TypeTable};
use c_values::{CheckFault, fold};
use std::alloc::AllocError;
use std::str;

/// The word for a type without its qualifiers.
fn type_word(form: &TypeForm) -> &'static str {
    match form {
        TypeForm::Void => "void",
        TypeForm::Char => "char",
        TypeForm::SignedChar => "signed char",
        TypeForm::UnsignedChar => "unsigned char",
        TypeForm::Short => "short",
        TypeForm::UnsignedShort => "unsigned short",
        TypeForm::Int => "int",
        TypeForm::Unsigned => "unsigned",
        TypeForm::Long => "long",
        TypeForm::UnsignedLong => "unsigned long",
        TypeForm::Pointer { .. } => "pointer",
        TypeForm::Array { .. } => "array",
        TypeForm::Function { .. } => "function",
        TypeForm::Structure => "structure",
        TypeForm::Union => "union",
        TypeForm::Enumeration { .. } => "enumeration",
        TypeForm::Qualified { .. } => "qualified",
    }
}

/// A type, with its size where it has one.
pub fn tell_type(into: &mut String, types: &TypeTable, id: TypeId) -> Result<(), AllocError>
    requires { id < length types.now.forms }
{
    let (base, _) = types.unqualified(id);
    let word = type_word(types.form(base));
    write!(into, "{word}")?;
    match types.size(id) {
        Some(size) => write!(into, " {size}"),
        None => Ok(()),
    }
}

/// Whether it is a string literal.
fn is_text(value: &CoreExpr) -> bool {
    matches!(value.what, CoreKind::Text(_) | CoreKind::Literal(_))
}

/// The value of an expression: a number where it is an integer constant expression, and else what its root is.
fn tell_value(into: &mut String, value: &CoreExpr) -> Result<(), AllocError> {
    if let Some(number) = fold(value) {
        return write!(into, "{number}");
    }
    if is_text(value) {
        write!(into, "text")
    } else {
        write!(into, "value")
    }
}

/// An expression: its type, and its value where it has one.
pub fn tell_expression(
    into: &mut String,
    types: &TypeTable,
    e: &CoreExpr,
) -> Result<(), AllocError> {
    if e.of < types.len() {
        tell_type(into, types, e.of)?;
    }
    match fold(e) {
        Some(value) => write!(into, " = {value}\n"),
        None => write!(into, "\n"),
    }
}

/// A fault.
pub fn tell_fault(into: &mut String, fault: CheckFault) -> Result<(), AllocError> {
    match fault {
        CheckFault::Limit { which, line } => {
            let name = which.name();
            write!(into, "line {line}: limit {name}\n")
        }
        other => write!(into, "{other}\n"),
    }
}

/// A place that is filled: its offset, of a bit-field the bits before it and its width, and its value.
fn tell_place(into: &mut String, place: &FilledPlace) -> Result<(), AllocError> {
    let offset = place.at.offset;
    write!(into, " {offset}")?;
    if place.at.width > 0 {
        let first = place.at.first;
        let width = place.at.width;
        write!(into, ".{first}.{width}")?;
    }
    write!(into, "=")?;
    tell_value(into, &place.value)
}

/// An object: its line, whether it is constant, and its places.
fn tell_object(into: &mut String, object: &CoreObject) -> Result<(), AllocError> {
    let name = str::from_utf8(object.name.as_slice()).unwrap_or("..");
    let line = object.line;
    write!(into, "object {name} line {line}")?;
    if object.constant {
        write!(into, " constant")?;
    }
    write!(into, ":")?;
    for place in object.places.as_slice() {
        tell_place(into, place)?;
    }
    write!(into, "\n")
}

/// What a local object begins with.
fn tell_fill(into: &mut String, fill: &CoreStmt) -> Result<(), AllocError> {
    let CoreStmt::Initialise {
        local,
        zero,
        places,
    } = fill
    else {
        return write!(into, "statement\n");
    };
    write!(into, "fill {local}")?;
    if *zero {
        write!(into, " zeroed")?;
    }
    write!(into, ":")?;
    for place in places.as_slice() {
        tell_place(into, place)?;
    }
    write!(into, "\n")
}

/// What a declaration declares.
pub fn tell_declared(into: &mut String, what: &Declares) -> Result<(), AllocError> {
    for defined in what.objects.as_slice() {
        tell_object(into, &defined.object)?;
    }
    if !what.locals.is_empty() {
        let many = what.locals.len();
        write!(into, "locals {many}\n")?;
    }
    for fill in what.fills.as_slice() {
        tell_fill(into, fill)?;
    }
    Ok(())
}
