//! Declarations and expressions of a source, checked one behind the other: declarations, perhaps `{` and
//! declarations in a block, and expressions, each with a `;` behind it.
ghost use Rattle.std.specs.Prelude.{◌≤◌, length};
ghost use Rattle.c_check_expr.specs.Known.{AreSymbolsIn};

use crate::telling::{tell_declared, tell_expression, tell_fault, tell_type};
use c_ast::sign::{OPEN_BRACE, SEMICOLON};
use c_ast::{Class, Declaration, Expr};
use c_check_decl::check_declaration;
use c_check_expr::check_expr;
use c_check_expr::pieces::symbol_type;
use c_decl::{begins_specifier, declaration};
use c_expr::Parser;
use c_symbols::{Scopes, Storage};
use c_types::TypeTable;
use std::alloc::{AllocError, Global};

/// The most declarations, and the most expressions, of a source.
const MOST: u32 = 1_000_000;

/// Takes the sign of this number, if it is next.
fn takes_sign(parser: &mut Parser, number: u8) -> bool {
    match parser.token() {
        Some(token) if token.class == Class::Sign(number) => {
            parser.pass();
            true
        }
        _ => false,
    }
}

/// What a declaration declares, or its fault, and whether it has none.
fn tell_declaration(
    alloc: Global,
    scopes: &mut Scopes,
    types: &mut TypeTable,
    d: &Declaration,
    into: &mut String,
) -> Result<bool, AllocError>
    requires { AreSymbolsIn (length types.old.forms) scopes.old.symbols }
    ensures { AreSymbolsIn (length types.new.forms) scopes.new.symbols }
{
    match check_declaration(alloc, scopes, types, d) {
        Ok(what) => {
            tell_declared(into, &what)?;
            Ok(true)
        }
        Err(fault) => {
            tell_fault(into, fault)?;
            Ok(false)
        }
    }
}

/// What the next declaration declares, or its fault, and whether it has none.
fn tell_next(
    parser: &mut Parser,
    scopes: &mut Scopes,
    types: &mut TypeTable,
    into: &mut String,
) -> Result<bool, AllocError>
    requires { AreSymbolsIn (length types.old.forms) scopes.old.symbols }
    ensures { AreSymbolsIn (length types.new.forms) scopes.new.symbols }
{
    let alloc = parser.alloc();
    match declaration(parser) {
        Ok(d) => tell_declaration(alloc, scopes, types, &d, into),
        Err(fault) => {
            write!(into, "{fault}\n")?;
            Ok(false)
        }
    }
}

/// The declarations up to what is none, or to the first fault, and whether there is none.
fn tell_declarations(
    parser: &mut Parser,
    scopes: &mut Scopes,
    types: &mut TypeTable,
    into: &mut String,
) -> Result<bool, AllocError>
    requires { AreSymbolsIn (length types.old.forms) scopes.old.symbols }
    ensures { AreSymbolsIn (length types.new.forms) scopes.new.symbols }
{
    for _ in 0..MOST {
        if !begins_specifier(parser) {
            return Ok(true);
        }
        if !tell_next(parser, scopes, types, into)? {
            return Ok(false);
        }
    }
    Ok(true)
}

/// The same in a block, where one begins.
fn tell_block(
    parser: &mut Parser,
    scopes: &mut Scopes,
    types: &mut TypeTable,
    into: &mut String,
) -> Result<bool, AllocError>
    requires { AreSymbolsIn (length types.old.forms) scopes.old.symbols }
    ensures { AreSymbolsIn (length types.new.forms) scopes.new.symbols }
{
    if !takes_sign(parser, OPEN_BRACE) {
        return Ok(true);
    }
    if parser.open_scope().is_err() || scopes.enter().is_err() {
        write!(into, "no memory\n")?;
        return Ok(false);
    }
    tell_declarations(parser, scopes, types, into)
}

/// An expression's type and value, or its fault.
fn tell_checked_expression(
    alloc: Global,
    scopes: &mut Scopes,
    types: &mut TypeTable,
    e: &Expr,
    into: &mut String,
) -> Result<(), AllocError>
    requires { AreSymbolsIn (length types.old.forms) scopes.old.symbols }
    ensures { AreSymbolsIn (length types.new.forms) scopes.new.symbols }
{
    match check_expr(alloc, scopes, types, e) {
        Ok(core) => tell_expression(into, types, &core),
        Err(fault) => tell_fault(into, fault),
    }
}

/// The next expression's type and value, or its fault.
fn tell_next_expression(
    parser: &mut Parser,
    scopes: &mut Scopes,
    types: &mut TypeTable,
    into: &mut String,
) -> Result<(), AllocError>
    requires { AreSymbolsIn (length types.old.forms) scopes.old.symbols }
    ensures { AreSymbolsIn (length types.new.forms) scopes.new.symbols }
{
    let alloc = parser.alloc();
    match parser.expression() {
        Ok(e) => tell_checked_expression(alloc, scopes, types, &e, into),
        Err(fault) => write!(into, "{fault}\n"),
    }
}

/// The expressions up to the end of the source, or to what is none.
fn tell_expressions(
    parser: &mut Parser,
    scopes: &mut Scopes,
    types: &mut TypeTable,
    into: &mut String,
) -> Result<(), AllocError>
    requires { AreSymbolsIn (length types.old.forms) scopes.old.symbols }
{
    for _ in 0..MOST {
        if parser.token().is_none() {
            return Ok(());
        }
        tell_next_expression(parser, scopes, types, into)?;
        if parser.fault().is_some() {
            return Ok(());
        }
        if !takes_sign(parser, SEMICOLON) {
            return write!(into, "no semicolon\n");
        }
    }
    Ok(())
}

/// Declarations, a block's and expressions, in order, up to the first fault of a declaration.
fn tell_all(
    parser: &mut Parser,
    scopes: &mut Scopes,
    types: &mut TypeTable,
    into: &mut String,
) -> Result<(), AllocError>
    requires { AreSymbolsIn (length types.old.forms) scopes.old.symbols }
{
    if !tell_declarations(parser, scopes, types, into)? {
        return Ok(());
    }
    if !tell_block(parser, scopes, types, into)? {
        return Ok(());
    }
    tell_expressions(parser, scopes, types, into)
}

/// What is told of a source from the beginning of a unit.
pub fn tell_checked(alloc: Global, source: &[u8]) -> Result<String, AllocError>
    requires { length source.now ≤ 16777216 }
{
    let mut told = String::new(alloc);
    let mut types = TypeTable::new(alloc);
    let Ok(mut scopes) = Scopes::new(alloc) else {
        return Ok(told);
    };
    match Parser::new(alloc, source) {
        Ok(mut parser) => tell_all(&mut parser, &mut scopes, &mut types, &mut told)?,
        Err(fault) => write!(&mut told, "{fault}\n")?,
    }
    Ok(told)
}

/// The word for a storage class.
fn class_word(class: Storage) -> &'static str {
    match class {
        Storage::Typedef => "typedef",
        Storage::Extern => "extern",
        Storage::Static => "static",
        Storage::Auto => "auto",
        Storage::Register => "register",
        Storage::Enumerator => "enumerator",
        Storage::Tag => "tag",
    }
}

/// Whether a symbol with this value is defined, or so tentatively.
fn definition_word(value: Option<i64>) -> &'static str {
    match value {
        None => "declared",
        Some(0) => "tentative",
        Some(_) => "defined",
    }
}

/// The symbol of all declarations of `x` that are linked: its class and type, and whether it is defined, or
/// so tentatively.
fn tell_symbol(into: &mut String, scopes: &Scopes, types: &TypeTable) -> Result<(), AllocError>
    requires { AreSymbolsIn (length types.now.forms) scopes.now.symbols }
{
    let Some(id) = scopes.linked(b"x") else {
        return write!(into, "not linked\n");
    };
    if id >= scopes.count() {
        return write!(into, "no symbol\n");
    }
    let symbol = scopes.symbol(id);
    let class = class_word(symbol.class);
    let defined = definition_word(symbol.value);
    write!(into, "{class} ")?;
    tell_type(into, types, symbol_type(scopes, types, id))?;
    write!(into, " {defined}\n")
}

/// What all declarations of `x` come to, where they have no fault.
fn tell_all_linked(
    parser: &mut Parser,
    scopes: &mut Scopes,
    types: &mut TypeTable,
    into: &mut String,
) -> Result<(), AllocError>
    requires { AreSymbolsIn (length types.old.forms) scopes.old.symbols }
{
    if !tell_declarations(parser, scopes, types, into)? {
        return Ok(());
    }
    into.clear();
    tell_symbol(into, scopes, types)
}

/// What all declarations of `x` in a source come to.
pub fn tell_linked(alloc: Global, source: &[u8]) -> Result<String, AllocError>
    requires { length source.now ≤ 16777216 }
{
    let mut told = String::new(alloc);
    let mut types = TypeTable::new(alloc);
    let Ok(mut scopes) = Scopes::new(alloc) else {
        return Ok(told);
    };
    match Parser::new(alloc, source) {
        Ok(mut parser) => tell_all_linked(&mut parser, &mut scopes, &mut types, &mut told)?,
        Err(fault) => write!(&mut told, "{fault}\n")?,
    }
    Ok(told)
}
