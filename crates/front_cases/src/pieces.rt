//! Whether a source is a piece of a production, and units that are printed.
ghost use Rattle.std.specs.Prelude.{◌≤◌, length};

use crate::case::Production;
use c_ast::{Unit, print};
use c_decl::{declaration, initialiser};
use c_expr::{Parser, SyntaxFault};
use c_stmt::{statement, unit};
use std::alloc::{AllocError, Global};
use std::str;

/// The fault of the expression that comes, if it has one.
fn expression_fault(parser: &mut Parser) -> Option<SyntaxFault> {
    parser.expression().err()
}

/// The fault of the type name that comes, if it has one.
fn type_name_fault(parser: &mut Parser) -> Option<SyntaxFault> {
    parser.type_name().err()
}

/// The fault of the initialiser that comes, if it has one.
fn initialiser_fault(parser: &mut Parser) -> Option<SyntaxFault> {
    initialiser(parser).err()
}

/// The fault of the declaration that comes, if it has one.
fn declaration_fault(parser: &mut Parser) -> Option<SyntaxFault> {
    declaration(parser).err()
}

/// The fault of the statement that comes, if it has one.
fn statement_fault(parser: &mut Parser) -> Option<SyntaxFault> {
    statement(parser).err()
}

/// The fault of a source as a unit, if it has one.
fn unit_fault(alloc: Global, source: &[u8]) -> Option<SyntaxFault>
    requires { length source.now ≤ 16777216 }
{
    unit(alloc, source).err()
}

/// The fault of the piece that comes, if it has one.
fn fault_of(parser: &mut Parser, production: Production) -> Option<SyntaxFault> {
    match production {
        Production::Expression => expression_fault(parser),
        Production::TypeName => type_name_fault(parser),
        Production::Initialiser => initialiser_fault(parser),
        Production::Declaration => declaration_fault(parser),
        Production::Statement => statement_fault(parser),
    }
}

/// A fault, or `whole`.
fn tell_fault(into: &mut String, fault: Option<SyntaxFault>) -> Result<(), AllocError> {
    match fault {
        Some(fault) => write!(into, "{fault}\n"),
        None => write!(into, "whole\n"),
    }
}

/// The line of what is left, or `whole`.
fn tell_behind(into: &mut String, parser: &Parser) -> Result<(), AllocError> {
    match parser.token() {
        Some(token) => {
            let line = token.line;
            write!(into, "line {line}: left\n")
        }
        None => write!(into, "whole\n"),
    }
}

/// The fault of the piece that comes, or what is behind it. T is a typedef name.
fn tell_next(
    into: &mut String,
    parser: &mut Parser,
    production: Production,
) -> Result<(), AllocError> {
    if parser.put_name(b"T", true).is_err() {
        return tell_fault(into, Some(SyntaxFault::Memory));
    }
    match fault_of(parser, production) {
        Some(fault) => tell_fault(into, Some(fault)),
        None => tell_behind(into, parser),
    }
}

/// `whole`, the line of what is left behind the piece, or the fault. T is a typedef name.
pub fn tell_piece(
    alloc: Global,
    production: Production,
    source: &[u8],
) -> Result<String, AllocError>
    requires { length source.now ≤ 16777216 }
{
    let mut told = String::new(alloc);
    match Parser::new(alloc, source) {
        Ok(mut parser) => tell_next(&mut told, &mut parser, production)?,
        Err(fault) => tell_fault(&mut told, Some(fault))?,
    }
    Ok(told)
}

/// `whole`, or the fault of a source as a unit.
pub fn tell_unit(alloc: Global, source: &[u8]) -> Result<String, AllocError>
    requires { length source.now ≤ 16777216 }
{
    let mut told = String::new(alloc);
    tell_fault(&mut told, unit_fault(alloc, source))?;
    Ok(told)
}

/// A unit, printed.
fn tell_tree(alloc: Global, into: &mut String, tree: &Unit) -> Result<(), AllocError> {
    match print(alloc, tree) {
        Ok(text) => {
            let text = str::from_utf8(text.as_slice()).unwrap_or("..");
            write!(into, "{text}\n")
        }
        Err(_) => write!(into, "no memory\n"),
    }
}

/// The unit that a source is, printed, or the fault.
fn tell_print(alloc: Global, into: &mut String, source: &[u8]) -> Result<(), AllocError>
    requires { length source.now ≤ 16777216 }
{
    match unit(alloc, source) {
        Ok(tree) => tell_tree(alloc, into, &tree),
        Err(fault) => tell_fault(into, Some(fault)),
    }
}

/// The unit that a source is, printed, or the fault.
pub fn tell_printed(alloc: Global, source: &[u8]) -> Result<String, AllocError>
    requires { length source.now ≤ 16777216 }
{
    let mut told = String::new(alloc);
    tell_print(alloc, &mut told, source)?;
    Ok(told)
}
