//! The size of a unit, and the width of its numbers (C89 2.2.4.2).
ghost use Rattle.std.specs.Prelude.{◌≡◌, ◌+◌, ◌<◌, [], ◌∷◌, IfSome, IsTrue, length, map};
ghost use Rattle.c_types.specs.Table.{Table, types};
ghost use Rattle.c_meaning.specs.Each.{EachIs};
ghost use Rattle.c_meaning.specs.Numbers.{IsText, IsWordKind};
ghost use Rattle.c_meaning.specs.StmtTrees.{stmt_of, stmts_of};
ghost use Rattle.c_meaning.specs.Units.{function_seen, object_seen, total};
ghost use Rattle.c_units.specs.Wholes.{FunctionHasWords, ObjectHasWords};
ghost use Rattle.c_wholes.specs.Numbering.{AreCounted, AreCountedFunctions, ExprHasWords, ExprsHaveWords, IsCounted, PlacesHaveWords, SomeHasWords};

use c_meaning::{CoreExpr, CoreFunction, CoreKind, CoreObject, CoreStmt, FilledPlace};
use lcc_base::Bytes;

/// The number of functions with their locals and statements, objects and texts that a unit may have.
const MOST: u32 = 2_147_483_647;

/// Whether a unit of these isn't too large to be numbered: fewer than 2^31 functions with their locals and statements,
/// objects and texts. Then its numbers have 32 bits and its texts are of bytes.
pub fn is_numbered(functions: &[CoreFunction], objects: &[CoreObject], texts: &[Bytes]) -> bool
    ensures few { IsTrue result → (t : Table) → total (map (function_seen (types t)) functions.now) + (length objects.now + length texts.now) < 2147483648 }
    ensures functions { IsTrue result → (t : Table) → EachIs FunctionHasWords (map (function_seen (types t)) functions.now) }
    ensures objects { IsTrue result → (t : Table) → EachIs ObjectHasWords (map (object_seen (types t)) objects.now) }
    ensures texts { IsTrue result → EachIs IsText texts.now }
{
    let Some(left) = count_functions(functions, MOST) else {
        return false;
    };
    read_objects(objects);
    read_texts(texts);
    objects.len() <= left as usize && texts.len() <= left as usize - objects.len()
}

/// What is left of a number where functions with their locals and statements are taken off. None where it is too small.
fn count_functions(functions: &[CoreFunction], most: u32) -> Option<u32>
    ensures { IfSome result (λ left. AreCountedFunctions most left functions.now) }
{
    let mut left = most;
    for f in functions {
        left = count_function(f, left)?;
    }
    Some(left)
}

/// What is left where a function, its locals and its statements are taken off.
fn count_function(f: &CoreFunction, most: u32) -> Option<u32>
    ensures { IfSome result (λ left. AreCountedFunctions most left (f.now ∷ [])) }
{
    let own = most.checked_sub(1)?;
    let locals = u32::try_from(f.locals.len()).ok()?;
    count_statement(&f.body, own.checked_sub(locals)?)
}

/// What is left where statements are taken off, with those within.
#[cycle(counting)]
fn count_statements(list: &[CoreStmt], most: u32) -> Option<u32>
    ensures { IfSome result (λ left. AreCounted most left (stmts_of (map stmt_of list.now))) }
{
    let mut left = most;
    for s in list {
        left = count_statement(s, left)?;
    }
    Some(left)
}

/// What is left where a statement is taken off, with those within.
#[cycle(counting)]
fn count_statement(s: &CoreStmt, most: u32) -> Option<u32>
    ensures { IfSome result (λ left. IsCounted most left (stmt_of s.now)) }
{
    let left = most.checked_sub(1)?;
    match s {
        CoreStmt::Expression(e) => {
            read_expr(e);
            Some(left)
        }
        CoreStmt::Initialise { places, .. } => {
            read_places(places.as_slice());
            Some(left)
        }
        CoreStmt::Block { statements, .. } => count_statements(statements.as_slice(), left),
        CoreStmt::If {
            test,
            then,
            otherwise,
        } => {
            read_expr(test);
            let left = count_statement(then, left)?;
            count_statement(otherwise, left)
        }
        CoreStmt::While { test, body } => {
            read_expr(test);
            count_statement(body, left)
        }
        CoreStmt::Do { body, test } => {
            read_expr(test);
            count_statement(body, left)
        }
        CoreStmt::For { head, body } => {
            read_some(&head.first);
            read_some(&head.test);
            read_some(&head.last);
            count_statement(body, left)
        }
        CoreStmt::Switch { value, body, .. } => {
            read_expr(value);
            count_statement(body, left)
        }
        CoreStmt::Label(_, s) => count_statement(s, left),
        CoreStmt::Return(e) => {
            read_some(e);
            Some(left)
        }
        CoreStmt::Nothing | CoreStmt::Goto(_) | CoreStmt::Break | CoreStmt::Continue => Some(left),
    }
}

/// Reads what objects begin with.
fn read_objects(objects: &[CoreObject])
    ensures { (t : Table) → EachIs ObjectHasWords (map (object_seen (types t)) objects.now) }
{
    for o in objects {
        read_places(o.places.as_slice());
    }
}

/// Reads the values of an object's places.
fn read_places(places: &[FilledPlace])
    ensures { PlacesHaveWords places.now }
{
    for p in places {
        read_expr(&p.value);
    }
}

/// Reads an expression, if there is one.
fn read_some(e: &Option<CoreExpr>)
    ensures { SomeHasWords e.now }
{
    if let Some(e) = e {
        read_expr(e);
    }
}

/// Reads an expression: each of its numbers has 32 bits.
#[cycle(reading)]
fn read_expr(c: &CoreExpr)
    ensures { ExprHasWords c.now }
{
    read_kind(&c.what);
    read_exprs(c.kids.as_slice());
}

/// Reads expressions in order.
#[cycle(reading)]
fn read_exprs(list: &[CoreExpr])
    ensures { ExprsHaveWords list.now }
{
    for c in list {
        read_expr(c);
    }
}

/// Reads a kind: a number has 32 bits.
fn read_kind(what: &CoreKind)
    ensures { IsWordKind what.now }
{
    if let CoreKind::Number(n) = what {
        read_word(*n);
    }
}

/// Reads a number, which has 32 bits.
fn read_word(word: u32)
    ensures { word < 4294967296 }
{
    let _ = word;
}

/// Reads texts.
fn read_texts(texts: &[Bytes])
    ensures { EachIs IsText texts.now }
{
    for t in texts {
        read_text(t.as_slice());
    }
}

/// Reads a text: each of its bytes has 8 bits.
fn read_text(text: &[u8])
    ensures { IsText text.now }
{
    for byte in text {
        read_byte(*byte);
    }
}

/// Reads a byte, which has 8 bits.
fn read_byte(byte: u8)
    ensures { byte < 256 }
{
    let _ = byte;
}
