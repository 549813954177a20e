//! Steps of a reader: a token that is taken, a place in memory, a scope, and the fault that is kept where
//! one can't be.
ghost use Rattle.std.specs.Prelude.{◌≡◌, ◌<◌, ◌++◌, ◌∷◌, [], List, ℕ, None, Some, true, false, length, IfOk, IfErr, OnOk, OnErr, IsTrue};
ghost use Rattle.c_ast.specs.Marks.{IsSign, IsKeyword};
ghost use Rattle.c_readings.specs.Reading.{Read, State, answer, beyond, close_state, one_name, open_state, put_state, reopen_state};
ghost use Rattle.c_readings.specs.Readers.{goes_on_without};
ghost use Rattle.c_expr.specs.State.{ahead};
ghost use Rattle.c_expr.specs.declared.syntax_fault.SyntaxFault.TheVariants.{Memory as OutOfMemory};
ghost use Rattle.c_decl.specs.Going.{Goes, Breaks, Fails};

use crate::next::{first, goes_on_before};
use c_ast::{Class, sign};
use c_expr::{Parser, SyntaxFault};
use lcc_base::{Bytes, Items};

/// Nothing can be read at the place: the fault, which is kept.
pub fn refuse(p: &mut Parser) -> SyntaxFault
    ensures { Breaks p.old p.new result }
{
    let line = p.line();
    p.fail(line);
    SyntaxFault::NoParse { line }
}

/// Nothing can be read behind the next token: the fault, which is kept.
pub(crate) fn refuse_behind(p: &mut Parser) -> SyntaxFault
    ensures { Breaks p.old p.new result }
{
    if let Some(_) = first(p) {
        p.pass();
    }
    refuse(p)
}

/// No memory is left: the fault, which is kept.
pub(crate) fn run_out(p: &mut Parser) -> SyntaxFault
    ensures kept { Breaks p.old p.new result }
    ensures memory { result ≡ OutOfMemory }
{
    p.run_out();
    SyntaxFault::Memory
}

/// Takes the token that is next.
pub fn take(p: &mut Parser)
    requires left { p.old.place < length p.old.tokens }
    requires sound { p.old.fault ≡ None }
    ensures beyond { ahead p.new ≡ beyond (ahead p.old) }
    ensures going { Goes 1 p.old p.new }
{
    p.pass();
}

/// Takes the sign of this number, if it is next, and says so.
pub fn takes(p: &mut Parser, number: u8) -> bool
    requires sound { p.old.fault ≡ None }
    ensures next { result ≡ answer (IsSign number) (ahead p.old) }
    ensures beyond { IsTrue result → ahead p.new ≡ beyond (ahead p.old) }
    ensures going { IsTrue result → Goes 1 p.old p.new }
    ensures left { result ≡ false → p.new ≡ p.old }
{
    match first(p) {
        Some(token) if token.class == Class::Sign(number) => {
            take(p);
            true
        }
        _ => false,
    }
}

/// Takes the keyword of this number, if it is next, and says so.
pub fn takes_keyword(p: &mut Parser, number: u8) -> bool
    requires sound { p.old.fault ≡ None }
    ensures next { result ≡ answer (IsKeyword number) (ahead p.old) }
    ensures beyond { IsTrue result → ahead p.new ≡ beyond (ahead p.old) }
    ensures going { IsTrue result → Goes 1 p.old p.new }
    ensures left { result ≡ false → p.new ≡ p.old }
{
    match first(p) {
        Some(token) if token.class == Class::Keyword(number) => {
            take(p);
            true
        }
        _ => false,
    }
}

/// Takes the comma that is next, if the sign of this number isn't behind it, and says so.
pub(crate) fn takes_comma(p: &mut Parser, number: u8) -> bool
    requires sound { p.old.fault ≡ None }
    ensures next { result ≡ goes_on_without number (ahead p.old) }
    ensures beyond { IsTrue result → ahead p.new ≡ beyond (ahead p.old) }
    ensures going { IsTrue result → Goes 1 p.old p.new }
    ensures left { result ≡ false → p.new ≡ p.old }
{
    if goes_on_before(p, number) {
        return takes(p, sign::COMMA);
    }
    false
}

/// Takes the sign of this number, which has to be next.
pub fn expect(p: &mut Parser, number: u8) -> Result<(), SyntaxFault>
    requires sound { p.old.fault ≡ None }
    ensures next { OnOk result (answer (IsSign number) (ahead p.old) ≡ true) }
    ensures beyond { OnOk result (ahead p.new ≡ beyond (ahead p.old)) }
    ensures going { OnOk result (Goes 1 p.old p.new) }
    ensures none { IfErr result (λ e. answer (IsSign number) (ahead p.old) ≡ false) }
    ensures broken { IfErr result (λ e. Breaks p.old p.new e) }
{
    if takes(p, number) {
        return Ok(());
    }
    Err(refuse(p))
}

/// Takes the name that has to be next, and gives a copy of its bytes.
pub fn take_name(p: &mut Parser) -> Result<Bytes, SyntaxFault>
    requires sound { p.old.fault ≡ None }
    ensures ok { IfOk result (λ n. (f : List ℕ → State → Read (List ℕ)) → one_name (ahead p.old) f ≡ f n (ahead p.new)) }
    ensures none { IfErr result (λ e. (f : List ℕ → State → Read (List ℕ)) → Fails e (one_name (ahead p.old) f)) }
    ensures going { IfOk result (λ n. Goes 1 p.old p.new) }
    ensures broken { IfErr result (λ e. Breaks p.old p.new e) }
{
    match first(p) {
        Some(token) if token.class == Class::Name => {
            let Ok(name) = Bytes::copied(p.alloc(), p.bytes(token)) else {
                return Err(run_out(p));
            };
            take(p);
            Ok(name)
        }
        _ => Err(refuse(p)),
    }
}

/// Puts one more item into a list.
pub fn keep<T: Drop>(p: &mut Parser, list: &mut Items<T>, item: T) -> Result<(), SyntaxFault>
    ensures list { OnOk result (list.new ≡ list.old ++ (item ∷ [])) }
    ensures same { OnOk result (p.new ≡ p.old) }
    ensures memory { IfErr result (λ e. e ≡ OutOfMemory) }
    ensures broken { IfErr result (λ e. Breaks p.old p.new e) }
{
    if list.push(item).is_err() {
        return Err(run_out(p));
    }
    Ok(())
}

/// A list of one item, with room for no other.
pub(crate) fn alone<T: Drop>(p: &mut Parser, item: T) -> Result<Items<T>, SyntaxFault>
    ensures list { IfOk result (λ list. list ≡ item ∷ []) }
    ensures same { OnOk result (p.new ≡ p.old) }
    ensures memory { IfErr result (λ e. e ≡ OutOfMemory) }
    ensures broken { IfErr result (λ e. Breaks p.old p.new e) }
{
    let Ok(mut list) = Items::with_capacity(p.alloc(), 1) else {
        return Err(run_out(p));
    };
    keep(p, &mut list, item)?;
    Ok(list)
}

/// A value in a place of its own.
pub fn boxed<T: Drop>(p: &mut Parser, value: T) -> Result<Box<T>, SyntaxFault>
    ensures value { IfOk result (λ b. b.value ≡ value) }
    ensures same { OnOk result (p.new ≡ p.old) }
    ensures memory { IfErr result (λ e. e ≡ OutOfMemory) }
    ensures broken { IfErr result (λ e. Breaks p.old p.new e) }
{
    match Box::new(p.alloc(), value) {
        Ok(place) => Ok(place),
        Err(_) => Err(run_out(p)),
    }
}

/// Closes the innermost scope.
pub fn close_scope(p: &mut Parser)
    requires sound { p.old.fault ≡ None }
    ensures closed { ahead p.new ≡ close_state false (ahead p.old) }
    ensures going { Goes 0 p.old p.new }
{
    p.close_scope();
}

/// Puts a name in force in the innermost scope, as a typedef name or as another.
pub(crate) fn put(p: &mut Parser, name: &[u8], typedef: bool) -> Result<(), SyntaxFault>
    requires sound { p.old.fault ≡ None }
    ensures put { OnOk result (ahead p.new ≡ put_state (Some name.now) typedef (ahead p.old)) }
    ensures going { OnOk result (Goes 0 p.old p.new) }
    ensures memory { IfErr result (λ e. e ≡ OutOfMemory) }
    ensures broken { IfErr result (λ e. Breaks p.old p.new e) }
{
    if p.put_name(name, typedef).is_err() {
        return Err(run_out(p));
    }
    Ok(())
}

/// Opens a scope.
pub fn open_scope(p: &mut Parser) -> Result<(), SyntaxFault>
    requires sound { p.old.fault ≡ None }
    ensures open { OnOk result (ahead p.new ≡ open_state (ahead p.old)) }
    ensures going { OnOk result (Goes 0 p.old p.new) }
    ensures memory { IfErr result (λ e. e ≡ OutOfMemory) }
    ensures broken { IfErr result (λ e. Breaks p.old p.new e) }
{
    if p.open_scope().is_err() {
        return Err(run_out(p));
    }
    Ok(())
}

/// Opens a scope with the names of the last declarator's own parameters.
pub fn reopen_scope(p: &mut Parser) -> Result<(), SyntaxFault>
    requires sound { p.old.fault ≡ None }
    ensures open { OnOk result (ahead p.new ≡ reopen_state (ahead p.old)) }
    ensures going { OnOk result (Goes 0 p.old p.new) }
    ensures memory { IfErr result (λ e. e ≡ OutOfMemory) }
    ensures broken { IfErr result (λ e. Breaks p.old p.new e) }
{
    if p.reopen_scope().is_err() {
        return Err(run_out(p));
    }
    Ok(())
}
