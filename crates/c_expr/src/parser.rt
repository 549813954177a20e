//! The parser of C's expressions, type names, specifiers and declarators, with names in force.
ghost use Rattle.std.specs.Prelude.{◌≡◌, ◌≤◌, ◌<◌, ◌+◌, ◌↔◌, IsTrue, None, Some, true, length, slice_get, IfOk, IfErr, OnOk, OnErr};
ghost use Rattle.c_ast.specs.InForce.{nothing_in_force, is_typedef, put, opened, closed, reopened};
ghost use Rattle.c_ast.specs.declared.class.Class.TheVariants.{Name};
ghost use Rattle.c_lexer.specs.SourceUnits.{bytes_of};
ghost use Rattle.c_lexer.specs.Tokens.{first_place, AreTokens};
ghost use Rattle.c_expr.specs.declared.syntax_fault.SyntaxFault.TheVariants.{Memory as OutOfMemory, NoParse};
ghost use Rattle.c_expr.specs.Productions.{declarator, expression, specifiers, type_name, whole_expression};
ghost use Rattle.c_ast.specs.Seen.{declarator_seen, expr_seen, specifiers_seen, type_name_seen};
ghost use Rattle.c_expr.specs.State.{ahead, forgetting, line_at, IsStopped, IsUncut, Refused, Took};

use crate::declarators::{Shape, declarator_at};
use crate::expressions::{piece_at, whole_at};
use crate::names_met::NamesMet;
use crate::specifiers::specifiers_at;
use crate::stop::Stop;
use crate::syntax_fault::SyntaxFault;
use crate::tokens::Text;
use crate::type_names::type_name_at;
use c_ast::{Class, Declarator, Expr, Specifiers, TypeName};
use c_lexer::{Lexer, Token, bytes_of};
use c_readings::{pieces_are_fronts, readers_are_exact};
use lcc_base::Memory;
use names_in_force::Names;
use std::alloc::Global;
use std::marker::Model;

/// The greatest height of a unit.
const MOST_HIGH: u32 = 500;

/// A C source that is parsed, which contracts see as its bytes and tokens, how many of these were
/// taken, the names in force, and the fault that was answered, if any.
#[derive(Drop)]
pub struct Parser<'s> {
    alloc: Global,
    source: &'s [u8],
    tokens: Vec<Token>,
    /// How many tokens were taken.
    place: usize,
    names: Names,
    fault: Option<SyntaxFault>,
}

impl<'s> Model for Parser<'s> {
    ghost use Rattle.std.specs.Prelude.{◌≤◌, length};
    ghost use Rattle.c_expr.specs.State.{MParser};

    ghost Value = { MParser };

    ghost view = { λ p. record { source = p.source.now; tokens = p.tokens.items; place = p.place; names = p.names; fault = p.fault } };

    ghost invariant = { λ p. (length p.source.now ≤ 16777216) × (p.place ≤ length p.tokens.items) };
}

/// All tokens of a source.
fn tokens_of(alloc: Global, source: &[u8]) -> Result<Vec<Token>, SyntaxFault>
    requires { length source.now ≤ 16777216 }
    ensures ok { IfOk result (λ ts. AreTokens source.now first_place ts.items None) }
    ensures err { IfErr result (λ e. IsUncut source.now e) }
{
    let mut lexer = Lexer::new(source);
    let mut tokens = Vec::new(alloc);
    loop {
        match lexer.next() {
            Ok(Some(token)) => {
                if tokens.push(token).is_err() {
                    return Err(SyntaxFault::Memory);
                }
            }
            Ok(None) => return Ok(tokens),
            Err(fault) => return Err(SyntaxFault::Lex(fault)),
        }
    }
}

impl<'s> Parser<'s> {
    /// A parser before the first token of a source, with no names in force. All tokens are read. Lex
    /// comes exactly where the source can't be cut into tokens, and Memory where an allocation is
    /// refused.
    pub fn new(alloc: Global, source: &'s [u8]) -> Result<Self, SyntaxFault>
        requires { length source.now ≤ 16777216 }
        ensures tokens { IfOk result (λ p. AreTokens source.now first_place p.tokens None) }
        ensures first { IfOk result (λ p. p ≡ record { source = source.now; tokens = p.tokens; place = 0; names = nothing_in_force; fault = None }) }
        ensures err { IfErr result (λ e. IsUncut source.now e) }
    {
        let tokens = tokens_of(alloc, source)?;
        let Ok(names) = Names::new(alloc) else {
            return Err(SyntaxFault::Memory);
        };
        Ok(Parser {
            alloc,
            source,
            tokens,
            place: 0,
            names,
            fault: None,
        })
    }

    /// The token at the place, if one is there.
    pub fn token(&self) -> Option<Token>
        ensures { result ≡ slice_get self.now.tokens self.now.place }
    {
        self.tokens.get(self.place).copied()
    }

    /// The token behind the one at the place, if one is there.
    pub fn after(&self) -> Option<Token>
        ensures { result ≡ slice_get self.now.tokens (self.now.place + 1) }
    {
        if self.place >= self.tokens.len() {
            return None;
        }
        self.tokens.get(self.place + 1).copied()
    }

    /// The bytes of a token.
    pub fn bytes(&self, token: Token) -> &'s [u8]
        ensures { result.now ≡ bytes_of self.now.source token }
    {
        bytes_of(self.source, token)
    }

    /// Whether the token is a name whose innermost declaration in force makes it a typedef name.
    pub fn names_type(&self, token: Token) -> bool
        ensures { IsTrue result ↔ ((token.class ≡ Name) × (is_typedef self.now.names (bytes_of self.now.source token) ≡ true)) }
    {
        token.class == Class::Name && self.names.is_typedef(self.bytes(token))
    }

    /// Where the parser allocates.
    pub fn alloc(&self) -> Global {
        self.alloc
    }

    /// The line of the token at the place, behind the end that of the last token, and 1 where there is
    /// none.
    pub fn line(&self) -> u32
        ensures { result ≡ line_at self.now.tokens self.now.place }
    {
        self.line_at(self.place)
    }

    /// Takes the token at the place.
    pub fn pass(&mut self)
        requires { self.old.place < length self.old.tokens }
        ensures { self.new ≡ record self.old { place = self.old.place + 1 } }
    {
        self.place += 1;
    }

    /// Opens a scope. After an error the parser is as before.
    pub fn open_scope(&mut self) -> Result<(), Memory>
        ensures ok { OnOk result (self.new ≡ record self.old { names = opened self.old.names }) }
        ensures err { OnErr result (self.new ≡ self.old) }
    {
        self.names.open()
    }

    /// Closes the innermost scope, if there is one.
    pub fn close_scope(&mut self)
        ensures { self.new ≡ record self.old { names = closed self.old.names } }
    {
        self.names.close();
    }

    /// Opens a scope with the names of the last declarator's own parameter list: a function's body
    /// has those of its parameters. After an error the parser is as before.
    pub fn reopen_scope(&mut self) -> Result<(), Memory>
        ensures ok { OnOk result (self.new ≡ record self.old { names = reopened self.old.names }) }
        ensures err { OnErr result (self.new ≡ self.old) }
    {
        self.names.reopen()
    }

    /// Puts the name in force in the innermost scope, as a typedef name or as another. After an
    /// error the parser is as before.
    pub fn put_name(&mut self, name: &[u8], typedef: bool) -> Result<(), Memory>
        ensures ok { OnOk result (self.new ≡ record self.old { names = put self.old.names name.now typedef }) }
        ensures err { OnErr result (self.new ≡ self.old) }
    {
        self.names.put(name, typedef)
    }

    /// From here on each call for a production answers NoParse with this line.
    pub fn fail(&mut self, line: u32)
        ensures { self.new ≡ record self.old { fault = Some (NoParse line) } }
    {
        self.fault = Some(SyntaxFault::NoParse { line });
    }

    /// From here on each call for a production answers Memory.
    pub fn run_out(&mut self)
        ensures { self.new ≡ record self.old { fault = Some OutOfMemory } }
    {
        self.fault = Some(SyntaxFault::Memory);
    }

    /// The fault that each call for a production answers; None exactly where there is none.
    pub fn fault(&self) -> Option<SyntaxFault>
        ensures { result ≡ self.now.fault }
    {
        self.fault
    }

    /// The line of the token at the place, behind the end that of the last token, and 1 where there is
    /// none.
    fn line_at(&self, place: usize) -> u32
        ensures { result ≡ line_at self.now.tokens place }
    {
        match self
            .tokens
            .get(place.min(self.tokens.len().saturating_sub(1)))
        {
            Some(token) => token.line,
            None => 1,
        }
    }

    /// The fault of a reader that stopped, which is kept. Where nothing could be read, the token by
    /// which nothing goes on is at the place behind it.
    fn stopped(&mut self, stop: Stop) -> SyntaxFault
        ensures kept { self.new ≡ record self.old { place = self.new.place; fault = Some result } }
        ensures further { self.old.place ≤ self.new.place }
        ensures fault { IsStopped self.old.tokens self.new.place stop result }
    {
        let fault = match stop {
            Stop::NoParse { left } => {
                let place = self.place.max(self.tokens.len().saturating_sub(left));
                self.place = place;
                let line = self.line_at(place);
                SyntaxFault::NoParse { line }
            }
            Stop::Memory => SyntaxFault::Memory,
        };
        self.fault = Some(fault);
        fault
    }

    /// The expression at the place, perhaps with commas. Source: C89 3.3.17.
    ///
    /// A call for a production takes the longest piece of it at the place, no higher than 500, from
    /// which the next token doesn't go on. NoParse comes exactly where none stands there, with the
    /// line of the token by which nothing goes on, which is at the place from there on; and Memory
    /// where an allocation is refused. The fault is answered again by each later call.
    pub fn expression(&mut self) -> Result<Expr, SyntaxFault>
        ensures ok { IfOk result (λ e. Took (whole_expression 500) (ahead self.old) self.old (expr_seen e) self.new) }
        ensures err { IfErr result (λ e. Refused (whole_expression 500) (ahead self.old) self.old self.new e) }
    {
        self.expression_to(MOST_HIGH)
    }

    /// The expression at the place, perhaps with commas, that is no higher than the limit.
    pub fn expression_to(&mut self, limit: u32) -> Result<Expr, SyntaxFault>
        requires limit { limit ≤ 500 }
        ensures ok { IfOk result (λ e. Took (whole_expression limit) (ahead self.old) self.old (expr_seen e) self.new) }
        ensures err { IfErr result (λ e. Refused (whole_expression limit) (ahead self.old) self.old self.new e) }
    {
        readers_are_exact();
        pieces_are_fronts();
        if let Some(fault) = self.fault {
            return Err(fault);
        }
        let text = Text::new(self.alloc, self.source);
        let tokens = &self.tokens[self.place..];
        match whole_at(&text, &mut self.names, tokens, limit) {
            Ok(found) => {
                self.place = self.tokens.len() - found.rest.len();
                Ok(found.tree)
            }
            Err(stop) => Err(self.stopped(stop)),
        }
    }

    /// The expression of the level at the place, no higher than the limit.
    fn piece(&mut self, level: u8, limit: u32) -> Result<Expr, SyntaxFault>
        requires level { (1 ≤ level) × (level ≤ 15) }
        requires limit { limit ≤ 500 }
        ensures ok { IfOk result (λ e. Took (expression level limit) (ahead self.old) self.old (expr_seen e) self.new) }
        ensures err { IfErr result (λ e. Refused (expression level limit) (ahead self.old) self.old self.new e) }
    {
        readers_are_exact();
        pieces_are_fronts();
        if let Some(fault) = self.fault {
            return Err(fault);
        }
        let text = Text::new(self.alloc, self.source);
        let tokens = &self.tokens[self.place..];
        match piece_at(&text, &mut self.names, level, tokens, limit) {
            Ok(found) => {
                self.place = self.tokens.len() - found.rest.len();
                Ok(found.tree)
            }
            Err(stop) => Err(self.stopped(stop)),
        }
    }

    /// The assignment expression at the place, as `expression`. Source: C89 3.3.16.
    pub fn assignment(&mut self) -> Result<Expr, SyntaxFault>
        ensures ok { IfOk result (λ e. Took (expression 1 500) (ahead self.old) self.old (expr_seen e) self.new) }
        ensures err { IfErr result (λ e. Refused (expression 1 500) (ahead self.old) self.old self.new e) }
    {
        self.piece(1, MOST_HIGH)
    }

    /// The assignment expression at the place that is no higher than the limit.
    pub fn assignment_to(&mut self, limit: u32) -> Result<Expr, SyntaxFault>
        requires limit { limit ≤ 500 }
        ensures ok { IfOk result (λ e. Took (expression 1 limit) (ahead self.old) self.old (expr_seen e) self.new) }
        ensures err { IfErr result (λ e. Refused (expression 1 limit) (ahead self.old) self.old self.new e) }
    {
        self.piece(1, limit)
    }

    /// The constant expression at the place, as `expression`. Source: C89 3.4.
    pub fn constant(&mut self) -> Result<Expr, SyntaxFault>
        ensures ok { IfOk result (λ e. Took (expression 2 500) (ahead self.old) self.old (expr_seen e) self.new) }
        ensures err { IfErr result (λ e. Refused (expression 2 500) (ahead self.old) self.old self.new e) }
    {
        self.piece(2, MOST_HIGH)
    }

    /// The constant expression at the place that is no higher than the limit.
    pub fn constant_to(&mut self, limit: u32) -> Result<Expr, SyntaxFault>
        requires limit { limit ≤ 500 }
        ensures ok { IfOk result (λ e. Took (expression 2 limit) (ahead self.old) self.old (expr_seen e) self.new) }
        ensures err { IfErr result (λ e. Refused (expression 2 limit) (ahead self.old) self.old self.new e) }
    {
        self.piece(2, limit)
    }

    /// The type's name at the place, as `expression`. Source: C89 3.5.5.
    pub fn type_name(&mut self) -> Result<TypeName, SyntaxFault>
        ensures ok { IfOk result (λ x. Took (type_name 500) (ahead self.old) self.old (type_name_seen x) self.new) }
        ensures err { IfErr result (λ e. Refused (type_name 500) (ahead self.old) self.old self.new e) }
    {
        readers_are_exact();
        pieces_are_fronts();
        if let Some(fault) = self.fault {
            return Err(fault);
        }
        let text = Text::new(self.alloc, self.source);
        let tokens = &self.tokens[self.place..];
        match type_name_at(&text, &mut self.names, tokens, MOST_HIGH) {
            Ok(found) => {
                self.place = self.tokens.len() - found.rest.len();
                Ok(found.tree)
            }
            Err(stop) => Err(self.stopped(stop)),
        }
    }

    /// The specifiers at the place, as `expression`. Source: C89 3.5.
    pub fn specifiers(&mut self) -> Result<Specifiers, SyntaxFault>
        ensures ok { IfOk result (λ x. Took (specifiers 500) (ahead self.old) self.old (specifiers_seen x) self.new) }
        ensures err { IfErr result (λ e. Refused (specifiers 500) (ahead self.old) self.old self.new e) }
    {
        self.specifiers_to(MOST_HIGH)
    }

    /// The specifiers at the place that are no higher than the limit.
    pub fn specifiers_to(&mut self, limit: u32) -> Result<Specifiers, SyntaxFault>
        requires limit { limit ≤ 500 }
        ensures ok { IfOk result (λ x. Took (specifiers limit) (ahead self.old) self.old (specifiers_seen x) self.new) }
        ensures err { IfErr result (λ e. Refused (specifiers limit) (ahead self.old) self.old self.new e) }
    {
        readers_are_exact();
        pieces_are_fronts();
        if let Some(fault) = self.fault {
            return Err(fault);
        }
        let text = Text::new(self.alloc, self.source);
        let tokens = &self.tokens[self.place..];
        match specifiers_at(&text, &mut self.names, tokens, limit) {
            Ok(found) => {
                self.place = self.tokens.len() - found.rest.len();
                Ok(found.tree)
            }
            Err(stop) => Err(self.stopped(stop)),
        }
    }

    /// The declarator at the place, as `expression`, which declares a name and is no part of
    /// another. The names of its own parameter list, if it has one, are kept, and none else.
    /// Source: C89 3.5.4.
    pub fn declarator(&mut self) -> Result<Declarator, SyntaxFault>
        ensures ok { IfOk result (λ x. Took (declarator 500) (forgetting self.old) self.old (declarator_seen x) self.new) }
        ensures err { IfErr result (λ e. Refused (declarator 500) (forgetting self.old) self.old self.new e) }
    {
        self.declarator_to(MOST_HIGH)
    }

    /// The declarator at the place, as `declarator`, that is no higher than the limit.
    pub fn declarator_to(&mut self, limit: u32) -> Result<Declarator, SyntaxFault>
        requires limit { limit ≤ 500 }
        ensures ok { IfOk result (λ x. Took (declarator limit) (forgetting self.old) self.old (declarator_seen x) self.new) }
        ensures err { IfErr result (λ e. Refused (declarator limit) (forgetting self.old) self.old self.new e) }
    {
        readers_are_exact();
        pieces_are_fronts();
        if let Some(fault) = self.fault {
            return Err(fault);
        }
        self.names.forget();
        let text = Text::new(self.alloc, self.source);
        let tokens = &self.tokens[self.place..];
        let shape = Shape {
            free: false,
            outer: true,
        };
        let mut met = NamesMet::none();
        match declarator_at(&text, &mut self.names, &mut met, shape, tokens, limit) {
            Ok(found) => {
                self.place = self.tokens.len() - found.rest.len();
                Ok(found.tree)
            }
            Err(stop) => Err(self.stopped(stop)),
        }
    }
}
