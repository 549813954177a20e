//! What a line of declarations declares.
ghost use Rattle.std.specs.Prelude.{◌≡◌, ◌<◌, ◌≤◌, ◌+◌, ◌∷◌, ◌++◌, [], None, Some, List, ℕ, codes, length, take, slice_get, IfOk, IfSome, IfNone};
ghost use Rattle.lcc_text.specs.Names.{bytes_of};
ghost use Rattle.lburg_lines.specs.Tokens.{Tok, Word, Number, Keyword, view, views};
ghost use Rattle.lburg_lines.specs.Grammar.{AreLineOf};
ghost use Rattle.lburg_lines.specs.Sections.{TokenLine};
ghost use Rattle.lburg_faults.specs.Lines.{InDeclarations, IsRules};
ghost use Rattle.lburg_faults.specs.Setting.{Setting};
ghost use Rattle.lburg_faults.specs.Telling.{TextDeclares};
ghost use Rattle.lburg_faults.specs.Grammatical.{IsBegun};
ghost use Rattle.lburg_faults.specs.Knowing.{Knows};
ghost use Rattle.lburg_faults.specs.Scans.{Scanned, DeclarationRows};
ghost use Rattle.lburg_faults.specs.Declaring.{TokenFails, TokenFits, FitBefore, FailsFirst, Adds, ScansLine, NotesWhole};

use crate::declared::is_declared;
use crate::directive::after_keyword;
use crate::found::Found;
use crate::here::Here;
use crate::known::{Known, StartSymbol};
use crate::line_fault::LineFault;
use lburg_lines::Token;
use lcc_base::Which;
use lcc_text::{decimal_value, find, place};
use std::alloc::{AllocError, Global};

/// How many terminals a description may declare.
const MOST_TERMINALS: usize = 1023;

/// The greatest number of a terminal.
const MOST_NUMBER: u32 = 2_147_483_647;

/// The name that the token is.
fn name_of<'a>(token: &Token<'a>) -> Option<&'a [u8]>
    ensures some { IfSome result (λ name. view token.now ≡ Word name.now) }
    ensures none { IfNone result ((name : List ℕ) → view token.now ≡ Word name → ⊥) }
{
    match token {
        Token::Name(name) => Some(name),
        _ => None,
    }
}

/// The name behind `%start`, if it stands before the bound.
fn start_name<'a>(tokens: &[Token<'a>], bound: usize) -> Option<&'a [u8]>
    ensures some { IfSome result (λ name. (2 ≤ bound) × (slice_get (views tokens.now) 1 ≡ Some (Word name.now))) }
    ensures none { IfNone result ((name : List ℕ) → 2 ≤ bound → slice_get (views tokens.now) 1 ≡ Some (Word name) → ⊥) }
{
    if bound < 2 {
        return None;
    }
    match tokens.get(1) {
        Some(token) => name_of(token),
        None => None,
    }
}

impl<'a> Known<'a> {
    /// Notes a terminal's name.
    fn declare_name(&mut self, name: &'a [u8]) -> Result<Option<LineFault>, AllocError>
        ensures fails { IfOk result (λ f. IfSome f (TokenFails (bytes_of self.old.terminals) self.old.numbers.keys (Word name.now))) }
        ensures fits { IfOk result (λ f. IfNone f (TokenFits (bytes_of self.old.terminals) self.old.numbers.keys (Word name.now))) }
        ensures adds { IfOk result (λ f. IfNone f (Adds (Word name.now ∷ []) self.old self.new)) }
    {
        if find(&self.terminals, name).is_some() {
            return Ok(Some(LineFault::DoubleTerminal));
        }
        if self.terminals.len() >= MOST_TERMINALS {
            return Ok(Some(LineFault::Limit(Which::Terminals)));
        }
        self.arities.push(None)?;
        place(&mut self.terminals, name)?;
        Ok(None)
    }

    /// Notes a terminal's number.
    fn declare_number(&mut self, digits: &[u8]) -> Result<Option<LineFault>, AllocError>
        ensures fails { IfOk result (λ f. IfSome f (TokenFails (bytes_of self.old.terminals) self.old.numbers.keys (Number digits.now))) }
        ensures fits { IfOk result (λ f. IfNone f (TokenFits (bytes_of self.old.terminals) self.old.numbers.keys (Number digits.now))) }
        ensures adds { IfOk result (λ f. IfNone f (Adds (Number digits.now ∷ []) self.old self.new)) }
    {
        let Some(number) = decimal_value(digits, MOST_NUMBER) else {
            return Ok(Some(LineFault::Limit(Which::Number)));
        };
        if self.numbers.insert(number)? {
            Ok(None)
        } else {
            Ok(Some(LineFault::DoubleTerminal))
        }
    }

    /// Notes what a token declares.
    fn declare_token(&mut self, token: &Token<'a>) -> Result<Option<LineFault>, AllocError>
        ensures fails { IfOk result (λ f. IfSome f (TokenFails (bytes_of self.old.terminals) self.old.numbers.keys (view token.now))) }
        ensures fits { IfOk result (λ f. IfNone f (TokenFits (bytes_of self.old.terminals) self.old.numbers.keys (view token.now))) }
        ensures adds { IfOk result (λ f. IfNone f (Adds (view token.now ∷ []) self.old self.new)) }
    {
        match token {
            Token::Name(name) => self.declare_name(name),
            Token::Digits(digits) => self.declare_number(digits),
            Token::Negative(_) => Ok(None),
            Token::Text(_) => Ok(None),
            Token::Directive(_) => Ok(None),
            Token::Sign(_) => Ok(None),
            Token::Border(_) => Ok(None),
            Token::Bad => Ok(None),
        }
    }

    /// Notes what the tokens before the bound declare: the first fault.
    fn declare_terms(
        &mut self,
        tokens: &[Token<'a>],
        bound: usize,
    ) -> Result<Option<Found>, AllocError>
        requires { bound ≤ length tokens.now }
        ensures fails { IfOk result (λ f. IfSome f (FailsFirst (bytes_of self.old.terminals) self.old.numbers.keys (views tokens.now) bound)) }
        ensures fit { IfOk result (λ f. IfNone f (FitBefore (bytes_of self.old.terminals) self.old.numbers.keys (views tokens.now) bound)) }
        ensures adds { IfOk result (λ f. IfNone f (Adds (take bound (views tokens.now)) self.old self.new)) }
    {
        for place in 0..bound {
            if let Some(fault) = self.declare_token(&tokens[place])? {
                return Ok(Some(Found { place, fault }));
            }
        }
        Ok(None)
    }

    /// Notes the start symbol of a line `%start`: the first fault before the bound.
    fn declare_start(
        &mut self,
        alloc: Global,
        here: &Here<'a>,
        tokens: &[Token<'a>],
        bound: usize,
    ) -> Result<Option<Found>, AllocError>
        requires within { (0 < bound) × (bound ≤ length tokens.now) }
        requires start { (rest : List Tok) × (views tokens.now ≡ Keyword (codes "start") ∷ rest) }
        ensures scanned { IfOk result (λ f. ScansLine self.old here.now.text.now (views tokens.now) bound f) }
        ensures known { IfOk result (λ f. f ≡ None → NotesWhole self.old self.new here.now.text.now here.now.number (views tokens.now) bound) }
    {
        if self.start.is_some() {
            return Ok(Some(Found {
                place: 0,
                fault: LineFault::BadRule,
            }));
        }
        let Some(name) = start_name(tokens, bound) else {
            return Ok(None);
        };
        if is_declared(alloc, here.text, name)? {
            return Ok(Some(Found {
                place: 1,
                fault: LineFault::BadRule,
            }));
        }
        if let Some(fault) = self.mention(name)? {
            return Ok(Some(Found { place: 1, fault }));
        }
        self.start = Some(StartSymbol {
            name,
            line: here.number,
        });
        Ok(None)
    }

    /// The first fault of a line of declarations that names have, before the bound.
    pub(crate) fn note_declaration(
        &mut self,
        alloc: Global,
        here: &Here<'a>,
        tokens: &[Token<'a>],
        bound: usize,
    ) -> Result<Option<Found>, AllocError>
        requires { bound ≤ length tokens.now }
        ensures scanned { IfOk result (λ f. (s : Setting) (l : TokenLine) → Knows s.terminals s.before self.old → TextDeclares here.now.text.now s.terminals
            → InDeclarations l.section → l.tokens ≡ views tokens.now → IsBegun l bound → Scanned DeclarationRows s l bound f) }
        ensures known { IfOk result (λ f. f ≡ None → (s : Setting) (l : TokenLine) → Knows s.terminals s.before self.old → TextDeclares here.now.text.now s.terminals
            → ((i : ℕ) (k : TokenLine) → slice_get s.before i ≡ Some k → IsRules k → ⊥)
            → here.now.number ≡ length s.before + 1 → InDeclarations l.section → l.tokens ≡ views tokens.now → AreLineOf l.section l.tokens → bound ≡ length l.tokens
            → Knows s.terminals (s.before ++ l ∷ []) self.new) }
    {
        if bound == 0 {
            return Ok(None);
        }
        if after_keyword(tokens, b"term".as_slice()).is_some() {
            return self.declare_terms(tokens, bound);
        }
        if after_keyword(tokens, b"start".as_slice()).is_some() {
            return self.declare_start(alloc, here, tokens, bound);
        }
        Ok(None)
    }
}
