//! What a rule's names mean.
ghost use Rattle.std.specs.Prelude.{◌≡◌, ◌<◌, ◌≤◌, ◌+◌, true, false, None, ℕ, List, length, take, max, slice_get, Some, IfOk, IfSome, OnOk};
ghost use Rattle.lcc_text.specs.Names.{bytes_of, with_name};
ghost use Rattle.lburg_lines.specs.declared.token.Sign.TheVariants as sign;
ghost use Rattle.lburg_lines.specs.Tokens.{Mark, views};
ghost use Rattle.lburg_lines.specs.Grammar.{AreLineOf};
ghost use Rattle.lburg_lines.specs.Sections.{TokenLine};
ghost use Rattle.lburg_faults.specs.Lines.{IsRules, InPattern, has_template};
ghost use Rattle.lburg_faults.specs.Terminals.{Among, declared_in, names_of};
ghost use Rattle.lburg_faults.specs.Setting.{Setting};
ghost use Rattle.lburg_faults.specs.Grammatical.{IsBegun};
ghost use Rattle.lburg_faults.specs.Knowing.{Knows, Mentions};
ghost use Rattle.lburg_faults.specs.Naming.{LeftGives, NodeGives, TokenGives, NodesGive, NamedBefore};
ghost use Rattle.lburg_faults.specs.Scans.{Scanned, NameRows};

use crate::found::Found;
use crate::known::Known;
use crate::line_fault::LineFault;
use lburg_lines::{Sign, Token};
use lcc_base::Which;
use lcc_text::{find, place};
use std::alloc::AllocError;

/// How many nonterminals a description may have.
const MOST_NONTERMINALS: usize = 127;

/// How many rules a description may have.
const MOST_RULES: usize = 4095;

/// Whether a parenthesis opens at the place.
fn opens_at(tokens: &[Token], place: usize) -> bool
    ensures yes { result ≡ true → slice_get (views tokens.now) place ≡ Some (Mark sign.Open) }
    ensures no { result ≡ false → slice_get (views tokens.now) place ≡ Some (Mark sign.Open) → ⊥ }
{
    match tokens.get(place) {
        Some(Token::Sign(Sign::Open)) => true,
        _ => false,
    }
}

/// The place of the first template before the bound, or else the bound.
pub(crate) fn pattern_end(tokens: &[Token], bound: usize) -> usize
    requires { bound ≤ length tokens.now }
    ensures within { result ≤ bound }
    ensures none { has_template (take result (views tokens.now)) ≡ false }
    ensures behind { result < bound → has_template (take (result + 1) (views tokens.now)) ≡ true }
{
    for place in 0..bound {
        if let Token::Text(_) = tokens[place] {
            return place;
        }
    }
    bound
}

impl<'a> Known<'a> {
    /// Notes a nonterminal's name.
    pub(crate) fn mention(&mut self, name: &'a [u8]) -> Result<Option<LineFault>, AllocError>
        ensures full { IfOk result (λ f. IfSome f (λ fault. (fault ≡ LineFault.Limit Which.Nonterminals)
            × (127 ≤ length (bytes_of self.old.nonterminals)) × (Among name.now (bytes_of self.old.nonterminals) → ⊥))) }
        ensures room { IfOk result (λ f. f ≡ None → (Among name.now (bytes_of self.old.nonterminals) → ⊥)
            → length (bytes_of self.old.nonterminals) < 127) }
        ensures names { IfOk result (λ f. f ≡ None → bytes_of self.new.nonterminals ≡ with_name (bytes_of self.old.nonterminals) name.now) }
        ensures terminals { IfOk result (λ f. self.new.terminals ≡ self.old.terminals) }
        ensures numbers { IfOk result (λ f. self.new.numbers ≡ self.old.numbers) }
        ensures arities { IfOk result (λ f. self.new.arities ≡ self.old.arities) }
        ensures start { IfOk result (λ f. self.new.start ≡ self.old.start) }
        ensures rules { IfOk result (λ f. self.new.rules ≡ self.old.rules) }
    {
        if find(&self.nonterminals, name).is_some() {
            return Ok(None);
        }
        if self.nonterminals.len() >= MOST_NONTERMINALS {
            return Ok(Some(LineFault::Limit(Which::Nonterminals)));
        }
        place(&mut self.nonterminals, name)?;
        Ok(None)
    }

    /// Notes a left side.
    fn note_left(&mut self, name: &'a [u8]) -> Result<Option<LineFault>, AllocError>
        ensures gives { IfOk result (λ f. LeftGives (bytes_of self.old.terminals) (bytes_of self.old.nonterminals) self.old.rules
            name.now (bytes_of self.new.nonterminals) f) }
        ensures terminals { IfOk result (λ f. self.new.terminals ≡ self.old.terminals) }
        ensures numbers { IfOk result (λ f. self.new.numbers ≡ self.old.numbers) }
        ensures arities { IfOk result (λ f. self.new.arities ≡ self.old.arities) }
        ensures start { IfOk result (λ f. self.new.start ≡ self.old.start) }
        ensures rules { IfOk result (λ f. self.new.rules ≡ self.old.rules) }
    {
        if find(&self.terminals, name).is_some() {
            return Ok(Some(LineFault::BadRule));
        }
        if let Some(fault) = self.mention(name)? {
            return Ok(Some(fault));
        }
        if self.rules >= MOST_RULES {
            return Ok(Some(LineFault::Limit(Which::Rules)));
        }
        Ok(None)
    }

    /// Notes a name of a pattern, which has operands or none.
    fn note_node(
        &mut self,
        name: &'a [u8],
        has_operands: bool,
    ) -> Result<Option<LineFault>, AllocError>
        ensures gives { IfOk result (λ f. NodeGives (bytes_of self.old.terminals) (bytes_of self.old.nonterminals)
            name.now has_operands (bytes_of self.new.nonterminals) f) }
        ensures terminals { IfOk result (λ f. self.new.terminals ≡ self.old.terminals) }
        ensures numbers { IfOk result (λ f. self.new.numbers ≡ self.old.numbers) }
        ensures arities { IfOk result (λ f. self.new.arities ≡ self.old.arities) }
        ensures start { IfOk result (λ f. self.new.start ≡ self.old.start) }
        ensures rules { IfOk result (λ f. self.new.rules ≡ self.old.rules) }
    {
        if find(&self.terminals, name).is_some() {
            return Ok(None);
        }
        if has_operands {
            return Ok(Some(LineFault::UnknownTerminal));
        }
        self.mention(name)
    }

    /// Notes the first token of a line of the rules.
    fn note_first(&mut self, tokens: &[Token<'a>]) -> Result<Option<LineFault>, AllocError>
        requires { 0 < length tokens.now }
        ensures gives { IfOk result (λ f. (s : Setting) (l : TokenLine) (bound : ℕ) → Knows s.terminals s.before self.old → s.terminals ≡ bytes_of self.old.terminals
            → IsRules l → l.tokens ≡ views tokens.now → 0 < bound → IsBegun l bound → TokenGives s l 0 (bytes_of self.new.nonterminals) f) }
        ensures terminals { IfOk result (λ f. self.new.terminals ≡ self.old.terminals) }
        ensures numbers { IfOk result (λ f. self.new.numbers ≡ self.old.numbers) }
        ensures arities { IfOk result (λ f. self.new.arities ≡ self.old.arities) }
        ensures start { IfOk result (λ f. self.new.start ≡ self.old.start) }
        ensures rules { IfOk result (λ f. self.new.rules ≡ self.old.rules) }
    {
        match tokens[0] {
            Token::Name(name) => self.note_left(name),
            _ => Ok(None),
        }
    }

    /// Notes the token at the place of a pattern.
    fn note_token(
        &mut self,
        tokens: &[Token<'a>],
        place: usize,
    ) -> Result<Option<LineFault>, AllocError>
        requires { place < length tokens.now }
        ensures gives { IfOk result (λ f. (s : Setting) (l : TokenLine) → s.terminals ≡ bytes_of self.old.terminals → l.tokens ≡ views tokens.now → InPattern l place
            → NamedBefore s l place (bytes_of self.old.nonterminals) → TokenGives s l place (bytes_of self.new.nonterminals) f) }
        ensures terminals { IfOk result (λ f. self.new.terminals ≡ self.old.terminals) }
        ensures numbers { IfOk result (λ f. self.new.numbers ≡ self.old.numbers) }
        ensures arities { IfOk result (λ f. self.new.arities ≡ self.old.arities) }
        ensures start { IfOk result (λ f. self.new.start ≡ self.old.start) }
        ensures rules { IfOk result (λ f. self.new.rules ≡ self.old.rules) }
    {
        match tokens[place] {
            Token::Name(name) => self.note_node(name, opens_at(tokens, place + 1)),
            _ => Ok(None),
        }
    }

    /// Notes the names of a pattern before its end: the first fault.
    fn note_nodes(&mut self, tokens: &[Token<'a>], end: usize) -> Result<Option<Found>, AllocError>
        requires { end ≤ length tokens.now }
        ensures give { IfOk result (λ f. (s : Setting) (l : TokenLine) → s.terminals ≡ bytes_of self.old.terminals → IsRules l → l.tokens ≡ views tokens.now
            → has_template (take end l.tokens) ≡ false → NamedBefore s l 2 (bytes_of self.old.nonterminals) → NodesGive s l end (bytes_of self.new.nonterminals) f) }
        ensures terminals { IfOk result (λ f. self.new.terminals ≡ self.old.terminals) }
        ensures numbers { IfOk result (λ f. self.new.numbers ≡ self.old.numbers) }
        ensures arities { IfOk result (λ f. self.new.arities ≡ self.old.arities) }
        ensures start { IfOk result (λ f. self.new.start ≡ self.old.start) }
        ensures rules { IfOk result (λ f. self.new.rules ≡ self.old.rules) }
    {
        for place in 2..end {
            if let Some(fault) = self.note_token(tokens, place)? {
                return Ok(Some(Found { place, fault }));
            }
        }
        Ok(None)
    }

    /// Notes the names of a rule before the bound: the first fault of their meaning, but for the number of operands.
    pub(crate) fn note_names(
        &mut self,
        tokens: &[Token<'a>],
        bound: usize,
    ) -> Result<Option<Found>, AllocError>
        requires { bound ≤ length tokens.now }
        ensures scanned { IfOk result (λ f. (s : Setting) (l : TokenLine) → Knows s.terminals s.before self.old → s.terminals ≡ names_of (declared_in s.before)
            → IsRules l → l.tokens ≡ views tokens.now → IsBegun l bound → Scanned NameRows s l bound f) }
        ensures known { IfOk result (λ f. f ≡ None → (s : Setting) (l : TokenLine) → Knows s.terminals s.before self.old → s.terminals ≡ names_of (declared_in s.before)
            → IsRules l → l.tokens ≡ views tokens.now → AreLineOf l.section l.tokens → bound ≡ length l.tokens → Mentions s l self.old self.new) }
        ensures terminals { OnOk result (self.new.terminals ≡ self.old.terminals) }
        ensures arities { OnOk result (self.new.arities ≡ self.old.arities) }
    {
        if bound == 0 {
            return Ok(None);
        }
        if let Some(fault) = self.note_first(tokens)? {
            return Ok(Some(Found { place: 0, fault }));
        }
        self.note_nodes(tokens, pattern_end(tokens, bound))
    }
}
