//! With how many operands a rule's names are used.
ghost use Rattle.std.specs.Prelude.{◌≡◌, ◌<◌, ◌≤◌, ◌+◌, ◌∷◌, [], None, Some, ℕ, List, length, take, min, slice_get, IfOk, IfSome, IfNone};
ghost use Rattle.lcc_text.specs.Names.{bytes_of};
ghost use Rattle.lburg_lines.specs.NamedTree.{named_of};
ghost use Rattle.lburg_lines.specs.Tokens.{Word, view, views};
ghost use Rattle.lburg_lines.specs.Grammar.{AreLineOf};
ghost use Rattle.lburg_lines.specs.Sections.{TokenLine};
ghost use Rattle.lburg_faults.specs.Lines.{IsRules, InPattern, words_in};
ghost use Rattle.lburg_faults.specs.Terminals.{declared_in, names_of};
ghost use Rattle.lburg_faults.specs.Uses.{operands_of};
ghost use Rattle.lburg_faults.specs.Limits.{AreDistinct};
ghost use Rattle.lburg_faults.specs.Setting.{Setting};
ghost use Rattle.lburg_faults.specs.Grammatical.{IsBegun};
ghost use Rattle.lburg_faults.specs.Knowing.{Uses};
ghost use Rattle.lburg_faults.specs.KnowsUses.{KnowsUses};
ghost use Rattle.lburg_faults.specs.Using.{UsedAt, NotUsedAt, UseGives, UsesBefore, UsesGive};
ghost use Rattle.lburg_faults.specs.Scans.{Scanned, UseRows};

use crate::found::Found;
use crate::known::Known;
use crate::line_fault::LineFault;
use crate::naming::pattern_end;
use lburg_lines::{NamedTree, ReadError, Token, one_tree, tree_at};
use lcc_text::find;
use std::alloc::{AllocError, Global};

/// A pattern has no more nodes.
const MOST_NODES: usize = 16;

/// A use of a name: how many operands it has, and the place of its last token.
#[derive(Clone, Copy, Debug)]
struct NameUse {
    operands: u8,
    last: usize,
}

/// How many names the token is.
fn count_of(token: &Token) -> usize
    ensures is { result ≡ words_in (view token.now ∷ []) }
    ensures within { result ≤ 1 }
{
    match token {
        Token::Name(_) => 1,
        _ => 0,
    }
}

/// How many tokens stand before the 17th name.
fn tokens_of_sixteen(tokens: &[Token]) -> usize
    ensures within { result ≤ length tokens.now }
    ensures few { words_in (take result (views tokens.now)) ≤ 16 }
    ensures next { result < length tokens.now → 16 < words_in (take (result + 1) (views tokens.now)) }
{
    let mut names = 0;
    for place in 0..tokens.len() {
        let more = count_of(&tokens[place]);
        if names + more > MOST_NODES {
            return place;
        }
        names += more;
    }
    tokens.len()
}

/// How many operands the tree's root has.
fn operands_of(tree: &NamedTree) -> u8
    ensures { result ≡ operands_of (named_of tree.now) }
{
    match tree {
        NamedTree::Leaf(_) => 0,
        NamedTree::Unary(_, _) => 1,
        NamedTree::Binary(_, _, _) => 2,
    }
}

/// The use of the name at the place, if a tree of at most 16 nodes stands there.
fn use_at<'t, 'a>(
    alloc: Global,
    tokens: &'t [Token<'a>],
    place: usize,
) -> Result<Option<NameUse>, AllocError>
    requires { place < length tokens.now }
    ensures some { IfOk result (λ o. IfSome o (λ u. UsedAt (views tokens.now) place u.last u.operands)) }
    ensures none { IfOk result (λ o. IfNone o (NotUsedAt (views tokens.now) place)) }
{
    let (_, here) = tokens.split_at(place);
    let (few, _) = here.split_at(tokens_of_sixteen(here));
    match tree_at(alloc, few) {
        Ok((tree, rest)) => Ok(Some(NameUse {
            operands: operands_of(&tree),
            last: place + (few.len() - rest.len() - 1),
        })),
        Err(ReadError::Stuck(_)) => Ok(None),
        Err(ReadError::Memory) => Err(AllocError),
    }
}

/// The lesser of two places, where the second is given.
fn lesser(one: usize, other: Option<usize>) -> usize
    ensures some { IfSome other (λ place. result ≡ min one place) }
    ensures none { IfNone other (result ≡ one) }
{
    match other {
        Some(place) => one.min(place),
        None => one,
    }
}

impl<'a> Known<'a> {
    /// Notes a use of a terminal: whether it differs from the first.
    fn note_use(&mut self, terminal: usize, operands: u8) -> bool
        ensures gives { UseGives self.old.arities.items terminal operands self.new.arities.items result }
        ensures terminals { self.new.terminals ≡ self.old.terminals }
        ensures numbers { self.new.numbers ≡ self.old.numbers }
        ensures nonterminals { self.new.nonterminals ≡ self.old.nonterminals }
        ensures start { self.new.start ≡ self.old.start }
        ensures rules { self.new.rules ≡ self.old.rules }
    {
        if terminal >= self.arities.len() {
            return false;
        }
        match self.arities[terminal] {
            None => {
                self.arities[terminal] = Some(operands);
                false
            }
            Some(first) => operands != first,
        }
    }

    /// Notes the use of the name at the place: its last token, where it differs from the terminal's first.
    fn note_use_at<'t>(
        &mut self,
        alloc: Global,
        tokens: &'t [Token<'a>],
        place: usize,
        name: &'a [u8],
    ) -> Result<Option<usize>, AllocError>
        requires { place < length tokens.now }
        ensures gives { IfOk result (λ last. (s : Setting) (l : TokenLine) → s.terminals ≡ bytes_of self.old.terminals → AreDistinct s.terminals → l.tokens ≡ views tokens.now
            → InPattern l place → slice_get (views tokens.now) place ≡ Some (Word name.now) → UsesBefore s l place self.old.arities.items → UsesGive s l place self.new.arities.items last) }
        ensures terminals { IfOk result (λ last. self.new.terminals ≡ self.old.terminals) }
        ensures numbers { IfOk result (λ last. self.new.numbers ≡ self.old.numbers) }
        ensures nonterminals { IfOk result (λ last. self.new.nonterminals ≡ self.old.nonterminals) }
        ensures start { IfOk result (λ last. self.new.start ≡ self.old.start) }
        ensures rules { IfOk result (λ last. self.new.rules ≡ self.old.rules) }
    {
        // At a place at most one tree stands, so a use has one number of operands.
        one_tree();
        let Some(terminal) = find(&self.terminals, name) else {
            return Ok(None);
        };
        let Some(found) = use_at(alloc, tokens, place)? else {
            return Ok(None);
        };
        if self.note_use(terminal, found.operands) {
            Ok(Some(found.last))
        } else {
            Ok(None)
        }
    }

    /// The same, where the token at the place is a name.
    fn note_token_use<'t>(
        &mut self,
        alloc: Global,
        tokens: &'t [Token<'a>],
        place: usize,
    ) -> Result<Option<usize>, AllocError>
        requires { place < length tokens.now }
        ensures gives { IfOk result (λ last. (s : Setting) (l : TokenLine) → s.terminals ≡ bytes_of self.old.terminals → AreDistinct s.terminals → l.tokens ≡ views tokens.now
            → InPattern l place → UsesBefore s l place self.old.arities.items → UsesGive s l place self.new.arities.items last) }
        ensures terminals { IfOk result (λ last. self.new.terminals ≡ self.old.terminals) }
        ensures numbers { IfOk result (λ last. self.new.numbers ≡ self.old.numbers) }
        ensures nonterminals { IfOk result (λ last. self.new.nonterminals ≡ self.old.nonterminals) }
        ensures start { IfOk result (λ last. self.new.start ≡ self.old.start) }
        ensures rules { IfOk result (λ last. self.new.rules ≡ self.old.rules) }
    {
        match tokens[place] {
            Token::Name(name) => self.note_use_at(alloc, tokens, place, name),
            _ => Ok(None),
        }
    }

    /// Notes the uses of terminals in a rule that begin before the bound: the first that differs from its
    /// terminal's first use and ends before the bound.
    pub(crate) fn note_uses<'t>(
        &mut self,
        alloc: Global,
        tokens: &'t [Token<'a>],
        bound: usize,
    ) -> Result<Option<Found>, AllocError>
        requires { bound ≤ length tokens.now }
        ensures scanned { IfOk result (λ f. (s : Setting) (l : TokenLine) → KnowsUses s.before self.old → s.terminals ≡ names_of (declared_in s.before)
            → IsRules l → l.tokens ≡ views tokens.now → IsBegun l bound → Scanned UseRows s l bound f) }
        ensures known { IfOk result (λ f. f ≡ None → (s : Setting) (l : TokenLine) → KnowsUses s.before self.old → s.terminals ≡ names_of (declared_in s.before)
            → IsRules l → l.tokens ≡ views tokens.now → AreLineOf l.section l.tokens → bound ≡ length l.tokens → Uses s l self.old self.new) }
    {
        let mut least = bound;
        for place in 2..pattern_end(tokens, bound) {
            let last = self.note_token_use(alloc, tokens, place)?;
            least = lesser(least, last);
        }
        if least == bound {
            return Ok(None);
        }
        Ok(Some(Found {
            place: least,
            fault: LineFault::ArityDiffers,
        }))
    }
}
