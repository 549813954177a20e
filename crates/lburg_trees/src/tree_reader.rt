//! A tree of a tail, read straight into memory: each token is looked at once.
ghost use Rattle.std.specs.Prelude.{◌≡◌, ◌≢◌, ◌≤◌, ◌<◌, ◌+◌, ◌∷◌, [], ℕ, List, Option, Some, None, length, slice_get, false, IsTrue, IfOk, IfErr, IfSome, IfNone};
ghost use Rattle.lcc_text.specs.Names.{bytes_of};
ghost use Rattle.lcc_text.specs.Stops.{next};
ghost use Rattle.lburg_lines.specs.Tokens.{Tok, Mark, views};
ghost use Rattle.lburg_lines.specs.Numbers.{MNumber};
ghost use Rattle.lburg_model.specs.declared.terminal.Terminal.{Terminal as Terminals};
ghost use Rattle.lburg_model.specs.Description.{MDescription as Descriptions, IsDescription, terminal_names};
ghost use Rattle.lburg_model.specs.Tree.{nodes};
ghost use Rattle.lburg_trees.specs.Setting.{placed, Before as Settings};
ghost use Rattle.lburg_trees.specs.UnknownOp.{IsNamed};
ghost use Rattle.lburg_trees.specs.Reading.{IsFine, LineStops, ReadsTree, StopsTree};
ghost use Rattle.lburg_trees.specs.Reading.{IsHead, ReadsHead, ReadsConstant, StopsConstant, opened};
ghost use Rattle.lburg_trees.specs.Reading.{IsKnown, CountFits, CountDiffers, IsPastMost, IsBehind, ReadsOperand, StopsOperand};
ghost use Rattle.lburg_trees.specs.TailText.{IsTree};

use crate::name_table::Names;
use crate::row::Row;
use crate::stop::Stop;
use lburg_lines::{ReadError, Sign, Token, after_sign, end_of, name_at, number_at};
use lburg_model::{Description, Terminal, TextTree, TreeNode};
use lcc_base::{Items, Memory};
use lcc_text::find;
use std::alloc::Global;

/// How many nodes a tree may have.
pub(crate) const MOST_NODES: usize = 65_535;

/// No parenthesis opens while so many are open.
pub(crate) const MOST_OPEN: usize = 499;

/// What stands before tokens in their line: how many parentheses are open, and how many names came.
#[derive(Clone, Copy, Debug)]
pub(crate) struct Before {
    pub(crate) opened: usize,
    pub(crate) names: usize,
}

/// A tree that was read, how many names the line has up to its end, and what stands behind it.
#[derive(Drop)]
pub(crate) struct Found<'t, 'a> {
    pub(crate) tree: TextTree,
    pub(crate) names: usize,
    pub(crate) rest: &'t [Token<'a>],
}

/// A node's operator and constant, and what stands behind them.
#[derive(Clone, Copy)]
struct Head<'t, 'a> {
    op: u16,
    value: Option<i64>,
    rest: &'t [Token<'a>],
}

/// The reader of the next token stopped, so the line breaks the grammar there.
fn broken(error: ReadError) -> Stop
    ensures { (left : ℕ) → error ≡ ReadError.Stuck left → result ≡ Stop.Fault Row.BadTree left }
{
    match error {
        ReadError::Memory => Stop::Memory,
        ReadError::Stuck(left) => Stop::Fault(Row::BadTree, left),
    }
}

/// Whether a sign is next.
fn is_next(tokens: &[Token], sign: Sign) -> bool
    ensures yes { IsTrue result → next (views tokens.now) ≡ Some (Mark sign) }
    ensures no { result ≡ false → next (views tokens.now) ≢ Some (Mark sign) }
{
    after_sign(tokens, sign).is_ok()
}

/// Whether an operand may end here.
fn ends_operand(tokens: &[Token], last: bool) -> bool
    ensures yes { IsTrue result → IsBehind last (views tokens.now) }
    ensures close { result ≡ false → next (views tokens.now) ≢ Some (Mark Sign.Close) }
    ensures comma { result ≡ false → last ≡ false → next (views tokens.now) ≢ Some (Mark Sign.Comma) }
{
    if is_next(tokens, Sign::Close) {
        return true;
    }
    if last {
        return false;
    }
    is_next(tokens, Sign::Comma)
}

/// The constant that is next, if one is.
fn constant_at<'t, 'a>(tokens: &'t [Token<'a>]) -> Result<(Option<i64>, &'t [Token<'a>]), ReadError>
    ensures found { IfOk result (λ x. ReadsConstant (views tokens.now) (views x.1.now) x.0) }
    ensures shorter { IfOk result (λ x. length x.1.now ≤ length tokens.now) }
    ensures stops { IfErr result (λ e. StopsConstant (views tokens.now) e) }
{
    match after_sign(tokens, Sign::OpenBracket) {
        Err(_) => Ok((None, tokens)),
        Ok(rest) => {
            let (number, rest) = number_at(rest)?;
            let rest = after_sign(rest, Sign::CloseBracket)?;
            Ok((number.value(), rest))
        }
    }
}

/// Whether a terminal with this name stands at the place.
fn is_named(terminals: &[Terminal], place: usize, name: &[u8]) -> bool
    ensures within { IsTrue result → place < length terminals.now }
    ensures named { IsTrue result → (t : Terminals) × (slice_get terminals.now place ≡ Some t) × (t.name ≡ name.now) }
{
    match terminals.get(place) {
        Some(terminal) => terminal.name.as_slice() == name,
        None => false,
    }
}

/// The operator of this name, if it is a terminal's.
fn operator<'a>(d: &Description, names: &Names<'a>, name: &'a [u8]) -> Option<u16>
    requires { bytes_of names.now.set ≡ terminal_names d.now }
    ensures some { IfSome result (λ op. (t : Terminals) × IsNamed d.now op t name.now) }
    ensures none { IfNone result ((op : ℕ) (t : Terminals) → IsNamed d.now op t name.now → ⊥) }
    ensures is { IsDescription d.now }
{
    let terminals = d.terminals();
    let guess = names.guess(name);
    if is_named(terminals, guess, name) {
        return Some(guess as u16 + 1);
    }
    let place = find(&names.set, name)?;
    prove!(place < terminals.len());
    Some(place as u16 + 1)
}

/// Whether an operator may have so many operands.
fn may_have(d: &Description, op: u16, count: usize) -> bool
    requires { IsKnown d.now op }
    ensures yes { IsTrue result → CountFits d.now op count }
    ensures no { result ≡ false → CountDiffers d.now op count }
{
    match d.terminals()[op as usize - 1].arity {
        None => true,
        Some(arity) => count == arity as usize,
    }
}

/// Looks at the number of operands of a tree, behind which these tokens stand.
fn check_arity(d: &Description, op: u16, count: usize, rest: &[Token]) -> Result<(), Stop>
    requires { IsKnown d.now op }
    ensures ok { IfOk result (λ _. CountFits d.now op count) }
    ensures err { IfErr result (λ s. (s ≡ Stop.Fault Row.WrongArity (length rest.now + 1)) × CountDiffers d.now op count) }
{
    if may_have(d, op, count) {
        Ok(())
    } else {
        Err(Stop::Fault(Row::WrongArity, rest.len() + 1))
    }
}

/// The fault at an operator's name, behind which these tokens stand, where the line has too many names before it: an
/// operator that may not be alone and is has a wrong number of operands, and that goes first.
fn past_most(d: &Description, op: u16, rest: &[Token]) -> Row
    requires { IsKnown d.now op }
    ensures { IsPastMost d.now op (views rest.now) result }
{
    if is_next(rest, Sign::OpenBracket) || is_next(rest, Sign::Open) || may_have(d, op, 0) {
        Row::TooLarge
    } else {
        Row::WrongArity
    }
}

/// The name of a node with its constant.
fn head_at<'t, 'a>(
    d: &Description,
    names: &Names<'a>,
    before: Before,
    tokens: &'t [Token<'a>],
) -> Result<Head<'t, 'a>, Stop>
    requires { bytes_of names.now.set ≡ terminal_names d.now }
    ensures found { IfOk result (λ h. ReadsHead d.now (placed before.opened before.names) (views tokens.now) (views h.rest.now) h.op h.value) }
    ensures shorter { IfOk result (λ h. length h.rest.now < length tokens.now) }
    ensures is { IfOk result (λ _. IsDescription d.now) }
    ensures stops { IfErr result (λ s. StopsTree d.now (placed before.opened before.names) (views tokens.now) s) }
{
    let (name, rest) = match name_at(tokens) {
        Ok(found) => found,
        Err(error) => return Err(broken(error)),
    };
    let Some(op) = operator(d, names, name) else {
        return Err(Stop::Fault(Row::UnknownOp, tokens.len()));
    };
    if before.names >= MOST_NODES {
        return Err(Stop::Fault(past_most(d, op, rest), tokens.len()));
    }
    match constant_at(rest) {
        Ok((value, rest)) => Ok(Head { op, value, rest }),
        Err(error) => Err(broken(error)),
    }
}

/// Looks at what stands behind a tree that is an operand. There the parenthesis closes or, if it isn't the last, a
/// comma may stand.
fn check_behind<'t, 'a>(found: &Found<'t, 'a>, last: bool) -> Result<(), Stop>
    ensures found { (d : Descriptions) (before : Settings) (line : List Tok) → ReadsTree d before line (views found.now.rest.now) found.now.tree
        → IfOk result (λ _. ReadsOperand d before last line (views found.now.rest.now) found.now.tree) }
    ensures stops { (d : Descriptions) (before : Settings) (line : List Tok) → ReadsTree d before line (views found.now.rest.now) found.now.tree
        → IfErr result (λ s. StopsOperand d before last line s) }
{
    if ends_operand(found.rest, last) {
        Ok(())
    } else {
        Err(Stop::Fault(Row::BadTree, found.rest.len()))
    }
}

/// One operand.
pub(crate) fn one_kid(alloc: Global, a: TextTree) -> Result<Items<TextTree>, Memory>
    ensures { IfOk result (λ kids. kids ≡ a ∷ []) }
{
    let mut kids = Items::with_capacity(alloc, 1)?;
    kids.push(a)?;
    Ok(kids)
}

/// Two operands.
pub(crate) fn two_kids(alloc: Global, a: TextTree, b: TextTree) -> Result<Items<TextTree>, Memory>
    ensures { IfOk result (λ kids. kids ≡ a ∷ b ∷ []) }
{
    let mut kids = Items::with_capacity(alloc, 2)?;
    kids.push(a)?;
    kids.push(b)?;
    Ok(kids)
}

/// The tree that is next.
#[cycle(tree)]
pub(crate) fn tree_at<'t, 'a>(
    alloc: Global,
    d: &Description,
    names: &Names<'a>,
    before: Before,
    tokens: &'t [Token<'a>],
) -> Result<Found<'t, 'a>, Stop>
    requires names { bytes_of names.now.set ≡ terminal_names d.now }
    requires open { before.opened ≤ 499 }
    ensures found { IfOk result (λ f. ReadsTree d.now (record { opened = before.opened; names = before.names }) (views tokens.now) (views f.rest.now) f.tree) }
    ensures counted { IfOk result (λ f. f.names ≡ before.names + nodes f.tree) }
    ensures shorter { IfOk result (λ f. length f.rest.now < length tokens.now) }
    ensures is { IfOk result (λ _. IsDescription d.now) }
    ensures stops { IfErr result (λ s. StopsTree d.now (record { opened = before.opened; names = before.names }) (views tokens.now) s) }
{
    let head = head_at(d, names, before, tokens)?;
    match after_sign(head.rest, Sign::Open) {
        Err(_) => {
            check_arity(d, head.op, 0, head.rest)?;
            Ok(Found {
                tree: TextTree::new(head.op, head.value, Items::new(alloc)),
                names: before.names + 1,
                rest: head.rest,
            })
        }
        Ok(rest) => {
            if before.opened >= MOST_OPEN {
                return Err(Stop::Fault(Row::TooHigh, head.rest.len()));
            }
            let head = Head {
                op: head.op,
                value: head.value,
                rest,
            };
            operands(alloc, d, names, before, head)
        }
    }
}

/// The tree whose name, constant and parenthesis were read.
#[cycle(tree)]
fn operands<'t, 'a>(
    alloc: Global,
    d: &Description,
    names: &Names<'a>,
    before: Before,
    head: Head<'t, 'a>,
) -> Result<Found<'t, 'a>, Stop>
    requires names { bytes_of names.now.set ≡ terminal_names d.now }
    requires open { before.opened < 499 }
    requires few { before.names < 65535 }
    requires known { IsKnown d.now head.op }
    requires is { IsDescription d.now }
    ensures found { (name : List ℕ) (c : Option MNumber)
        → IsHead d.now (placed before.opened before.names) head.entry.op head.entry.value name c
        → IfOk result (λ f. ReadsTree d.now (placed before.opened before.names) (opened name c (views head.entry.rest.now)) (views f.rest.now) f.tree) }
    ensures counted { IfOk result (λ f. f.names ≡ before.names + nodes f.tree) }
    ensures shorter { IfOk result (λ f. length f.rest.now < length head.entry.rest.now) }
    ensures stops { (name : List ℕ) (c : Option MNumber)
        → IsHead d.now (placed before.opened before.names) head.entry.op head.entry.value name c
        → IfErr result (λ s. StopsTree d.now (placed before.opened before.names) (opened name c (views head.entry.rest.now)) s) }
{
    let inside = Before {
        opened: before.opened + 1,
        names: before.names + 1,
    };
    let first = tree_at(alloc, d, names, inside, head.rest)?;
    check_behind(&first, false)?;
    if let Ok(rest) = after_sign(first.rest, Sign::Close) {
        check_arity(d, head.op, 1, rest)?;
        let kids = one_kid(alloc, first.tree)?;
        return Ok(Found {
            tree: TextTree::new(head.op, head.value, kids),
            names: first.names,
            rest,
        });
    }
    let (_, rest) = first.rest.split_at(1);
    let inside = Before {
        opened: before.opened + 1,
        names: first.names,
    };
    let second = tree_at(alloc, d, names, inside, rest)?;
    check_behind(&second, true)?;
    let (_, rest) = second.rest.split_at(1);
    check_arity(d, head.op, 2, rest)?;
    let kids = two_kids(alloc, first.tree, second.tree)?;
    Ok(Found {
        tree: TextTree::new(head.op, head.value, kids),
        names: second.names,
        rest,
    })
}

/// The tree of a line and how many nodes it has, or none where the line is blank.
pub(crate) fn line_tree<'t, 'a>(
    alloc: Global,
    d: &Description,
    names: &Names<'a>,
    tokens: &'t [Token<'a>],
) -> Result<Option<(TextTree, usize)>, Stop>
    requires { bytes_of names.now.set ≡ terminal_names d.now }
    ensures blank { IfOk result (λ o. o ≡ None → views tokens.now ≡ []) }
    ensures tree { IfOk result (λ o. (t : _) → o ≡ Some t → IsTree d.now (views tokens.now) t.0) }
    ensures counted { IfOk result (λ o. (t : _) → o ≡ Some t → t.1 ≡ nodes t.0) }
    ensures fine { IfOk result (λ _. IsFine d.now (views tokens.now)) }
    ensures fault { IfErr result (λ s. LineStops d.now (views tokens.now) s) }
{
    if tokens.is_empty() {
        return Ok(None);
    }
    let nothing = Before {
        opened: 0,
        names: 0,
    };
    let found = tree_at(alloc, d, names, nothing, tokens)?;
    match end_of(found.rest) {
        Err(error) => Err(broken(error)),
        Ok(()) => Ok(Some((found.tree, found.names))),
    }
}
