//! The trees of a description's tail.
ghost use Rattle.std.specs.Prelude.{◌≡◌, ◌<◌, ◌≤◌, ◌⊎◌, ◌+◌, ◌++◌, List, [], ℕ, None, length, map, IfOk, IfErr, IfSome, OnOk};
ghost use Rattle.lcc_text.specs.Lines.{lines_of};
ghost use Rattle.lcc_text.specs.Names.{bytes_of};
ghost use Rattle.lburg_model.specs.Tree.{MTree};
ghost use Rattle.lburg_model.specs.Description.{AreDistinct, terminal_names};
ghost use Rattle.lburg_trees.specs.FirstFault.{IsTailOf, FirstFault};
ghost use Rattle.lburg_trees.specs.TailText.{IsLineOf, AreTrees, IsTail};
ghost use Rattle.lburg_trees.specs.Reading.{IsFineLine, LineFails, AreFine, FailsAt};
ghost use Rattle.lburg_trees.specs.Taking.{Takes};
ghost use Rattle.lburg_trees.specs.Known.{AreKnown};
ghost use Rattle.lburg_trees.specs.FirstLine.{TakesLine, FailsLine};

use crate::name_table::Names;
use crate::plain_tree::plain_line;
use crate::stop::Stop;
use crate::tree_fault::TreeFault;
use crate::tree_reader::line_tree;
use crate::tree_taker::TreeTaker;
use indexmap::IndexSet;
use lburg_lines::{Section, Token, line_tokens, one_spelling, one_text, replace_tokens};
use lburg_model::{Description, Terminal, TextTree};
use lcc_base::Items;
use lcc_text::{next_line, place};
use std::alloc::{AllocError, Global};

/// The tail of a text, and how many lines stand before it.
#[derive(Clone, Copy)]
struct Tail<'a> {
    text: &'a [u8],
    before: u32,
}

/// The tail of the text: empty where it has none.
fn tail_of<'a>(alloc: Global, text: &'a [u8]) -> Result<Tail<'a>, AllocError>
    requires { length text.now ≤ 16777216 }
    ensures is { IfOk result (λ t. IsTailOf text.now t.before (lines_of t.text.now)) }
    ensures within { IfOk result (λ t. t.before + length t.text.now ≤ 16777216) }
{
    let mut section = Section::Head;
    let mut rest = text;
    let mut before = 0;
    while let Some((line, behind)) = next_line(rest) {
        if section == Section::Tail {
            return Ok(Tail { text: rest, before });
        }
        let found = line_tokens(alloc, section, line)?;
        section = section.behind(&found);
        rest = behind;
        before += 1;
    }
    Ok(Tail { text: rest, before })
}

/// The names of the terminals, in order.
fn names_of<'a>(alloc: Global, terminals: &'a [Terminal]) -> Result<IndexSet<&'a [u8]>, TreeFault>
    requires { AreDistinct (map (λ t. t.name) terminals.now) }
    ensures names { IfOk result (λ names. bytes_of names ≡ map (λ t. t.name) terminals.now) }
    ensures memory { IfErr result (λ e. e ≡ TreeFault.Memory) }
{
    let mut names = IndexSet::new(alloc);
    for terminal in terminals {
        place(&mut names, terminal.name.as_slice())?;
    }
    Ok(names)
}

/// Hands over the tree of a line that isn't blank, which has this number, and returns the number of the next. The line's
/// tokens are put into a list that serves line after line.
fn take_line<'a, T: TreeTaker>(
    alloc: Global,
    d: &Description,
    names: &Names<'a>,
    found: &mut Vec<Token<'a>>,
    taker: &mut T,
    number: u32,
    line: &'a [u8],
) -> Result<u32, Stop>
    requires names { bytes_of names.now.set ≡ terminal_names d.now }
    requires ready { T.ready taker.old number }
    requires within { number ≤ 16777216 }
    ensures found { IfOk result (λ next. (here : List MTree) × IsLineOf d.now line.now here × Takes T.takes number here taker.old taker.new × (next ≡ number + length here)) }
    ensures ready { IfOk result (λ next. T.ready taker.new next) }
    ensures next { IfOk result (λ next. next ≤ number + 1) }
    ensures fine { IfOk result (λ _. IsFineLine d.now line.now) }
    ensures fault { IfErr result (λ s. LineFails d.now line.now s) }
{
    replace_tokens(found, line)?;
    match line_tree(alloc, d, names, found)? {
        None => Ok(number),
        Some((tree, count)) => {
            taker.take_tree(number, tree, count)?;
            Ok(number + 1)
        }
    }
}

/// Hands over the tree of the first line, unless it is blank, and returns the number of the next tree and the lines
/// behind. None where there is no line. Only a line that has not the plain form is read by its tokens.
fn take_first<'a, T: TreeTaker>(
    alloc: Global,
    d: &Description,
    names: &Names<'a>,
    found: &mut Vec<Token<'a>>,
    taker: &mut T,
    number: u32,
    text: &'a [u8],
) -> Result<Option<(u32, &'a [u8])>, Stop>
    requires names { bytes_of names.now.set ≡ terminal_names d.now }
    requires known { AreKnown d.now.terminals names.now.known }
    requires ready { T.ready taker.old number }
    requires within { number + length text.now ≤ 16777217 }
    ensures taken { IfOk result (λ o. IfSome o (λ x. TakesLine d.now T.takes number x.0 text.now x.1.now taker.old taker.new)) }
    ensures ready { IfOk result (λ o. IfSome o (λ x. T.ready taker.new x.0)) }
    ensures shorter { IfOk result (λ o. IfSome o (λ x. length x.1.now < length text.now)) }
    ensures end { IfOk result (λ o. o ≡ None → lines_of text.now ≡ []) }
    ensures kept { IfOk result (λ o. o ≡ None → taker.new ≡ taker.old) }
    ensures fault { IfErr result (λ s. FailsLine d.now text.now s) }
{
    if let Some(plain) = plain_line(alloc, d, names, text) {
        taker.take_tree(number, plain.tree, plain.names)?;
        return Ok(Some((number + 1, plain.rest)));
    }
    match next_line(text) {
        None => Ok(None),
        Some((line, behind)) => {
            let next = take_line(alloc, d, names, found, taker, number, line)?;
            Ok(Some((next, behind)))
        }
    }
}

/// Hands over the trees of the tail.
fn take_lines<'a, T: TreeTaker>(
    alloc: Global,
    d: &Description,
    names: &Names<'a>,
    tail: Tail<'a>,
    taker: &mut T,
) -> Result<(), TreeFault>
    requires names { bytes_of names.now.set ≡ terminal_names d.now }
    requires known { AreKnown d.now.terminals names.now.known }
    requires within { tail.before + length tail.text.now ≤ 16777216 }
    requires ready { T.ready taker.old 1 }
    ensures found { OnOk result ((trees : List MTree) × AreTrees d.now (lines_of tail.entry.text.now) trees × Takes T.takes 1 trees taker.old taker.new) }
    ensures fine { IfOk result (λ _. AreFine d.now (lines_of tail.entry.text.now) (length (lines_of tail.entry.text.now))) }
    ensures fault { IfErr result (λ f. (f ≡ TreeFault.Memory) ⊎ FailsAt d.now tail.entry.before (lines_of tail.entry.text.now) f) }
{
    let mut found = Vec::new(alloc);
    let mut rest = tail.text;
    let mut number = tail.before;
    let mut tree = 1;
    'lines: loop {
        number += 1;
        match take_first(alloc, d, names, &mut found, taker, tree, rest) {
            Ok(None) => return Ok(()),
            Ok(Some((next, behind))) => {
                tree = next;
                rest = behind;
            }
            Err(stop) => return Err(stop.told(number)),
        }
    }
}

/// Hands the trees of the text's tail, one a line, to a taker, each as soon as it is read; without a tail none. Otherwise
/// the tail's first fault, behind the trees of the lines before it, as `read_trees` tells it.
pub fn take_trees<T: TreeTaker>(
    alloc: Global,
    d: &Description,
    text: &[u8],
    taker: &mut T,
) -> Result<(), TreeFault>
    requires within { length text.now ≤ 16777216 }
    requires ready { T.ready taker.old 1 }
    // It took the tail's trees.
    ensures found { OnOk result ((trees : List MTree) × IsTail d.now trees text.now × Takes T.takes 1 trees taker.old taker.new) }
    // A tail spells one list of trees.
    ensures one { (trees : List MTree) → IsTail d.now trees text.now → OnOk result (Takes T.takes 1 trees taker.old taker.new) }
    // No fault stands in what is read.
    ensures fine { IfOk result (λ _. (f : _) → FirstFault d.now text.now f → ⊥) }
    // A fault is the first.
    ensures fault { IfErr result (λ f. (f ≡ TreeFault.Memory) ⊎ FirstFault d.now text.now f) }
    // Trees of the description are read, unless memory ran out.
    ensures only { (trees : List MTree) → IsTail d.now trees text.now → IfErr result (λ e. e ≡ TreeFault.Memory) }
{
    let set = names_of(alloc, d.terminals())?;
    let names = Names::new(set, d.terminals());
    let tail = tail_of(alloc, text)?;
    one_spelling();
    one_text();
    take_lines(alloc, d, &names, tail, taker)
}

/// The trees of the text's tail, one a line; without a tail none. Otherwise the tail's first fault: the first in the
/// text, within a line the first from the left, at one place the first of `TreeFault`'s order. The description is
/// that of the text before its tail.
pub fn read_trees(alloc: Global, d: &Description, text: &[u8]) -> Result<Items<TextTree>, TreeFault>
    requires { length text.now ≤ 16777216 }
    // They are the tail's trees.
    ensures found { IfOk result (λ trees. IsTail d.now trees text.now) }
    // A tail spells one list of trees.
    ensures one { (trees : List MTree) → IsTail d.now trees text.now → IfOk result (λ r. r ≡ trees) }
    // No fault stands in what is read.
    ensures fine { IfOk result (λ _. (f : _) → FirstFault d.now text.now f → ⊥) }
    // A fault is the first.
    ensures fault { IfErr result (λ f. (f ≡ TreeFault.Memory) ⊎ FirstFault d.now text.now f) }
    // Trees of the description are read, unless memory ran out.
    ensures only { (trees : List MTree) → IsTail d.now trees text.now → IfErr result (λ e. e ≡ TreeFault.Memory) }
{
    let mut trees = Items::new(alloc);
    take_trees(alloc, d, text, &mut trees)?;
    Ok(trees)
}
