//! A tree of a tail in its plain form, read straight from the bytes.
ghost use Rattle.std.specs.Prelude.{◌≡◌, ◌<◌, ◌≤◌, ◌+◌, ◌∷◌, ◌++◌, [], ℕ, List, length, IfSome};
ghost use Rattle.lcc_text.specs.Names.{bytes_of};
ghost use Rattle.lburg_model.specs.Description.{IsDescription, terminal_names};
ghost use Rattle.lburg_model.specs.Tree.{nodes};
ghost use Rattle.lburg_trees.specs.Setting.{placed};
ghost use Rattle.lburg_trees.specs.Known.{AreKnown, ReadsName};
ghost use Rattle.lburg_trees.specs.PlainTree.{ReadsPlain, AddsPlain};
ghost use Rattle.lburg_trees.specs.PlainLine.{ReadsLine};

use crate::known::first_word;
use crate::name_table::Names;
use crate::tree_reader::{Before, MOST_NODES, MOST_OPEN};
use lburg_model::{Description, TextTree};
use lcc_base::Items;
use lcc_text::{Class, find, run_len};
use std::alloc::Global;

/// A tree that was read, how many names the line has up to its end, and what stands behind it.
#[derive(Drop)]
pub(crate) struct Plain<'a> {
    pub(crate) tree: TextTree,
    pub(crate) names: usize,
    pub(crate) rest: &'a [u8],
}

/// How many names a line has up to the end of a tree, and what stands behind it.
#[derive(Clone, Copy)]
struct Behind<'a> {
    names: usize,
    rest: &'a [u8],
}

/// An operator with the number of its operands, and what stands behind its name.
#[derive(Clone, Copy)]
struct Head<'a> {
    op: u16,
    arity: u8,
    rest: &'a [u8],
}

/// What stands behind a byte, which is next.
fn after<'a>(bytes: &'a [u8], byte: u8) -> Option<&'a [u8]>
    ensures { IfSome result (λ rest. bytes.now ≡ byte ∷ rest.now) }
{
    match bytes.split_first() {
        Some((first, rest)) if *first == byte => Some(rest),
        _ => None,
    }
}

/// The operator whose name is next, looked up by its bytes.
#[inline(never)]
fn spelled_head<'a>(d: &Description, names: &Names<'a>, bytes: &'a [u8]) -> Option<Head<'a>>
    requires { bytes_of names.now.set ≡ terminal_names d.now }
    ensures found { IfSome result (λ h. ReadsName d.now bytes.now h.rest.now h.op h.arity) }
    ensures shorter { IfSome result (λ h. length h.rest.now < length bytes.now) }
{
    let (name, rest) = bytes.split_at(run_len(Class::Name, bytes));
    let place = find(&names.set, name)?;
    let terminals = d.terminals();
    prove!(place < terminals.len());
    let terminal = &terminals[place];
    let arity = terminal.arity?;
    Some(Head {
        op: place as u16 + 1,
        arity,
        rest,
    })
}

/// The operator whose name is next, if it is one that the rules use.
#[inline(always)]
fn head_at<'a>(d: &Description, names: &Names<'a>, bytes: &'a [u8]) -> Option<Head<'a>>
    requires names { bytes_of names.now.set ≡ terminal_names d.now }
    requires known { AreKnown d.now.terminals names.now.known }
    requires is { IsDescription d.now }
    ensures found { IfSome result (λ h. ReadsName d.now bytes.now h.rest.now h.op h.arity) }
    ensures shorter { IfSome result (λ h. length h.rest.now < length bytes.now) }
{
    if let Some(word) = first_word(bytes) {
        if let Some(known) = names.known_in(word) {
            let (_, rest) = bytes.split_at(known.length as usize);
            return Some(Head {
                op: known.op,
                arity: known.arity,
                rest,
            });
        }
    }
    spelled_head(d, names, bytes)
}

/// The tree that is next, if it has the plain form and no fault. None also comes where an allocation is refused.
#[inline(always)]
fn plain_tree<'a>(
    alloc: Global,
    d: &Description,
    names: &Names<'a>,
    before: Before,
    bytes: &'a [u8],
) -> Option<Plain<'a>>
    requires names { bytes_of names.now.set ≡ terminal_names d.now }
    requires known { AreKnown d.now.terminals names.now.known }
    requires is { IsDescription d.now }
    requires open { before.opened ≤ 499 }
    ensures found { IfSome result (λ f. ReadsPlain d.now (placed before.opened before.names) bytes.now f.rest.now f.tree) }
    ensures counted { IfSome result (λ f. f.names ≡ before.names + nodes f.tree) }
    ensures shorter { IfSome result (λ f. length f.rest.now < length bytes.now) }
{
    if before.names >= MOST_NODES {
        return None;
    }
    let head = head_at(d, names, bytes)?;
    if head.arity == 0 {
        return Some(Plain {
            tree: TextTree::new(head.op, None, Items::new(alloc)),
            names: before.names + 1,
            rest: head.rest,
        });
    }
    if before.opened >= MOST_OPEN {
        return None;
    }
    operands(alloc, d, names, before, head)
}

/// The tree whose name was read.
#[cycle(plain)]
#[inline(always)]
fn operands<'a>(
    alloc: Global,
    d: &Description,
    names: &Names<'a>,
    before: Before,
    head: Head<'a>,
) -> Option<Plain<'a>>
    requires names { bytes_of names.now.set ≡ terminal_names d.now }
    requires known { AreKnown d.now.terminals names.now.known }
    requires is { IsDescription d.now }
    requires open { before.opened < 499 }
    requires few { before.names < 65535 }
    ensures found { (bytes : List ℕ) → ReadsName d.now bytes head.entry.rest.now head.entry.op head.entry.arity → IfSome result (λ f. ReadsPlain d.now (placed before.opened before.names) bytes f.rest.now f.tree) }
    ensures counted { IfSome result (λ f. f.names ≡ before.names + nodes f.tree) }
    ensures shorter { IfSome result (λ f. length f.rest.now < length head.entry.rest.now) }
{
    let Ok(mut kids) = Vec::with_capacity(alloc, head.arity as usize) else {
        return None;
    };
    let inside = Before {
        opened: before.opened + 1,
        names: before.names + 1,
    };
    let first = plain_kid(alloc, d, names, inside, after(head.rest, b'(')?, &mut kids)?;
    if head.arity == 1 {
        let rest = after(first.rest, b')')?;
        return Some(Plain {
            tree: TextTree::new(head.op, None, Items::from_vec(kids)),
            names: first.names,
            rest,
        });
    }
    if head.arity != 2 {
        return None;
    }
    let inside = Before {
        opened: before.opened + 1,
        names: first.names,
    };
    let second = plain_kid(alloc, d, names, inside, after(first.rest, b',')?, &mut kids)?;
    let rest = after(second.rest, b')')?;
    Some(Plain {
        tree: TextTree::new(head.op, None, Items::from_vec(kids)),
        names: second.names,
        rest,
    })
}

/// Adds the tree that is next to the operands before it: then it is written once, where it stays.
#[cycle(plain)]
fn plain_kid<'a>(
    alloc: Global,
    d: &Description,
    names: &Names<'a>,
    before: Before,
    bytes: &'a [u8],
    kids: &mut Vec<TextTree>,
) -> Option<Behind<'a>>
    requires names { bytes_of names.now.set ≡ terminal_names d.now }
    requires known { AreKnown d.now.terminals names.now.known }
    requires is { IsDescription d.now }
    requires open { before.opened ≤ 499 }
    ensures found { IfSome result (λ f. AddsPlain d.now (placed before.opened before.names) bytes.now f.rest.now f.names kids.old.items kids.new.items) }
    ensures shorter { IfSome result (λ f. length f.rest.now < length bytes.now) }
{
    if before.names >= MOST_NODES {
        return None;
    }
    let head = head_at(d, names, bytes)?;
    if head.arity == 0 {
        let leaf = TextTree::new(head.op, None, Items::new(alloc));
        return add_kid(kids, leaf, before.names + 1, head.rest);
    }
    if before.opened >= MOST_OPEN {
        return None;
    }
    let found = operands(alloc, d, names, before, head)?;
    add_kid(kids, found.tree, found.names, found.rest)
}

/// Adds a tree to operands.
#[inline(always)]
fn add_kid<'a>(
    kids: &mut Vec<TextTree>,
    tree: TextTree,
    names: usize,
    rest: &'a [u8],
) -> Option<Behind<'a>>
    ensures behind { IfSome result (λ f. (f.names ≡ names) × (f.rest.now ≡ rest.now)) }
    ensures added { IfSome result (λ _. kids.new.items ≡ kids.old.items ++ tree ∷ []) }
{
    if kids.push(tree).is_err() {
        return None;
    }
    Some(Behind { names, rest })
}

/// The tree of the first line, how many nodes it has, and the lines behind, if the tree has the plain form and no
/// fault, and the line ends in a line feed.
pub(crate) fn plain_line<'a>(
    alloc: Global,
    d: &Description,
    names: &Names<'a>,
    text: &'a [u8],
) -> Option<Plain<'a>>
    requires names { bytes_of names.now.set ≡ terminal_names d.now }
    requires known { AreKnown d.now.terminals names.now.known }
    ensures found { IfSome result (λ f. ReadsLine d.now text.now f.rest.now f.tree) }
    ensures counted { IfSome result (λ f. f.names ≡ nodes f.tree) }
    ensures small { IfSome result (λ f. f.names ≤ 65535) }
    ensures shorter { IfSome result (λ f. length f.rest.now < length text.now) }
{
    // Its names are spelled as names.
    let _terminals = d.terminals();
    let nothing = Before {
        opened: 0,
        names: 0,
    };
    let found = plain_tree(alloc, d, names, nothing, text)?;
    let behind = after(found.rest, b'\n')?;
    Some(Plain {
        tree: found.tree,
        names: found.names,
        rest: behind,
    })
}
