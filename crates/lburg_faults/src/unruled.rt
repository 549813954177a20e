//! Nonterminals without a rule.
ghost use Rattle.std.specs.Prelude.{◌≡◌, ℕ, List, false, map, IsTrue, IfOk};
ghost use Rattle.lcc_text.specs.Names.{bytes_of};
ghost use Rattle.lburg_lines.specs.NamedTree.{named_of};
ghost use Rattle.lburg_lines.specs.Grammar.{rule_of};
ghost use Rattle.lburg_faults.specs.Terminals.{Among};
ghost use Rattle.lburg_faults.specs.Ruling.{lefts_of, AreLeavesNamed, IsLeafUnnamed, IsNamed, FindsUnnamed};

use indexmap::IndexSet;
use lburg_lines::{NamedTree, RuleLine};
use lcc_text::{find, place};
use std::alloc::{AllocError, Global};

/// The left sides of the rules.
pub(crate) fn left_sides<'a>(
    alloc: Global,
    rules: &[RuleLine<'a>],
) -> Result<IndexSet<&'a [u8]>, AllocError>
    ensures all { IfOk result (λ names. (name : List ℕ) → Among name (lefts_of (map rule_of rules.now)) → Among name (bytes_of names)) }
    ensures only { IfOk result (λ names. (name : List ℕ) → Among name (bytes_of names) → Among name (lefts_of (map rule_of rules.now))) }
{
    let mut names = IndexSet::new(alloc);
    for rule in rules {
        place(&mut names, rule.left)?;
    }
    Ok(names)
}

/// Whether the name is a terminal or a left side.
fn is_named<'a>(terminals: &IndexSet<&'a [u8]>, lefts: &IndexSet<&'a [u8]>, name: &'a [u8]) -> bool
    ensures yes { IsTrue result → IsNamed (bytes_of terminals.now) (bytes_of lefts.now) name.now }
    ensures no { result ≡ false → IsNamed (bytes_of terminals.now) (bytes_of lefts.now) name.now → ⊥ }
{
    match find(terminals, name) {
        Some(_) => true,
        None => find(lefts, name).is_some(),
    }
}

/// Whether each leaf of the pattern is a terminal or a left side.
fn is_ruled<'a>(
    terminals: &IndexSet<&'a [u8]>,
    lefts: &IndexSet<&'a [u8]>,
    tree: &NamedTree<'a>,
) -> bool
    ensures yes { IsTrue result → AreLeavesNamed (bytes_of terminals.now) (bytes_of lefts.now) (named_of tree.now) }
    ensures no { result ≡ false → IsLeafUnnamed (bytes_of terminals.now) (bytes_of lefts.now) (named_of tree.now) }
{
    match tree {
        NamedTree::Leaf(name) => is_named(terminals, lefts, name),
        NamedTree::Unary(_, a) => is_ruled(terminals, lefts, a),
        NamedTree::Binary(_, a, b) => is_ruled(terminals, lefts, a)
            && is_ruled(terminals, lefts, b),
    }
}

/// The place of the first rule with a leaf of its pattern that is neither a terminal nor a left side.
pub(crate) fn first_unruled<'a>(
    terminals: &IndexSet<&'a [u8]>,
    lefts: &IndexSet<&'a [u8]>,
    rules: &[RuleLine<'a>],
) -> Option<usize>
    ensures { FindsUnnamed (bytes_of terminals.now) (bytes_of lefts.now) (map rule_of rules.now) result }
{
    for (i, rule) in rules.iter().enumerate() {
        if !is_ruled(terminals, lefts, &rule.tree) {
            return Some(i);
        }
    }
    None
}
