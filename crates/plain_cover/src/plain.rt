//! An exhaustive search for a tree's best derivation, without tables or labels.
ghost use Rattle.std.specs.Prelude.{◌≡◌, ℕ, ◌+◌, ◌*◌, ◌^◌, ◌<◌, ◌≤◌, ◌↔◌, IsTrue, length, IfOk, IfSome, IfNone, slice_get};
ghost use Rattle.lburg_model.specs.Tree.{MTree, nodes, op_of, kids_of, value_of};
ghost use Rattle.lburg_model.specs.Range.{IsMet};
ghost use Rattle.lburg_model.specs.Pattern.{pattern_of, pattern_nodes};
ghost use Rattle.lburg_model.specs.Derivation.{MDerivation};
ghost use Rattle.lburg_model.specs.Best.{Earlier, IsBest, HasNone};
ghost use Rattle.plain_cover.specs.Room.{room};
ghost use Rattle.plain_cover.specs.Told.{told, told_of_parts, told_of_none, told_of_both, told_of_rule};
ghost use Rattle.plain_cover.specs.Less.{Less, IsLesser};
ghost use Rattle.plain_cover.specs.IsLeastOf.{IsLeastOf};
ghost use Rattle.plain_cover.specs.Within.{Within, WithinBy, PartsWithin};
ghost use Rattle.plain_cover.specs.AreRules.{AreRules};

use lburg_model::{Description, Pattern, Rule, TreeNode};
use lcc_base::{Items, Memory};
use std::alloc::Global;

/// What the plain search tells of a derivation.
#[derive(Debug, Drop)]
pub struct Found {
    /// The costs of its rules, added up.
    pub cost: u64,
    /// How many rules it applies.
    pub count: u64,
    /// The numbers of its rules in preorder, from 1.
    pub numbers: Items<u16>,
}

fn none_found(alloc: Global) -> Found
    ensures { result ≡ told_of_none }
{
    Found {
        cost: 0,
        count: 0,
        numbers: Items::new(alloc),
    }
}

fn both_found(first: Found, second: Found) -> Result<Found, Memory>
    requires cost { first.cost + second.cost < 2 ^ 64 }
    requires count { first.count + second.count < 2 ^ 64 }
    ensures { IfOk result (λ f. f ≡ told_of_both first second) }
{
    let Found {
        cost,
        count,
        numbers,
    } = first;
    let mut numbers = numbers.into_vec();
    numbers.extend_from_slice(second.numbers.as_slice())?;
    Ok(Found {
        cost: cost + second.cost,
        count: count + second.count,
        numbers: Items::from_vec(numbers),
    })
}

fn rule_found(alloc: Global, number: u16, cost: u16, parts: Found) -> Result<Found, Memory>
    requires cost { cost + parts.cost < 2 ^ 64 }
    requires count { 1 + parts.count < 2 ^ 64 }
    ensures { IfOk result (λ f. f ≡ told_of_rule number cost parts) }
{
    let mut numbers = Vec::new(alloc);
    numbers.push(number)?;
    numbers.extend_from_slice(parts.numbers.as_slice())?;
    Ok(Found {
        cost: cost as u64 + parts.cost,
        count: 1 + parts.count,
        numbers: Items::from_vec(numbers),
    })
}

// Whether the first difference makes the first list the smaller one.
fn is_earlier(a: &[u16], b: &[u16]) -> bool
    ensures { IsTrue result ↔ Earlier a.now b.now }
{
    for i in 0..a.len() {
        if i == b.len() {
            return false;
        }
        if a[i] != b[i] {
            return a[i] < b[i];
        }
    }
    false
}

fn is_less(a: &Found, b: &Found) -> bool
    ensures { IsTrue result ↔ Less a.now b.now }
{
    if a.cost != b.cost {
        return a.cost < b.cost;
    }
    if a.count != b.count {
        return a.count < b.count;
    }
    is_earlier(a.numbers.as_slice(), b.numbers.as_slice())
}

fn lesser(found: Option<Found>, other: Option<Found>) -> Option<Found>
    ensures { IsLesser found other result }
{
    let Some(old) = found else {
        return other;
    };
    let Some(new) = other else {
        return Some(old);
    };
    if is_less(&new, &old) {
        Some(new)
    } else {
        Some(old)
    }
}

// Whether the tree's node is this operator with so many operands.
fn is_node<N: TreeNode>(tree: &N, op: u16, arity: usize) -> bool
    ensures { IsTrue result ↔ ((op_of (N.tree tree.now) ≡ op) × (length (kids_of (N.tree tree.now)) ≡ arity)) }
{
    tree.op() == op && tree.arity() == arity
}

// Whether the rule derives the nonterminal, and its range, if it has one, contains the constant of
// the tree's node.
fn is_for<N: TreeNode>(rule: &Rule, nonterminal: u16, tree: &N) -> bool
    ensures { IsTrue result ↔ ((rule.now.left ≡ nonterminal) × IsMet rule.now.range (value_of (N.tree tree.now))) }
{
    rule.left == nonterminal && rule.applies(tree.value())
}

// The best parts for a pattern's nonterminals, where rules are nested no deeper than this.
#[cycle(search)]
fn best_parts<N: TreeNode>(
    alloc: Global,
    rules: &[Rule],
    pattern: &Pattern,
    tree: &N,
    height: u32,
) -> Result<Option<Found>, Memory>
    requires rules { AreRules rules.now }
    requires pattern { pattern_nodes (pattern_of pattern.now) ≤ 16 }
    requires tree { nodes (N.tree tree.now) ≤ 65535 }
    requires height { height ≤ 2 ^ 23 }
    ensures { IfOk result (λ o. IsLeastOf (told_of_parts rules.now) (PartsWithin rules.now (pattern_of pattern.now) (N.tree tree.now) height) o) }
{
    match pattern {
        Pattern::Nonterminal(n) => best_within(alloc, rules, *n, tree, height),
        Pattern::Leaf(op) => {
            if is_node(tree, *op, 0) {
                Ok(Some(none_found(alloc)))
            } else {
                Ok(None)
            }
        }
        Pattern::Unary(op, p) => {
            if is_node(tree, *op, 1) {
                best_parts(alloc, rules, p, tree.kid(0), height)
            } else {
                Ok(None)
            }
        }
        Pattern::Binary(op, p, q) => {
            if !is_node(tree, *op, 2) {
                return Ok(None);
            }
            let Some(first) = best_parts(alloc, rules, p, tree.kid(0), height)? else {
                return Ok(None);
            };
            let Some(second) = best_parts(alloc, rules, q, tree.kid(1), height)? else {
                return Ok(None);
            };
            Ok(Some(both_found(first, second)?))
        }
    }
}

// The best derivation by one rule, where the rules in its parts are nested no deeper than this.
#[cycle(search)]
fn best_by<N: TreeNode>(
    alloc: Global,
    rules: &[Rule],
    place: usize,
    nonterminal: u16,
    tree: &N,
    height: u32,
) -> Result<Option<Found>, Memory>
    requires rules { AreRules rules.now }
    requires place { place < length rules.now }
    requires tree { nodes (N.tree tree.now) ≤ 65535 }
    requires height { height ≤ 2 ^ 23 }
    ensures { IfOk result (λ o. IsLeastOf (told rules.now) (WithinBy rules.now nonterminal (N.tree tree.now) (height + 1) (place + 1)) o) }
{
    let rule = &rules[place];
    if !is_for(rule, nonterminal, tree) {
        return Ok(None);
    }
    match best_parts(alloc, rules, &rule.pattern, tree, height)? {
        None => Ok(None),
        Some(parts) => Ok(Some(rule_found(alloc, place as u16 + 1, rule.cost, parts)?)),
    }
}

// The best derivation in which rules are nested no deeper than this.
#[cycle(search)]
fn best_within<N: TreeNode>(
    alloc: Global,
    rules: &[Rule],
    nonterminal: u16,
    tree: &N,
    height: u32,
) -> Result<Option<Found>, Memory>
    requires rules { AreRules rules.now }
    requires tree { nodes (N.tree tree.now) ≤ 65535 }
    requires height { height ≤ 2 ^ 23 }
    ensures { IfOk result (λ o. IsLeastOf (told rules.now) (Within rules.now nonterminal (N.tree tree.now) height) o) }
{
    if height == 0 {
        return Ok(None);
    }
    let mut found = None;
    for place in 0..rules.len() {
        let other = best_by(alloc, rules, place, nonterminal, tree, height - 1)?;
        found = lesser(found, other);
    }
    Ok(found)
}

// How deep rules have to be nested at a tree, where there are so many nonterminals.
fn room_of<N: TreeNode>(width: u32, tree: &N) -> u32
    requires width { width ≤ 127 }
    requires tree { nodes (N.tree tree.now) ≤ 65535 }
    ensures { result ≡ room width (N.tree tree.now) }
{
    match tree.arity() {
        0 => width,
        1 => room_of(width, tree.kid(0)) + width,
        _ => room_of(width, tree.kid(0)).max(room_of(width, tree.kid(1))) + width,
    }
}

/// The best derivation of a tree from the start symbol, none where there is none; `Memory` where
/// an allocation is refused. It tries every derivation in which no more rules are nested than a
/// best one can need, in exponential time.
pub fn plain_best<N: TreeNode>(
    alloc: Global,
    description: &Description,
    tree: &N,
) -> Result<Option<Found>, Memory>
    requires { nodes (N.tree tree.now) ≤ 65535 }
    ensures some { IfOk result (λ o. IfSome o (λ f. (x : MDerivation) × IsBest description.now (N.tree tree.now) x × (f ≡ told description.now.rules x))) }
    ensures none { IfOk result (λ o. IfNone o (HasNone description.now (N.tree tree.now))) }
{
    let width = description.nonterminals().len() as u32;
    let height = room_of(width, tree);
    best_within(
        alloc,
        description.rules(),
        description.start(),
        tree,
        height,
    )
}
