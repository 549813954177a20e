//! Matching of patterns on labelled subtrees, with the least cost at which a rule fits.
ghost use Rattle.std.specs.Prelude.{◌≡◌, ◌+◌, ◌*◌, ◌-◌, ◌^◌, ◌<◌, ◌≤◌, length, IfSome};
ghost use Rattle.lburg_model.specs.Tree.{nodes};
ghost use Rattle.lburg_model.specs.Pattern.{pattern_of, POne, PTwo};
ghost use Rattle.tree_labeller.specs.Labelled.{base_total, IsRuleTotal, KidsLabelled, total, area, Ready, Labelled, cell};
ghost use Rattle.lburg_tables.specs.RowOf.{key_of};

use crate::labels::Labels;
use lburg_model::{Pattern, Rule, TreeNode};
use place_queue::Key;

// What a cell tells of its cost and count.
#[inline(always)]
fn key_at(labels: &Labels, at: usize, n: usize) -> Option<Key>
    ensures { result ≡ key_of (cell labels.now.board.now.rows at n) }
{
    match labels.cell(at, n) {
        Some(cell) => Some(cell.key()),
        None => None,
    }
}

/// The least cost and count of the parts that a pattern needs at a tree, none where it does not
/// fit or a part has no derivation.
#[cycle(total)]
#[tactic(auto, using(crate::specs::Totals::ready_of, crate::proofs::lemmas::Totals::nodes_pos))]
fn total_at<N: TreeNode>(labels: &Labels, pattern: &Pattern, tree: &N, at: usize) -> Option<Key>
    requires small { area labels.now.board.now.nonterminals (N.tree tree.now) < 2 ^ 32 - 1 }
    requires room { at + nodes (N.tree tree.now) ≤ length labels.now.board.now.rows }
    requires reach { length labels.now.board.now.rows < 2 ^ 64 }
    requires ready { Ready labels.now.board.now.rows labels.now.rules.now labels.now.board.now.nonterminals at (N.tree tree.now) (pattern_of pattern.now) }
    ensures value { result ≡ total labels.now.board.now.rows (pattern_of pattern.now) (N.tree tree.now) at }
    ensures bounded { IfSome result (λ k. (k.count ≤ area labels.now.board.now.nonterminals (N.tree tree.now)) × (k.cost ≤ 32768 * k.count)) }
{
    match pattern {
        Pattern::Nonterminal(n) => key_at(labels, at, *n as usize),
        Pattern::Leaf(op) => {
            if tree.op() == *op && tree.arity() == 0 {
                Some(Key { cost: 0, count: 0 })
            } else {
                None
            }
        }
        Pattern::Unary(op, p) => unary_total_at(labels, *op, p, tree, at),
        Pattern::Binary(op, p, q) => binary_total_at(labels, *op, p, q, tree, at),
    }
}

// The same for an operator with one operand.
#[cycle(total)]
#[inline(always)]
#[tactic(auto, using(crate::specs::Totals::ready_of, crate::proofs::lemmas::Totals::nodes_pos))]
fn unary_total_at<N: TreeNode>(
    labels: &Labels,
    op: u16,
    p: &Pattern,
    tree: &N,
    at: usize,
) -> Option<Key>
    requires small { area labels.now.board.now.nonterminals (N.tree tree.now) < 2 ^ 32 - 1 }
    requires room { at + nodes (N.tree tree.now) ≤ length labels.now.board.now.rows }
    requires reach { length labels.now.board.now.rows < 2 ^ 64 }
    requires kids { KidsLabelled labels.now.board.now.rows labels.now.rules.now labels.now.board.now.nonterminals at (N.tree tree.now) }
    ensures value { result ≡ total labels.now.board.now.rows (POne op (pattern_of p.now)) (N.tree tree.now) at }
    ensures bounded { IfSome result (λ k. (k.count + labels.now.board.now.nonterminals ≤ area labels.now.board.now.nonterminals (N.tree tree.now)) × (k.cost ≤ 32768 * k.count)) }
{
    if tree.op() == op && tree.arity() == 1 {
        part_total_at(labels, p, tree.kid(0), at + 1)
    } else {
        None
    }
}

// The same for an operator with two operands.
#[cycle(total)]
#[inline(always)]
#[tactic(auto, using(crate::specs::Totals::ready_of, crate::proofs::lemmas::Totals::nodes_pos))]
fn binary_total_at<N: TreeNode>(
    labels: &Labels,
    op: u16,
    p: &Pattern,
    q: &Pattern,
    tree: &N,
    at: usize,
) -> Option<Key>
    requires small { area labels.now.board.now.nonterminals (N.tree tree.now) < 2 ^ 32 - 1 }
    requires room { at + nodes (N.tree tree.now) ≤ length labels.now.board.now.rows }
    requires reach { length labels.now.board.now.rows < 2 ^ 64 }
    requires kids { KidsLabelled labels.now.board.now.rows labels.now.rules.now labels.now.board.now.nonterminals at (N.tree tree.now) }
    ensures value { result ≡ total labels.now.board.now.rows (PTwo op (pattern_of p.now) (pattern_of q.now)) (N.tree tree.now) at }
    ensures bounded { IfSome result (λ k. (k.count + labels.now.board.now.nonterminals ≤ area labels.now.board.now.nonterminals (N.tree tree.now)) × (k.cost ≤ 32768 * k.count)) }
{
    if tree.op() == op && tree.arity() == 2 {
        let first = tree.kid(0);
        let next = labels.end(first, at + 1);
        let a = part_total_at(labels, p, first, at + 1)?;
        let b = part_total_at(labels, q, tree.kid(1), next)?;
        Some(Key {
            cost: a.cost + b.cost,
            count: a.count + b.count,
        })
    } else {
        None
    }
}

// The same for a part of a pattern, which is mostly a nonterminal: then it takes no further call.
#[cycle(total)]
#[inline(always)]
fn part_total_at<N: TreeNode>(
    labels: &Labels,
    pattern: &Pattern,
    tree: &N,
    at: usize,
) -> Option<Key>
    requires small { area labels.now.board.now.nonterminals (N.tree tree.now) < 2 ^ 32 - 1 }
    requires room { at + nodes (N.tree tree.now) ≤ length labels.now.board.now.rows }
    requires reach { length labels.now.board.now.rows < 2 ^ 64 }
    requires ready { Ready labels.now.board.now.rows labels.now.rules.now labels.now.board.now.nonterminals at (N.tree tree.now) (pattern_of pattern.now) }
    ensures value { result ≡ total labels.now.board.now.rows (pattern_of pattern.now) (N.tree tree.now) at }
    ensures bounded { IfSome result (λ k. (k.count ≤ area labels.now.board.now.nonterminals (N.tree tree.now)) × (k.cost ≤ 32768 * k.count)) }
{
    match pattern {
        Pattern::Nonterminal(n) => key_at(labels, at, *n as usize),
        _ => nested_total_at(labels, pattern, tree, at),
    }
}

// The same for an operator's pattern within another. The labels are copied for the call, so that they need no place in
// memory where none is made.
#[cycle(total)]
#[inline(always)]
fn nested_total_at<N: TreeNode>(
    labels: &Labels,
    pattern: &Pattern,
    tree: &N,
    at: usize,
) -> Option<Key>
    requires small { area labels.now.board.now.nonterminals (N.tree tree.now) < 2 ^ 32 - 1 }
    requires room { at + nodes (N.tree tree.now) ≤ length labels.now.board.now.rows }
    requires reach { length labels.now.board.now.rows < 2 ^ 64 }
    requires ready { Ready labels.now.board.now.rows labels.now.rules.now labels.now.board.now.nonterminals at (N.tree tree.now) (pattern_of pattern.now) }
    ensures value { result ≡ total labels.now.board.now.rows (pattern_of pattern.now) (N.tree tree.now) at }
    ensures bounded { IfSome result (λ k. (k.count ≤ area labels.now.board.now.nonterminals (N.tree tree.now)) × (k.cost ≤ 32768 * k.count)) }
{
    let labels = *labels;
    total_at(&labels, pattern, tree, at)
}

// The same, with none for a chain rule's pattern.
#[inline(always)]
fn base_total_at<N: TreeNode>(
    labels: &Labels,
    pattern: &Pattern,
    tree: &N,
    at: usize,
) -> Option<Key>
    requires small { area labels.now.board.now.nonterminals (N.tree tree.now) < 2 ^ 32 - 1 }
    requires room { at + nodes (N.tree tree.now) ≤ length labels.now.board.now.rows }
    requires reach { length labels.now.board.now.rows < 2 ^ 64 }
    requires kids { KidsLabelled labels.now.board.now.rows labels.now.rules.now labels.now.board.now.nonterminals at (N.tree tree.now) }
    ensures value { result ≡ base_total labels.now.board.now.rows (pattern_of pattern.now) (N.tree tree.now) at }
    ensures bounded { IfSome result (λ k. (k.count + labels.now.board.now.nonterminals ≤ area labels.now.board.now.nonterminals (N.tree tree.now)) × (k.cost ≤ 32768 * k.count)) }
{
    match pattern {
        Pattern::Nonterminal(_) => None,
        Pattern::Leaf(op) => {
            if tree.op() == *op && tree.arity() == 0 {
                Some(Key { cost: 0, count: 0 })
            } else {
                None
            }
        }
        Pattern::Unary(op, p) => unary_total_at(labels, *op, p, tree, at),
        Pattern::Binary(op, p, q) => binary_total_at(labels, *op, p, q, tree, at),
    }
}

/// The same for a rule's pattern, with none where the rule's range does not contain the constant of
/// the node.
#[inline(always)]
pub fn rule_total_at<N: TreeNode>(labels: &Labels, rule: &Rule, tree: &N, at: usize) -> Option<Key>
    requires small { area labels.now.board.now.nonterminals (N.tree tree.now) < 2 ^ 32 - 1 }
    requires room { at + nodes (N.tree tree.now) ≤ length labels.now.board.now.rows }
    requires reach { length labels.now.board.now.rows < 2 ^ 64 }
    requires kids { KidsLabelled labels.now.board.now.rows labels.now.rules.now labels.now.board.now.nonterminals at (N.tree tree.now) }
    ensures value { IsRuleTotal labels.now.board.now.rows rule.now (N.tree tree.now) at result }
    ensures bounded { IfSome result (λ k. (k.count + labels.now.board.now.nonterminals ≤ area labels.now.board.now.nonterminals (N.tree tree.now)) × (k.cost ≤ 32768 * k.count)) }
{
    if rule.range.is_none() || rule.applies(tree.value()) {
        base_total_at(labels, &rule.pattern, tree, at)
    } else {
        None
    }
}
