//! Forests become virtual code: the rules of each tree's derivation emit its instructions in order.
ghost use Rattle.std.specs.Prelude.{◌≡◌, false, ℕ, ◌+◌, ◌-◌, ◌^◌, ◌<◌, ◌≤◌, ◌++◌, map, sum_by, All, length, IfOk, OnOk, IsSome, if◌then◌else◌};
ghost use Rattle.lburg_model.specs.Derivation.{Derives};
ghost use Rattle.lburg_model.specs.DerivationOf.{derivation_of};
ghost use Rattle.lburg_model.specs.Pattern.{pattern_of};
ghost use Rattle.op_forest.specs.Nodes.{Node, head_of, gives, one_where, nodes, value_nodes, tree_of};
ghost use Rattle.vcode.specs.Adding.{Added, meetings_at};
ghost use Rattle.vcode.specs.Emission.{IsLinearised};
ghost use Rattle.vcode.specs.Patterns.{leaves_at, is_chain};
ghost use Rattle.vcode.specs.Roots.{AreDerived, IsQuiet};
ghost use Rattle.vcode.specs.RuleSets.{row_of};

use crate::operand::Reg;
use crate::rule_set::RuleSet;
use crate::target::Target;
use crate::virtual_code::VCode;
use forests::WellFormed;
use lburg_model::{Derivation, Pattern, Rule};
use lcc_base::{Items, Memory};
use op_forest::Tree;
use std::alloc::Global;

/// The first virtual register.
const FIRST_VIRTUAL: Reg = 64;

/// Adds the subtrees that the pattern's nonterminals meet, from left to right.
fn push_leaves<'a>(
    pattern: &Pattern,
    tree: &'a Tree,
    into: &mut Vec<&'a Tree>,
) -> Result<(), Memory>
    requires { IsSome (leaves_at (pattern_of pattern.now) tree.now) }
    ensures { OnOk result (map (λ t. t.now) into.new.items ≡ map (λ t. t.now) into.old.items ++ map (λ m. m.1) (meetings_at (pattern_of pattern.now) tree.now)) }
{
    match pattern {
        Pattern::Nonterminal(_) => into.push(tree)?,
        Pattern::Leaf(_) => {}
        Pattern::Unary(_, p) => push_leaves(p, tree.kids.at(0), into)?,
        Pattern::Binary(_, p, q) => {
            push_leaves(p, tree.kids.at(0), into)?;
            push_leaves(q, tree.kids.at(1), into)?;
        }
    }
    Ok(())
}

/// Whether the pattern makes a chain rule.
fn is_chain(pattern: &Pattern) -> bool
    ensures { result ≡ is_chain (pattern_of pattern.now) }
{
    matches!(pattern, Pattern::Nonterminal(_))
}

/// The register of a node: the next one, which the node takes if it gives a value.
fn register_at(tree: &Tree, next: &mut Reg) -> Reg
    requires { next.old + one_where (gives (head_of tree.now)) ≤ 2 ^ 31 }
    ensures to { result ≡ next.old }
    ensures next { next.new ≡ next.old + one_where (gives (head_of tree.now)) }
{
    let to = *next;
    if tree.operator.gives_value() {
        *next = to + 1;
    }
    to
}

/// What a derivation hands up, and the register of its node.
#[derive(Drop)]
struct HandedUp<P> {
    part: P,
    to: Reg,
}

/// The rules that add code, and their rows.
#[derive(Drop)]
struct Emitter<'a, R> {
    alloc: Global,
    rules: &'a R,
    rows: &'a [Rule],
}

/// Adds the code of a derivation of the tree, and answers what it hands up. `next` is the first
/// register that is free.
fn emit<T: Target, R: RuleSet<T>>(
    emitter: &Emitter<R>,
    derivation: &Derivation,
    tree: &Tree,
    next: &mut Reg,
    into: &mut Items<T::Instr>,
) -> Result<HandedUp<R::Part>, Memory>
    requires rows { map row_of emitter.now.rows.now ≡ R.rules.rows }
    requires derives { (n : ℕ) × Derives emitter.now.rows.now n (tree_of tree.now) (derivation_of derivation.now) }
    requires are_virtual { 64 ≤ next.old }
    requires room { next.old + value_nodes tree.now ≤ 2 ^ 31 }
    ensures { IfOk result (λ h. Added R.rules (derivation_of derivation.now) tree.now next.old next.new into.old into.new h.part h.to) }
{
    let alloc = emitter.alloc;
    let rule = &emitter.rows[derivation.rule as usize - 1];
    let mut parts = Items::with_capacity(alloc, derivation.parts.len())?;
    if is_chain(&rule.pattern) {
        let HandedUp { part, to } = emit(emitter, derivation.parts.at(0), tree, next, into)?;
        parts.push(part)?;
        let part = emitter
            .rules
            .expand(alloc, derivation.rule, tree, &parts, to, into)?;
        return Ok(HandedUp { part, to });
    }
    let mut leaves = Vec::with_capacity(alloc, derivation.parts.len())?;
    push_leaves(&rule.pattern, tree, &mut leaves)?;
    for (k, part) in derivation.parts.as_slice().iter().enumerate() {
        parts.push(emit(emitter, part, leaves[k], next, into)?.part)?;
    }
    let to = register_at(tree, next);
    let part = emitter
        .rules
        .expand(alloc, derivation.rule, tree, &parts, to, into)?;
    Ok(HandedUp { part, to })
}

/// The code of roots by their derivations, a stretch a root.
fn linearise_roots<T: Target, R: RuleSet<T>>(
    alloc: Global,
    _target: &T,
    roots: &[Tree],
    cover: &[Derivation],
    rules: &R,
) -> Result<VCode<T>, Memory>
    requires derived { AreDerived (R.described rules.now) roots.now (map derivation_of cover.now) }
    requires quiet { All IsQuiet roots.now }
    requires small { sum_by nodes roots.now < 2 ^ 30 }
    ensures { IfOk result (λ c. IsLinearised T.machine R.rules roots.now (map derivation_of cover.now) c) }
{
    let rows = rules.description().rules();
    let emitter = Emitter { alloc, rules, rows };
    let mut code = Items::new(alloc);
    let mut cuts = Items::with_capacity(alloc, roots.len())?;
    let mut next = FIRST_VIRTUAL;
    for (k, root) in roots.iter().enumerate() {
        emit(&emitter, &cover[k], root, &mut next, &mut code)?;
        cuts.push(code.len())?;
    }
    Ok(VCode::new(code, cuts))
}

/// The code of a forest by the derivations of its roots, a stretch a root: what the rules add, in
/// order. From each state where the forest isn't stuck it does what the forest means. `Memory` comes
/// where an allocation is refused.
/// Source: Fraser and Hanson, A Retargetable C Compiler, chapter 14.
#[tactic(auto, using(crate::proofs::WellFormedRoots::all_quiet))]
pub fn linearise<T: Target, R: RuleSet<T>>(
    alloc: Global,
    target: &T,
    forest: &WellFormed,
    cover: &[Derivation],
    rules: &R,
) -> Result<VCode<T>, Memory>
    requires derived { AreDerived (R.described rules.now) forest.now.roots (map derivation_of cover.now) }
    requires small { sum_by nodes forest.now.roots < 2 ^ 30 }
    ensures { IfOk result (λ c. IsLinearised T.machine R.rules forest.now.roots (map derivation_of cover.now) c) }
{
    linearise_roots(
        alloc,
        target,
        forest.forest().roots.as_slice(),
        cover,
        rules,
    )
}
