//! Covers of trees of two types: the labeller and the reducer, and the plain search beside them.
ghost use Rattle.std.specs.Prelude.{◌≡◌, ◌<◌, ◌≤◌, ◌⊎◌, ◌++◌, ◌∷◌, [], Some, None, IfOk, IsTrue, length};
ghost use Rattle.lburg_model.specs.Tree.{nodes};
ghost use Rattle.lburg_model.specs.Shape.{tree_of};

use lburg_grammar::read;
use lburg_model::{Description, TextTree, TreeNode};
use lburg_tables::build;
use lcc_base::{Items, Memory, Steps};
use plain_cover::{Found, plain_best};
use reducer::{Visitor, best, reduce};
use std::alloc::Global;
use std::marker::{Brand, Model};
use std::sync::ledger::{Blank, Ledger};
use std::test::Fail;
use tree_labeller::{Cells, label};

// Keeps the numbers that it is given, or that an allocation was refused.
#[derive(Drop)]
struct Numbers {
    numbers: Items<u16>,
    refused: bool,
}

impl<N> Visitor<N> for Numbers {
    ghost takes = { λ s number node s'. IsTrue s'.refused ⊎ (s'.numbers ≡ s.numbers ++ number ∷ []) };

    fn rule(&mut self, number: u16, _node: &N) {
        if self.numbers.push(number).is_err() {
            self.refused = true;
        }
    }
}

// A tree with nothing but operators.
#[derive(Drop)]
struct Plain {
    op: u8,
    kids: Items<Plain>,
}

impl Model for Plain {
    ghost use Rattle.std.specs.Prelude.{◌≤◌, length, None};
    ghost use Rattle.std.proofs.Common.{arith};
    ghost use Rattle.lburg_model.specs.Tree.{MTree, nodes};
    ghost use Rattle.lburg_model.specs.Shape.{tree_of, most_le_nodes};
    ghost use Rattle.lburg_model.specs.Coding.{tree_code};

    ghost Value = { MTree };

    ghost coded = { tree_code };

    ghost view = { λ p. tree_of p.op None p.kids };

    ghost invariant = { λ p. length p.kids ≤ 2 };

    ghost size = { nodes };

    ghost size_decreases = { λ p h. omega (arith, most_le_nodes p.op None p.kids h) };
}

impl TreeNode for Plain {
    ghost tree = { λ t. t };

    fn op(&self) -> u16 {
        self.op as u16
    }

    fn arity(&self) -> usize {
        self.kids.len()
    }

    fn kid(&self, i: usize) -> &Self {
        self.kids.at(i)
    }

    fn value(&self) -> Option<i64> {
        let _ = &self.op;
        None
    }
}

// What the labeller finds for a tree.
fn labelled<N: TreeNode, L: Ledger>(
    alloc: Global,
    description: &Description,
    tree: &N,
    blank: Blank,
) -> Result<Option<Found>, Memory>
    requires small { nodes (N.tree tree.now) ≤ 64 }
    requires name { blank.name ≡ L.name }
    requires parts { blank.parts ≡ L.parts }
    requires some { 0 < blank.parts }
{
    let tables = build(alloc, description)?;
    let mut cells = Cells::reserve(alloc, 64, description.nonterminals().len())?;
    let mut steps = Steps::<L>::new(blank);
    label(&tables, tree, &mut cells, &mut steps);
    let Some(cost) = best(&tables, &cells, &mut steps) else {
        return Ok(None);
    };
    let mut visitor = Numbers {
        numbers: Items::new(alloc),
        refused: false,
    };
    reduce(&tables, tree, &cells, &mut visitor);
    let Numbers { numbers, refused } = visitor;
    if refused {
        return Err(Memory);
    }
    Ok(Some(Found {
        cost: cost.sum,
        count: cost.count,
        numbers,
    }))
}

// The same, counting no steps.
fn labelled_uncounted<N: TreeNode>(
    alloc: Global,
    description: &Description,
    tree: &N,
) -> Result<Option<Found>, Memory>
    requires small { nodes (N.tree tree.now) ≤ 64 }
{
    labelled::<N, Brand>(alloc, description, tree, Blank::new(1))
}

// Whether both found the same.
fn is_same(found: &Option<Found>, plain: &Option<Found>) -> bool {
    match (found, plain) {
        (None, None) => true,
        (Some(a), Some(b)) => {
            a.cost == b.cost && a.count == b.count && a.numbers.as_slice() == b.numbers.as_slice()
        }
        _ => false,
    }
}

// Whether the labeller and the plain search find the same, and whether they find a derivation.
fn compared<N: TreeNode>(
    alloc: Global,
    description: &Description,
    tree: &N,
) -> Result<(bool, bool), Memory>
    requires small { nodes (N.tree tree.now) ≤ 64 }
{
    let found = labelled_uncounted(alloc, description, tree)?;
    let plain = plain_best(alloc, description, tree)?;
    Ok((is_same(&found, &plain), found.is_some()))
}

// The book's example, with the shortest names.
const EIGHT: &[u8] =
    b"%start s\n%term A=1 P=2 C=3 D=4 I=5\n%%\ns: A(a,r) \"\" 1\na: P \"\" 0\nr: a \"\" 1\nr: C \"\" 1\nc: C \"\" 0\nr: D(r,c) \"\" 1\nr: D(r,r) \"\" 1\nr: I(a) \"\" 1\n%%\nA(P,D(I(P),C))\n";

fn plain_node(op: u8, kids: Items<Plain>) -> Plain
    requires { length kids ≤ 2 }
    ensures { result ≡ tree_of op None kids }
{
    Plain { op, kids }
}

fn one<T: Drop>(alloc: Global, a: T) -> Result<Items<T>, Memory>
    ensures { IfOk result (λ l. l ≡ a ∷ []) }
{
    let mut list = Items::new(alloc);
    list.push(a)?;
    Ok(list)
}

fn two<T: Drop>(alloc: Global, a: T, b: T) -> Result<Items<T>, Memory>
    ensures { IfOk result (λ l. l ≡ a ∷ b ∷ []) }
{
    let mut list = one(alloc, a)?;
    list.push(b)?;
    Ok(list)
}

// A(P,D(I(P),C))
fn assignment(alloc: Global) -> Result<Plain, Memory>
    ensures { IfOk result (λ t. nodes t ≡ 6) }
{
    let address = plain_node(2, Items::new(alloc));
    let read = plain_node(5, one(alloc, plain_node(2, Items::new(alloc)))?);
    let sum = plain_node(4, two(alloc, read, plain_node(3, Items::new(alloc)))?);
    Ok(plain_node(1, two(alloc, address, sum)?))
}

#[test]
fn a_tree_of_plain_nodes(rt: HostRuntime) -> Result<(), Fail> {
    let alloc = rt.alloc();
    let description = read(alloc, EIGHT)?;
    let tree = assignment(alloc)?;
    let Some(found) = labelled_uncounted(alloc, &description, &tree)? else {
        return Err(Fail::from("no derivation"));
    };
    assert_eq!(rt; (found.cost, found.count), (3, 6));
    assert_eq!(rt; found.numbers.as_slice(), [1, 2, 6, 8, 2, 5].as_slice());
    assert_eq!(rt; compared(alloc, &description, &tree)?, (true, true));
    Ok(())
}

// C with a constant.
fn constant(alloc: Global, value: i64) -> TextTree
    ensures { result ≡ tree_of 2 (Some value) [] }
{
    TextTree::new(2, Some(value), Items::new(alloc))
}

// A over two constants.
fn pair(alloc: Global, first: i64, second: i64) -> Result<TextTree, Memory>
    ensures { IfOk result (λ t. nodes t ≡ 3) }
{
    let kids = two(alloc, constant(alloc, first), constant(alloc, second))?;
    Ok(TextTree::new(1, None, kids))
}

// A rule with a range beside a dearer one without, chain rules that tie by cost, and by count.
const RANGES: &[u8] =
    b"%term A=1 C=2 U=3\n%%\ns: t \"\"\nt: u \"\"\nu: A(c,c) \"\" 1\nt: A(c,c) \"\" 1\ns: A(c,d) \"\" 1\nc: C \"\" range(a,-4,4)\nc: C \"\" 3\nd: C \"\" range(a,9,4)\n";

#[test]
fn both_find_the_same(rt: HostRuntime) -> Result<(), Fail> {
    let alloc = rt.alloc();
    let description = read(alloc, RANGES)?;
    for (first, second) in [(4, 5), (-4, 0), (5, -5)] {
        let tree = pair(alloc, first, second)?;
        assert_eq!(rt; compared(alloc, &description, &tree)?, (true, true));
    }
    let alone = constant(alloc, 4);
    assert_eq!(rt; compared(alloc, &description, &alone)?, (true, false));
    Ok(())
}
