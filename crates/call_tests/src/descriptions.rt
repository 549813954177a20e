//! Descriptions printed and read back, trees of a tail, and a derivation's rules.
ghost use Rattle.std.specs.Prelude.{◌≤◌, length};

use lburg_grammar::{TextTree, TreeNode, print, read, read_trees};
use lburg_model::Derivation;
use lcc_base::{Items, Memory};
use std::alloc::Global;
use std::test::Fail;

/// A description as it is printed.
fn printed(alloc: Global, text: &[u8]) -> Result<Vec<u8>, Fail>
    requires { length text.now ≤ 16777216 }
{
    let d = read(alloc, text)?;
    let printed = print(alloc, &d)?;
    Ok(printed.as_slice().to_vec(alloc)?)
}

#[test]
fn descriptions_are_printed(rt: HostRuntime) -> Result<(), Fail> {
    let text =
        b"%{\nx\n%}\n%term A = 007 B=2\n%start t\n%%\ns : A ( A ( t , B ) , B ) \"\\n%0\" \nt:s\"\"range ( a , -0, 4294967295 )\n%%\nB\n";
    let want =
        b"%start t\n%term A=7\n%term B=2\n%%\ns: A(A(t,B),B) \"\\n%0\" 0\nt: s \"\" range(a,0,4294967295)\n";
    assert_eq!(rt; printed(rt.alloc(), text)?.as_slice(), want.as_slice());
    assert_eq!(rt; printed(rt.alloc(), want)?.as_slice(), want.as_slice());
    Ok(())
}

/// The trees in a text's tail.
fn trees(alloc: Global, text: &[u8]) -> Result<Items<TextTree>, Fail>
    requires { length text.now ≤ 16777216 }
{
    let d = read(alloc, text)?;
    Ok(read_trees(alloc, &d, text)?)
}

/// A tree's operator, constant and number of operands.
fn head<N: TreeNode>(tree: &N) -> (u16, Option<i64>, usize) {
    (tree.op(), tree.value(), tree.arity())
}

#[test]
fn trees_are_read(rt: HostRuntime) -> Result<(), Fail> {
    let text =
        b"%term A=1 B=2 C=3\n%%\ns: A(s,s) \"\"\ns: B(s) \"\"\ns: C \"\"\n%%\n\nC[-2147483648]\n \t\nA(B[4294967295](C),C[0])\n";
    let trees = trees(rt.alloc(), text)?;
    let [first, second] = trees.as_slice() else {
        return Err(Fail::from("two trees"));
    };
    assert_eq!(rt; head(first), (3, Some(-2_147_483_648), 0));
    assert_eq!(rt; head(second), (1, None, 2));
    if second.arity() != 2 {
        return Err(Fail::from("two operands"));
    }
    assert_eq!(rt; head(second.kid(0)), (2, Some(4_294_967_295), 1));
    assert_eq!(rt; head(second.kid(1)), (3, Some(0), 0));
    Ok(())
}

/// A rule over two parts.
fn over(
    alloc: Global,
    rule: u16,
    first: Derivation,
    second: Derivation,
) -> Result<Derivation, Memory> {
    let mut parts = Items::new(alloc);
    parts.push(first)?;
    parts.push(second)?;
    Ok(Derivation { rule, parts })
}

/// A rule over nothing.
fn alone(alloc: Global, rule: u16) -> Derivation {
    Derivation {
        rule,
        parts: Items::new(alloc),
    }
}

#[test]
fn rules_stand_in_preorder(rt: HostRuntime) -> Result<(), Fail> {
    let alloc = rt.alloc();
    let first = over(alloc, 7, alone(alloc, 2), alone(alloc, 3))?;
    let whole = over(alloc, 1, first, alone(alloc, 4))?;
    let numbers = whole.numbers(alloc)?;
    assert_eq!(rt; numbers.as_slice(), [1, 7, 2, 3, 4].as_slice());
    Ok(())
}
