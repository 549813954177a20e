//! The trees of expressions of the first form, and of the address of `putchar`.
ghost use Rattle.std.specs.Prelude.{◌≡◌, ◌∷◌, [], IfOk};
ghost use Rattle.op_forest.specs.Nodes.{Leaf, One, Two};
ghost use Rattle.first_form.specs.Expression.{expression_of};
ghost use Rattle.first_forest.specs.FirstForest.{expression_node, int_head, constant_head, op_for, putchar_node};

use first_form::{Expression, Operator};
use lcc_base::{Items, Memory};
use op_forest::{Op, Operator as TreeOperator, Suffix, Sym, Tree};
use std::alloc::Global;

/// The operator of a sign between two operands.
fn op_for(sign: Operator) -> Op
    ensures { result ≡ op_for sign }
{
    match sign {
        Operator::Add => Op::Add,
        Operator::Subtract => Op::Sub,
        Operator::Multiply => Op::Mul,
    }
}

/// A number as a tree, without an allocation.
fn constant_tree(alloc: Global, number: u32) -> Tree
    ensures { result ≡ Leaf (constant_head number) }
{
    let operator = TreeOperator {
        op: Op::Cnst,
        suffix: Suffix::I,
    };
    let value = i64::from(number);
    Tree::new(operator, Sym::Nothing, Some(value), Items::new(alloc))
}

/// The address of `putchar` as a tree, without an allocation.
pub(crate) fn putchar_tree(alloc: Global) -> Tree
    ensures { result ≡ putchar_node }
{
    let operator = TreeOperator {
        op: Op::Addrg,
        suffix: Suffix::P,
    };
    let sym = Sym::Global { name: 1, offset: 0 };
    Tree::new(operator, sym, None, Items::new(alloc))
}

/// An operator of ints over one operand.
pub(crate) fn over_one(alloc: Global, op: Op, a: Tree) -> Result<Tree, Memory>
    ensures { IfOk result (λ t. t ≡ One (int_head op) a) }
{
    let mut kids = Items::with_capacity(alloc, 1)?;
    kids.push(a)?;
    let operator = TreeOperator {
        op,
        suffix: Suffix::I,
    };
    Ok(Tree::new(operator, Sym::Nothing, None, kids))
}

/// An operator of ints over two operands.
fn over_two(alloc: Global, op: Op, a: Tree, b: Tree) -> Result<Tree, Memory>
    ensures { IfOk result (λ t. t ≡ Two (int_head op) a b) }
{
    let mut kids = Items::with_capacity(alloc, 2)?;
    kids.push(a)?;
    kids.push(b)?;
    let operator = TreeOperator {
        op,
        suffix: Suffix::I,
    };
    Ok(Tree::new(operator, Sym::Nothing, None, kids))
}

/// An expression as a tree.
pub(crate) fn expression_tree(alloc: Global, expression: &Expression) -> Result<Tree, Memory>
    ensures { IfOk result (λ t. t ≡ expression_node (expression_of expression.now)) }
{
    match expression {
        Expression::Number(number) => Ok(constant_tree(alloc, *number)),
        Expression::Negate(e) => {
            let a = expression_tree(alloc, e)?;
            over_one(alloc, Op::Neg, a)
        }
        Expression::Binary(sign, e, f) => {
            let a = expression_tree(alloc, e)?;
            let b = expression_tree(alloc, f)?;
            over_two(alloc, op_for(*sign), a, b)
        }
        Expression::Parentheses(e) => expression_tree(alloc, e),
    }
}
