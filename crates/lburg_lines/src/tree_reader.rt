//! The parser of trees and patterns, and that no tokens begin with two trees.
ghost use Rattle.std.specs.Prelude.{◌≡◌, ◌<◌, ◌∷◌, List, length, IfOk, IfErr};
ghost use Rattle.lburg_lines.specs.declared.token.Sign.TheVariants.{Open};
ghost use Rattle.lburg_lines.specs.Tokens.{Tok as Toks, Word, Mark, views};
ghost use Rattle.lburg_lines.specs.NamedTree.{MNamed, named_of, tree_then};
ghost use Rattle.lburg_lines.specs.Readings.{Ends, TreeFault};

use crate::named_tree::NamedTree;
use crate::read_error::ReadError;
use crate::readers::{after_sign, name_at};
use crate::token::{Sign, Token};
use std::alloc::Global;

/// The tree that is next, and what stands behind it. It is called as deep as the tree's
/// parentheses nest, so a caller looks first that they don't nest too deep.
#[cycle(tree)]
pub fn tree_at<'t, 'a>(
    alloc: Global,
    tokens: &'t [Token<'a>],
) -> Result<(NamedTree<'a>, &'t [Token<'a>]), ReadError>
    ensures shorter { IfOk result (λ x. length x.1.now < length tokens.now) }
    ensures ok { IfOk result (λ x. views tokens.now ≡ tree_then (named_of x.0) (views x.1.now)) }
    ensures ends { IfOk result (λ x. Ends (named_of x.0) (views x.1.now)) }
    ensures stuck { IfErr result (λ e. TreeFault e (views tokens.now)) }
{
    match name_at(tokens) {
        Err(_) => Err(ReadError::Stuck(tokens.len())),
        Ok((name, rest)) => match after_sign(rest, Sign::Open) {
            Err(_) => Ok((NamedTree::Leaf(name), rest)),
            Ok(rest) => operands(alloc, name, rest),
        },
    }
}

/// The tree whose name and parenthesis were read.
#[cycle(tree)]
fn operands<'t, 'a>(
    alloc: Global,
    name: &'a [u8],
    tokens: &'t [Token<'a>],
) -> Result<(NamedTree<'a>, &'t [Token<'a>]), ReadError>
    ensures shorter { IfOk result (λ x. length x.1.now < length tokens.now) }
    ensures ok { IfOk result (λ x. Word name.now ∷ (Mark Open ∷ views tokens.now) ≡ tree_then (named_of x.0) (views x.1.now)) }
    ensures ends { IfOk result (λ x. Ends (named_of x.0) (views x.1.now)) }
    ensures stuck { IfErr result (λ e. TreeFault e (Word name.now ∷ (Mark Open ∷ views tokens.now))) }
{
    let (first, rest) = tree_at(alloc, tokens)?;
    match after_sign(rest, Sign::Comma) {
        Err(_) => {
            let rest = after_sign(rest, Sign::Close)?;
            let first = Box::new(alloc, first)?;
            Ok((NamedTree::Unary(name, first), rest))
        }
        Ok(rest) => {
            let (second, rest) = tree_at(alloc, rest)?;
            let rest = after_sign(rest, Sign::Close)?;
            let first = Box::new(alloc, first)?;
            let second = Box::new(alloc, second)?;
            Ok((NamedTree::Binary(name, first, second), rest))
        }
    }
}

/// At a place at most one tree stands, and it ends at one place.
pub fn one_tree()
    ensures { (a b : MNamed) (x y : List Toks) → Ends a x → Ends b y → tree_then a x ≡ tree_then b y → (a ≡ b) × (x ≡ y) }
{}
