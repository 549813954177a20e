//! Labels at the front of a line: a name and a colon.
ghost use Rattle.std.specs.Prelude.{List, ℕ, IfSome, IfNone, drop};
ghost use Rattle.asm_lines.specs.Tokens.{Spaced, views};
ghost use Rattle.asm_lines.specs.Statements.{IsLabelled};

use crate::token::{Kind, Token};

/// The name of the label that stands first, a name and a colon: two tokens.
pub fn label_at<'a>(tokens: &[Token<'a>]) -> Option<&'a [u8]>
    ensures some { IfSome result (λ name. IsLabelled (views tokens.now) name.now (views (drop 2 tokens.now))) }
    ensures none { IfNone result ((name : List ℕ) (rest : List Spaced) → IsLabelled (views tokens.now) name rest → ⊥) }
{
    match tokens {
        [name, colon, ..] => {
            if name.kind == Kind::Word && colon.kind == Kind::Colon {
                Some(name.text)
            } else {
                None
            }
        }
        _ => None,
    }
}
