//! The keyword with which a line begins.
ghost use Rattle.std.specs.Prelude.{◌≡◌, ◌≢◌, ◌∷◌, IfSome, IfNone, Some};
ghost use Rattle.lburg_lines.specs.Tokens.{Keyword, views};
ghost use Rattle.lcc_text.specs.Stops.{next};

use lburg_lines::Token;

/// The keyword that is next, without its percent sign, and what stands behind it.
fn keyword_at<'t, 'a>(tokens: &'t [Token<'a>]) -> Option<(&'a [u8], &'t [Token<'a>])>
    ensures some { IfSome result (λ x. views tokens.now ≡ Keyword x.0.now ∷ views x.1.now) }
    ensures none { IfNone result ((name : _) → next (views tokens.now) ≢ Some (Keyword name)) }
{
    match tokens.split_first() {
        Some((Token::Directive(name), rest)) => Some((name, rest)),
        _ => None,
    }
}

/// What stands behind this keyword, if it is next.
pub(crate) fn after_keyword<'t, 'a>(
    tokens: &'t [Token<'a>],
    keyword: &[u8],
) -> Option<&'t [Token<'a>]>
    ensures some { IfSome result (λ rest. views tokens.now ≡ Keyword keyword.now ∷ views rest.now) }
    ensures none { IfNone result (next (views tokens.now) ≢ Some (Keyword keyword.now)) }
{
    match keyword_at(tokens) {
        Some((name, rest)) if name == keyword => Some(rest),
        Some(_) => None,
        None => None,
    }
}
