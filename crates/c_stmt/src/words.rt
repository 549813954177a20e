//! What keywords begin in statements.
ghost use Rattle.std.specs.Prelude.{◌≡◌, None, IfSome, IfNone};
ghost use Rattle.c_readings.specs.Reading.{beyond};
ghost use Rattle.c_readings.specs.StatementReaders.{statement_word, word_at};
ghost use Rattle.c_expr.specs.State.{ahead};
ghost use Rattle.c_decl.specs.Going.{Goes};
ghost use Rattle.c_stmt.specs.Words.{seen_if_any};

use c_ast::{Class, keyword};
use c_decl::{first, take};
use c_expr::Parser;

/// What a keyword begins in statements.
#[derive(Clone, Copy, Debug, PartialEq, Eq)]
pub(crate) enum Word {
    Case,
    Default,
    If,
    Switch,
    While,
    Do,
    For,
    Goto,
    Continue,
    Break,
    Return,
}

/// What the keyword of this number begins in statements, if it begins anything there.
pub(crate) fn word_of(number: u8) -> Option<Word>
    ensures { seen_if_any result ≡ statement_word number }
{
    match number {
        keyword::BREAK => Some(Word::Break),
        keyword::CASE => Some(Word::Case),
        keyword::CONTINUE => Some(Word::Continue),
        keyword::DEFAULT => Some(Word::Default),
        keyword::DO => Some(Word::Do),
        keyword::FOR => Some(Word::For),
        keyword::GOTO => Some(Word::Goto),
        keyword::IF => Some(Word::If),
        keyword::RETURN => Some(Word::Return),
        keyword::SWITCH => Some(Word::Switch),
        keyword::WHILE => Some(Word::While),
        _ => None,
    }
}

/// Takes the keyword that is next, if it begins a statement, and tells which.
pub(crate) fn takes_word(p: &mut Parser) -> Option<Word>
    requires sound { p.old.fault ≡ None }
    ensures next { seen_if_any result ≡ word_at (ahead p.old).rest }
    ensures beyond { IfSome result (λ w. ahead p.new ≡ beyond (ahead p.old)) }
    ensures going { IfSome result (λ w. Goes 1 p.old p.new) }
    ensures left { IfNone result (p.new ≡ p.old) }
{
    let Class::Keyword(number) = first(p)?.class else {
        return None;
    };
    let word = word_of(number)?;
    take(p);
    Some(word)
}
