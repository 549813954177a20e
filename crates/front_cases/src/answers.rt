//! What is told of a source, by what is asked.
ghost use Rattle.std.specs.Prelude.{◌≤◌, length};

use crate::case::Question;
use crate::checking::{tell_checked, tell_linked};
use crate::pieces::{tell_piece, tell_printed, tell_unit};
use crate::tokens::tell_tokens;
use crate::units::tell_checked_unit;
use std::alloc::{AllocError, Global};

/// The longest source, in bytes.
const LONGEST: usize = 16_777_216;

/// What is told of a source that is short enough.
fn answer_short(alloc: Global, question: Question, source: &[u8]) -> Result<String, AllocError>
    requires { length source.now ≤ 16777216 }
{
    match question {
        Question::Tokens => tell_tokens(alloc, source),
        Question::Piece(production) => tell_piece(alloc, production, source),
        Question::Unit => tell_unit(alloc, source),
        Question::Printed => tell_printed(alloc, source),
        Question::CheckedUnit => tell_checked_unit(alloc, source),
        Question::Checked => tell_checked(alloc, source),
        Question::Linked => tell_linked(alloc, source),
    }
}

/// What is told of a source.
pub fn answer(alloc: Global, question: Question, source: &[u8]) -> Result<Vec<u8>, AllocError> {
    let told = if source.len() <= LONGEST {
        answer_short(alloc, question, source)?
    } else {
        String::from_str(alloc, "too long")?
    };
    Ok(told.into_bytes())
}
