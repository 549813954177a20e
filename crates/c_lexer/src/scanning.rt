//! A scan of a whole source, which counts its tokens up to the first fault.
ghost use Rattle.std.specs.Prelude.{◌≡◌, ◌≤◌, List, length};
ghost use Rattle.c_lexer.specs.declared.token.Token.{Token as Tokens};
ghost use Rattle.c_lexer.specs.Tokens.{first_place, AreTokens};

use crate::lex_fault::LexFault;
use crate::lexer::Lexer;

/// How many tokens the source has, and the fault behind them, if there is one.
pub fn scan(source: &[u8]) -> (u32, Option<LexFault>)
    requires { length source.now ≤ 16777216 }
    ensures { (ts : List Tokens) × AreTokens source.now first_place ts result.1 × (length ts ≡ result.0) }
{
    let mut lexer = Lexer::new(source);
    let mut count = 0;
    loop {
        match lexer.next() {
            Ok(Some(_)) => count += 1,
            Ok(None) => return (count, None),
            Err(fault) => return (count, Some(fault)),
        }
    }
}
