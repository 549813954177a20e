//! The lexer, which gives the tokens of a source one at a time.
ghost use Rattle.std.specs.Prelude.{◌≡◌, ◌<◌, ◌≤◌, length, IfOk, IfErr, IfSome, IfNone};
ghost use Rattle.c_lexer.specs.Tokens.{first_place, Cuts};

use crate::gap::skip_gaps;
use crate::lex_fault::LexFault;
use crate::place::Place;
use crate::read::read;
use crate::token::Token;
use std::marker::Model;

/// The tokens of a C source, one after the other. It takes no memory.
#[derive(Drop)]
pub struct Lexer<'a> {
    source: &'a [u8],
    place: Place,
}

impl<'a> Model for Lexer<'a> {
    ghost use Rattle.c_lexer.specs.Gaps.{IsPlace};
    ghost use Rattle.c_lexer.specs.LexerState.{LexerState};

    ghost Value = { LexerState };

    ghost view = { λ l. record { source = l.source.now; place = l.place } };

    ghost invariant = { λ l. IsPlace l.source.now l.place };
}

impl<'a> Lexer<'a> {
    /// A lexer at the first byte of the source, in line 1.
    pub fn new(source: &'a [u8]) -> Self
        requires { length source.now ≤ 16777216 }
        ensures { result ≡ record { source = source.now; place = first_place } }
    {
        Lexer {
            source,
            place: Place {
                offset: 0,
                line: 1,
                opens: true,
            },
        }
    }

    /// The next token; None at the end. A fault, where the source can't be cut here, is answered
    /// again by each later call. Source: C89 2.1.1.2 and 3.1.
    pub fn next(&mut self) -> Result<Option<Token>, LexFault>
        ensures source { self.new.source ≡ self.old.source }
        ensures cuts { Cuts self.old.source self.old.place result self.new.place }
        ensures fault_again { IfErr result (λ fault. self.new ≡ self.old) }
        ensures end_again { IfOk result (λ token. IfNone token (self.new ≡ self.old)) }
        ensures within { IfOk result (λ token. IfSome token (λ t. (t.start < t.end) × (t.end ≤ length self.old.source))) }
        ensures further { IfOk result (λ token. IfSome token (λ t. (self.old.place.offset < self.new.place.offset) × (self.new.place.offset ≤ length self.old.source))) }
    {
        let here = skip_gaps(self.source, self.place);
        match read(&self.source[here.offset..]) {
            Ok(Some((class, len))) => {
                let end = here.offset + len;
                self.place = Place {
                    offset: end,
                    line: here.line,
                    opens: false,
                };
                Ok(Some(Token {
                    class,
                    start: here.offset as u32,
                    end: end as u32,
                    line: here.line,
                }))
            }
            Ok(None) => Ok(None),
            Err(kind) => Err(LexFault {
                kind,
                line: here.line,
            }),
        }
    }
}
