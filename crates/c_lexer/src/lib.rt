//! C's tokens: a source is cut from the left into blanks, comments, control lines and tokens.
#![tactic(auto)]

mod class;
mod comment;
mod constant;
mod control;
mod gap;
mod integer;
mod laws;
mod lex_fault;
mod lexer;
mod literal;
mod number;
mod place;
mod quoted;
mod read;
mod run;
mod scanning;
mod sign;
mod start;
mod token;

pub use laws::{
    longest, one_cut, one_lexing, one_list, one_source_unit, one_text, placed_tokens,
    printed_tokens,
};
pub use lex_fault::{LexFault, LexFaultKind};
pub use lexer::Lexer;
pub use literal::text_values;
pub use place::Place;
pub use scanning::scan;
pub use token::{Token, bytes_of};
