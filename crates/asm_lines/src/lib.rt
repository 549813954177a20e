//! The lines of MIPS assembly: their tokens, labels, directives and instructions, and what a line breaks that has none in
//! its section. Names that are read are slices of the text.
#![tactic(auto)]

mod address_reader;
mod class;
mod directive_reader;
mod fault;
mod instruction;
mod instruction_reader;
mod item_reader;
mod labels;
mod laws;
mod lexing;
mod mnemonic;
mod number_reader;
mod operand_reader;
mod operator;
mod printing;
mod register;
mod section;
mod statement;
mod statement_reader;
mod token;

pub use fault::StatementFault;
pub use instruction::{Address, Instruction, Target, Value};
pub use labels::label_at;
pub use laws::{one_spelling, one_statement};
pub use lexing::add_tokens;
pub use mnemonic::{DirectiveWord, Mnemonic, directive_word, mnemonic_word};
pub use operator::{BinaryOp, Condition, LoadOp, StoreOp, UnaryOp};
pub use printing::{print_bytes, print_halves, print_label, print_statement, print_words};
pub use register::Register;
pub use section::Section;
pub use statement::{Item, Statement};
pub use statement_reader::read_statement;
pub use token::{Kind, Token};
