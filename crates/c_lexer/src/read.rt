//! One token read at the front of the bytes: its class and its length.
ghost use Rattle.std.specs.Prelude.{◌≡◌, ◌≤◌, ◌<◌, length, MatchOption, IfOk};
ghost use Rattle.c_lexer.specs.declared.start.Start.TheVariants.{Word, Constant, Character, Text, Sign};
ghost use Rattle.lcc_text.specs.declared.class.Class.TheVariants.{Name as NameBytes};
ghost use Rattle.lcc_text.specs.Classes.{in_class, StartsIn};
ghost use Rattle.c_lexer.specs.declared.class.LexClass.TheVariants.{Constant as ConstantBytes};
ghost use Rattle.c_lexer.specs.Classes.{in_lex};
ghost use Rattle.c_lexer.specs.Readings.{word_of, number_of, sign_or_fault, ReadsFrom, Reads, IsOfLength};

use crate::class::LexClass;
use crate::constant::constant_of;
use crate::lex_fault::LexFaultKind;
use crate::quoted::{Quoted, characters, read_quoted};
use crate::run::split_run;
use crate::sign::longest_sign;
use crate::start::{Start, start_of};
use c_ast::{Class, keyword_number};
use lcc_text::Class as TextClass;

/// A class and a length, nothing at the end, or a fault.
type Reading = Result<Option<(Class, usize)>, LexFaultKind>;

/// The name or the keyword at the front.
fn word(bytes: &[u8]) -> Reading
    requires { StartsIn (in_class NameBytes) bytes.now }
    ensures reads { ReadsFrom Word bytes.now result }
    ensures within { IsOfLength result (length bytes.now) }
{
    let (word, _) = split_run(TextClass::Name, bytes);
    let class = match keyword_number(word) {
        Some(number) => Class::Keyword(number),
        None => Class::Name,
    };
    Ok(Some((class, word.len())))
}

/// The number at the front.
fn number(bytes: &[u8]) -> Reading
    requires { StartsIn (in_lex ConstantBytes) bytes.now }
    ensures reads { ReadsFrom Constant bytes.now result }
    ensures within { IsOfLength result (length bytes.now) }
{
    let (text, _) = split_run(LexClass::Constant, bytes);
    let class = constant_of(text)?;
    Ok(Some((class, text.len())))
}

/// The character constant at the front.
fn character(bytes: &[u8]) -> Reading
    requires some { 1 ≤ length bytes.now }
    requires short { length bytes.now ≤ 16777216 }
    ensures reads { ReadsFrom Character bytes.now result }
    ensures within { IsOfLength result (length bytes.now) }
{
    let behind = &bytes[1..];
    let (count, len) = characters(b'\'', behind)?;
    match read_quoted(b'\'', behind) {
        Quoted::Character { value, .. } if count == 1 => {
            Ok(Some((Class::Character(i32::from(value.cast_signed())), len + 2)))
        }
        _ => Err(LexFaultKind::BadConstant),
    }
}

/// The string literal at the front.
fn text(bytes: &[u8]) -> Reading
    requires some { 1 ≤ length bytes.now }
    requires short { length bytes.now ≤ 16777216 }
    ensures reads { ReadsFrom Text bytes.now result }
    ensures within { IsOfLength result (length bytes.now) }
{
    let (_, len) = characters(b'"', &bytes[1..])?;
    Ok(Some((Class::Text, len + 2)))
}

/// The sign at the front.
fn sign(bytes: &[u8]) -> Reading
    ensures reads { ReadsFrom Sign bytes.now result }
    ensures within { IsOfLength result (length bytes.now) }
{
    match longest_sign(bytes) {
        Some((number, len)) => Ok(Some((Class::Sign(number), len))),
        None => Err(LexFaultKind::BadByte),
    }
}

/// The token at the front, if any byte is left.
#[tactic(auto, using(crate::proofs::Starts::starts_word, crate::proofs::Starts::starts_number))]
pub(crate) fn read(bytes: &[u8]) -> Reading
    requires { length bytes.now ≤ 16777216 }
    ensures reads { Reads bytes.now result }
    ensures within { IsOfLength result (length bytes.now) }
{
    match start_of(bytes) {
        Start::End => Ok(None),
        Start::Constant => number(bytes),
        Start::Wide => Err(LexFaultKind::WideConstant),
        Start::Word => word(bytes),
        Start::Character => character(bytes),
        Start::Text => text(bytes),
        Start::Comment => Err(LexFaultKind::OpenComment),
        Start::Sign => sign(bytes),
    }
}
