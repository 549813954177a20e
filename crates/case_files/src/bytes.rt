//! The lines of a case file that stand for bytes.
ghost use Rattle.std.specs.Prelude.{◌≡◌, ◌<◌, ◌++◌, ℕ, IfSome, IfNone, OnOk};
ghost use Rattle.case_files.specs.Hexadecimal.{IsDigitOf, IsPairOf};
ghost use Rattle.case_files.specs.Repetition.{repeated, numbered};

use crate::fault::CaseFault;
use std::alloc::Global;

/// A text with a name, which lines behind it stand for.
#[derive(Drop)]
pub struct NamedText {
    pub name: String,
    pub bytes: Vec<u8>,
}

/// The value of a hexadecimal digit, of either case.
fn digit_value(digit: u8) -> Option<u8>
    ensures some { IfSome result (λ value. IsDigitOf digit value) }
    ensures below { IfSome result (λ value. value < 16) }
    ensures none { IfNone result ((value : ℕ) → IsDigitOf digit value → ⊥) }
{
    match digit {
        b'0'..=b'9' => Some(digit - b'0'),
        b'A'..=b'F' => Some(digit - b'A' + 10),
        b'a'..=b'f' => Some(digit - b'a' + 10),
        _ => None,
    }
}

/// The byte that two hexadecimal digits write.
fn byte_of(pair: &[u8]) -> Option<u8>
    ensures { IfSome result (λ byte. IsPairOf pair.now byte) }
{
    let [high, low] = pair else {
        return None;
    };
    Some(digit_value(*high)? * 16 + digit_value(*low)?)
}

/// Adds the bytes that pairs of hexadecimal digits write, with blanks between the pairs.
fn add_hexadecimal(pairs: &str, into: &mut Vec<u8>) -> Result<(), CaseFault> {
    for pair in pairs.split_whitespace() {
        let Some(byte) = byte_of(pair.as_bytes()) else {
            return Err(CaseFault::BadBytes);
        };
        into.push(byte)?;
    }
    Ok(())
}

/// Adds the bytes of the text with this name.
fn add_named(texts: &[NamedText], name: &str, into: &mut Vec<u8>) -> Result<(), CaseFault> {
    for text in texts {
        if text.name.as_str() == name {
            into.extend_from_slice(&text.bytes)?;
            return Ok(());
        }
    }
    Err(CaseFault::UnknownText)
}

/// Adds the bytes of a line without a count: `|TEXT` with a line feed, `>TEXT` without one, bytes
/// in hexadecimal behind `%`, and a text by its name behind `@`.
fn add_plain(texts: &[NamedText], line: &str, into: &mut Vec<u8>) -> Result<(), CaseFault> {
    if let Some(text) = line.strip_prefix('|') {
        into.extend_from_slice(text.as_bytes())?;
        into.push(b'\n')?;
        return Ok(());
    }
    if let Some(text) = line.strip_prefix('>') {
        into.extend_from_slice(text.as_bytes())?;
        return Ok(());
    }
    if let Some(pairs) = line.strip_prefix('%') {
        return add_hexadecimal(pairs, into);
    }
    if let Some(name) = line.strip_prefix('@') {
        return add_named(texts, name, into);
    }
    Err(CaseFault::UnknownLine)
}

/// A count, and the line behind it.
#[derive(Clone, Copy)]
struct Counted<'a> {
    count: u32,
    line: &'a str,
}

/// Cuts decimal digits off the front of a line.
fn cut_count(line: &str) -> Result<Counted<'_>, CaseFault> {
    let Some(end) = line.find(|c: char| !c.is_ascii_digit()) else {
        return Err(CaseFault::UnknownLine);
    };
    let (digits, rest) = line.split_at(end);
    match digits.parse::<u32>() {
        Ok(count) => Ok(Counted { count, line: rest }),
        Err(_) => Err(CaseFault::BadNumber),
    }
}

/// Adds a piece so often, one behind another.
fn add_repeated(piece: &[u8], count: u32, into: &mut Vec<u8>) -> Result<(), CaseFault>
    ensures { OnOk result (into.new.items ≡ into.old.items ++ repeated count piece.now) }
{
    for _ in 0..count {
        into.extend_from_slice(piece)?;
    }
    Ok(())
}

/// Adds a piece with these digits in place of each `#`.
fn add_numbered(piece: &[u8], digits: &[u8], into: &mut Vec<u8>) -> Result<(), CaseFault>
    ensures { OnOk result (into.new.items ≡ into.old.items ++ numbered digits.now piece.now) }
{
    for byte in piece {
        if *byte == b'#' {
            into.extend_from_slice(digits)?;
        } else {
            into.push(*byte)?;
        }
    }
    Ok(())
}

/// The bytes that a line stands for: those of a line without a count; so often as the number behind
/// `*` says those of the line behind it; and the same behind `+`, with the number of the
/// repetition, from 1, in place of each `#`.
pub fn bytes_of(alloc: Global, texts: &[NamedText], line: &str) -> Result<Vec<u8>, CaseFault> {
    let mut bytes = Vec::new(alloc);
    let mut piece = Vec::new(alloc);
    if let Some(rest) = line.strip_prefix('*') {
        let counted = cut_count(rest)?;
        add_plain(texts, counted.line, &mut piece)?;
        add_repeated(&piece, counted.count, &mut bytes)?;
        return Ok(bytes);
    }
    if let Some(rest) = line.strip_prefix('+') {
        let counted = cut_count(rest)?;
        add_plain(texts, counted.line, &mut piece)?;
        for i in 0..counted.count {
            let digits = (i + 1).to_string(alloc)?;
            add_numbered(&piece, digits.as_bytes(), &mut bytes)?;
        }
        return Ok(bytes);
    }
    add_plain(texts, line, &mut bytes)?;
    Ok(bytes)
}
