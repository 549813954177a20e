//! Readers of the token that is next.
ghost use Rattle.std.specs.Prelude.{◌≡◌, ◌≢◌, ◌<◌, ◌∷◌, length, IfOk, IfErr, Some, None, []};
ghost use Rattle.lburg_lines.specs.declared.read_error.ReadError.TheVariants.{Stuck};
ghost use Rattle.lburg_lines.specs.Tokens.{Word, Mark, Template, Number, Keyword, Bound, views};
ghost use Rattle.lburg_lines.specs.Numbers.{MNumber, IsNumber, number_token, written};
ghost use Rattle.lcc_text.specs.Stops.{next};

use crate::number::SignedNumber;
use crate::read_error::ReadError;
use crate::token::{Border, Sign, Token};

/// What stands behind the sign, which is next.
pub fn after_sign<'t, 'a>(tokens: &'t [Token<'a>], sign: Sign) -> Result<&'t [Token<'a>], ReadError>
    ensures ok { IfOk result (λ rest. views tokens.now ≡ Mark sign ∷ views rest.now) }
    ensures shorter { IfOk result (λ rest. length rest.now < length tokens.now) }
    ensures err { IfErr result (λ e. e ≡ Stuck (length (views tokens.now))) }
    ensures no { IfErr result (λ e. next (views tokens.now) ≢ Some (Mark sign)) }
{
    match tokens.split_first() {
        Some((Token::Sign(other), rest)) if *other == sign => Ok(rest),
        _ => Err(ReadError::Stuck(tokens.len())),
    }
}

/// The keyword that is next, without its percent sign, and what stands behind it.
fn keyword_at<'t, 'a>(tokens: &'t [Token<'a>]) -> Result<(&'a [u8], &'t [Token<'a>]), ReadError>
    ensures ok { IfOk result (λ x. views tokens.now ≡ Keyword x.0.now ∷ views x.1.now) }
    ensures shorter { IfOk result (λ x. length x.1.now < length tokens.now) }
    ensures err { IfErr result (λ e. e ≡ Stuck (length (views tokens.now))) }
    ensures no { IfErr result (λ e. (name : _) → next (views tokens.now) ≢ Some (Keyword name)) }
{
    match tokens.split_first() {
        Some((Token::Directive(name), rest)) => Ok((name, rest)),
        _ => Err(ReadError::Stuck(tokens.len())),
    }
}

/// What stands behind this keyword, which is next.
pub(crate) fn after_keyword<'t, 'a>(
    tokens: &'t [Token<'a>],
    keyword: &[u8],
) -> Result<&'t [Token<'a>], ReadError>
    ensures ok { IfOk result (λ rest. views tokens.now ≡ Keyword keyword.now ∷ views rest.now) }
    ensures shorter { IfOk result (λ rest. length rest.now < length tokens.now) }
    ensures err { IfErr result (λ e. e ≡ Stuck (length (views tokens.now))) }
    ensures no { IfErr result (λ e. next (views tokens.now) ≢ Some (Keyword keyword.now)) }
{
    match keyword_at(tokens) {
        Ok((name, rest)) if name == keyword => Ok(rest),
        Ok(_) => Err(ReadError::Stuck(tokens.len())),
        Err(_) => Err(ReadError::Stuck(tokens.len())),
    }
}

/// The name that is next, and what stands behind it.
pub fn name_at<'t, 'a>(tokens: &'t [Token<'a>]) -> Result<(&'a [u8], &'t [Token<'a>]), ReadError>
    ensures ok { IfOk result (λ x. views tokens.now ≡ Word x.0.now ∷ views x.1.now) }
    ensures shorter { IfOk result (λ x. length x.1.now < length tokens.now) }
    ensures err { IfErr result (λ e. e ≡ Stuck (length (views tokens.now))) }
    ensures no { IfErr result (λ e. (name : _) → next (views tokens.now) ≢ Some (Word name)) }
{
    match tokens.split_first() {
        Some((Token::Name(name), rest)) => Ok((name, rest)),
        _ => Err(ReadError::Stuck(tokens.len())),
    }
}

/// The template that is next, and what stands behind it.
pub(crate) fn template_at<'t, 'a>(
    tokens: &'t [Token<'a>],
) -> Result<(&'a [u8], &'t [Token<'a>]), ReadError>
    ensures ok { IfOk result (λ x. views tokens.now ≡ Template x.0.now ∷ views x.1.now) }
    ensures shorter { IfOk result (λ x. length x.1.now < length tokens.now) }
    ensures err { IfErr result (λ e. e ≡ Stuck (length (views tokens.now))) }
    ensures no { IfErr result (λ e. (bytes : _) → next (views tokens.now) ≢ Some (Template bytes)) }
{
    match tokens.split_first() {
        Some((Token::Text(bytes), rest)) => Ok((bytes, rest)),
        _ => Err(ReadError::Stuck(tokens.len())),
    }
}

/// The number that is next, and what stands behind it.
pub(crate) fn digits_at<'t, 'a>(
    tokens: &'t [Token<'a>],
) -> Result<(&'a [u8], &'t [Token<'a>]), ReadError>
    ensures ok { IfOk result (λ x. views tokens.now ≡ Number x.0.now ∷ views x.1.now) }
    ensures shorter { IfOk result (λ x. length x.1.now < length tokens.now) }
    ensures err { IfErr result (λ e. e ≡ Stuck (length (views tokens.now))) }
    ensures no { IfErr result (λ e. (digits : _) → next (views tokens.now) ≢ Some (Number digits)) }
{
    match tokens.split_first() {
        Some((Token::Digits(digits), rest)) => Ok((digits, rest)),
        _ => Err(ReadError::Stuck(tokens.len())),
    }
}

/// The border that is next, and what stands behind it.
pub(crate) fn after_border<'t, 'a>(
    tokens: &'t [Token<'a>],
    border: Border,
) -> Result<&'t [Token<'a>], ReadError>
    ensures ok { IfOk result (λ rest. views tokens.now ≡ Bound border ∷ views rest.now) }
    ensures shorter { IfOk result (λ rest. length rest.now < length tokens.now) }
    ensures err { IfErr result (λ e. e ≡ Stuck (length (views tokens.now))) }
    ensures no { IfErr result (λ e. next (views tokens.now) ≢ Some (Bound border)) }
{
    match tokens.split_first() {
        Some((Token::Border(other), rest)) if *other == border => Ok(rest),
        _ => Err(ReadError::Stuck(tokens.len())),
    }
}

/// What stands behind this name, which is next.
pub(crate) fn after_name<'t, 'a>(
    tokens: &'t [Token<'a>],
    name: &[u8],
) -> Result<&'t [Token<'a>], ReadError>
    ensures ok { IfOk result (λ rest. views tokens.now ≡ Word name.now ∷ views rest.now) }
    ensures shorter { IfOk result (λ rest. length rest.now < length tokens.now) }
    ensures err { IfErr result (λ e. e ≡ Stuck (length (views tokens.now))) }
    ensures no { IfErr result (λ e. next (views tokens.now) ≢ Some (Word name.now)) }
{
    match name_at(tokens) {
        Ok((other, rest)) if other == name => Ok(rest),
        Ok(_) => Err(ReadError::Stuck(tokens.len())),
        Err(_) => Err(ReadError::Stuck(tokens.len())),
    }
}

/// The number that is next, of any size.
fn signed_at<'t, 'a>(
    tokens: &'t [Token<'a>],
) -> Result<(SignedNumber<'a>, &'t [Token<'a>]), ReadError>
    ensures ok { IfOk result (λ x. views tokens.now ≡ number_token (written x.0) ∷ views x.1.now) }
    ensures shorter { IfOk result (λ x. length x.1.now < length tokens.now) }
    ensures err { IfErr result (λ e. e ≡ Stuck (length (views tokens.now))) }
    ensures no { IfErr result (λ e. (number : MNumber) → next (views tokens.now) ≢ Some (number_token number)) }
{
    match tokens.split_first() {
        Some((Token::Digits(digits), rest)) => Ok((SignedNumber::Plain(digits), rest)),
        Some((Token::Negative(digits), rest)) => Ok((SignedNumber::Minus(digits), rest)),
        _ => Err(ReadError::Stuck(tokens.len())),
    }
}

/// The number that is next, from -2,147,483,648 to 4,294,967,295, and what stands behind it.
pub fn number_at<'t, 'a>(
    tokens: &'t [Token<'a>],
) -> Result<(SignedNumber<'a>, &'t [Token<'a>]), ReadError>
    ensures ok { IfOk result (λ x. views tokens.now ≡ number_token (written x.0) ∷ views x.1.now) }
    ensures is { IfOk result (λ x. IsNumber (written x.0)) }
    ensures shorter { IfOk result (λ x. length x.1.now < length tokens.now) }
    ensures err { IfErr result (λ e. e ≡ Stuck (length (views tokens.now))) }
    ensures no { IfErr result (λ e. (number : MNumber) → IsNumber number → next (views tokens.now) ≢ Some (number_token number)) }
{
    let (number, rest) = signed_at(tokens)?;
    match number.value() {
        Some(_) => Ok((number, rest)),
        None => Err(ReadError::Stuck(tokens.len())),
    }
}

/// The line ends here.
pub fn end_of(tokens: &[Token]) -> Result<(), ReadError>
    ensures ok { IfOk result (λ _. views tokens.now ≡ []) }
    ensures err { IfErr result (λ e. e ≡ Stuck (length (views tokens.now))) }
    ensures no { IfErr result (λ e. next (views tokens.now) ≢ None) }
{
    match tokens.split_first() {
        None => Ok(()),
        Some(_) => Err(ReadError::Stuck(tokens.len())),
    }
}
