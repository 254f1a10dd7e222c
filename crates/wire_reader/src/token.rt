//! Tokens: brackets, texts and numbers.

ghost use Rattle.std.specs.Prelude.{◌≡◌, ℕ, ◌<◌, ◌==◌, ◌&&◌, Some, None, if◌then◌else◌, nat_le, IfSome, IsTrue, length, option_and_then, option_map, slice_index};
ghost use Rattle.std.specs.Str.Parse.{digits_value, IsNumeral};
ghost use Rattle.json.specs.Json.{after_end_array};
ghost use Rattle.json.specs.Reads.{token_of};
ghost use Rattle.serde_json.specs.Find.{as_str, as_u64};
ghost use Rattle.serde_json.specs.Read.{number_of};
ghost use Rattle.wire_reader.specs.steps.Reading.{Gives, integer_at, natural_in, whole_in};
ghost use Rattle.wire_reader.specs.steps.Streams.{begins_list, below_zero, next_in, numeral_of, list_opened, string_of, worded, Passes, Takes};

use crate::fault::ReadFault;
use fast_float::Numeral;
use json::{Reader, Token};

/// Takes the bracket that begins a list.
pub(crate) fn open_list(reader: &mut Reader<'_>) -> Result<(), ReadFault>
    ensures { Passes result (list_opened reader.old) reader.new }
{
    match reader.next() {
        Some(Token::BeginArray) => Ok(()),
        _ => Err(ReadFault::Bad),
    }
}

/// Takes the bracket that ends a list.
pub(crate) fn close_list(reader: &mut Reader<'_>) -> Result<(), ReadFault>
    ensures { Passes result (after_end_array reader.old) reader.new }
{
    if reader.take_end_array() {
        Ok(())
    } else {
        Err(ReadFault::Bad)
    }
}

/// The text of a token that is a string.
pub(crate) fn string_of<'a>(token: Token<'a>) -> Option<&'a str>
    ensures { option_map (λ text. text.now) result ≡ string_of (token_of token.entry) }
{
    match token {
        Token::String(text) => Some(text),
        _ => None,
    }
}

/// The text of a token that is a number.
fn numeral_of<'a>(token: Token<'a>) -> Option<&'a str>
    ensures { option_map (λ text. text.now) result ≡ numeral_of (token_of token.entry) }
{
    match token {
        Token::Number(text) => Some(text),
        _ => None,
    }
}

/// Does the token begin a list?
pub(crate) fn begins_list(token: Token<'_>) -> bool
    ensures { result ≡ begins_list (token_of token.entry) }
{
    match token {
        Token::BeginArray => true,
        _ => false,
    }
}

/// A text.
pub(crate) fn text_of<'a>(reader: &mut Reader<'a>) -> Result<&'a str, ReadFault>
    ensures { (n : ℕ) → Takes (λ text. text.now) result (next_in as_str n reader.old) reader.new }
{
    let Some(token) = reader.next() else {
        return Err(ReadFault::Bad);
    };
    let Some(text) = string_of(token) else {
        return Err(ReadFault::Bad);
    };
    Ok(text)
}

/// Does the text of a number begin with a minus?
fn has_minus(digits: &[u8]) -> bool
    ensures value { result ≡ (slice_index digits.now 0 == 45) }
    ensures some { IsTrue result → 0 < length digits.now }
{
    !digits.is_empty() && digits[0] == b'-'
}

/// The number of up to nine digits. `None` if another byte is among them, or there are none or
/// more.
fn short_natural(digits: &[u8]) -> Option<u32>
    ensures number { IfSome result (λ number. number ≡ digits_value 10 digits.now) }
    ensures digits { IfSome result (λ _. IsNumeral 10 digits.now) }
{
    if digits.is_empty() || digits.len() > 9 {
        return None;
    }
    let mut number = 0;
    for digit in digits {
        if !digit.is_ascii_digit() {
            return None;
        }
        number = number * 10 + u32::from(*digit - b'0');
    }
    Some(number)
}

/// The whole number from 0 that a number's text is. `None` if it is another number or does not fit.
fn natural_in_text(text: &str) -> Option<u64>
    ensures { result ≡ option_and_then as_u64 (number_of text.now) }
{
    let digits = text.as_bytes();
    if let Some(number) = short_natural(digits) {
        return Some(u64::from(number));
    }
    if has_minus(digits) {
        None
    } else {
        Numeral::scan(digits).to_u64()
    }
}

/// The number, if it is below 0.
fn below_zero(number: Option<i64>) -> Option<i64>
    ensures { result ≡ below_zero number }
{
    match number {
        Some(number) if number < 0 => Some(number),
        _ => None,
    }
}

/// The whole number that a number's text is. `None` if it is another number or does not fit. JSON's
/// `-0` is no whole number.
pub(crate) fn integer_in_text(text: &str) -> Option<i64>
    ensures { result ≡ option_and_then integer_at (number_of text.now) }
{
    let digits = text.as_bytes();
    if let Some(number) = short_natural(digits) {
        return Some(i64::from(number));
    }
    if has_minus(digits) {
        below_zero(Numeral::scan(&digits[1..]).to_i64(true))
    } else {
        Numeral::scan(digits).to_i64(false)
    }
}

/// A whole number from 0.
fn natural_of(reader: &mut Reader<'_>) -> Result<u64, ReadFault>
    ensures { (n : ℕ) → Takes (λ number. number) result
        (next_in natural_in n reader.old) reader.new }
{
    let Some(token) = reader.next() else {
        return Err(ReadFault::Bad);
    };
    let Some(text) = numeral_of(token) else {
        return Err(ReadFault::Bad);
    };
    let Some(number) = natural_in_text(text) else {
        return Err(ReadFault::Bad);
    };
    Ok(number)
}

/// The number, if it is from `low` to `high`, both included.
fn whole_with(number: u64, low: u32, high: u32) -> Result<u32, ReadFault>
    ensures { Gives (λ whole. whole) result
        (if nat_le low number && nat_le number high then Some number else None) }
{
    if low as u64 <= number && number <= high as u64 {
        Ok(number as u32)
    } else {
        Err(ReadFault::Bad)
    }
}

/// A whole number from `low` to `high`, both included. `Bad` if there is none.
pub(crate) fn whole_of(reader: &mut Reader<'_>, low: u32, high: u32) -> Result<u32, ReadFault>
    ensures { (n : ℕ) → Takes (λ number. number) result
        (next_in (whole_in low high) n reader.old) reader.new }
{
    let number = natural_of(reader)?;
    whole_with(number, low, high)
}

/// The number of an operation among those of its site.
#[derive(Drop)]
pub(crate) struct Seq(pub(crate) u32);

/// The word that a list begins with, and the bracket before it.
pub(crate) fn word_of<'a>(reader: &mut Reader<'a>) -> Result<&'a str, ReadFault>
    ensures { (n : ℕ) → Takes (λ word. word.now) result (worded n reader.old) reader.new }
{
    open_list(reader)?;
    text_of(reader)
}
