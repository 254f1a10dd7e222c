//! The plain text of a message: the same lexemes of JSON, without white space and without escapes.
//! Many clients put a space after each comma, and write each letter beyond ASCII as an escape.
//! What is read of the plain text is what is read of the message, and takes less time.
//!
//! A message gets no plain text where an escape stands for a byte that needs one, where half of a
//! surrogate pair stands, or where there is an object, a literal or a number of another form than
//! that of compact text. Such a message is read as it is.

ghost use Rattle.std.specs.Prelude.{◌≡◌, ◌<◌, ◌∷◌, ◌++◌, IfOk, IfSome, IsTrue, OnOk};
ghost use Rattle.std.specs.Char.{digit_value, encode_utf8};
ghost use Rattle.std.specs.List.{list_all};
ghost use Rattle.json.specs.Lex.{lex, between};
ghost use Rattle.json.specs.Text.{code_unit};
ghost use Rattle.json.specs.Word.{is_operator, is_space};
ghost use Rattle.wire.specs.steps.Quoting.{is_plain_byte};
ghost use Rattle.wire_reader.specs.steps.PlainTexts.{IsEscape, IsUnicode, IsWritten, KeepsContent, KeepsLexemes};

use crate::compact::{is_plain_byte, split_number, split_plain};
use crate::fault::ReadFault;
use std::alloc::Global;

/// How many hex digits an escape has.
const HEX_DIGITS: usize = 4;

/// The value of a byte that is no digit and no letter.
const NO_DIGIT: u32 = 36;

/// Is the byte white space between lexemes?
fn is_space(byte: u8) -> bool
    ensures { result ≡ is_space byte }
{
    matches!(byte, b' ' | b'\t' | b'\n' | b'\r')
}

/// What follows white space.
fn after_space(bytes: &[u8]) -> &[u8]
    ensures { lex between result.now ≡ lex between bytes.now }
{
    for (place, byte) in bytes.iter().enumerate() {
        if !is_space(*byte) {
            return &bytes[place..];
        }
    }
    &bytes[bytes.len()..]
}

/// Is the byte a bracket, a comma or a colon?
fn is_operator(byte: u8) -> bool
    ensures { result ≡ is_operator byte }
{
    matches!(byte, b'[' | b']' | b',' | b'{' | b'}' | b':')
}

/// The value of a digit or a letter, where `a` is 10.
fn digit_value(byte: u8) -> u32
    ensures { result ≡ digit_value byte }
{
    match byte {
        b'0'..=b'9' => u32::from(byte - b'0'),
        b'a'..=b'z' => u32::from(byte - b'a') + 10,
        b'A'..=b'Z' => u32::from(byte - b'A') + 10,
        _ => NO_DIGIT,
    }
}

/// The code unit that four hex digits spell.
fn code_unit(a: u8, b: u8, c: u8, d: u8) -> Option<u32>
    ensures { result ≡ code_unit a b c d }
{
    let (a, b, c, d) = (
        digit_value(a),
        digit_value(b),
        digit_value(c),
        digit_value(d),
    );
    if (a < 16) & (b < 16) & (c < 16) & (d < 16) {
        Some(a * 4096 + b * 256 + c * 16 + d)
    } else {
        None
    }
}

/// The character that four hex digits spell, and the bytes after them. `None` also for half of a
/// surrogate pair.
fn unicode_of(bytes: &[u8]) -> Option<(char, &[u8])>
    ensures { IfSome result (λ taken. IsUnicode taken.0 bytes.now taken.1.now) }
{
    if bytes.len() < HEX_DIGITS {
        return None;
    }
    let unit = code_unit(bytes[0], bytes[1], bytes[2], bytes[3])?;
    let character = char::from_u32(unit)?;
    Some((character, &bytes[HEX_DIGITS..]))
}

/// The character that an escape stands for, after its backslash, and the bytes after it. `None` also
/// for an escape of a byte that is not plain.
fn escaped(bytes: &[u8]) -> Option<(char, &[u8])>
    ensures { IfSome result (λ taken. IsEscape taken.0 bytes.now taken.1.now) }
{
    match bytes.split_first() {
        Some((b'u', digits)) => unicode_of(digits),
        Some((b'/', rest)) => Some(('/', rest)),
        _ => None,
    }
}

/// Does a character stand for itself in a string, with all bytes of its UTF-8?
fn is_plain(character: char) -> bool
    ensures { result ≡ list_all is_plain_byte (encode_utf8 character) }
{
    !character.is_ascii() || is_plain_byte(character as u8)
}

/// Writes a character of a string. `Bad` if it is not plain.
fn write_character(character: char, text: &mut Vec<u8>) -> Result<(), ReadFault>
    ensures { OnOk result (IsWritten character text.old.items text.new.items) }
{
    if !is_plain(character) {
        return Err(ReadFault::Bad);
    }
    let mut buffer = [0; 4];
    text.extend_from_slice(character.encode_utf8(&mut buffer).as_bytes())?;
    Ok(())
}

/// Takes an escape after its backslash, and writes what it stands for.
fn escape_of<'a>(bytes: &'a [u8], text: &mut Vec<u8>) -> Result<&'a [u8], ReadFault>
    ensures { IfOk result (λ rest.
        KeepsContent text.old.items (92 ∷ bytes.now) text.new.items rest.now) }
{
    let Some((character, rest)) = escaped(bytes) else {
        return Err(ReadFault::Bad);
    };
    write_character(character, text)?;
    Ok(rest)
}

/// Takes bytes that stand for themselves in a string, and writes them.
fn plain_of<'a>(bytes: &'a [u8], text: &mut Vec<u8>) -> Result<&'a [u8], ReadFault>
    ensures { IfOk result (λ rest.
        KeepsContent text.old.items bytes.now text.new.items rest.now) }
{
    let (plain, rest) = split_plain(bytes);
    if plain.is_empty() {
        return Err(ReadFault::Bad);
    }
    text.extend_from_slice(plain)?;
    Ok(rest)
}

/// Takes a string after its opening quote, and writes it.
fn string_of<'a>(bytes: &'a [u8], text: &mut Vec<u8>) -> Result<&'a [u8], ReadFault>
    ensures { IfOk result (λ rest.
        KeepsLexemes text.old.items (34 ∷ bytes.now) text.new.items rest.now) }
{
    text.push(b'"')?;
    let mut rest = bytes;
    // Each turn takes a byte.
    'content: for _ in 0..bytes.len() {
        match rest.split_first() {
            Some((b'"', after)) => {
                text.push(b'"')?;
                return Ok(after);
            }
            Some((b'\\', after)) => rest = escape_of(after, text)?,
            _ => rest = plain_of(rest, text)?,
        }
    }
    Err(ReadFault::Bad)
}

/// Takes a number and the operator after it, and writes both.
fn number_of<'a>(bytes: &'a [u8], text: &mut Vec<u8>) -> Result<&'a [u8], ReadFault>
    ensures { IfOk result (λ rest.
        KeepsLexemes text.old.items bytes.now text.new.items rest.now) }
{
    let (number, after) = split_number(bytes)?;
    match after.split_first() {
        Some((operator, rest)) if is_operator(*operator) => {
            text.extend_from_slice(number)?;
            text.push(*operator)?;
            Ok(rest)
        }
        _ => Err(ReadFault::Bad),
    }
}

/// Takes a lexeme, or a number and the operator after it, and writes what it took.
fn lexeme_of<'a>(bytes: &'a [u8], text: &mut Vec<u8>) -> Result<&'a [u8], ReadFault>
    ensures { IfOk result (λ rest.
        KeepsLexemes text.old.items bytes.now text.new.items rest.now) }
{
    match bytes.split_first() {
        Some((b'"', rest)) => string_of(rest, text),
        Some((mark, rest)) if is_operator(*mark) => {
            text.push(*mark)?;
            Ok(rest)
        }
        _ => number_of(bytes, text),
    }
}

/// The plain text of a message. Linear in the message.
///
/// # Errors
///
/// - `Bad` if it gets none here: it may be a text of JSON all the same.
/// - `NoMemory` if an allocation failed.
pub(crate) fn plain_text(alloc: Global, message: &[u8]) -> Result<Vec<u8>, ReadFault>
    ensures { IfOk result (λ text. lex between text.items ≡ lex between message.now) }
{
    let mut text = Vec::with_capacity(alloc, message.len())?;
    let mut rest = after_space(message);
    // Each turn takes a byte.
    'lexemes: for _ in 0..=message.len() {
        if rest.is_empty() {
            return Ok(text);
        }
        rest = after_space(lexeme_of(rest, &mut text)?);
    }
    Err(ReadFault::Bad)
}
