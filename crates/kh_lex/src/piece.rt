//! What begins a text: a blank, a token or a fault.

ghost use Rattle.std.specs.Prelude.{◌≡◌, ◌+◌, ◌*◌, ◌≤◌, IsTrue, length, min, drop, slice_index};
ghost use Rattle.std.specs.Char.{is_ascii_alphabetic, is_ascii_digit, digit_value};
ghost use Rattle.std.specs.List.{AllPass, prefix_len};
ghost use Rattle.std.specs.Str.Parse.{digits_value};
ghost use Rattle.kh_lex.specs.Cuts.{is_blank};
ghost use Rattle.kh_lex.specs.Lexer.{mark_of, word_at, has_minus, sign_length, digits_at, begins_number, number_at, mark_at, token_at, piece_at, piece_length};

use crate::digits::size_of;
use crate::limits::NUMBER_LIMIT;
use crate::stop::LexStop;
use crate::token::{Kind, Token};
use kh_types::INPUT_BYTES;

/// The blank, which is no token, or the token that begins a text, whose first byte has a place.
pub fn piece_at(place: u32, text: &[u8]) -> Result<Option<Token>, LexStop>
    requires { length text.now ≤ INPUT_BYTES }
    ensures { result ≡ piece_at place text.now }
{
    if is_blank(byte_at(text, 0)) {
        return Ok(None);
    }
    let token = token_at(place, text)?;
    Ok(Some(token))
}

/// The bytes of a piece. A blank has one.
pub fn piece_length(piece: &Option<Token>) -> u32
    ensures { result ≡ piece_length piece.now }
{
    match piece {
        Some(token) => token.length,
        None => 1,
    }
}

/// The text from a place on, and nothing past its end.
pub fn rest_from(text: &[u8], place: usize) -> &[u8]
    ensures { result.now ≡ drop place text.now }
{
    text.get(place..).unwrap_or(&[])
}

/// The byte at a place, and 0 past the end.
fn byte_at(text: &[u8], place: usize) -> u8
    ensures { result ≡ slice_index text.now place }
{
    text.get(place).copied().unwrap_or(0)
}

/// Whether a byte is blank: a space, a tab, a carriage return or a line feed. Source: this
/// project's rule.
pub fn is_blank(byte: u8) -> bool
    ensures { result ≡ is_blank byte }
{
    byte == b' ' || byte == b'\t' || byte == b'\r' || byte == b'\n'
}

/// The token that begins a text.
fn token_at(place: u32, text: &[u8]) -> Result<Token, LexStop>
    requires { length text.now ≤ INPUT_BYTES }
    ensures { result ≡ token_at place text.now }
{
    if byte_at(text, 0).is_ascii_alphabetic() {
        Ok(word_at(place, text))
    } else if begins_number(text) {
        number_at(place, text)
    } else {
        mark_at(place, text)
    }
}

/// The word that begins a text.
fn word_at(place: u32, text: &[u8]) -> Token
    requires { length text.now ≤ INPUT_BYTES }
    ensures { result ≡ word_at place text.now }
{
    Token {
        kind: Kind::Word,
        place,
        length: letter_count(text) as u32,
        value: 0,
    }
}

/// The letters that begin a text.
fn letter_count(text: &[u8]) -> usize
    ensures run { result ≡ prefix_len is_ascii_alphabetic text.now }
    ensures within { result ≤ length text.now }
{
    text.iter()
        .take_while(|byte| byte.is_ascii_alphabetic())
        .count()
}

/// Whether a text begins with a number.
fn begins_number(text: &[u8]) -> bool
    ensures { result ≡ begins_number text.now }
{
    byte_at(text, sign_length(text)).is_ascii_digit()
}

/// The number that begins a text.
fn number_at(place: u32, text: &[u8]) -> Result<Token, LexStop>
    requires { length text.now ≤ INPUT_BYTES }
    ensures { result ≡ number_at place text.now }
{
    let digits = digits_at(text);
    let size = size_of(digits, NUMBER_LIMIT);
    if size > NUMBER_LIMIT {
        return Err(LexStop::Number { place });
    }
    let value = if has_minus(text) {
        -(size as i32)
    } else {
        size as i32
    };
    Ok(Token {
        kind: Kind::Number,
        place,
        length: (sign_length(text) + digits.len()) as u32,
        value,
    })
}

/// Whether a text begins with a minus sign.
pub fn has_minus(text: &[u8]) -> bool
    ensures { result ≡ has_minus text.now }
{
    byte_at(text, 0) == b'-'
}

/// The bytes of a sign.
pub fn sign_length(text: &[u8]) -> usize
    ensures { result ≡ sign_length text.now }
{
    if has_minus(text) { 1 } else { 0 }
}

/// The digits of the number that begins a text.
#[tactic(auto, using(crate::proofs::Runs::take_while_passes))]
fn digits_at(text: &[u8]) -> &[u8]
    ensures digits { result.now ≡ digits_at text.now }
    ensures all { AllPass is_ascii_digit result.now }
{
    let rest = rest_from(text, sign_length(text));
    let count = digit_count(rest);
    &rest[..count]
}

/// The digits that begin a text.
fn digit_count(text: &[u8]) -> usize
    ensures { result ≡ prefix_len is_ascii_digit text.now }
{
    text.iter().take_while(|byte| byte.is_ascii_digit()).count()
}

/// The mark that begins a text.
fn mark_at(place: u32, text: &[u8]) -> Result<Token, LexStop>
    ensures { result ≡ mark_at place text.now }
{
    match mark_of(byte_at(text, 0)) {
        Some(kind) => Ok(Token {
            kind,
            place,
            length: 1,
            value: 0,
        }),
        None => Err(LexStop::Bad { place }),
    }
}

/// The mark that a byte is.
fn mark_of(byte: u8) -> Option<Kind>
    ensures { result ≡ mark_of byte }
{
    match byte {
        b'[' => Some(Kind::LeftBracket),
        b']' => Some(Kind::RightBracket),
        b'{' => Some(Kind::LeftBrace),
        b'}' => Some(Kind::RightBrace),
        b',' => Some(Kind::Comma),
        _ => None,
    }
}
