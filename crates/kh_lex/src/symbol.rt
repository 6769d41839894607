//! What tokens mean in the texts of codes.

ghost use Rattle.std.specs.Prelude.{◌≡◌, length};
ghost use Rattle.kh_lex.specs.Lexer.{EndsWithin};
ghost use Rattle.kh_lex.specs.Symbols.{bytes_of, symbol_of, word_symbol};

use crate::token::{Kind, Token};

/// What a token means: a word of the grammars, any other word, a number, or a mark.
/// Source: Knot Atlas, "Planar Diagrams" and "Gauss Codes"; `Loop`, `Signs` and the braces are
/// this project's rule.
#[derive(Clone, Copy, Debug, PartialEq, Eq)]
pub enum Symbol {
    /// The word `PD`.
    Pd,
    /// The word `X`.
    X,
    /// The word `Loop`.
    Loop,
    /// The word `GaussCode`.
    GaussCode,
    /// The word `Signs`.
    Signs,
    /// Any other word.
    OtherWord,
    /// A number, by its value.
    Number(i32),
    /// `[`.
    LeftBracket,
    /// `]`.
    RightBracket,
    /// `{`.
    LeftBrace,
    /// `}`.
    RightBrace,
    /// `,`.
    Comma,
}

/// What a token of a text means.
pub fn symbol_of(text: &[u8], token: &Token) -> Symbol
    requires { EndsWithin (length text.now) token.now }
    ensures { result ≡ symbol_of text.now token.now }
{
    match token.kind {
        Kind::Word => word_symbol(bytes_of(text, token)),
        Kind::Number => Symbol::Number(token.value),
        Kind::LeftBracket => Symbol::LeftBracket,
        Kind::RightBracket => Symbol::RightBracket,
        Kind::LeftBrace => Symbol::LeftBrace,
        Kind::RightBrace => Symbol::RightBrace,
        Kind::Comma => Symbol::Comma,
    }
}

/// The bytes of a token.
fn bytes_of<'a>(text: &'a [u8], token: &Token) -> &'a [u8]
    requires { EndsWithin (length text.now) token.now }
    ensures { result.now ≡ bytes_of text.now token.now }
{
    let place = token.place as usize;
    &text[place..place + token.length as usize]
}

/// What a word means.
fn word_symbol(word: &[u8]) -> Symbol
    ensures { result ≡ word_symbol word.now }
{
    if word == b"PD".as_slice() {
        Symbol::Pd
    } else if word == b"X".as_slice() {
        Symbol::X
    } else if word == b"Loop".as_slice() {
        Symbol::Loop
    } else if word == b"GaussCode".as_slice() {
        Symbol::GaussCode
    } else if word == b"Signs".as_slice() {
        Symbol::Signs
    } else {
        Symbol::OtherWord
    }
}
