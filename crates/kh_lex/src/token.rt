//! Tokens: what a text of a code is made of, apart from blanks.

/// What a token is: a longest run of letters, a number, or one of five marks.
#[derive(Clone, Copy, Debug, PartialEq, Eq)]
pub enum Kind {
    /// A longest run of ASCII letters.
    Word,
    /// A longest run of decimal digits, with a minus sign before it or none.
    Number,
    /// `[`.
    LeftBracket,
    /// `]`.
    RightBracket,
    /// `{`.
    LeftBrace,
    /// `}`.
    RightBrace,
    /// `,`.
    Comma,
}

/// A word, a number or a mark that stands in a text.
#[derive(Clone, Copy, Debug, PartialEq, Eq)]
pub struct Token {
    /// What it is.
    pub kind: Kind,
    /// The place of its first byte in the text, counted from 0.
    pub place: u32,
    /// The number of its bytes, one at least.
    pub length: u32,
    /// The value of a number, at most `NUMBER_LIMIT` in size, and 0 for other kinds.
    pub value: i32,
}
