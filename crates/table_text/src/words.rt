//! The words of a line, and the numbers that they write.

ghost use Rattle.std.specs.Prelude.{◌≡◌, ◌≤◌, ℤ, length, Some, unsigned_abs};
ghost use Rattle.std.specs.Fmt.{signed_decimal};
ghost use Rattle.std.specs.List.{position, position_or_len};
ghost use Rattle.circle_smoothing.specs.declared.limits.TheConstants.{GENERATORS};
ghost use Rattle.table_text.specs.Words.{is_end, word_of, behind_word};

use kh_lex::{NUMBER_DIGITS, signed_number_of};

/// The first word of a text, which ends at a space or a line feed.
pub fn word(text: &[u8]) -> &[u8]
    ensures { result.now ≡ word_of text.now }
{
    &text[..word_length(text)]
}

/// A text without its first word and the byte that ends it.
pub fn behind_word(text: &[u8]) -> &[u8]
    ensures { result.now ≡ behind_word text.now }
{
    text.get(word_length(text) + 1..).unwrap_or(&[])
}

/// The number that a word writes. It may be asked of any bytes: the caller compares what it prints.
pub fn number(word: &[u8]) -> Option<i32>
    ensures { (number : ℤ) → unsigned_abs number ≤ GENERATORS → word.now ≡ signed_decimal number
        → result ≡ Some number }
{
    signed_number_of(word, NUMBER_DIGITS)
}

/// The length of the first word of a text.
#[tactic(auto, using(kh_types::proofs::Lists::places))]
fn word_length(text: &[u8]) -> usize
    ensures length { result ≡ position_or_len is_end text.now }
    ensures within { result ≤ length text.now }
{
    first_end(text).unwrap_or(text.len())
}

/// The place of the first byte that ends a word.
fn first_end(text: &[u8]) -> Option<usize>
    ensures { result ≡ position is_end text.now }
{
    text.iter().position(|byte| *byte == b' ' || *byte == b'\n')
}
