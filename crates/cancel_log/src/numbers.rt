//! The numbers in a line, exactly as they are printed.

ghost use Rattle.std.specs.Prelude.{◌≡◌, slice_index};
ghost use Rattle.cancel_log.specs.NumberWords.{IsDegreeIn, IsPlaceIn, is_printed};

use crate::limits::{DEGREE_DIGITS, PLACE_DIGITS};
use kh_lex::{number_of, signed_number_of};

/// The column or row that a word is the print of.
#[tactic(auto, using(crate::proofs::NumberTexts::places))]
pub(crate) fn place_in(word: &[u8]) -> Option<u32>
    ensures { IsPlaceIn word.now result }
{
    if is_printed(word) {
        number_of(word, PLACE_DIGITS)
    } else {
        None
    }
}

/// The degree that a word is the print of.
#[tactic(auto, using(crate::proofs::NumberTexts::degrees))]
pub(crate) fn degree_in(word: &[u8]) -> Option<i16>
    ensures { IsDegreeIn word.now result }
{
    if !is_printed(word) {
        return None;
    }
    let degree = signed_number_of(word, DEGREE_DIGITS)?;
    Some(degree as i16)
}

/// Whether the digits of a word, behind a minus sign if it has one, do not begin with a 0, unless
/// that is the whole word.
fn is_printed(word: &[u8]) -> bool
    ensures { result ≡ is_printed word.now }
{
    if byte_at(word, 0) == b'-' {
        byte_at(word, 1) != b'0'
    } else {
        byte_at(word, 0) != b'0' || word.len() == 1
    }
}

/// The byte at a place, and 0 past the end.
fn byte_at(word: &[u8], place: usize) -> u8
    ensures { result ≡ slice_index word.now place }
{
    word.get(place).copied().unwrap_or(0)
}
