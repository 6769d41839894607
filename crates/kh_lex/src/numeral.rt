//! The numbers that words write: no more than so many digits, leading zeros counted.

ghost use Rattle.std.specs.Prelude.{◌≡◌, ◌^◌, ◌<◌, ◌≤◌, IfSome, unsigned_abs};
ghost use Rattle.std.specs.Char.{is_ascii_digit};
ghost use Rattle.std.specs.List.{AllPass, list_all};
ghost use Rattle.kh_lex.specs.Numerals.{is_numeral, numeral_of, signed_numeral_of};
ghost use Rattle.kh_lex.specs.declared.limits.TheConstants.{NUMBER_DIGITS};

use crate::digits::size_of;
use crate::piece::{has_minus, rest_from, sign_length};

/// The number that a word writes, if it is digits, one at least and no more than a limit.
#[tactic(auto, using(crate::proofs::NumeralReads::sizes))]
pub fn number_of(word: &[u8], limit: usize) -> Option<u32>
    requires { limit ≤ NUMBER_DIGITS }
    ensures number { result ≡ numeral_of limit word.now }
    ensures small { IfSome result (λ number. number < 10 ^ limit) }
    ensures most { IfSome result (λ number. number < 10 ^ NUMBER_DIGITS) }
{
    if is_numeral(word, limit) {
        Some(size_of(word, 9_999_999))
    } else {
        None
    }
}

/// The number with a sign that a word writes, if behind at most one minus sign it is digits as
/// above.
pub fn signed_number_of(word: &[u8], limit: usize) -> Option<i32>
    requires { limit ≤ NUMBER_DIGITS }
    ensures number { result ≡ signed_numeral_of limit word.now }
    ensures small { IfSome result (λ number. unsigned_abs number < 10 ^ limit) }
{
    let size = number_of(rest_from(word, sign_length(word)), limit)?;
    Some(if has_minus(word) {
        -(size as i32)
    } else {
        size as i32
    })
}

/// Whether a word is digits, one at least and no more than a limit.
fn is_numeral(word: &[u8], limit: usize) -> bool
    ensures { result ≡ is_numeral limit word.now }
{
    !word.is_empty() && word.len() <= limit && are_digits(word)
}

/// Whether a word is nothing but digits.
fn are_digits(word: &[u8]) -> bool
    ensures { result ≡ list_all is_ascii_digit word.now }
{
    word.iter().all(|byte| byte.is_ascii_digit())
}
