//! The words of a line.

ghost use Rattle.std.specs.Prelude.{◌≡◌, ◌<◌, ◌≤◌, ◌++◌, IfErr, IfOk, OnOk, [], ◌∷◌, length, map, drop, filter};
ghost use Rattle.std.specs.List.{prefix_len};
ghost use Rattle.kh_lex.specs.LineWords.{has_bytes, is_gap, words_of};
ghost use Rattle.kh_lex.specs.Sections.{first_section, is_unlike};

use crate::piece::rest_from;
use kh_types::{INPUT_BYTES, NoMemory};
use std::alloc::Global;

/// The words of a line, in order.
pub fn words_of(alloc: Global, line: &[u8]) -> Result<Vec<&[u8]>, NoMemory>
    requires { length line.now ≤ INPUT_BYTES }
    ensures words { IfOk result (λ words. map (λ word. word.now) words.items ≡ words_of line.now) }
{
    let mut words = Vec::new(alloc);
    let mut place = 0;
    while place < line.len() {
        let word = word_at(line, place);
        push_word(&mut words, word)?;
        place += word.len() + 1;
    }
    Ok(words)
}

/// Adds a word, if there are bytes.
fn push_word<'a>(words: &mut Vec<&'a [u8]>, word: &'a [u8]) -> Result<(), NoMemory>
    ensures added { OnOk result (map (λ w. w.now) words.new.items
        ≡ map (λ w. w.now) words.old.items ++ filter has_bytes (word.now ∷ [])) }
{
    if !word.is_empty() {
        words.push(word)?;
    }
    Ok(())
}

/// The bytes from a place on up to a gap.
fn word_at(line: &[u8], place: usize) -> &[u8]
    ensures word { result.now ≡ first_section is_gap (drop place line.now) }
    ensures within { length result.now ≤ length line.now }
{
    let rest = rest_from(line, place);
    let size = word_length(rest);
    &rest[..size]
}

/// The bytes of a line before the first gap.
fn word_length(line: &[u8]) -> usize
    ensures { result ≡ prefix_len (is_unlike is_gap) line.now }
{
    line.iter().take_while(|byte| !is_gap(**byte)).count()
}

/// Whether a byte is a gap: a space, a tab or a carriage return. A line feed ends the line.
fn is_gap(byte: u8) -> bool
    ensures { result ≡ is_gap byte }
{
    byte == b' ' || byte == b'\t' || byte == b'\r'
}
