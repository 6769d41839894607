//! The lines of a text.

ghost use Rattle.std.specs.Prelude.{◌≡◌, ◌<◌, ◌≤◌, length, drop};
ghost use Rattle.std.specs.List.{prefix_len};
ghost use Rattle.kh_lex.specs.Lines.{is_line_feed, lines_of};
ghost use Rattle.kh_lex.specs.Sections.{first_section, is_unlike};

use crate::piece::rest_from;
use kh_types::INPUT_BYTES;

/// The number of lines of a text.
pub fn line_count(text: &[u8]) -> u32
    requires { length text.now ≤ INPUT_BYTES }
    ensures { result ≡ length (lines_of text.now) }
{
    let mut count = 0;
    let mut place = 0;
    while place < text.len() {
        count += 1;
        place += line_at(text, place).len() + 1;
    }
    count
}

/// The rest of the line at a place, without the line feed that may end it.
pub fn line_at(text: &[u8], place: usize) -> &[u8]
    ensures line { result.now ≡ first_section is_line_feed (drop place text.now) }
    ensures within { length result.now ≤ length text.now }
{
    let rest = rest_from(text, place);
    let size = line_length(rest);
    &rest[..size]
}

/// The bytes of a text before the first line feed.
fn line_length(text: &[u8]) -> usize
    ensures { result ≡ prefix_len (is_unlike is_line_feed) text.now }
{
    text.iter().take_while(|byte| **byte != b'\n').count()
}
