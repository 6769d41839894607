//! Whether a braid has some letters.

ghost use Rattle.std.specs.Prelude.{◌≡◌, ◌↔◌, IsTrue};
ghost use Rattle.braid_maker.specs.Closures.{AreLetters, are_letters, is_letter};

use crate::rising::left_of;

/// Whether a braid on some strands has these letters: of each, the position that is its size and
/// the next are among them.
pub fn are_letters(strands: u8, letters: &[i8]) -> bool
    ensures { IsTrue result ↔ AreLetters strands letters.now }
{
    pass_all(strands, letters)
}

/// Whether each letter passes the test.
fn pass_all(strands: u8, letters: &[i8]) -> bool
    ensures { result ≡ are_letters strands letters.now }
{
    (0..letters.len()).all(|place| is_letter(strands, letters, place))
}

/// Whether the letter at a place has two neighbouring positions among the strands.
fn is_letter(strands: u8, letters: &[i8], place: usize) -> bool
    ensures { result ≡ is_letter strands letters.now place }
{
    let left = left_of(letters, place);
    1 <= left && left < strands
}
