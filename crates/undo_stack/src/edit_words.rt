//! The words of the lines of an edit.

ghost use Rattle.std.specs.Prelude.{◌≡◌, map};
ghost use Rattle.undo_stack.specs.EditSteps.{finger_drop_line, finger_line, kink_drop_line, kink_line, lone_line, move_line, pass_named, place_named, r1_line, r2_line, r3_line, side_named, sign_named, slide_line};

use crate::edit_line::EditLine;
use crate::limits::{NAMED_DIGITS, NAMED_LIMIT};
use diagram_moves::{Move, Side};
use kh_lex::number_of;

/// The line of one word.
pub(crate) fn lone_line(name: &[u8]) -> Option<EditLine>
    ensures { result ≡ lone_line name.now }
{
    if name == b"undo".as_slice() {
        Some(EditLine::Undo)
    } else if name == b"redo".as_slice() {
        Some(EditLine::Redo)
    } else {
        None
    }
}

/// The line of a move: its name, and the words behind it.
pub(crate) fn move_line(name: &[u8], words: &[&[u8]]) -> Option<EditLine>
    ensures { result ≡ move_line name.now (map (λ word. word.now) words.now) }
{
    if name == b"r1".as_slice() {
        r1_line(words)
    } else if name == b"r2".as_slice() {
        r2_line(words)
    } else if name == b"r3".as_slice() {
        r3_line(words)
    } else {
        None
    }
}

/// The line of the words behind `r1`.
fn r1_line(words: &[&[u8]]) -> Option<EditLine>
    ensures { result ≡ r1_line (map (λ word. word.now) words.now) }
{
    match words {
        [verb, crossing] if *verb == b"drop".as_slice() => kink_drop_line(crossing),
        [verb, arc, pass, sign] if *verb == b"add".as_slice() => kink_line(arc, pass, sign),
        _ => None,
    }
}

/// The line of the words behind `r2`.
fn r2_line(words: &[&[u8]]) -> Option<EditLine>
    ensures { result ≡ r2_line (map (λ word. word.now) words.now) }
{
    match words {
        [verb, first, second] if *verb == b"drop".as_slice() => finger_drop_line(first, second),
        [verb, over, over_side, under, under_side] if *verb == b"add".as_slice() => {
            finger_line(over, over_side, under, under_side)
        }
        _ => None,
    }
}

/// The line of the words behind `r3`.
fn r3_line(words: &[&[u8]]) -> Option<EditLine>
    ensures { result ≡ r3_line (map (λ word. word.now) words.now) }
{
    match words {
        [first, second, third] => slide_line(first, second, third),
        _ => None,
    }
}

/// The line of a kink that is added.
fn kink_line(arc: &[u8], pass: &[u8], sign: &[u8]) -> Option<EditLine>
    ensures { result ≡ kink_line arc.now pass.now sign.now }
{
    let arc = place_named(arc)?;
    let under_first = pass_named(pass)?;
    let positive = sign_named(sign)?;
    Some(EditLine::Change(Move::KinkAdd {
        arc,
        under_first,
        positive,
    }))
}

/// The line of a crossing with a kink that is dropped.
fn kink_drop_line(crossing: &[u8]) -> Option<EditLine>
    ensures { result ≡ kink_drop_line crossing.now }
{
    let crossing = place_named(crossing)?;
    Some(EditLine::Change(Move::KinkDrop { crossing }))
}

/// The line of a finger that is added.
fn finger_line(over: &[u8], over_side: &[u8], under: &[u8], under_side: &[u8]) -> Option<EditLine>
    ensures { result ≡ finger_line over.now over_side.now under.now under_side.now }
{
    let over = place_named(over)?;
    let over_side = side_named(over_side)?;
    let under = place_named(under)?;
    let under_side = side_named(under_side)?;
    Some(EditLine::Change(Move::FingerAdd {
        over,
        over_side,
        under,
        under_side,
    }))
}

/// The line of two crossings of a bigon that are dropped.
fn finger_drop_line(first: &[u8], second: &[u8]) -> Option<EditLine>
    ensures { result ≡ finger_drop_line first.now second.now }
{
    let first = place_named(first)?;
    let second = place_named(second)?;
    Some(EditLine::Change(Move::FingerDrop { first, second }))
}

/// The line of a slide.
fn slide_line(first: &[u8], second: &[u8], third: &[u8]) -> Option<EditLine>
    ensures { result ≡ slide_line first.now second.now third.now }
{
    let first = place_named(first)?;
    let second = place_named(second)?;
    let third = place_named(third)?;
    Some(EditLine::Change(Move::Slide {
        first,
        second,
        third,
    }))
}

/// The arc or the crossing that a word names.
fn place_named(word: &[u8]) -> Option<u8>
    ensures { result ≡ place_named word.now }
{
    let place = number_of(word, NAMED_DIGITS)?;
    if place <= NAMED_LIMIT {
        Some(place as u8)
    } else {
        None
    }
}

/// The side that a word names.
fn side_named(word: &[u8]) -> Option<Side>
    ensures { result ≡ side_named word.now }
{
    if word == b"left".as_slice() {
        Some(Side::Left)
    } else if word == b"right".as_slice() {
        Some(Side::Right)
    } else {
        None
    }
}

/// Whether a word says that the first pass is under.
fn pass_named(word: &[u8]) -> Option<bool>
    ensures { result ≡ pass_named word.now }
{
    if word == b"under".as_slice() {
        Some(true)
    } else if word == b"over".as_slice() {
        Some(false)
    } else {
        None
    }
}

/// Whether a word says that the crossing is positive.
fn sign_named(word: &[u8]) -> Option<bool>
    ensures { result ≡ sign_named word.now }
{
    if word == b"plus".as_slice() {
        Some(true)
    } else if word == b"minus".as_slice() {
        Some(false)
    } else {
        None
    }
}
