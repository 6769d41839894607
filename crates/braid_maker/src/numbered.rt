//! Diagrams by their numbers.

ghost use Rattle.std.specs.Prelude.{◌≡◌, ◌↔◌, ◌<◌, ◌++◌, ◌∷◌, [], IsOk, IfOk, IfErr, IsTrue, length};
ghost use Rattle.kh_types.specs.Acceptance.{accepted};
ghost use Rattle.braid_maker.specs.Closures.{AreLetters, code_of_number, letter_of, letters_of};
ghost use Rattle.braid_maker.specs.declared.limits.TheConstants.{NUMBERS};

use crate::closing::closure;
use crate::limits::NUMBERS;
use arrayvec::ArrayVec;
use kh_types::{Diagram, RawCode};

/// The digits of a number.
const DIGITS: usize = 10;

/// A number is none of a diagram: it is `NUMBERS` or more.
#[derive(Clone, Copy, Debug, PartialEq, Eq)]
pub struct NumberLimit {
    pub number: u32,
}

/// The diagram of a number: its ten digits in base 4, least first, are the letters 1, -1, 2 and -2
/// of a braid on three strands, whose closure it is.
pub fn from_number(number: u32) -> Result<Diagram, NumberLimit>
    ensures within { IsOk result ↔ (number < NUMBERS) }
    ensures diagram { IfOk result (λ diagram. diagram ≡ code_of_number number) }
    ensures carried { IfErr result (λ limit. limit.number ≡ number) }
{
    if number >= NUMBERS {
        return Err(NumberLimit { number });
    }
    Ok(accepted_diagram(&closure(3, &letters_of(number))))
}

/// The diagram of an accepted code.
fn accepted_diagram(raw: &RawCode) -> Diagram
    requires { IsTrue (accepted raw.now) }
    ensures { result ≡ raw.now }
{
    match Diagram::try_new(raw) {
        Ok(diagram) => diagram,
        Err(_) => unreachable!(),
    }
}

/// The letters of a number's digits.
#[tactic(auto, using(crate::proofs::Digits::first_none))]
fn letters_of(number: u32) -> ArrayVec<i8, DIGITS>
    ensures letters { result.items ≡ letters_of 10 number }
    ensures within { AreLetters 3 result.items }
{
    let mut letters = ArrayVec::new();
    let mut rest = number;
    'digits: for _ in 0..DIGITS {
        push_letter(&mut letters, rest % 4);
        rest /= 4;
    }
    letters
}

/// Adds the letter of a digit.
fn push_letter(letters: &mut ArrayVec<i8, DIGITS>, digit: u32)
    requires { length letters.old.items < 10 }
    ensures { letters.new.items ≡ letters.old.items ++ letter_of digit ∷ [] }
{
    letters.push(letter_of(digit));
}

/// The letter of a digit.
fn letter_of(digit: u32) -> i8
    ensures { result ≡ letter_of digit }
{
    match digit {
        0 => 1,
        1 => -1,
        2 => 2,
        _ => -2,
    }
}
