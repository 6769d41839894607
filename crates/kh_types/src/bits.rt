//! The bits of numbers: of states and choices, a bit for each crossing, and of labels, a bit for
//! each circle.

ghost use Rattle.std.specs.Prelude.{◌≡◌, ◌<◌, ◌≤◌};
ghost use Rattle.kh_types.specs.Bits.{bit, ones};

/// The bit of a number at a place, counted from 0; 0 at the place 64 and behind it.
pub fn bit(number: u64, place: usize) -> u8
    ensures bit { result ≡ bit number place }
    ensures within { result < 2 }
{
    if place < 64 {
        ((number >> place) % 2) as u8
    } else {
        0
    }
}

/// How many of the lowest bits of a number are 1, of as many as `count` says.
#[tactic(auto, using(crate::proofs::BitLemmas::bits))]
pub fn ones(count: usize, number: u64) -> u8
    requires { count ≤ 64 }
    ensures ones { result ≡ ones count number }
    ensures within { result ≤ count }
{
    let mut total = 0;
    'places: for place in 0..count {
        total += bit(number, place);
    }
    total
}
