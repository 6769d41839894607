//! Pascal's triangle.

ghost use Rattle.std.specs.Prelude.{◌≡◌, ℕ, ◌<◌, ◌≤◌, ◌^◌, length, slice_index};
ghost use Rattle.kh_types.specs.declared.limits.TheConstants.{CIRCLES};
ghost use Rattle.circle_smoothing.specs.Binomials.{binomial, binomial_at};
ghost use Rattle.circle_smoothing.specs.declared.triangle.TheConstants.{PLACES};

use crate::kinds::COLUMNS;

const PLACES: usize = COLUMNS * COLUMNS;

/// The binomial coefficients of up to CIRCLES things: in how many ways some of them can be chosen.
#[derive(Drop)]
pub struct Triangle {
    // A row for each number of things, a column for each number that is chosen.
    ways: [u64; PLACES],
    ghost full: { (place : ℕ) → place < PLACES → slice_index ways place ≡ binomial_at place },
}

impl Triangle {
    /// The triangle.
    pub fn new() -> Triangle {
        let mut ways = [0; PLACES];
        'places: for place in 0..PLACES {
            ways[place] = ways_at(&ways, place);
        }
        Triangle { ways }
    }

    /// In how many ways some of the things can be chosen.
    #[tactic(auto, using(crate::proofs::TriangleLemmas::known))]
    pub fn ways(&self, things: usize, chosen: usize) -> u64
        requires { things ≤ CIRCLES }
        ensures ways { result ≡ binomial things chosen }
        ensures within { result ≤ 2 ^ CIRCLES }
    {
        if chosen > things {
            0
        } else {
            self.ways[things * COLUMNS + chosen]
        }
    }
}

/// The entry at a place of the table, by those before it.
#[tactic(auto, using(crate::proofs::TriangleLemmas::steps))]
fn ways_at(ways: &[u64], place: usize) -> u64
    requires place { place < PLACES }
    requires size { length ways.now ≡ PLACES }
    requires before { (earlier : ℕ) → earlier < place
        → slice_index ways.now earlier ≡ binomial_at earlier }
    ensures { result ≡ binomial_at place }
{
    if place % COLUMNS == 0 {
        1
    } else if place < COLUMNS {
        0
    } else {
        ways[place - COLUMNS - 1] + ways[place - COLUMNS]
    }
}
