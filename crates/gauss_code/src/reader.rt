//! Reads the code of a diagram from a signed Gauss text.

ghost use Rattle.std.specs.Prelude.{◌≡◌, ◌≢◌, ◌≤◌, Err, IfOk, length, map};
ghost use Rattle.std.specs.List.{range_with_len};
ghost use Rattle.gauss_code.specs.Faults.{signs_of};
ghost use Rattle.gauss_code.specs.Listings.{crossing_count, loop_group_count};
ghost use Rattle.code_passes.specs.Passes.{slots_by_passes};
ghost use Rattle.gauss_code.specs.Codes.{listed_code};
ghost use Rattle.gauss_code.specs.Reading.{IsGaussReading};

use crate::faults::first_gauss_fault;
use crate::listing::Listing;
use crate::machine::listing_of;
use crate::passes::crossing_at;
use crate::stop::GaussStop;
use arrayvec::ArrayVec;
use code_passes::Pass;
use kh_lex::tokens;
use kh_types::{CROSSINGS, Crossing, INPUT_BYTES, LOOPS, RawCode};
use std::alloc::Global;

/// Reads a signed Gauss text. A positive label is the number of a crossing that is passed over, a
/// negative one minus that of a crossing that is passed under; the arcs are numbered in the order
/// of the text. Source: Knot Atlas, "Gauss Codes"; all else is this project's rule.
pub fn read_gauss(alloc: Global, text: &[u8]) -> Result<RawCode, GaussStop>
    requires { length text.now ≤ INPUT_BYTES }
    ensures reads { result ≢ Err GaussStop.NoMemory → IsGaussReading text.now result }
    ensures crossings { IfOk result (λ code. length code.crossings ≤ CROSSINGS) }
    ensures loops { IfOk result (λ code. code.loops ≤ LOOPS) }
{
    let tokens = tokens(alloc, text)?;
    let listing = listing_of(alloc, text, &tokens)?;
    match first_gauss_fault(&listing, &tokens) {
        Some(fault) => Err(fault),
        None => Ok(listed_code(&listing)),
    }
}

/// The code of a listing that has no fault.
fn listed_code(listing: &Listing) -> RawCode
    requires crossings { crossing_count listing.now.body ≤ CROSSINGS }
    requires loops { loop_group_count listing.now.body ≤ LOOPS }
    ensures { result ≡ listed_code listing.now.body (signs_of listing.now) }
{
    RawCode {
        crossings: crossings_of(
            &listing.body.passes(),
            listing.signs(),
            listing.body.crossing_count(),
        ),
        loops: listing.body.loop_group_count() as u8,
    }
}

/// The crossings that passes make.
#[tactic(auto, using(kh_types::proofs::Ranges::range_steps))]
fn crossings_of(passes: &[Pass], signs: &[i32], count: usize) -> ArrayVec<Crossing, CROSSINGS>
    requires { count ≤ CROSSINGS }
    ensures { result.items ≡ map (slots_by_passes passes.now signs.now) (range_with_len 0 count) }
{
    let mut crossings = ArrayVec::new();
    for at in 0..count {
        crossings.push(crossing_at(passes, signs, at));
    }
    crossings
}
