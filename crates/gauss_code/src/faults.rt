//! What is wrong with a text that the grammar has.

ghost use Rattle.std.specs.Prelude.{◌≡◌, ◌≤◌, length, slice_index};
ghost use Rattle.std.specs.Option.{option_or};
ghost use Rattle.kh_types.specs.declared.limits.TheConstants.{CROSSINGS, INPUT_BYTES};
ghost use Rattle.gauss_code.specs.Faults.{crossing_limit, first_gauss_fault, label_fault, loop_limit, no_signs, sign_count, sign_fault};
ghost use Rattle.gauss_code.specs.Grammar.{is_number_token, number_places};
ghost use Rattle.gauss_code.specs.Held.{HasFewNumbers};
ghost use Rattle.gauss_code.specs.Listings.{crossing_count, labels_of, loop_group_count};

use crate::labels::{bad_label, bad_sign};
use crate::listing::{Body, Listing};
use crate::stop::GaussStop;
use kh_lex::{Kind, Token};
use kh_types::{CROSSINGS, INPUT_BYTES, LOOPS};

/// The first fault of a listing, if it has one, whose numbers stand at the places of those tokens
/// that are numbers.
pub fn first_gauss_fault(listing: &Listing, tokens: &[Token]) -> Option<GaussStop>
    requires { HasFewNumbers listing.now }
    ensures { result ≡ first_gauss_fault listing.now (number_places tokens.now) }
{
    if let Some(fault) = crossing_limit(&listing.body) {
        return Some(fault);
    }
    if let Some(fault) = loop_limit(&listing.body) {
        return Some(fault);
    }
    if let Some(fault) = label_fault(&listing.body, tokens) {
        return Some(fault);
    }
    if let Some(fault) = sign_count_fault(listing) {
        return Some(fault);
    }
    sign_fault(listing, tokens)
}

/// There are too many crossings.
fn crossing_limit(body: &Body) -> Option<GaussStop>
    requires { length (labels_of body.now) ≤ INPUT_BYTES }
    ensures { result ≡ crossing_limit body.now }
{
    let count = body.crossing_count();
    if count > CROSSINGS {
        Some(GaussStop::CrossingLimit {
            count: count as u32,
        })
    } else {
        None
    }
}

/// There are too many loops.
fn loop_limit(body: &Body) -> Option<GaussStop>
    requires { loop_group_count body.now ≤ INPUT_BYTES }
    ensures { result ≡ loop_limit body.now }
{
    let count = body.loop_group_count();
    if count > LOOPS {
        Some(GaussStop::LoopLimit {
            count: count as u32,
        })
    } else {
        None
    }
}

/// A label is bad.
fn label_fault(body: &Body, tokens: &[Token]) -> Option<GaussStop>
    requires { crossing_count body.now ≤ CROSSINGS }
    ensures { result ≡ label_fault body.now (number_places tokens.now) }
{
    let labels = body.labels();
    let at = bad_label(&labels)?;
    Some(GaussStop::Label {
        place: number_place(tokens, at),
    })
}

/// There are labels and no signs, or signs, and not as many as crossings.
fn sign_count_fault(listing: &Listing) -> Option<GaussStop>
    requires { HasFewNumbers listing.now }
    ensures { result ≡ option_or (no_signs listing.now) (sign_count listing.now) }
{
    let crossings = listing.body.crossing_count();
    match &listing.signs {
        None if listing.body.label_count() > 0 => Some(GaussStop::NoSigns),
        Some(signs) if signs.len() != crossings => Some(GaussStop::SignCount {
            found: signs.len() as u32,
            wanted: crossings as u32,
        }),
        _ => None,
    }
}

/// A sign is bad.
fn sign_fault(listing: &Listing, tokens: &[Token]) -> Option<GaussStop>
    requires { HasFewNumbers listing.now }
    ensures { result ≡ sign_fault listing.now (number_places tokens.now) }
{
    let at = bad_sign(listing.signs.as_ref()?)?;
    Some(GaussStop::Label {
        place: number_place(tokens, listing.body.label_count() + at),
    })
}

/// The place of the number behind so many others, and 0 where there are no more.
fn number_place(tokens: &[Token], at: usize) -> u32
    ensures { result ≡ slice_index (number_places tokens.now) at }
{
    let mut before = at;
    for token in tokens {
        if is_number_token(token) {
            if before == 0 {
                return token.place;
            }
            before -= 1;
        }
    }
    0
}

/// Whether a token is a number.
fn is_number_token(token: &Token) -> bool
    ensures { result ≡ is_number_token token.now }
{
    match token.kind {
        Kind::Number => true,
        _ => false,
    }
}
