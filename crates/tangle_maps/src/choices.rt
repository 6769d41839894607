//! The dot sets that leave so many discs of each component without a dot.

ghost use Rattle.std.specs.Prelude.{◌≡◌, ◌≢◌, ◌<◌, ◌≤◌, ◌+◌, ◌-◌, ◌^◌, OnOk, length, nat_eq, false, slice_index, slice_set};
ghost use Rattle.std.specs.List.{count_by, list_all, AllByRecursion, Contains};
ghost use Rattle.tangle_maps.specs.declared.pairing.TheConstants.{POINTS};
ghost use Rattle.dotted_maps.specs.Choices.{choices};
ghost use Rattle.tangle_maps.specs.Pairings.{IsOpened};
ghost use Rattle.tangle_maps.specs.Sums.{AreReduced, IsSum};
ghost use Rattle.tangle_maps.specs.Chosen.{chosen};

use crate::names::{Names, at};
use crate::seam::how_many;
use crate::sum::{Terms, add_term};
use kh_types::NoMemory;
use prime_field::PrimeField;

/// A dot set in the making: the dots on the discs before a place, and the place.
#[derive(Clone, Copy)]
pub(crate) struct Dots {
    pub(crate) dots: u64,
    pub(crate) place: u32,
}

/// Adds a term for each choice of the discs behind a place, of which these are the components, that
/// leaves so many of each of the named components without a dot.
pub(crate) fn add_choices<F: PrimeField>(
    terms: &mut Terms,
    names: &[u8],
    discs: &[u8],
    left: &Names,
    made: Dots,
    value: F,
) -> Result<(), NoMemory>
    requires reduced { AreReduced F.P terms.old.items }
    requires names { IsOpened names.now }
    requires discs { IsOpened discs.now }
    requires named { AllByRecursion (λ k. Contains names.now k) discs.now }
    requires place { made.place + length discs.now ≤ POINTS }
    requires dots { made.dots < 2 ^ made.place }
    ensures sum { OnOk result (IsSum F.P terms.old.items
        (chosen made.dots made.place (F.value_of value)
        (choices names.now discs.now (slice_index left.now)))
        terms.new.items) }
    ensures reduced { AreReduced F.P terms.new.items }
{
    match discs.split_first() {
        None => {
            if is_done(names, left) {
                add_term(terms, made.dots, value)?;
            }
        }
        Some((component, rest)) => {
            if !may_have_dot(rest, left, *component) {
                let fewer = fewer(left, *component);
                return add_choices(terms, names, rest, &fewer, undotted(made), value);
            }
            add_choices(terms, names, rest, left, dotted(made), value)?;
            if at(left, *component) > 0 {
                add_choices(
                    terms,
                    names,
                    rest,
                    &fewer(left, *component),
                    undotted(made),
                    value,
                )?;
            }
        }
    }
    Ok(())
}

/// Whether a disc of a component may have a dot: there is another one among the rest, or none is to
/// be left without a dot.
fn may_have_dot(rest: &[u8], left: &Names, component: u8) -> bool
    requires { component < POINTS }
    ensures { result ≡ false → (slice_index left.now component ≢ 0)
        × (count_by (λ x. nat_eq x component) rest.now ≡ 0) }
{
    at(left, component) == 0 || how_many(component, rest) > 0
}

/// Whether no disc is to be left without a dot any more.
fn is_done(names: &[u8], left: &Names) -> bool
    requires { IsOpened names.now }
    ensures { result ≡ list_all (λ k. nat_eq (slice_index left.now k) 0) names.now }
{
    'names: for name in names {
        if at(left, *name) > 0 {
            return false;
        }
    }
    true
}

/// One less at a component.
fn fewer(left: &Names, component: u8) -> Names
    requires below { component < POINTS }
    requires some { 0 < slice_index left.now component }
    ensures { result ≡ slice_set left.now component (slice_index left.now component - 1) }
{
    let mut fewer = *left;
    fewer[usize::from(component)] -= 1;
    fewer
}

/// With a dot at the place.
fn dotted(made: Dots) -> Dots
    requires place { made.place < POINTS }
    requires dots { made.dots < 2 ^ made.place }
    ensures place { result.place ≡ made.place + 1 }
    ensures dots { result.dots ≡ made.dots + 2 ^ made.place }
    ensures below { result.dots < 2 ^ result.place }
{
    Dots {
        dots: made.dots + (1 << made.place),
        place: made.place + 1,
    }
}

/// Without a dot at the place.
fn undotted(made: Dots) -> Dots
    requires place { made.place < POINTS }
    requires dots { made.dots < 2 ^ made.place }
    ensures place { result.place ≡ made.place + 1 }
    ensures dots { result.dots ≡ made.dots }
    ensures below { result.dots < 2 ^ result.place }
{
    Dots {
        dots: made.dots,
        place: made.place + 1,
    }
}
