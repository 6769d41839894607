//! Compositions of maps.

ghost use Rattle.std.specs.Prelude.{◌≡◌, ℕ, ◌<◌, ◌≤◌, ◌*◌, ◌-◌, ◌%◌, IfOk, OnOk, length, min, slice_index};
ghost use Rattle.std.specs.List.{flat_map, AllByRecursion, Contains};
ghost use Rattle.kh_types.specs.Residues.{Same};
ghost use Rattle.dotted_maps.specs.Choices.{choices};
ghost use Rattle.dotted_maps.specs.Maps.{scaled};
ghost use Rattle.dotted_maps.specs.Parts.{product_over};
ghost use Rattle.tangle_maps.specs.declared.pairing.TheConstants.{POINTS};
ghost use Rattle.tangle_maps.specs.Chosen.{chosen};
ghost use Rattle.tangle_maps.specs.Pairings.{IsOpened};
ghost use Rattle.tangle_maps.specs.KeptSeams.{IsSeamAlong};
ghost use Rattle.tangle_maps.specs.Seams.{CanCompose, factor_by, factor_for, left_by};
ghost use Rattle.tangle_maps.specs.Seams.{load_by, seam_listed, seam_terms};
ghost use Rattle.tangle_maps.specs.Sums.{AreReduced, IsSum};
ghost use Rattle.tangle_maps.specs.Ways.{HasReducedMaps, IsComposedAlong, IsWay};

use crate::choices::{Dots, add_choices};
use crate::known::KnownSeam;
use crate::names::{Names, at};
use crate::pairing::POINTS;
use crate::seam::{Seam, add_dots};
use crate::sum::Terms;
use crate::way::Way;
use dotted_maps::term::Term;
use kh_types::NoMemory;
use prime_field::PrimeField;
use prime_field::laws::element_laws;
use smallvec::SmallVec;
use std::alloc::Global;

/// Dots and genus of each component, as far as below 256.
fn loads(seam: &Seam, dots: u64, others: u64) -> Names
    ensures { (k : ℕ) → k < POINTS
        → slice_index result k ≡ min 255 (load_by seam.now dots others k) }
{
    let mut loads = seam.genera;
    add_dots(&mut loads, dots, &seam.first);
    add_dots(&mut loads, others, &seam.second);
    loads
}

/// A value times the factor of a component.
fn times_factor<F: PrimeField>(value: F, load: u8, genus: u8) -> F
    requires { genus ≤ load }
    ensures { F.value_of result ≡ F.value_of value * factor_for load genus % F.P }
{
    element_laws::<F>();
    if load > 1 {
        F::of(0)
    } else if genus == 1 {
        value.add(value)
    } else {
        value
    }
}

/// Writes down how many discs each component leaves without a dot, and multiplies a value by the
/// factors of all components.
fn weigh<F: PrimeField>(seam: &Seam, dots: u64, others: u64, left: &mut Names, value: F) -> F
    requires { IsOpened seam.now.components.items }
    ensures left { (k : ℕ) → Contains seam.now.components.items k
        → slice_index left.new k ≡ left_by seam.now dots others k }
    ensures value { Same F.P (F.value_of result) (F.value_of value
        * product_over (factor_by seam.now dots others) seam.now.components.items) }
{
    let loads = loads(seam, dots, others);
    let components: &[u8] = &seam.components;
    let mut weighed = value;
    'components: for component in components {
        let load = at(&loads, *component);
        left[usize::from(*component)] = left_at(load);
        weighed = times_factor(weighed, load, at(&seam.genera, *component));
    }
    weighed
}

/// How many discs a component with this load leaves without a dot.
fn left_at(load: u8) -> u8
    ensures { result ≡ 1 - load }
{
    if load == 0 { 1 } else { 0 }
}

/// Adds a multiple of the composition of two terms to a sum.
pub(crate) fn add_composed<F: PrimeField>(
    terms: &mut Terms,
    seam: &Seam,
    term: &Term,
    other: &Term,
    factor: F,
) -> Result<(), NoMemory>
    requires reduced { AreReduced F.P terms.old.items }
    requires seam { CanCompose seam.now }
    requires term { term.now.coefficient < F.P }
    requires other { other.now.coefficient < F.P }
    ensures sum { OnOk result (IsSum F.P terms.old.items
        (scaled (F.value_of factor) (seam_terms seam.now term.now other.now)) terms.new.items) }
    ensures reduced { AreReduced F.P terms.new.items }
{
    let mut left = [0; POINTS];
    let value = product(term, other, factor);
    let weighed = weigh(seam, term.dots, other.dots, &mut left, value);
    add_weighed(terms, &seam.components, &seam.whole, &left, weighed)
}

/// Adds a term for each choice of discs, of which these are the components, that leaves so many of
/// each of the named components without a dot; nothing, where their coefficient is 0.
fn add_weighed<F: PrimeField>(
    terms: &mut Terms,
    names: &[u8],
    discs: &[u8],
    left: &Names,
    weighed: F,
) -> Result<(), NoMemory>
    requires reduced { AreReduced F.P terms.old.items }
    requires names { IsOpened names.now }
    requires discs { IsOpened discs.now }
    requires named { AllByRecursion (λ k. Contains names.now k) discs.now }
    requires room { length discs.now ≤ POINTS }
    ensures sum { OnOk result (IsSum F.P terms.old.items
        (chosen 0 0 (F.value_of weighed) (choices names.now discs.now (slice_index left.now)))
        terms.new.items) }
    ensures reduced { AreReduced F.P terms.new.items }
{
    if weighed.value() == 0 {
        return Ok(());
    }
    let none = Dots { dots: 0, place: 0 };
    add_choices(terms, names, discs, left, none, weighed)
}

/// The product of two terms' coefficients, times a factor.
pub(crate) fn product<F: PrimeField>(term: &Term, other: &Term, factor: F) -> F
    requires term { term.now.coefficient < F.P }
    requires other { other.now.coefficient < F.P }
    ensures { Same F.P (F.value_of result)
        (F.value_of factor * (term.now.coefficient * other.now.coefficient)) }
{
    factor.mul(F::of(term.coefficient).mul(F::of(other.coefficient)))
}

/// Adds a multiple of the composition of a term, and each term of a map after it, to a sum.
fn add_behind<F: PrimeField>(
    terms: &mut Terms,
    seam: &mut KnownSeam,
    term: &Term,
    second: &[Term],
    factor: F,
) -> Result<(), NoMemory>
    requires reduced { AreReduced F.P terms.old.items }
    requires seam { CanCompose seam.old }
    requires term { term.now.coefficient < F.P }
    requires second { AreReduced F.P second.now }
    ensures same { seam.new ≡ seam.old }
    ensures sum { OnOk result (IsSum F.P terms.old.items
        (scaled (F.value_of factor) (flat_map (seam_terms seam.old term.now) second.now))
        terms.new.items) }
    ensures reduced { AreReduced F.P terms.new.items }
{
    'others: for other in second {
        seam.add_composed(terms, term, other, factor)?;
    }
    Ok(())
}

/// Adds a multiple of the composition of two maps over a seam to a sum.
pub fn add_all<F: PrimeField>(
    terms: &mut Terms,
    seam: &mut KnownSeam,
    first: &[Term],
    second: &[Term],
    factor: F,
) -> Result<(), NoMemory>
    requires reduced { AreReduced F.P terms.old.items }
    requires seam { CanCompose seam.old }
    requires first { AreReduced F.P first.now }
    requires second { AreReduced F.P second.now }
    ensures same { seam.new ≡ seam.old }
    ensures sum { OnOk result (IsSum F.P terms.old.items
        (scaled (F.value_of factor) (seam_listed seam.old first.now second.now)) terms.new.items) }
    ensures reduced { AreReduced F.P terms.new.items }
{
    'terms: for term in first {
        add_behind(terms, seam, term, second, factor)?;
    }
    Ok(())
}

/// The seam of a way.
pub(crate) fn seam_of(alloc: Global, way: &Way<'_>) -> KnownSeam
    requires { IsWay way.now }
    ensures { IsSeamAlong way.now result }
{
    KnownSeam::new(alloc, Seam::new(way.from, way.over, way.to, way.opened))
}

/// The composition of a way's maps, as a reduced sum.
/// Source: after Bar-Natan 2005, the composition of dotted surfaces.
pub fn compose<F: PrimeField>(alloc: Global, way: &Way<'_>) -> Result<Terms, NoMemory>
    requires way { IsWay way.now }
    requires maps { HasReducedMaps F.P way.now }
    ensures composition { IfOk result (λ whole. IsComposedAlong F.P way.now whole.items) }
    ensures reduced { IfOk result (λ whole. AreReduced F.P whole.items) }
{
    element_laws::<F>();
    let mut seam = seam_of(alloc, way);
    let mut whole: Terms = SmallVec::new(alloc);
    add_all(&mut whole, &mut seam, way.first, way.second, F::of(1))?;
    Ok(whole)
}
