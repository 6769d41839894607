//! Sums of terms.

ghost use Rattle.std.specs.Prelude.{◌≡◌, ◌<◌, [], ◌∷◌, OnErr, OnOk, length, nat_eq, get_or, slice_set};
ghost use Rattle.std.specs.List.{position};
ghost use Rattle.prime_field.specs.Residues.{sum_mod};
ghost use Rattle.dotted_maps.specs.Maps.{scaled};
ghost use Rattle.tangle_maps.specs.Sums.{AreReduced, IsSum, has_dots, number_in, dotted_term};

use dotted_maps::term::Term;
use kh_types::NoMemory;
use prime_field::PrimeField;
use prime_field::laws::element_laws;
use smallvec::SmallVec;

/// How many terms a sum keeps in itself, before it takes memory.
pub const INLINE_TERMS: usize = 2;

/// A sum of terms, in any order. Where it is reduced, no two have the same dots, and none is 0.
pub type Terms = SmallVec<Term, INLINE_TERMS>;

/// Adds a term to a sum. Out of memory the sum is as it was.
pub fn add_term<F: PrimeField>(terms: &mut Terms, dots: u64, value: F) -> Result<(), NoMemory>
    requires { AreReduced F.P terms.old.items }
    ensures kept { OnErr result (terms.new.items ≡ terms.old.items) }
    ensures sum { OnOk result
        (IsSum F.P terms.old.items (dotted_term dots (F.value_of value) ∷ []) terms.new.items) }
    ensures reduced { AreReduced F.P terms.new.items }
{
    element_laws::<F>();
    let coefficient = value.value();
    if coefficient == 0 {
        return Ok(());
    }
    match place_of(terms.as_slice(), dots) {
        Some(place) => add_at(terms, place, value),
        None => terms.push(Term { dots, coefficient })?,
    }
    Ok(())
}

/// The place of the term with these dots.
fn place_of(terms: &[Term], dots: u64) -> Option<usize>
    ensures { result ≡ position (has_dots dots) terms.now }
{
    terms.iter().position(|term| term.dots == dots)
}

/// Adds to the coefficient at a place, and takes the term out if it becomes 0.
fn add_at<F: PrimeField>(terms: &mut Terms, place: usize, value: F)
    requires place { place < length terms.old.items }
    requires reduced { AreReduced F.P terms.old.items }
    ensures sum { IsSum F.P terms.old.items
        (dotted_term (get_or terms.old.items place (dotted_term 0 0)).dots (F.value_of value) ∷ [])
        terms.new.items }
    ensures reduced { AreReduced F.P terms.new.items }
{
    element_laws::<F>();
    let dots = terms.as_slice()[place].dots;
    let coefficient = sum_at(terms.as_slice(), place, value);
    if coefficient == 0 {
        terms.remove(place);
    } else {
        put(terms, place, Term { dots, coefficient });
    }
}

/// The coefficient at a place, with an element added to it.
fn sum_at<F: PrimeField>(terms: &[Term], place: usize, value: F) -> u8
    requires place { place < length terms.now }
    requires below { (get_or terms.now place (dotted_term 0 0)).coefficient < F.P }
    ensures sum { result
        ≡ sum_mod F.P (get_or terms.now place (dotted_term 0 0)).coefficient (F.value_of value) }
    ensures below { result < F.P }
{
    F::of(terms[place].coefficient).add(value).value()
}

/// Writes the term at a place.
fn put(terms: &mut Terms, place: usize, term: Term)
    requires { place < length terms.old.items }
    ensures { terms.new.items ≡ slice_set terms.old.items place term }
{
    terms.as_mut_slice()[place] = term;
}

/// Adds a multiple of a sum to a sum. Out of memory it may be half done.
pub fn add_scaled<F: PrimeField>(
    terms: &mut Terms,
    more: &[Term],
    factor: F,
) -> Result<(), NoMemory>
    requires terms { AreReduced F.P terms.old.items }
    requires more { AreReduced F.P more.now }
    ensures sum { OnOk result
        (IsSum F.P terms.old.items (scaled (F.value_of factor) more.now) terms.new.items) }
    ensures reduced { AreReduced F.P terms.new.items }
{
    'terms: for term in more {
        add_multiple(terms, term, factor)?;
    }
    Ok(())
}

/// Adds a multiple of a term to a sum.
fn add_multiple<F: PrimeField>(terms: &mut Terms, term: &Term, factor: F) -> Result<(), NoMemory>
    requires terms { AreReduced F.P terms.old.items }
    requires term { term.now.coefficient < F.P }
    ensures sum { OnOk result
        (IsSum F.P terms.old.items (scaled (F.value_of factor) (term.now ∷ [])) terms.new.items) }
    ensures reduced { AreReduced F.P terms.new.items }
{
    element_laws::<F>();
    add_term(terms, term.dots, factor.mul(F::of(term.coefficient)))
}

/// Whether a reduced sum is 0.
pub fn is_zero(terms: &[Term]) -> bool
    ensures { result ≡ nat_eq (length terms.now) 0 }
{
    terms.is_empty()
}

/// The number that a map from a pairing to itself is, times the identity, if it is one: the map is
/// a reduced sum.
pub fn number_of(terms: &[Term]) -> Option<u8>
    ensures { result ≡ number_in terms.now }
{
    match terms {
        [term] if term.dots == 0 => Some(term.coefficient),
        _ => None,
    }
}
