//! The search for pivots: maps that are a number times the identity.

ghost use Rattle.std.specs.Prelude.{◌≡◌, ◌↔◌, ◌⊎◌, ℕ, ◌<◌, length, true, All, Any, IfSome, None, Some};
ghost use Rattle.tangle_scan.specs.Held.{HasNoPivot, IsPivot, is_alive_at, partners_at};
ghost use Rattle.tangle_scan.specs.Eliminations.{IsCandidate, IsIndexed};

use crate::clearing::rows::{Rowed, Rows};
use crate::complex::{Entry, Object};
use tangle_maps::number_of;

/// A pivot: the places of its tail and its head, and its number.
#[derive(Clone, Copy)]
pub(crate) struct Pivot {
    pub(crate) tail: usize,
    pub(crate) head: usize,
    pub(crate) number: u8,
}

/// A pivot of the first object that has one.
pub(crate) fn find_pivot(rowed: &Rowed) -> Option<Pivot>
    requires { IsIndexed rowed.now }
    ensures found { IfSome result (λ pivot.
        IsPivot rowed.now.complex pivot.tail pivot.head pivot.number) }
    ensures none { result ≡ None → HasNoPivot rowed.now.complex }
{
    'tails: for tail in 0..rowed.complex.objects.len() {
        if let Some(pivot) = pivot_of(rowed, tail) {
            return Some(pivot);
        }
    }
    None
}

/// The pivot out of an object whose row is shortest.
pub(crate) fn pivot_of(rowed: &Rowed, tail: usize) -> Option<Pivot>
    requires indexed { IsIndexed rowed.now }
    requires tail { tail < length rowed.now.complex.objects.items }
    ensures found { IfSome result (λ pivot.
        IsPivot rowed.now.complex pivot.tail pivot.head pivot.number) }
    ensures none { result ≡ None → (head number : ℕ)
        → IsPivot rowed.now.complex tail head number → ⊥ }
{
    if !rowed.complex.objects[tail].is_alive {
        return None;
    }
    let column = rowed.complex.columns[tail].as_slice();
    let objects = rowed.complex.objects.as_slice();
    match best_of(objects, &rowed.rows, tail, column) {
        Some(best) => Some(Pivot {
            tail,
            head: best.head,
            number: best.number,
        }),
        None => None,
    }
}

/// A head, the number that the map there is, and how many columns the head's row names.
#[derive(Clone, Copy)]
struct Candidate {
    head: usize,
    number: u8,
    size: usize,
}

/// The candidate among entries out of an object whose row is shortest.
fn best_of(objects: &[Object], rows: &Rows, tail: usize, column: &[Entry]) -> Option<Candidate>
    requires tail { tail < length objects.now }
    requires rows { length rows.now.items ≡ length objects.now }
    requires heads { All (λ entry. entry.head < length objects.now) column.now }
    ensures found { IfSome result (λ best. Any
        (λ entry. IsCandidate objects.now tail entry best.head best.number) column.now) }
    ensures none { result ≡ None → All (λ entry. (head number : ℕ)
        → IsCandidate objects.now tail entry head number → ⊥) column.now }
{
    let mut best = None;
    'entries: for entry in column {
        best = shorter(best, candidate_of(objects, rows, tail, entry));
    }
    best
}

/// Of two candidates one whose row is shorter, if there is one.
fn shorter(one: Option<Candidate>, other: Option<Candidate>) -> Option<Candidate>
    ensures found { IfSome result (λ best. (one ≡ Some best) ⊎ (other ≡ Some best)) }
    ensures none { result ≡ None → (one ≡ None) × (other ≡ None) }
{
    match (one, other) {
        (Some(first), Some(second)) => { if second.size < first.size { other } else { one } }
        (Some(_), None) => one,
        (None, _) => other,
    }
}

/// The number that the map of an entry is, times the identity, if it is one.
fn candidate_of(objects: &[Object], rows: &Rows, tail: usize, entry: &Entry) -> Option<Candidate>
    requires tail { tail < length objects.now }
    requires rows { length rows.now.items ≡ length objects.now }
    requires head { entry.now.head < length objects.now }
    ensures found { IfSome result (λ found.
        IsCandidate objects.now tail entry.now found.head found.number) }
    ensures none { result ≡ None → (head number : ℕ)
        → IsCandidate objects.now tail entry.now head number → ⊥ }
{
    let head = entry.head;
    match number_of(entry.terms.as_slice()) {
        Some(number) if can_cancel(objects, tail, head) => Some(Candidate {
            head,
            number,
            size: rows[head].len(),
        }),
        _ => None,
    }
}

/// Whether an object is there, and has the pairing of a tail.
fn can_cancel(objects: &[Object], tail: usize, head: usize) -> bool
    requires tail { tail < length objects.now }
    requires head { head < length objects.now }
    ensures { (result ≡ true) ↔ ((is_alive_at objects.now head ≡ true)
        × (partners_at objects.now head ≡ partners_at objects.now tail)) }
{
    objects[head].is_alive && have_one_pairing(&objects[head], &objects[tail])
}

/// Whether two objects have the same partners.
pub(crate) fn have_one_pairing(one: &Object, other: &Object) -> bool
    ensures { (result ≡ true) ↔ (one.now.pairing.partners ≡ other.now.pairing.partners) }
{
    one.pairing.partners == other.pairing.partners
}
