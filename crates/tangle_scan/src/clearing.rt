//! Clearing a complex of isomorphisms: maps that are a number times the identity are cancelled
//! until none is left. A few passes go over the objects. What they leave, since a cancellation
//! makes new numbers in columns that were passed, is searched for from the first object on.

ghost use Rattle.std.specs.Prelude.{◌≡◌, ◌<◌, length, true, IfOk};
ghost use Rattle.scan_laws.specs.Steps.{LeadsTo};
ghost use Rattle.tangle_scan.specs.Held.{HasNoPivot, IsComplexAt, IsFront, scan_at};
ghost use Rattle.tangle_scan.specs.Eliminations.{AllHaveDots, IsRowed, IsRowedFrom};

mod pivots;
mod rows;
mod turns;
mod ways;

use crate::clearing::pivots::{Pivot, find_pivot, pivot_of};
use crate::clearing::rows::{Rowed, rows_of};
use crate::clearing::turns::eliminate;
use crate::complex::{Front, Object, TangleComplex};
use kh_types::NoMemory;
use prime_field::PrimeField;
use std::alloc::Global;
use tangle_maps::Seams;

/// A pass over the objects with a smoothing of the crossing that was added last, which cancels a
/// pivot out of each, if it has one through which at most so many ways lead.
#[derive(Clone, Copy)]
struct Pass {
    smoothing: u8,
    most_ways: usize,
}

/// First what changes no other map, then the rest. Objects with the 0-smoothing come first, since
/// most pivots are saddles out of them; in another order there are several times as many ways.
const PASSES: [Pass; 4] = [
    Pass {
        smoothing: 0,
        most_ways: 0,
    },
    Pass {
        smoothing: 1,
        most_ways: 0,
    },
    Pass {
        smoothing: 0,
        most_ways: usize::MAX,
    },
    Pass {
        smoothing: 1,
        most_ways: usize::MAX,
    },
];

/// Cancels maps that are a number times the identity until none is left. Which comes first no
/// clause says: it goes pass by pass, and takes in each column the entry whose row is the shortest.
/// Source: Bar-Natan 2007.
pub fn eliminate_all<F: PrimeField>(
    alloc: Global,
    front: &Front,
    complex: TangleComplex,
) -> Result<TangleComplex, NoMemory>
    requires front { IsFront front.now }
    requires complex { IsComplexAt F.P front.now complex }
    requires dots { AllHaveDots front.now.diagram (scan_at front.now complex) }
    ensures complex { IfOk result (IsComplexAt F.P front.now) }
    ensures dots { IfOk result (λ next. AllHaveDots front.now.diagram (scan_at front.now next)) }
    ensures steps { IfOk result (λ next.
        LeadsTo F.P 0 0 front.now.diagram (scan_at front.now complex) (scan_at front.now next)) }
    ensures none { IfOk result HasNoPivot }
{
    let rows = rows_of(alloc, complex.columns.as_slice())?;
    let rowed = Rowed {
        complex,
        rows,
        seams: Seams::none(alloc)?,
    };
    let rowed = pass_each::<F>(alloc, front, rowed)?;
    let rowed = finish::<F>(alloc, front, rowed)?;
    Ok(rowed.complex)
}

/// Makes all passes, one after another.
fn pass_each<F: PrimeField>(alloc: Global, front: &Front, rowed: Rowed) -> Result<Rowed, NoMemory>
    requires front { IsFront front.now }
    requires rowed { IsRowed F.P front.now rowed }
    ensures { IfOk result (IsRowedFrom F.P front.now rowed.complex) }
{
    let mut rowed = rowed;
    'passes: for pass in PASSES {
        rowed = pass_all::<F>(alloc, front, rowed, pass)?;
    }
    Ok(rowed)
}

/// Makes a pass over all objects.
fn pass_all<F: PrimeField>(
    alloc: Global,
    front: &Front,
    rowed: Rowed,
    pass: Pass,
) -> Result<Rowed, NoMemory>
    requires front { IsFront front.now }
    requires rowed { IsRowed F.P front.now rowed }
    ensures { IfOk result (IsRowedFrom F.P front.now rowed.complex) }
{
    let mut rowed = rowed;
    'places: for place in 0..rowed.complex.objects.len() {
        rowed = pass_object::<F>(alloc, front, rowed, pass, place)?;
    }
    Ok(rowed)
}

/// Cancels a pivot out of the object at a place, if the pass does so.
fn pass_object<F: PrimeField>(
    alloc: Global,
    front: &Front,
    rowed: Rowed,
    pass: Pass,
    place: usize,
) -> Result<Rowed, NoMemory>
    requires front { IsFront front.now }
    requires rowed { IsRowed F.P front.now rowed }
    ensures { IfOk result (IsRowedFrom F.P front.now rowed.complex) }
{
    if !has_smoothing(rowed.complex.objects.as_slice(), place, pass.smoothing) {
        return Ok(rowed);
    }
    match pivot_of(&rowed, place) {
        Some(pivot) if way_count(&rowed, &pivot) <= pass.most_ways => {
            eliminate::<F>(alloc, front, rowed, pivot)
        }
        _ => Ok(rowed),
    }
}

/// Whether there is an object at a place, with a smoothing of the crossing that was added last.
fn has_smoothing(objects: &[Object], place: usize, smoothing: u8) -> bool
    ensures { result ≡ true → place < length objects.now }
{
    match objects.get(place) {
        Some(object) => object.smoothing == smoothing,
        None => false,
    }
}

/// How many ways lead through a pivot, at most.
fn way_count(rowed: &Rowed, pivot: &Pivot) -> usize {
    let into = rowed.rows.get(pivot.head).map_or(0, |row| row.len());
    let out = rowed
        .complex
        .columns
        .get(pivot.tail)
        .map_or(0, |column| column.len());
    into.saturating_sub(1).saturating_mul(out.saturating_sub(1))
}

/// Cancels pivots until none is left.
fn finish<F: PrimeField>(alloc: Global, front: &Front, rowed: Rowed) -> Result<Rowed, NoMemory>
    requires front { IsFront front.now }
    requires rowed { IsRowed F.P front.now rowed }
    ensures rowed { IfOk result (IsRowedFrom F.P front.now rowed.complex) }
    ensures none { IfOk result (λ next. HasNoPivot next.complex) }
{
    let mut rowed = rowed;
    'pivots: while let Some(pivot) = find_pivot(&rowed) {
        rowed = eliminate::<F>(alloc, front, rowed, pivot)?;
    }
    Ok(rowed)
}
