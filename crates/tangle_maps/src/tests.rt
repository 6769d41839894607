//! What no clause says: that the calls succeed where there is memory, and what small compositions
//! come to. The values are relations of dotted surfaces (Bar-Natan 2005), worked out by hand: a
//! torus is 2, a neck is cut to a dot on either side, and two dots on a sheet are 0.

ghost use Rattle.std.specs.Prelude.{IfOk};
ghost use Rattle.tangle_maps.specs.Sums.{AreReduced};

use crate::{POINTS, Pairing, Seams, Terms, Way, add_term, cancel, compose, is_way};
use dotted_maps::term::Term;
use kh_types::NoMemory;
use prime_field::laws::element_laws;
use prime_field::{F3, PrimeField};
use smallvec::SmallVec;
use std::alloc::Global;
use std::test::Fail;

type Pairs = &'static [(u8, u8)];

/// Pairs of three pairings; the dots of a map from the first to the second, after which one
/// without dots leads to the third; the terms of the composition over three elements, by dots and
/// coefficient, and those of its negative.
struct Row {
    pairs: [Pairs; 3],
    dots: u64,
    whole: &'static [(u64, u8)],
    negative: &'static [(u64, u8)],
}

const ACROSS: Pairs = &[(1, 2), (3, 4)];

const ALONG: Pairs = &[(1, 4), (3, 2)];

const ROWS: &[Row] = &[
    // A torus, between three pairings of six arcs of which any two make one disc.
    Row {
        pairs: [
            &[(1, 2), (3, 4), (5, 6)],
            &[(1, 6), (3, 2), (5, 4)],
            &[(1, 4), (3, 6), (5, 2)],
        ],
        dots: 0,
        whole: &[(1, 2)],
        negative: &[(1, 1)],
    },
    // A saddle and back, without a dot, and with one.
    Row {
        pairs: [ACROSS, ALONG, ACROSS],
        dots: 0,
        whole: &[(1, 1), (2, 1)],
        negative: &[(1, 2), (2, 2)],
    },
    Row {
        pairs: [ACROSS, ALONG, ACROSS],
        dots: 1,
        whole: &[(3, 1)],
        negative: &[(3, 2)],
    },
    // The identity after a dotted sheet.
    Row {
        pairs: [ACROSS, ACROSS, ACROSS],
        dots: 2,
        whole: &[(2, 1)],
        negative: &[(2, 2)],
    },
];

/// A pairing with these pairs.
fn pairing_of(pairs: &[(u8, u8)]) -> Pairing {
    let mut made = Pairing::none();
    'pairs: for pair in pairs {
        pair_up(&mut made, pair.0, pair.1);
    }
    made
}

/// Makes partners of two arcs, where both have none.
fn pair_up(made: &mut Pairing, one: u8, other: u8) {
    if usize::from(one) < POINTS && usize::from(other) < POINTS && one != other {
        if made.partner(one) == one && made.partner(other) == other {
            made.pair(one, other);
        }
    }
}

/// A map of one term, with the coefficient 1.
fn map_of<F: PrimeField>(alloc: Global, dots: u64) -> Result<Terms, NoMemory>
    ensures { IfOk result (λ map. AreReduced F.P map.items) }
{
    element_laws::<F>();
    let mut map: Terms = SmallVec::new(alloc);
    add_term(&mut map, dots, F::of(1))?;
    Ok(map)
}

/// The composition of a row, and what 0 becomes where 1 is cancelled along it.
fn sums_of<F: PrimeField>(alloc: Global, row: &Row) -> Result<(Terms, Terms), NoMemory> {
    element_laws::<F>();
    let pairings = row.pairs.map(|pairs| pairing_of(pairs));
    let opened = pairings[0].arcs();
    let first = map_of::<F>(alloc, row.dots)?;
    let second = map_of::<F>(alloc, 0)?;
    let way = Way {
        opened: opened.as_slice(),
        from: &pairings[0],
        over: &pairings[1],
        to: &pairings[2],
        first: first.as_slice(),
        second: second.as_slice(),
    };
    let mut left: Terms = SmallVec::new(alloc);
    if !is_way(&way) {
        return Ok((SmallVec::new(alloc), left));
    }
    let mut seams = Seams::none(alloc)?;
    cancel(&mut left, &mut seams, &way, F::of(1))?;
    let whole = compose::<F>(alloc, &way)?;
    Ok((whole, left))
}

/// Whether a sum has these terms, by dots and coefficient, in this order.
fn has_terms(sum: &[Term], terms: &[(u64, u8)]) -> bool {
    sum.len() == terms.len()
        && sum
            .iter()
            .zip(terms)
            .all(|(found, term)| (found.dots, found.coefficient) == *term)
}

#[test]
fn small_compositions_come_to_known_sums(rt: HostRuntime) -> Result<(), Fail> {
    for row in ROWS {
        let (whole, left) = sums_of::<F3>(rt.alloc(), row)?;
        assert!(rt; has_terms(&whole, row.whole), "{whole:?}");
        assert!(rt; has_terms(&left, row.negative), "{left:?}");
    }
    Ok(())
}
