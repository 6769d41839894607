//! What no clause says: that blocks are made where there is memory, and what known ones read as.

ghost use Rattle.std.specs.Prelude.{◌≡◌};

use circle_smoothing::CountedDiagram;
use cube_signs::{
    Cube, Generator, SizeLimit, SmallDiagram, block_columns, block_degrees, check_size,
};
use kh_types::{Diagram, NoMemory};
use known_links::{TREFOIL, diagram_of};
use prime_field::{F2, F3, F5, F7, PrimeField};
use sparse_block::Complex;
use std::alloc::Global;
use std::process::Abort;
use std::test::Fail;

/// The generators of a homological degree, each by its state and its label, and the entries of
/// their columns: the place of each, and whether the sign is -1.
struct Degree {
    i: i16,
    names: &'static [(u32, u64)],
    columns: &'static [&'static [(u32, bool)]],
}

/// The block of the trefoil at -5, by hand: three circles, of which one has v-, are merged by each
/// crossing; in the states with one 1-smoothing the two circles are merged, and in those with two
/// the one circle is split.
const DEGREES: &[Degree] = &[
    Degree {
        i: -3,
        names: &[(0, 1), (0, 2), (0, 4)],
        columns: &[
            &[(0, false), (2, false), (4, false)],
            &[(0, false), (3, false), (5, false)],
            &[(1, false), (2, false), (5, false)],
        ],
    },
    Degree {
        i: -2,
        names: &[(1, 1), (1, 2), (2, 1), (2, 2), (4, 1), (4, 2)],
        columns: &[
            &[(0, true), (1, true)],
            &[(0, true), (1, true)],
            &[(0, false), (2, true)],
            &[(0, false), (2, true)],
            &[(1, false), (2, false)],
            &[(1, false), (2, false)],
        ],
    },
    Degree {
        i: -1,
        names: &[(3, 1), (5, 1), (6, 1)],
        columns: &[&[(0, false)], &[(0, true)], &[(0, false)]],
    },
    Degree {
        i: 0,
        names: &[(7, 3)],
        columns: &[&[]],
    },
];

#[test]
fn the_trefoil_has_this_block(rt: HostRuntime) -> Result<(), Fail> {
    let diagram = diagram_of(TREFOIL, 0)?;
    has_block::<F2>(&rt, rt.alloc(), &diagram)?;
    has_block::<F3>(&rt, rt.alloc(), &diagram)?;
    has_block::<F5>(&rt, rt.alloc(), &diagram)?;
    has_block::<F7>(&rt, rt.alloc(), &diagram)?;
    Ok(())
}

/// The block at -5 is that of the table.
fn has_block<F: PrimeField>(rt: &impl Abort, alloc: Global, diagram: &Diagram) -> Result<(), Fail> {
    let found = block_at::<F>(alloc, diagram, -5)?;
    assert!(rt; found.is_some());
    if let Some(block) = found {
        assert_eq!(rt; block.low(), -3);
        assert_eq!(rt; block.high(), 0);
        for degree in DEGREES {
            has_degree(rt, &block, degree);
        }
    }
    Ok(())
}

/// A degree of a block has these generators and columns.
fn has_degree<F: PrimeField>(rt: &impl Abort, block: &Complex<F>, degree: &Degree) {
    assert_eq!(rt; block.places(degree.i) as usize, degree.names.len());
    assert_eq!(rt; block.alive(degree.i) as usize, degree.names.len());
    for place in 0..block.places(degree.i) {
        has_place(rt, block, degree, place);
    }
}

fn has_place<F: PrimeField>(rt: &impl Abort, block: &Complex<F>, degree: &Degree, place: u32) {
    let i = degree.i;
    if i < block.low() || block.high() < i || block.places(i) <= place {
        return;
    }
    let named = degree.names.get(place as usize).map(|name| Generator {
        state: name.0,
        label: name.1,
    });
    assert_eq!(rt; named, Some(block.name(i, place)));
    if let Some(entries) = degree.columns.get(place as usize) {
        let column = block.column(i, place);
        assert_eq!(rt; column.len(), entries.len());
        for (entry, is) in column.iter().zip(entries.iter()) {
            assert_eq!(rt; entry.place(), is.0);
            assert_eq!(rt; entry.value(), if is.1 { F::P - 1 } else { 1 });
        }
    }
}

/// The block at a quantum degree, if it has one.
fn block_at<F: PrimeField>(
    alloc: Global,
    diagram: &Diagram,
    j: i16,
) -> Result<Option<Complex<F>>, NoMemory> {
    let degrees = block_degrees(alloc, diagram)?;
    for k in 0..degrees.len() {
        if degrees[k] == j && check_size(diagram).is_ok() {
            return Ok(Some(block_columns(alloc, diagram, degrees[k])?));
        }
    }
    Ok(None)
}

/// How many places the first degrees of all blocks of a diagram have.
fn first_places<F: PrimeField>(alloc: Global, diagram: &Diagram) -> Result<Vec<u32>, NoMemory> {
    let mut places = Vec::new(alloc);
    if check_size(diagram).is_err() {
        return Ok(places);
    }
    let cube = Cube::new(alloc, diagram)?;
    let degrees = cube.block_degrees(alloc)?;
    for k in 0..degrees.len() {
        let block: Complex<F> = cube.block(alloc, degrees[k])?;
        places.push(block.places(block.low()))?;
    }
    Ok(places)
}

#[test]
fn a_cube_has_all_blocks_of_the_trefoil(rt: HostRuntime) -> Result<(), Fail> {
    let places = first_places::<F2>(rt.alloc(), &diagram_of(TREFOIL, 0)?)?;
    assert_eq!(rt; places.as_slice(), [1, 3, 3, 1, 1].as_slice());
    Ok(())
}

#[test]
fn the_trefoil_has_these_quantum_degrees(rt: HostRuntime) -> Result<(), Fail> {
    let degrees = block_degrees(rt.alloc(), &diagram_of(TREFOIL, 0)?)?;
    assert_eq!(rt; degrees.as_slice(), [-9, -7, -5, -3, -1].as_slice());
    Ok(())
}

#[test]
fn twenty_curls_have_too_many_generators(rt: HostRuntime) -> Result<(), Fail> {
    let mut crossings = [[0u8; 4]; 20];
    for k in 0..20 {
        let arc = 2 * k as u8 + 1;
        crossings[k] = [arc, arc, arc + 1, arc + 1];
    }
    let generators = 3_656_158_440_062_976;
    let diagram = diagram_of(&crossings, 0)?;
    let counted = CountedDiagram::of_diagram(&diagram);
    assert!(rt; check_size(&diagram) == Err(SizeLimit { generators }));
    assert!(rt; SmallDiagram::try_new(counted).err() == Some(SizeLimit { generators }));
    assert!(rt; check_size(&diagram_of(TREFOIL, 0)?) == Ok(30));
    Ok(())
}
