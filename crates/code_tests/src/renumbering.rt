//! Renumbering under seeded names, against a plain second reading of its rule.

use arrayvec::ArrayVec;
use braid_maker::closure;
use kh_types::{CROSSINGS, Crossing, Diagram};
use known_links::{CURL, FIGURE_EIGHT, HOPF, TORUS_KNOT, TREFOIL, WHITEHEAD, diagram_of};
use orient_arcs::{Parts, renumber};
use std::test::Fail;

/// A circle that lies over another, and one over a strand of a curl.
const OVER_CIRCLE: &[[u8; 4]] = &[[1, 4, 2, 3], [2, 4, 1, 3]];

const CIRCLE_AND_CURL: &[[u8; 4]] = &[[2, 6, 3, 5], [3, 6, 4, 5], [1, 1, 2, 4]];

/// Braids whose closures are renamed: eight strands of four circles that lie over others, and
/// sixteen letters in four components.
const CIRCLES: &[i8] = &[1, -1, 3, -3, 5, -5, 7, -7];

const LETTERS: &[i8] = &[1, -1, 3, 3, -5, -5, 7, 7, -2, 2, -4, -4, 6, 6, 1, -7];

/// A number for each name.
type Numbers = [u8; 256];

/// Fifty seeded renamings of each of ten diagrams.
#[test]
fn seeded_names_are_numbered_as_in_a_second_reading(rt: HostRuntime) -> Result<(), Fail> {
    let mut seed = 1;
    for arcs in [
        CURL,
        HOPF,
        TREFOIL,
        FIGURE_EIGHT,
        WHITEHEAD,
        TORUS_KNOT,
        OVER_CIRCLE,
        CIRCLE_AND_CURL,
    ] {
        seed = next_seed(seed);
        assert!(rt; are_numbered_alike(&diagram_of(arcs, 2)?, seed), "{arcs:?}");
    }
    let circles = Diagram::try_new(&closure(8, CIRCLES))?;
    assert!(rt; are_numbered_alike(&circles, 2));
    let strands = Diagram::try_new(&closure(8, LETTERS))?;
    assert!(rt; are_numbered_alike(&strands, 3));
    Ok(())
}

/// Two names exchanged: the circle begins with the arc that enters the first crossing.
#[test]
fn a_circle_over_another_has_its_numbers_exchanged(rt: HostRuntime) -> Result<(), Fail> {
    let diagram = diagram_of(OVER_CIRCLE, 0)?;
    let mut names = own_names();
    names.swap(3, 4);
    let parts = parts_under(&diagram, &names);
    assert!(rt; parts.is_paired());
    assert!(rt; renumber(&parts).crossings.as_slice() == diagram.crossings());
    Ok(())
}

/// Whether fifty renamings are renumbered as the second reading says.
fn are_numbered_alike(diagram: &Diagram, first: u32) -> bool {
    let mut seed = first;
    let mut are_alike = true;
    for _ in 0..50u8 {
        seed = next_seed(seed);
        are_alike &= is_numbered_alike(&parts_under(diagram, &seeded_names(seed)));
    }
    are_alike
}

fn is_numbered_alike(parts: &Parts) -> bool {
    if !parts.is_paired() {
        return false;
    }
    let code = renumber(parts);
    code.loops == parts.loops && code.crossings.as_slice() == numbered(parts).as_slice()
}

/// A linear congruence (Knuth, "The Art of Computer Programming", volume 2, section 3.3.4).
fn next_seed(seed: u32) -> u32 {
    seed.wrapping_mul(1_664_525).wrapping_add(1_013_904_223)
}

fn own_names() -> Numbers {
    let mut names = [0; 256];
    for name in 0..=255u8 {
        set(&mut names, name, name);
    }
    names
}

/// The numbers 0 to 255 in an order that a seed gives: each in turn changes places with another.
fn seeded_names(first: u32) -> Numbers {
    let mut names = own_names();
    let mut seed = first;
    for name in 0..=255u8 {
        seed = next_seed(seed);
        let other = (seed >> 20) % 256;
        names.swap(usize::from(name), other as usize);
    }
    names
}

/// The crossings of a diagram under names of its arcs, with its directions.
fn parts_under(diagram: &Diagram, names: &Numbers) -> Parts {
    let mut crossings = ArrayVec::new();
    for slots in diagram.crossings() {
        let _ = crossings.try_push(under(names, *slots));
    }
    let mut positive = ArrayVec::new();
    for crossing in 1..=diagram.count() {
        let _ = positive.try_push(diagram.sign(crossing) == 1);
    }
    Parts {
        crossings,
        positive,
        loops: diagram.loops(),
    }
}

fn under(numbers: &Numbers, slots: Crossing) -> Crossing {
    Crossing([
        get(numbers, slots.0[0]),
        get(numbers, slots.0[1]),
        get(numbers, slots.0[2]),
        get(numbers, slots.0[3]),
    ])
}

fn get(numbers: &Numbers, name: u8) -> u8 {
    numbers.get(usize::from(name)).copied().unwrap_or(0)
}

fn set(numbers: &mut Numbers, name: u8, number: u8) {
    if let Some(place) = numbers.get_mut(usize::from(name)) {
        *place = number;
    }
}

/// What passes say of names: which stand, the next of each, and the crossing that it enters from
/// over, or 0.
#[derive(Drop)]
struct Names {
    stand: Numbers,
    next: Numbers,
    over: Numbers,
}

fn names_of(parts: &Parts) -> Names {
    let mut names = Names {
        stand: [0; 256],
        next: [0; 256],
        over: [0; 256],
    };
    let mut number = 0u8;
    for slots in parts.crossings.as_slice() {
        let positive = parts
            .positive
            .get(usize::from(number))
            .copied()
            .unwrap_or(false);
        number = number.wrapping_add(1);
        let (enters, leaves) = if positive {
            (slots.0[3], slots.0[1])
        } else {
            (slots.0[1], slots.0[3])
        };
        set(&mut names.stand, slots.0[0], 1);
        set(&mut names.stand, enters, 1);
        set(&mut names.next, slots.0[0], slots.0[2]);
        set(&mut names.next, enters, leaves);
        set(&mut names.over, enters, number);
    }
    names
}

/// The crossings under new numbers: the least name that has none yet is the least of its component.
fn numbered(parts: &Parts) -> ArrayVec<Crossing, CROSSINGS> {
    let names = names_of(parts);
    let mut numbers = [0; 256];
    let mut count = 0u8;
    for name in 0..=255u8 {
        let mut at = first_of(&names, name);
        for _ in 0..2 * CROSSINGS {
            if get(&names.stand, at) == 1 && get(&numbers, at) == 0 {
                count = count.wrapping_add(1);
                set(&mut numbers, at, count);
                at = get(&names.next, at);
            }
        }
    }
    let mut crossings = ArrayVec::new();
    for slots in parts.crossings.as_slice() {
        let _ = crossings.try_push(under(&numbers, *slots));
    }
    crossings
}

/// The name with which the component of its least name begins.
fn first_of(names: &Names, least: u8) -> u8 {
    let other = get(&names.next, least);
    let (here, there) = (get(&names.over, least), get(&names.over, other));
    let are_two = other != least && get(&names.next, other) == least;
    if are_two && here > 0 && there > 0 && there < here {
        other
    } else {
        least
    }
}
