//! Acceptance once more, plain and slow, for codes of up to seven crossings, as a second opinion on
//! the one that is proved.
//!
//! It goes another way. Numbers below 32 are arcs, crossings, or darts (four for each crossing, in
//! the order of its slots), and a set of them is a word of bits. The class of a number grows from
//! it until nothing more joins, and the checkerboard tries every choice of bits. The rules are this
//! project's own, as in the definition of an accepted code.

use arrayvec::ArrayVec;
use kh_types::Crossing;

type Set = u32;

type Pairs = ArrayVec<(u32, u32), 64>;

/// Whether crossings keep the rules. The limit on components and loops is left out: so few
/// crossings do not come near it.
pub(crate) fn accepts(crossings: &[Crossing]) -> bool {
    let passes = passes_of(crossings);
    let ends = ends_of_arcs(crossings);
    stands_twice(crossings)
        && (1..=arc_count(crossings)).all(|arc| is_interval(class_of(&passes, arc)))
        && crossings.iter().all(|crossing| goes_on(&passes, *crossing))
        && (1..=arc_count(crossings)).all(|arc| comes_back(crossings, &passes, arc))
        && has_checkerboard(crossings, &ends)
        && is_on_a_sphere(crossings, &ends)
}

/// Each of the arcs 1 to 2n stands exactly twice, so no other number stands.
pub(crate) fn stands_twice(crossings: &[Crossing]) -> bool {
    (1..=arc_count(crossings)).all(|arc| {
        let times = (0..dart_count(crossings)).filter(|dart| arc_of(crossings, *dart) == arc);
        times.count() == 2
    })
}

/// Of the arcs of a component exactly one has its next number outside of it.
fn is_interval(component: Set) -> bool {
    (component & !(component >> 1)).count_ones() == 1
}

/// The under pass goes to the next arc, and so does the over pass in one of its directions.
fn goes_on(passes: &Pairs, crossing: Crossing) -> bool {
    let [i, j, k, l] = crossing.0.map(u32::from);
    k == next(passes, i) && (l == next(passes, j) || j == next(passes, l))
}

fn next(passes: &Pairs, arc: u32) -> u32 {
    let component = class_of(passes, arc);
    let above = arc.wrapping_add(1);
    if has(component, above) {
        above
    } else {
        component.trailing_zeros()
    }
}

/// Where the component of an arc has two arcs, at most one under pass comes in on this one.
fn comes_back(crossings: &[Crossing], passes: &Pairs, arc: u32) -> bool {
    let unders = crossings
        .iter()
        .filter(|crossing| u32::from(crossing.0[0]) == arc);
    class_of(passes, arc).count_ones() != 2 || unders.count() < 2
}

/// Some choice of a bit for each crossing gives the two ends of every arc different colours.
fn has_checkerboard(crossings: &[Crossing], ends: &Pairs) -> bool {
    (0..only(crossing_count(crossings))).any(|choice| {
        ends.iter().all(|(dart, other)| colour(choice, *dart) != colour(choice, *other))
    })
}

fn colour(choice: Set, dart: u32) -> bool {
    has(choice, dart / 4) != (dart % 2 == 1)
}

/// A drawing of n crossings in k pieces has n + 2k faces on the sphere, and fewer on any other
/// surface.
fn is_on_a_sphere(crossings: &[Crossing], ends: &Pairs) -> bool {
    let faces = class_count(&face_steps(ends), dart_count(crossings));
    let pieces = class_count(&contacts(ends), crossing_count(crossings));
    let wanted = pieces
        .wrapping_mul(2)
        .wrapping_add(crossing_count(crossings));
    faces == wanted
}

/// From a dart on to the slot before the other end of its arc.
fn face_steps(ends: &Pairs) -> Pairs {
    let mut steps = Pairs::new();
    for (dart, other) in ends {
        let _ = steps.try_push((*dart, other / 4 * 4 + (other % 4 + 3) % 4));
    }
    steps
}

/// From crossing to crossing along an arc.
fn contacts(ends: &Pairs) -> Pairs {
    let mut contacts = Pairs::new();
    for (dart, other) in ends {
        let _ = contacts.try_push((dart / 4, other / 4));
    }
    contacts
}

/// From an end of an arc to the other, both ways.
fn ends_of_arcs(crossings: &[Crossing]) -> Pairs {
    let mut ends = Pairs::new();
    for dart in 0..dart_count(crossings) {
        for other in 0..dart_count(crossings) {
            if dart != other && arc_of(crossings, dart) == arc_of(crossings, other) {
                let _ = ends.try_push((dart, other));
            }
        }
    }
    ends
}

/// From arc to arc under and over each crossing.
fn passes_of(crossings: &[Crossing]) -> Pairs {
    let mut passes = Pairs::new();
    for crossing in crossings {
        let [i, j, k, l] = crossing.0.map(u32::from);
        let _ = passes.try_push((i, k));
        let _ = passes.try_push((j, l));
    }
    passes
}

/// Of the numbers below a count, those that are the least of their class.
fn class_count(pairs: &Pairs, count: u32) -> u32 {
    let mut classes = 0u32;
    for member in 0..count {
        if class_of(pairs, member).trailing_zeros() == member {
            classes = classes.wrapping_add(1);
        }
    }
    classes
}

/// What a number is joined with. Each time that all pairs are gone over they add a number, or
/// nothing is left to add, so as many times as there are pairs are enough.
fn class_of(pairs: &Pairs, member: u32) -> Set {
    let mut class = only(member);
    for _ in 0..pairs.len() {
        for (x, y) in pairs {
            if has(class, *x) || has(class, *y) {
                class |= only(*x) | only(*y);
            }
        }
    }
    class
}

fn has(set: Set, member: u32) -> bool {
    set & only(member) != 0
}

fn only(member: u32) -> Set {
    1u32.checked_shl(member).unwrap_or(0)
}

fn crossing_count(crossings: &[Crossing]) -> u32 {
    crossings.len().min(7) as u32
}

fn arc_count(crossings: &[Crossing]) -> u32 {
    crossing_count(crossings).wrapping_mul(2)
}

fn dart_count(crossings: &[Crossing]) -> u32 {
    crossing_count(crossings).wrapping_mul(4)
}

fn arc_of(crossings: &[Crossing], dart: u32) -> u32 {
    match crossings.get((dart / 4) as usize) {
        Some(crossing) => u32::from(crossing.0[(dart % 4) as usize]),
        None => 0,
    }
}
