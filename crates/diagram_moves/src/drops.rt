//! Crossings that are dropped.

ghost use Rattle.std.specs.Prelude.{◌≡◌, ◌≤◌, ◌<◌, ◌+◌, ◌++◌, ◌∷◌, [], None, length, if◌then◌else◌};
ghost use Rattle.std.specs.List.{count_by};
ghost use Rattle.kh_types.specs.Code.{arc_in, arcs, place_of};
ghost use Rattle.kh_types.specs.Components.{passes_of};
ghost use Rattle.kh_types.specs.declared.limits.TheConstants.{ARCS, CROSSINGS};
ghost use Rattle.kink_and_finger_laws.specs.Drops.{is_of_two, renamed_slots, stands_in, straight_names, straight_pairs, without_finger, without_kink};
ghost use Rattle.code_passes.specs.Parts.{slots_in};
ghost use Rattle.orient_arcs.specs.Renumbered.{renumber};
ghost use Rattle.diagram_moves.specs.DropSteps.{is_ring_in, kept_to, passes_there, renamed_there, signs_to, stands_at, stays};
ghost use Rattle.diagram_moves.specs.MoveFaults.{finger_drop_fault, kink_drop_fault};
ghost use Rattle.diagram_moves.specs.Moved.{answered};

use crate::accepted::renumbered;
use crate::fault::MoveFault;
use crate::faults::{finger_drop_fault, kink_drop_fault};
use crate::kink_add::sign_there;
use crate::pair::Pair;
use arrayvec::ArrayVec;
use kh_types::laws::diagrams::diagram_laws;
use kh_types::{ARCS, CLASS_MEMBERS, CROSSINGS, Crossing, Diagram, class_of, classes_of, is_least};
use orient_arcs::Parts;

/// The diagram without a crossing that has a kink, or the first fault.
pub(crate) fn drop_kink(diagram: &Diagram, crossing: u8) -> Result<Diagram, MoveFault>
    ensures { result ≡ answered (kink_drop_fault diagram.now crossing)
        (renumber (without_kink diagram.now (place_of crossing))) }
{
    match kink_drop_fault(diagram, crossing) {
        Some(fault) => Err(fault),
        None => Ok(without_kink(diagram, crossing)),
    }
}

/// The diagram without two crossings that meet in a bigon, or the first fault.
pub(crate) fn drop_finger(diagram: &Diagram, first: u8, second: u8) -> Result<Diagram, MoveFault>
    ensures { result ≡ answered (finger_drop_fault diagram.now first second)
        (renumber (without_finger diagram.now (place_of first) (place_of second))) }
{
    match finger_drop_fault(diagram, first, second) {
        Some(fault) => Err(fault),
        None => Ok(without_finger(diagram, first, second)),
    }
}

fn without_kink(diagram: &Diagram, crossing: u8) -> Diagram
    requires { kink_drop_fault diagram.now crossing ≡ None }
    ensures { result ≡ renumber (without_kink diagram.now (place_of crossing)) }
{
    diagram_laws(diagram);
    let place = crossing.saturating_sub(1);
    let gone = Pair {
        first: place,
        second: place,
    };
    renumbered(&dropped(diagram, gone))
}

fn without_finger(diagram: &Diagram, first: u8, second: u8) -> Diagram
    requires { finger_drop_fault diagram.now first second ≡ None }
    ensures { result ≡ renumber (without_finger diagram.now (place_of first) (place_of second)) }
{
    diagram_laws(diagram);
    let gone = Pair {
        first: first.saturating_sub(1),
        second: second.saturating_sub(1),
    };
    renumbered(&dropped(diagram, gone))
}

/// What is left without two crossings: arcs are joined straight through them.
fn dropped(diagram: &Diagram, gone: Pair) -> Parts
    ensures { result ≡ without_finger diagram.now gone.first gone.second }
{
    let names = straight_names(diagram, gone);
    let crossings = kept_crossings(diagram, &names, gone);
    let rings = ring_count(diagram, &names, &crossings);
    Parts {
        crossings,
        positive: kept_signs(diagram, gone),
        loops: diagram.loops() + rings,
    }
}

/// Whether a place is one of two.
fn is_of_two(gone: Pair, place: u8) -> bool
    ensures { result ≡ is_of_two gone.first gone.second place }
{
    gone.first == place || gone.second == place
}

/// Whether it is neither.
fn stays(gone: Pair, place: u8) -> bool
    ensures { result ≡ stays gone.first gone.second place }
{
    !is_of_two(gone, place)
}

/// Each arc's class of arcs that are joined straight through, by its least arc.
fn straight_names(diagram: &Diagram, gone: Pair) -> ArrayVec<u8, CLASS_MEMBERS>
    ensures { result.items
        ≡ straight_names diagram.now.crossings (is_of_two gone.first gone.second) }
{
    let count = 2 * usize::from(diagram.count()) + 1;
    classes_of(count, &straight_pairs(diagram, gone))
}

/// The passes of the two crossings.
#[tactic(auto, using(crate::proofs::DropLemmas::straight_more))]
fn straight_pairs(diagram: &Diagram, gone: Pair) -> ArrayVec<(u8, u8), ARCS>
    ensures { result.items
        ≡ straight_pairs diagram.now.crossings (is_of_two gone.first gone.second) }
{
    let mut pairs = ArrayVec::new();
    'places: for place in 0..diagram.count() {
        push_passes(&mut pairs, is_of_two(gone, place), slots_in(diagram, place));
    }
    pairs
}

fn push_passes(pairs: &mut ArrayVec<(u8, u8), ARCS>, is_gone: bool, slots: Crossing)
    requires { length pairs.old.items + 2 ≤ ARCS }
    ensures passes { pairs.new.items
        ≡ pairs.old.items ++ (if is_gone then passes_of slots else []) }
    ensures size { length pairs.new.items ≤ length pairs.old.items + 2 }
{
    if is_gone {
        pairs.push((slots.0[0], slots.0[2]));
        pairs.push((slots.0[1], slots.0[3]));
    }
}

/// The crossing at a place.
fn slots_in(diagram: &Diagram, place: u8) -> Crossing
    requires { place < length diagram.now.crossings }
    ensures { result ≡ slots_in diagram.now.crossings place }
{
    diagram.crossings()[usize::from(place)]
}

/// The crossings that stay, under the names of the classes of their arcs.
#[tactic(auto, using(crate::proofs::DropLemmas::kept_more))]
fn kept_crossings(diagram: &Diagram, names: &[u8], gone: Pair) -> ArrayVec<Crossing, CROSSINGS>
    ensures { result.items ≡ kept_to diagram.now.crossings names.now gone.first gone.second
        (length diagram.now.crossings) }
{
    let mut crossings = ArrayVec::new();
    'places: for place in 0..diagram.count() {
        push_crossing(
            &mut crossings,
            stays(gone, place),
            renamed(names, slots_in(diagram, place)),
        );
    }
    crossings
}

fn push_crossing(crossings: &mut ArrayVec<Crossing, CROSSINGS>, stays: bool, slots: Crossing)
    requires { length crossings.old.items < CROSSINGS }
    ensures crossings { crossings.new.items
        ≡ crossings.old.items ++ (if stays then slots ∷ [] else []) }
    ensures size { length crossings.new.items ≤ length crossings.old.items + 1 }
{
    if stays {
        crossings.push(slots);
    }
}

/// A crossing under other names.
fn renamed(names: &[u8], slots: Crossing) -> Crossing
    ensures { result ≡ renamed_slots names.now slots }
{
    Crossing([
        class_of(names, usize::from(slots.0[0])),
        class_of(names, usize::from(slots.0[1])),
        class_of(names, usize::from(slots.0[2])),
        class_of(names, usize::from(slots.0[3])),
    ])
}

/// Their signs.
#[tactic(auto, using(crate::proofs::DropLemmas::signs_more))]
fn kept_signs(diagram: &Diagram, gone: Pair) -> ArrayVec<bool, CROSSINGS>
    ensures { result.items
        ≡ signs_to diagram.now.crossings gone.first gone.second (length diagram.now.crossings) }
{
    let all = diagram.signs();
    let mut signs = ArrayVec::new();
    'places: for place in 0..diagram.count() {
        let is_positive = sign_there(&all, diagram, place);
        push_sign(&mut signs, stays(gone, place), is_positive);
    }
    signs
}

fn push_sign(signs: &mut ArrayVec<bool, CROSSINGS>, stays: bool, is_positive: bool)
    requires { length signs.old.items < CROSSINGS }
    ensures signs { signs.new.items ≡ signs.old.items ++ (if stays then is_positive ∷ [] else []) }
    ensures size { length signs.new.items ≤ length signs.old.items + 1 }
{
    if stays {
        signs.push(is_positive);
    }
}

/// How many classes of arcs stand at no crossing that stays: each becomes a loop.
#[tactic(auto, using(kh_types::proofs::Ranges::count_from_one))]
fn ring_count(diagram: &Diagram, names: &[u8], kept: &[Crossing]) -> u8
    ensures rings { result ≡ count_by (is_ring_in names.now kept.now) (arcs diagram.now.crossings) }
    ensures few { result ≤ ARCS }
{
    let mut count = 0;
    'arcs: for before in 0..2 * diagram.count() {
        if is_ring(names, kept, before + 1) {
            count += 1;
        }
    }
    count
}

/// Whether an arc names a class that stands at no crossing that stays.
fn is_ring(names: &[u8], kept: &[Crossing], arc: u8) -> bool
    ensures { result ≡ is_ring_in names.now kept.now arc }
{
    let is_name = is_least(names, arc);
    let stands = stands_in(kept, arc);
    is_name && !stands
}

/// Whether a name stands at some crossing.
fn stands_in(crossings: &[Crossing], name: u8) -> bool
    ensures { result ≡ stands_in crossings.now name }
{
    crossings.iter().any(|slots| stands_at(*slots, name))
}

/// Whether it stands at one.
fn stands_at(slots: Crossing, name: u8) -> bool
    ensures { result ≡ stands_at name slots }
{
    let arcs = slots.0;
    arcs[0] == name || (arcs[1] == name || (arcs[2] == name || arcs[3] == name))
}
