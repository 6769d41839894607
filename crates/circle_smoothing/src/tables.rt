//! What walks along circles look up. Darts are given by their places.

ghost use Rattle.std.specs.Prelude.{◌≡◌, ◌≤◌, length, nat_eq, IsTrue};
ghost use Rattle.std.specs.List.{position};
ghost use Rattle.kh_types.specs.Acceptance.{accepted};
ghost use Rattle.kh_types.specs.declared.limits.TheConstants.{CROSSINGS};
ghost use Rattle.circle_smoothing.specs.Prepared.{HasStarts, arcs_at, partners_at, start_in};

use arrayvec::ArrayVec;
use kh_types::{CLASS_MEMBERS, Diagram, dart_at};

/// The arc of each dart.
#[tactic(auto, using(crate::proofs::TableLemmas::tables))]
pub fn arcs_of(diagram: &Diagram) -> ArrayVec<u8, CLASS_MEMBERS>
    ensures arcs { result.items ≡ arcs_at diagram.now.crossings }
    ensures few { length diagram.now.crossings ≤ CROSSINGS }
    ensures accepted { IsTrue (accepted diagram.now) }
{
    let mut arcs = ArrayVec::new();
    let count = 4 * diagram.crossings().len();
    for place in 0..count {
        arcs.push(diagram.arc_at(dart_at(place as u8)));
    }
    arcs
}

/// The other dart of the same arc, for each dart.
#[tactic(auto, using(crate::proofs::TableLemmas::tables))]
pub fn partners_of(diagram: &Diagram) -> ArrayVec<u8, CLASS_MEMBERS>
    ensures { result.items ≡ partners_at diagram.now.crossings }
{
    let mut partners = ArrayVec::new();
    let count = 4 * diagram.crossings().len();
    for place in 0..count {
        partners.push(diagram.partner_at(place as u8));
    }
    partners
}

/// The first dart on each arc, after an entry for the number 0, where the arc of each dart is
/// given.
#[tactic(auto, using(crate::proofs::TableLemmas::tables))]
pub fn starts_of(diagram: &Diagram, arcs: &[u8]) -> ArrayVec<u8, CLASS_MEMBERS>
    requires { arcs.now ≡ arcs_at diagram.now.crossings }
    ensures { HasStarts diagram.now.crossings result.items }
{
    let mut starts = ArrayVec::new();
    let count = 2 * diagram.crossings().len() + 1;
    for arc in 0..count {
        starts.push(start_in(arcs, arc as u8) as u8);
    }
    starts
}

/// The place of a number in a list; the list's length where it is not in it.
#[tactic(auto, using(kh_types::proofs::Lists::places))]
fn start_in(arcs: &[u8], arc: u8) -> usize
    ensures start { result ≡ start_in arcs.now arc }
    ensures within { result ≤ length arcs.now }
{
    found(arcs, arc).unwrap_or(arcs.len())
}

fn found(arcs: &[u8], arc: u8) -> Option<usize>
    ensures { result ≡ position (λ x. nat_eq x arc) arcs.now }
{
    arcs.iter().position(|x| *x == arc)
}
