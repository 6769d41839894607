//! Accepted diagrams.

ghost use Rattle.std.specs.Prelude.{◌≡◌, ◌≤◌, ◌<◌, ◌↔◌, length, IsTrue, IfOk, IsOk, if◌then◌else◌, map, pos, neg_ℤ};
ghost use Rattle.std.specs.List.{range_with_len};
ghost use Rattle.std.specs.Result.{result_err};
ghost use Rattle.kh_types.specs.Code.{IsCrossing, IsArc};
ghost use Rattle.kh_types.specs.Darts.{IsDart, arc_of, dart_count, partner, partner_at};
ghost use Rattle.kh_types.specs.Acceptance.{accepted, first_fault};
ghost use Rattle.kh_types.specs.Filling.{filled};
ghost use Rattle.kh_types.specs.Directions.{sign_of, plus_count, minus_count, positive_at, head_of, tail_of};

use crate::acceptance::{self, darts, heads};
use crate::code::{Crossing, RawCode};
use crate::dart::Dart;
use crate::fault::CodeFault;
use crate::limits::{COMPONENTS, CROSSINGS};
use arrayvec::ArrayVec;
use std::marker::Model;

/// A diagram of an oriented link: a code that is accepted, which is part of its type. Contracts see
/// it as this `Code`. Crossings are numbered from 1, slots are 0 to 3, and arcs 1 to twice the
/// number of crossings.
#[derive(Clone, Copy, Debug, PartialEq, Eq)]
pub struct Diagram {
    table: [Crossing; CROSSINGS],
    count: u8,
    loops: u8,
}

impl Model for Diagram {
    ghost use Rattle.kh_types.specs.Code.{Code};

    ghost Value = { Code };

    ghost use Rattle.kh_types.specs.Inside.{code_of_diagram, IsDiagram, inside_of, inside_of-code_of_diagram};

    ghost view = { code_of_diagram };

    ghost invariant = { IsDiagram };

    ghost inverse = { inside_of };

    ghost inverse_ok = { inside_of-code_of_diagram };
}

impl Diagram {
    /// The diagram with exactly these crossings and loops, or the first rule of acceptance that the
    /// code breaks; a code is accepted where it breaks none.
    #[tactic(auto, unfolding(crate::specs::Acceptance::accepted))]
    pub fn try_new(raw: &RawCode) -> Result<Diagram, CodeFault>
        ensures fault { result_err result ≡ first_fault raw.now }
        ensures accepted { IsOk result ↔ IsTrue (accepted raw.now) }
        ensures same { IfOk result (λ diagram. diagram ≡ raw.now) }
    {
        match acceptance::first_fault(raw) {
            None => Ok(Diagram::of_accepted(raw)),
            Some(fault) => Err(fault),
        }
    }

    /// The diagram of a code that is known to be accepted, which is not tested again.
    pub fn of_accepted(raw: &RawCode) -> Diagram
        requires { IsTrue (accepted raw.now) }
        ensures { result ≡ raw.now }
    {
        let count = raw.crossings.len() as u8;
        Diagram {
            table: table_of(&raw.crossings),
            count,
            loops: raw.loops,
        }
    }

    /// The number of crossings.
    pub fn count(&self) -> u8
        ensures count { result ≡ length self.now.crossings }
        ensures fits { length self.now.crossings ≤ CROSSINGS }
    {
        self.count
    }

    /// The crossings, in order.
    pub fn crossings(&self) -> &[Crossing]
        ensures crossings { result.now ≡ self.now.crossings }
        ensures few { length result.now ≤ CROSSINGS }
        ensures accepted { IsTrue (accepted self.now) }
    {
        &self.table[..self.count as usize]
    }

    /// The number of crossingless loops.
    #[tactic(auto, using(crate::proofs::AcceptedCodes::accepted_loops))]
    pub fn loops(&self) -> u8
        ensures loops { result ≡ self.now.loops }
        ensures few { result ≤ COMPONENTS }
    {
        self.loops
    }

    /// The code of the diagram.
    pub fn to_raw(&self) -> RawCode
        ensures { result ≡ self.now }
    {
        RawCode {
            crossings: list_of(self.crossings()),
            loops: self.loops(),
        }
    }

    /// The sign of a crossing, 1 or -1: 1 where its over pass goes from slot 3 to slot 1.
    pub fn sign(&self, crossing: u8) -> i8
        requires { IsCrossing self.now.crossings crossing }
        ensures { result ≡ sign_of self.now.crossings crossing }
    {
        sign(acceptance::is_positive(self.crossings(), crossing))
    }

    /// Whether each crossing is positive, in their order.
    pub fn signs(&self) -> ArrayVec<bool, CROSSINGS>
        ensures { result.items ≡ map (positive_at self.now.crossings)
            (range_with_len 0 (length self.now.crossings)) }
    {
        acceptance::signs(self.crossings())
    }

    /// The number of positive crossings, n+.
    pub fn plus(&self) -> u8
        ensures count { result ≡ plus_count self.now.crossings }
        ensures fits { result ≤ length self.now.crossings }
    {
        acceptance::plus_count(self.crossings())
    }

    /// The number of negative crossings, n-.
    pub fn minus(&self) -> u8
        ensures { result ≡ minus_count self.now.crossings }
    {
        self.count - self.plus()
    }

    /// The arc of a dart, 1 to twice the number of crossings.
    #[tactic(auto, using(crate::proofs::AcceptedCodes::accepted_arcs))]
    pub fn arc_at(&self, dart: Dart) -> u8
        requires { IsDart self.now.crossings dart }
        ensures arc { result ≡ arc_of self.now.crossings dart }
        ensures within { IsArc self.now.crossings result }
    {
        darts::arc_of(self.crossings(), dart)
    }

    /// The other dart of a dart's arc.
    pub fn partner(&self, dart: Dart) -> Dart
        requires { IsDart self.now.crossings dart }
        ensures partner { result ≡ partner self.now.crossings dart }
        ensures within { IsDart self.now.crossings result }
    {
        darts::partner(self.crossings(), dart)
    }

    /// The place of the other dart of the arc of the dart at a place.
    pub fn partner_at(&self, place: u8) -> u8
        requires { place < dart_count self.now.crossings }
        ensures place { result ≡ partner_at self.now.crossings place }
        ensures below { result < dart_count self.now.crossings }
    {
        darts::partner_at(self.crossings(), place)
    }

    /// The head of an arc: the dart at which it enters a crossing.
    pub fn head(&self, arc: u8) -> Dart
        requires { IsArc self.now.crossings arc }
        ensures head { result ≡ head_of self.now.crossings arc }
        ensures within { IsDart self.now.crossings result }
    {
        heads::head_of(self.crossings(), arc)
    }

    /// The tail of an arc: the dart at which it leaves a crossing.
    pub fn tail(&self, arc: u8) -> Dart
        requires { IsArc self.now.crossings arc }
        ensures tail { result ≡ tail_of self.now.crossings arc }
        ensures within { IsDart self.now.crossings result }
    {
        heads::tail_of(self.crossings(), arc)
    }
}

fn sign(is_positive: bool) -> i8
    ensures { result ≡ (if is_positive then pos 1 else neg_ℤ (pos 1)) }
{
    if is_positive { 1 } else { -1 }
}

/// The array that begins with some crossings and is blank behind them.
fn table_of(crossings: &[Crossing]) -> [Crossing; CROSSINGS]
    requires { length crossings.now ≤ CROSSINGS }
    ensures { result ≡ filled crossings.now }
{
    let mut table = [Crossing([0, 0, 0, 0]); CROSSINGS];
    table[..crossings.len()].copy_from_slice(crossings);
    table
}

fn list_of(crossings: &[Crossing]) -> ArrayVec<Crossing, CROSSINGS>
    requires { length crossings.now ≤ CROSSINGS }
    ensures { result.items ≡ crossings.now }
{
    let mut list = ArrayVec::new();
    for crossing in crossings {
        list.push(*crossing);
    }
    list
}
