//! Diagrams with their states counted by kind.

ghost use Rattle.std.specs.Prelude.{◌≡◌, ◌+◌, ◌*◌, ◌^◌, ◌<◌, ◌≤◌, length, IsTrue};
ghost use Rattle.kh_types.specs.Acceptance.{accepted};
ghost use Rattle.kh_types.specs.declared.limits.TheConstants.{CIRCLES, CROSSINGS};
ghost use Rattle.circle_smoothing.specs.GeneratorCounts.{generator_count, kind_generators};
ghost use Rattle.circle_smoothing.specs.Kinds.{kind_count, arc_and_loop_count};
ghost use Rattle.circle_smoothing.specs.declared.kinds.TheConstants.{KINDS};

use crate::branches::{Branch, COUNTS, JOINS, count_branch};
use kh_types::{CIRCLES, CROSSINGS, Diagram};
use std::marker::Model;

/// The numbers of circles that a state can have: from 0 to CIRCLES.
pub const COLUMNS: usize = CIRCLES + 1;

/// The number of kinds of states: by their ones, and by their circles.
pub const KINDS: usize = (CROSSINGS + 1) * COLUMNS;

/// A diagram, and how many of its states there are of each kind: with so many crossings that have
/// their 1-smoothing, and so many circles. All states are gone over once. Contracts see it as the
/// diagram's `Code`.
#[derive(Drop)]
pub struct CountedDiagram {
    diagram: Diagram,
    // The states by their ones, then by how many more arcs and loops there are than circles.
    counts: [u32; COUNTS],
}

impl Model for CountedDiagram {
    ghost use Rattle.kh_types.specs.Code.{Code};

    ghost Value = { Code };

    ghost use Rattle.circle_smoothing.specs.Kinds.{code_of_counted, IsCounted};

    ghost view = { code_of_counted };

    ghost invariant = { IsCounted };
}

impl CountedDiagram {
    /// A diagram with its states counted.
    pub fn of_diagram(diagram: &Diagram) -> CountedDiagram
        ensures { result ≡ diagram.now }
    {
        let mut counts = [0; COUNTS];
        count_branch(&mut counts, diagram.crossings(), &Branch::of_all());
        CountedDiagram {
            diagram: *diagram,
            counts,
        }
    }

    /// How many states have this many crossings with their 1-smoothing, and this many circles.
    pub fn count(&self, ones: usize, circles: usize) -> u32
        ensures count { result ≡ kind_count self.now ones circles }
        ensures within { result ≤ 2 ^ CROSSINGS }
    {
        let names = self.name_count();
        if ones <= CROSSINGS && circles <= names && names - circles <= JOINS {
            self.counts[ones * (JOINS + 1) + (names - circles)]
        } else {
            0
        }
    }

    /// The number of generators of the cube: for each state 2 to the number of circles.
    /// Source: Bar-Natan 2002, section 3.
    #[tactic(auto, using(crate::proofs::GeneratorLemmas::kind_steps))]
    pub fn generator_count(&self) -> u128
        ensures count { result ≡ generator_count self.now }
        ensures within { result ≤ 2 ^ (CROSSINGS + CIRCLES) }
    {
        // (what the kinds keep)
        let _ = self.name_count();
        let mut total = 0;
        'kinds: for kind in 0..KINDS {
            total += self.kind_generators(kind);
        }
        total
    }

    /// The number of generators of the states of a kind.
    fn kind_generators(&self, kind: usize) -> u128
        requires { kind < KINDS }
        ensures count { result ≡ kind_generators self.now kind }
        ensures within { result ≤ 2 ^ (CROSSINGS + CIRCLES) }
    {
        let (ones, circles) = (kind / COLUMNS, kind % COLUMNS);
        u128::from(self.count(ones, circles)) * label_count(circles)
    }

    /// The number of arcs and loops.
    fn name_count(&self) -> usize
        ensures count { result ≡ arc_and_loop_count self.now }
        ensures code { IsTrue (accepted self.now) }
        ensures few { length self.now.crossings ≤ CROSSINGS }
    {
        2 * usize::from(self.diagram.count()) + usize::from(self.diagram.loops())
    }

    /// The diagram.
    pub fn diagram(&self) -> &Diagram
        ensures { result.now ≡ self.now }
    {
        &self.diagram
    }
}

/// How many labels so many circles have.
fn label_count(circles: usize) -> u128
    requires { circles ≤ CIRCLES }
    ensures count { result ≡ 2 ^ circles }
    ensures within { result ≤ 2 ^ CIRCLES }
{
    1 << circles
}
