//! The components of a diagram under their numbers.

ghost use Rattle.std.specs.Prelude.{◌≡◌, ◌+◌, ◌<◌, ◌≤◌, [], ◌∷◌, ◌++◌, length, nat_eq, IsTrue};
ghost use Rattle.std.specs.List.{filter, position_or_len, range_with_len};
ghost use Rattle.arrayvec.specs.ArrayVec.{array_vec_len};
ghost use Rattle.kh_types.specs.declared.limits.TheConstants.{ARCS, COMPONENTS};
ghost use Rattle.kh_types.specs.Code.{IsArc, arc_count};
ghost use Rattle.kh_types.specs.Classes.{is_least};
ghost use Rattle.kh_types.specs.Components.{components_of, component_of, component_count, first_arcs, arcs_in};
ghost use Rattle.kh_types.specs.Acceptance.{accepted};
ghost use Rattle.orient_arcs.specs.Numbers.{component_number, first_arc};
ghost use Rattle.orient_arcs.specs.Inside.{spread};
ghost use Rattle.orient_arcs.specs.declared.numbered.TheConstants.{NUMBERS};

use arrayvec::ArrayVec;
use kh_types::{ARCS, Diagram, arcs_in, class_of, components_of, is_least};
use std::marker::Model;

/// The numbers that have a component: the most arcs, and the number 0, which is no arc.
const NUMBERS: usize = ARCS + 1;

/// The components of a diagram, numbered from 0 by their least arcs; loops are not counted.
/// Contracts see them as the code of the diagram.
#[derive(Clone, Copy, Debug, PartialEq, Eq)]
pub struct Components {
    diagram: Diagram,
    // the least arc of the component of each number up to 2n, and 0 behind them
    least: [u8; NUMBERS],
}

impl Model for Components {
    ghost use Rattle.kh_types.specs.Code.{Code};

    ghost Value = { Code };

    ghost use Rattle.orient_arcs.specs.Inside.{code_of_components, IsComponents, inside_of_components, inside_of_components-code};

    ghost view = { code_of_components };

    ghost invariant = { IsComponents };

    ghost inverse = { inside_of_components };

    ghost inverse_ok = { inside_of_components-code };
}

impl Components {
    /// The components of a diagram.
    #[tactic(auto, using(code_passes::proofs::LeastArcs::components_size))]
    pub(crate) fn of_diagram(diagram: &Diagram) -> Components
        ensures { result ≡ diagram.now }
    {
        Components {
            diagram: *diagram,
            least: spread(&components_of(diagram.crossings())),
        }
    }

    /// How many components there are.
    #[tactic(auto, using(crate::proofs::ComponentLemmas::accepted_few))]
    pub fn count(&self) -> u8
        ensures count { result ≡ component_count self.now.crossings }
        ensures few { component_count self.now.crossings + self.now.loops ≤ COMPONENTS }
    {
        self.first_arcs().len() as u8
    }

    /// The number of the component of an arc, which is 1 to twice the number of crossings.
    pub fn of_arc(&self, arc: u8) -> u8
        requires { IsArc self.now.crossings arc }
        ensures number { result ≡ component_number self.now.crossings arc }
        ensures within { result < component_count self.now.crossings }
    {
        place_of(self.least_of(arc), &self.first_arcs()) as u8
    }

    /// The least arc of a component.
    pub fn first(&self, component: u8) -> u8
        requires { component < component_count self.now.crossings }
        ensures first { result ≡ first_arc self.now.crossings component }
        ensures within { IsArc self.now.crossings result }
    {
        self.first_arcs()[usize::from(component)]
    }

    /// How many arcs a component has.
    pub fn length(&self, component: u8) -> u8
        requires { component < component_count self.now.crossings }
        ensures { result
            ≡ arcs_in (components_of self.now.crossings) (first_arc self.now.crossings component) }
    {
        arcs_in(self.least(), self.first(component)) as u8
    }

    /// The least arc of the component of each number up to 2n.
    #[tactic(auto, using(crate::proofs::ComponentLemmas::take_spread))]
    fn least(&self) -> &[u8]
        ensures least { result.now ≡ components_of self.now.crossings }
        ensures within { length result.now ≤ NUMBERS }
    {
        &self.least[..arc_count(&self.diagram) + 1]
    }

    /// The least arc of the component of an arc.
    fn least_of(&self, arc: u8) -> u8
        ensures { result ≡ component_of (components_of self.now.crossings) arc }
    {
        class_of(self.least(), usize::from(arc))
    }

    /// The least arcs of the components, ascending.
    fn first_arcs(&self) -> ArrayVec<u8, ARCS>
        ensures firsts { result.items ≡ first_arcs self.now.crossings }
        ensures size { length result.items ≤ ARCS }
        ensures accepted { IsTrue (accepted self.now) }
    {
        first_arcs(arc_count(&self.diagram), self.least())
    }
}

/// The number of arcs, 2n.
fn arc_count(diagram: &Diagram) -> usize
    ensures count { result ≡ arc_count diagram.now.crossings }
    ensures within { result ≤ ARCS }
    ensures accepted { IsTrue (accepted diagram.now) }
{
    2 * diagram.crossings().len()
}

/// The array that begins with the components of some numbers, with 0 behind them.
fn spread(components: &[u8]) -> [u8; NUMBERS]
    requires { length components.now ≤ NUMBERS }
    ensures { result ≡ spread components.now }
{
    let mut least = [0; NUMBERS];
    least[..components.len()].copy_from_slice(components);
    least
}

/// The arcs, up to a number of them, that are the least of their components, ascending.
#[tactic(auto, using(kh_types::proofs::Ranges::filter_from_one))]
fn first_arcs(arcs: usize, components: &[u8]) -> ArrayVec<u8, ARCS>
    requires { arcs ≤ ARCS }
    ensures firsts { result.items ≡ filter (is_least components.now) (range_with_len 1 arcs) }
    ensures size { length result.items ≤ ARCS }
{
    let mut firsts = ArrayVec::new();
    'arcs: for before in 0..arcs {
        push_least(&mut firsts, components, before as u8 + 1);
    }
    firsts
}

/// Adds an arc to the list where it is the least of its component.
fn push_least(firsts: &mut ArrayVec<u8, ARCS>, components: &[u8], arc: u8)
    requires { array_vec_len firsts.old < ARCS }
    ensures firsts { firsts.new.items
        ≡ firsts.old.items ++ filter (is_least components.now) (arc ∷ []) }
    ensures size { array_vec_len firsts.new ≤ array_vec_len firsts.old + 1 }
{
    if is_least(components, arc) {
        firsts.push(arc);
    }
}

/// The place of an arc in a list, or the length of the list where it is not there.
fn place_of(arc: u8, list: &[u8]) -> usize
    ensures place { result ≡ position_or_len (nat_eq arc) list.now }
    ensures within { result ≤ length list.now }
{
    list.iter().take_while(|other| arc != **other).count()
}
