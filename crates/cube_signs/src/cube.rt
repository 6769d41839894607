//! The cube of a diagram, with what is looked up for its blocks.

ghost use Rattle.std.specs.Prelude.{◌≡◌, ◌^◌, ◌<◌, ◌≤◌, length, All, IfOk, IsTrue};
ghost use Rattle.kh_types.specs.Acceptance.{accepted};
ghost use Rattle.kh_types.specs.declared.limits.TheConstants.{CROSSINGS};
ghost use Rattle.circle_smoothing.specs.GeneratorCounts.{generator_count};
ghost use Rattle.circle_smoothing.specs.declared.limits.TheConstants.{GENERATORS};
ghost use Rattle.cube_signs.specs.Blocks.{block_degrees};
ghost use Rattle.cube_signs.specs.Columns.{AreSmall};
ghost use Rattle.cube_signs.specs.Steps.{HasSteps};
ghost use Rattle.cube_signs.specs.Tables.{AreRanks};
ghost use Rattle.cube_signs.specs.declared.limits.TheConstants.{PLACES, WIDTH};

use crate::labels::{labels_by_weight, ranks_of, weights_of};
use crate::levels::all_levels;
use crate::quantum_degrees::block_degrees;
use crate::shape::{Shape, all_circles, all_shapes};
use crate::steps::{Steps, all_steps};
use circle_smoothing::Edge;
use kh_types::laws::diagrams::diagram_laws;
use kh_types::{Diagram, NoMemory};
use std::alloc::Global;
use std::marker::Model;

/// A diagram with the circles of all its states, found once for all blocks. Contracts see it as the
/// diagram's `Code`.
#[derive(Drop)]
pub struct Cube {
    pub(crate) diagram: Diagram,
    // The number of negative crossings.
    pub(crate) minus: u8,
    // For each state its number of circles and its degrees, and the edges out of it.
    pub(crate) shapes: Vec<Shape>,
    pub(crate) rows: Vec<Steps>,
    // Of the labels of as many circles as any state has: for each number of v- those that have as
    // many, and for each label how many before it have as many v- as it has.
    pub(crate) labels: Vec<Vec<u32>>,
    pub(crate) ranks: Vec<u32>,
    // For each number of 1-smoothings the states that have as many.
    pub(crate) levels: Vec<Vec<u32>>,
}

impl Model for Cube {
    ghost use Rattle.kh_types.specs.Code.{Code};
    ghost use Rattle.cube_signs.specs.Tables.{AreTables};
    ghost use Rattle.sparse_block.specs.Inside.{lists_in};

    ghost Value = { Code };

    ghost view = { λ cube. cube.diagram };

    ghost invariant = { λ cube. AreTables cube.diagram cube.minus cube.shapes.items cube.rows.items
        (lists_in cube.labels.items) cube.ranks.items (lists_in cube.levels.items) };
}

impl Cube {
    /// The cube of a diagram.
    pub fn new(alloc: Global, diagram: &Diagram) -> Result<Cube, NoMemory>
        requires { generator_count diagram.now ≤ GENERATORS }
        ensures { IfOk result (λ cube. cube ≡ diagram.now) }
    {
        diagram_laws(diagram);
        let circles = all_circles(alloc, diagram)?;
        let shapes = all_shapes(alloc, diagram, &circles)?;
        let rows = all_steps(alloc, diagram, &circles)?;
        let width = most_circles(&shapes);
        let weights = weights_of(alloc, width)?;
        let labels = labels_by_weight(alloc, width, &weights)?;
        let ranks = ranks_of(alloc, &weights)?;
        let levels = all_levels(alloc, diagram, &shapes)?;
        Ok(Cube {
            diagram: *diagram,
            minus: diagram.minus(),
            shapes,
            rows,
            labels,
            ranks,
            levels,
        })
    }

    /// The diagram.
    pub fn diagram(&self) -> &Diagram
        ensures { result.now ≡ self.now }
    {
        &self.diagram
    }

    /// The edges out of a state.
    pub(crate) fn steps(&self, state: usize) -> &[Option<Edge>]
        requires { state < 2 ^ length self.now.crossings }
        ensures steps { HasSteps self.now state (length self.now.crossings) result.now }
        ensures small { AreSmall result.now }
        ensures few { length result.now ≤ CROSSINGS }
    {
        &self.rows[state]
    }

    /// For each label, how many labels before it have as many v-.
    pub(crate) fn ranks(&self) -> &[u32]
        ensures ranks { AreRanks self.now result.now }
        ensures small { All (λ rank. rank < PLACES) result.now }
        ensures code { IsTrue (accepted self.now) }
        ensures few { length self.now.crossings ≤ CROSSINGS }
    {
        &self.ranks
    }

    /// The quantum degrees that have a generator, ascending.
    pub fn block_degrees(&self, alloc: Global) -> Result<Vec<i16>, NoMemory>
        ensures { IfOk result (λ degrees. degrees.items ≡ block_degrees self.now) }
    {
        block_degrees(alloc, &self.diagram)
    }
}

/// The most circles of a state.
#[tactic(auto, using(crate::proofs::TableLemmas::most))]
fn most_circles(shapes: &[Shape]) -> u8
    requires { All (λ shape. shape.circles ≤ WIDTH) shapes.now }
    ensures most { All (λ shape. shape.circles ≤ result) shapes.now }
    ensures few { result ≤ WIDTH }
{
    let mut most = 0;
    'states: for state in 0..shapes.len() {
        most = shapes[state].circles.max(most);
    }
    most
}
