//! A cube with a marked arc or loop, and the blocks of its reduced cube.

ghost use Rattle.std.specs.Prelude.{◌≡◌, ◌++◌, ◌≤◌, IfOk, OnOk};
ghost use Rattle.std.specs.List.{Contains, flat_map};
ghost use Rattle.kh_types.specs.CircleNumbers.{IsName};
ghost use Rattle.circle_smoothing.specs.GeneratorCounts.{generator_count};
ghost use Rattle.circle_smoothing.specs.declared.limits.TheConstants.{GENERATORS};
ghost use Rattle.reduced_cube.specs.Marks.{marked_with};
ghost use Rattle.reduced_cube.specs.Reduced.{reduced_block, reduced_degrees, reduced_rows};
ghost use Rattle.reduced_cube.specs.Reduced.{reduced_table};

use crate::degrees::reduced_degrees;
use crate::marks::marked_circles;
use column_reduction::reduce;
use cube_signs::{ChosenBlock, Cube};
use homology_tables::{Row, Table, push_rows};
use kh_types::laws::diagrams::diagram_laws;
use kh_types::{Diagram, NoMemory};
use prime_field::PrimeField;
use prime_field::laws::element_laws;
use sparse_block::Complex;
use std::alloc::Global;
use std::marker::Model;

/// A cube with a mark, and the circle of the mark in each state. Contracts see the code and the
/// mark.
#[derive(Drop)]
pub(crate) struct MarkedCube {
    cube: Cube,
    mark: u8,
    circles: Vec<u8>,
}

impl Model for MarkedCube {
    ghost use Rattle.reduced_cube.specs.Marks.{IsMarked, Marked, marked_with};

    ghost Value = { Marked };

    ghost view = { λ marked. marked_with marked.cube marked.mark };

    ghost invariant = { λ marked. IsMarked marked.cube marked.mark marked.circles.items };
}

impl MarkedCube {
    /// The cube of a diagram, with this mark.
    pub(crate) fn new(alloc: Global, diagram: &Diagram, mark: u8) -> Result<MarkedCube, NoMemory>
        requires mark { IsName diagram.now mark }
        requires size { generator_count diagram.now ≤ GENERATORS }
        ensures { IfOk result (λ made. made ≡ marked_with diagram.now mark) }
    {
        Ok(MarkedCube {
            cube: Cube::new(alloc, diagram)?,
            mark,
            circles: marked_circles(alloc, diagram, mark)?,
        })
    }

    /// The reduced quantum degrees that have a generator, ascending.
    pub(crate) fn degrees(&self, alloc: Global) -> Result<Vec<i16>, NoMemory>
        ensures { IfOk result (λ degrees.
            degrees.items ≡ reduced_degrees self.now.code self.now.mark) }
    {
        reduced_degrees(alloc, self.cube.diagram(), self.mark)
    }

    /// The block at a reduced quantum degree.
    pub(crate) fn block<F: PrimeField>(&self, alloc: Global, j: i16) -> Result<Complex<F>, NoMemory>
        requires { Contains (reduced_degrees self.now.code self.now.mark) j }
        ensures { IfOk result (λ made. made ≡ reduced_block F.P self.now.code self.now.mark j) }
    {
        element_laws::<F>();
        diagram_laws(self.cube.diagram());
        self.cube.chosen_block(alloc, &self.circles, j - 1)
    }

    /// The same block by its columns alone, which are made one at a time.
    fn opening_block<F: PrimeField>(
        &self,
        alloc: Global,
        j: i16,
    ) -> Result<ChosenBlock<'_, F>, NoMemory>
        requires { Contains (reduced_degrees self.now.code self.now.mark) j }
        ensures { IfOk result (λ made. made ≡ reduced_block F.P self.now.code self.now.mark j) }
    {
        element_laws::<F>();
        diagram_laws(self.cube.diagram());
        self.cube.chosen_opening_block(alloc, &self.circles, j - 1)
    }

    /// Adds the rows of the block at a reduced quantum degree, which is made, cancelled to zero and
    /// dropped.
    pub(crate) fn push_block<F: PrimeField>(
        &self,
        alloc: Global,
        rows: &mut Vec<Row>,
        j: i16,
    ) -> Result<(), NoMemory>
        requires { Contains (reduced_degrees self.now.code self.now.mark) j }
        ensures { OnOk result (rows.new.items
            ≡ rows.old.items ++ reduced_rows F.P self.now.code self.now.mark j) }
    {
        element_laws::<F>();
        let reduced = reduce(alloc, self.opening_block::<F>(alloc, j)?)?;
        let reach = self.cube.diagram().crossings().len();
        push_rows(rows, &reduced.complex, j, reach)?;
        Ok(())
    }

    /// The table of the diagram, from the rows of all its reduced blocks.
    pub(crate) fn whole_table<F: PrimeField>(&self, rows: Vec<Row>) -> Table
        requires size { generator_count self.now.code ≤ GENERATORS }
        requires rows { rows.items ≡ flat_map (reduced_rows F.P self.now.code self.now.mark)
            (reduced_degrees self.now.code self.now.mark) }
        ensures { result ≡ reduced_table F.P self.now.code self.now.mark }
    {
        element_laws::<F>();
        diagram_laws(self.cube.diagram());
        Table::of_rows(F::P, rows)
    }
}
