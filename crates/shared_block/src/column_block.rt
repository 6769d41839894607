//! A block whose columns are being reduced, as what a versioned lock holds.

ghost use Rattle.std.specs.Prelude.{◌≡◌, [], length, true, IfNone, IfOk, IfSome, IsTrue};
ghost use Rattle.std.specs.Arc.{arc_value};
ghost use Rattle.std.specs.List.{Contains};
ghost use mathlib.Core.List.{IsPrefix};
ghost use Rattle.kh_types.specs.Acceptance.{accepted};
ghost use Rattle.kh_types.specs.Complex.{is_zero};
ghost use Rattle.cube_signs.specs.Blocks.{block_degrees};
ghost use Rattle.shared_block.specs.AllBlocks.{IsFinished};
ghost use Rattle.shared_block.specs.BlockHistories.{HasLegalHistory, block_with, complex_of};
ghost use Rattle.shared_block.specs.ColumnBlocks.{IsLookAt, pivot_seen};
ghost use Rattle.shared_block.specs.Commits.{with_pivot};

use crate::SharedBlock;
use crate::column_look::ColumnLook;
use column_reduction::{ColumnReduction, Reduced};
use cube_signs::{Around, BlockPlaces, Cube};
use kh_types::laws::diagrams::diagram_laws;
use kh_types::{Diagram, NoMemory};
use prime_field::PrimeField;
use prime_field::laws::element_laws;
use sparse_block::Pivot;
use std::alloc::Global;
use std::marker::{Model, PhantomData};
use std::sync::Arc;
use version_lock::Held;

/// The block of a cube at a quantum degree, whose columns are being reduced, each when its turn
/// comes. A look reduces the next one, and a commit keeps it. Contracts see a `BlockHistory`.
#[derive(Drop)]
pub struct ColumnBlock<F: PrimeField> {
    cube: Arc<Cube>,
    diagram: Diagram,
    degree: i16,
    places: BlockPlaces,
    // The edges out of the state whose column was made last.
    near: Around,
    reduction: ColumnReduction,
    field: PhantomData<F>,
}

impl<F: PrimeField> Model for ColumnBlock<F> {
    ghost use Rattle.std.specs.Prelude.{◌≡◌};
    ghost use Rattle.std.specs.Arc.{arc_value};
    ghost use Rattle.shared_block.specs.BlockHistories.{BlockHistory, block_with};
    ghost use Rattle.shared_block.specs.ColumnBlocks.{IsColumnBlock};

    ghost Value = { BlockHistory };

    ghost view = { λ held. block_with held.diagram held.degree held.reduction.history.items };

    ghost invariant = { λ held. (arc_value held.cube ≡ held.diagram)
        × IsColumnBlock F.P held.diagram held.degree held.places held.near
        held.reduction };
}

impl<F: PrimeField> ColumnBlock<F> {
    /// The block of a cube at a quantum degree, of which no column is reduced yet.
    pub fn of_cube(alloc: Global, cube: &Arc<Cube>, j: i16) -> Result<ColumnBlock<F>, NoMemory>
        requires { Contains (block_degrees (arc_value cube.now)) j }
        ensures { IfOk result (λ made. made ≡ block_with (arc_value cube.now) j []) }
    {
        element_laws::<F>();
        let diagram = *cube.diagram();
        diagram_laws(&diagram);
        let places = cube.block_places::<F>(alloc, j)?;
        let near = cube.nowhere(alloc);
        let source = cube.borrowed_block::<F>(alloc, &places, &near);
        let reduction = ColumnReduction::start::<F, _>(alloc, &source)?;
        drop(source);
        Ok(ColumnBlock {
            cube: Arc::try_clone(cube)?,
            diagram,
            degree: j,
            places,
            near,
            reduction,
            field: PhantomData,
        })
    }

    /// The length of the history.
    pub fn version(&self) -> u64
        ensures { result ≡ length self.now.history }
    {
        self.reduction.version()
    }

    /// Reduces what is left, and gives the block that is zero then: its history goes on.
    pub fn finish(self, alloc: Global) -> Result<SharedBlock<F>, NoMemory>
        ensures zero { IfOk result (IsFinished F.P) }
        ensures history { IfOk result (λ made. IsPrefix self.history made.history) }
        ensures diagram { IfOk result (λ made. made.diagram ≡ self.diagram) }
        ensures degree { IfOk result (λ made. made.degree ≡ self.degree) }
    {
        element_laws::<F>();
        let mut block = self;
        'turns: while let Some(look) = block.next(alloc)? {
            column_block_laws(&block);
            block.take_fitting(look);
        }
        block.into_shared(alloc)
    }

    /// The next column of which something is left; `None` exactly where nothing is left.
    fn next(&self, alloc: Global) -> Result<Option<ColumnLook>, NoMemory>
        ensures none { IfOk result (λ seen.
            IfNone seen (is_zero (complex_of F.P self.now) ≡ true)) }
        ensures open { IfOk result (λ seen. IfSome seen (λ _.
            ¬ (is_zero (complex_of F.P self.now) ≡ true))) }
        ensures look { IfOk result (λ seen. IfSome seen (IsLookAt F.P self.now)) }
    {
        element_laws::<F>();
        let version = self.reduction.version();
        let mut source = self
            .cube
            .borrowed_block::<F>(alloc, &self.places, &self.near);
        match self.reduction.look::<F, _>(alloc, &mut source)? {
            Some(found) => Ok(Some(ColumnLook {
                version,
                found,
                near: source.into_around(),
            })),
            None => Ok(None),
        }
    }

    /// Takes a look at the block as it is.
    fn take_fitting(&mut self, look: ColumnLook)
        requires { IsLookAt F.P self.old look }
        ensures { self.new ≡ with_pivot self.old (pivot_seen look) }
    {
        element_laws::<F>();
        let ColumnLook { found, near, .. } = look;
        self.reduction.take(found);
        if near.is_found() {
            self.near = near;
        }
    }

    /// The block with its pivots, where nothing is left.
    fn into_shared(self, alloc: Global) -> Result<SharedBlock<F>, NoMemory>
        requires { is_zero (complex_of F.P self) ≡ true }
        ensures { IfOk result (λ made. made ≡ self) }
    {
        element_laws::<F>();
        let ColumnBlock {
            cube,
            diagram,
            degree,
            places,
            reduction,
            ..
        } = self;
        let source = cube.opening_at::<F>(alloc, places);
        let Reduced { complex, pivots } = reduction.finish::<F, _>(alloc, source)?;
        Ok(SharedBlock {
            diagram,
            degree,
            history: pivots,
            complex,
        })
    }
}

/// What the type of such a block keeps. It does nothing: a function calls it, and its proof then has
/// these facts at hand.
pub fn column_block_laws<F: PrimeField>(block: &ColumnBlock<F>)
    ensures code { IsTrue (accepted block.now.diagram) }
    ensures legal { HasLegalHistory F.P block.now }
{
    element_laws::<F>();
    let _ = &block.diagram;
}

impl<F: PrimeField + Send> Held for ColumnBlock<F> {
    type Origin = (Diagram, i16);

    type Entry = Pivot;

    type Look = ColumnLook;

    type Patch = ColumnLook;

    ghost origin = { λ held. (held.diagram, held.degree) };

    ghost history = { λ held. held.history };

    ghost entry = { λ patch. pivot_seen patch };

    ghost look_fits = { λ look origin history.
        IsLookAt F.P (block_with origin.0 origin.1 history) look };

    ghost patch_fits = { λ patch origin history.
        IsLookAt F.P (block_with origin.0 origin.1 history) patch };

    ghost done = { λ origin history.
        is_zero (complex_of F.P (block_with origin.0 origin.1 history)) ≡ true };

    fn version(&self) -> u64 {
        ColumnBlock::version(self)
    }

    fn look_at(&self, alloc: Global, _hint: u32) -> Result<Option<ColumnLook>, NoMemory> {
        self.next(alloc)
    }

    fn take(&mut self, patch: ColumnLook) {
        self.take_fitting(patch);
    }

    ghost look_is_short = { λ look origin history fits. fits.short };

    ghost patch_is_short = { λ patch origin history fits. fits.short };
}
