//! How homology tables are made: on the caller's thread, or by workers.

ghost use Rattle.std.specs.Prelude.{◌≡◌, ◌<◌, IfOk, length};
ghost use Rattle.kh_types.specs.Table.{table};
ghost use Rattle.kh_work.specs.TableMakers.{AreSeveral, IsTableMaker};
ghost use Rattle.union_laws.specs.Loops.{with_loops};
ghost use Rattle.word_line.specs.Values.{AreWorkers};

use crate::circles::{beside_loops, of_reduced};
use circle_smoothing::CountedDiagram;
use cube_signs::SmallDiagram;
use homology_tables::Table;
use kh_types::laws::diagrams::diagram_laws;
use kh_types::{Diagram, NoMemory, RawCode};
use prime_field::{FieldSize, PrimeField, over_field};
use reduced_cube::{ReducedStop, reduced_table};
use shared_block::small_table;
use std::alloc::Global;
use std::sync::Wait;
use std::thread::Threads;
use worker_pool::{Gate, cancel_small};

/// The homology table of a diagram over the field of so many elements, made on the caller's thread.
/// Loops are put beside the table of the crossings. Source: Bar-Natan 2002, section 3.
pub fn table_alone(alloc: Global, field: FieldSize, small: &SmallDiagram) -> Result<Table, NoMemory>
    ensures { IfOk result (λ made. made ≡ table field small.now) }
{
    over_field!(field, table_alone_over(alloc, small))
}

fn table_alone_over<F: PrimeField>(alloc: Global, small: &SmallDiagram) -> Result<Table, NoMemory>
    ensures { IfOk result (λ made. made ≡ table F.P small.now) }
{
    let diagram = small.counted().diagram();
    if diagram.loops() == 0 {
        return cubed_alone::<F>(alloc, small);
    }
    let bare = cubed_alone::<F>(alloc, &without_loops(small))?;
    beside_loops::<F>(alloc, bare, diagram)
}

/// The same from one cube, in which loops are circles like all others. Over two elements the
/// reduced cube does, at any mark: it has half of the generators.
fn cubed_alone<F: PrimeField>(alloc: Global, small: &SmallDiagram) -> Result<Table, NoMemory>
    ensures { IfOk result (λ made. made ≡ table F.P small.now) }
{
    if F::P == 2 && small.counted().diagram().count() > 0 {
        reduced_alone::<F>(alloc, small)
    } else {
        small_table::<F>(alloc, small)
    }
}

/// The same over two elements, where there is an arc to mark.
fn reduced_alone<F: PrimeField>(alloc: Global, small: &SmallDiagram) -> Result<Table, NoMemory>
    requires two { F.P ≡ 2 }
    requires some { 0 < length small.now.crossings }
    ensures { IfOk result (λ made. made ≡ table F.P small.now) }
{
    let diagram = small.counted().diagram();
    match reduced_table::<F>(alloc, diagram, 1) {
        Ok(reduced) => of_reduced::<F>(alloc, &reduced, diagram),
        Err(ReducedStop::NoMemory) => Err(NoMemory),
        // (the first arc is a mark, and the generators are few)
        Err(ReducedStop::Mark { .. } | ReducedStop::SizeLimit { .. }) => unreachable!(),
    }
}

/// The homology table of a diagram over the field of so many elements, made on the caller's thread
/// for one worker, and by a maker for several.
pub fn table_from<M: Fn(FieldSize, u32, &SmallDiagram) -> Result<Table, NoMemory>>(
    alloc: Global,
    maker: &M,
    field: FieldSize,
    workers: u32,
    small: &SmallDiagram,
) -> Result<Table, NoMemory>
    requires maker { IsTableMaker M.Fn maker.now }
    requires workers { AreWorkers workers }
    ensures { IfOk result (λ made. made ≡ table field small.now) }
{
    if workers == 1 {
        table_alone(alloc, field, small)
    } else {
        maker(field, workers, small)
    }
}

/// The same table, made by several workers, who call a gate in each of their turns. They share the
/// blocks of the whole cube, over two elements too, since such blocks are all that they share.
/// Source: Bar-Natan 2002, section 3.
pub fn table_by<R: Threads + Wait + Sync, G: Gate + Sync>(
    rt: &R,
    alloc: Global,
    field: FieldSize,
    workers: u32,
    small: &SmallDiagram,
    gate: &G,
) -> Result<Table, NoMemory>
    requires workers { AreSeveral workers }
    ensures { IfOk result (λ made. made ≡ table field small.now) }
{
    over_field!(
        field,
        table_by_over::<R, G>(rt, alloc, workers, small, gate)
    )
}

fn table_by_over<F: PrimeField + Send + Sync, R: Threads + Wait + Sync, G: Gate + Sync>(
    rt: &R,
    alloc: Global,
    workers: u32,
    small: &SmallDiagram,
    gate: &G,
) -> Result<Table, NoMemory>
    requires workers { AreSeveral workers }
    ensures { IfOk result (λ made. made ≡ table F.P small.now) }
{
    let diagram = small.counted().diagram();
    if diagram.loops() == 0 {
        return Ok(cancel_small::<R, F, G>(rt, alloc, small, workers, gate)?.table);
    }
    let bare = cancel_small::<R, F, G>(rt, alloc, &without_loops(small), workers, gate)?.table;
    beside_loops::<F>(alloc, bare, diagram)
}

/// The diagram without its loops, whose states are counted anew.
fn without_loops(small: &SmallDiagram) -> SmallDiagram
    ensures { result ≡ with_loops small.now 0 }
{
    let diagram = small.counted().diagram();
    diagram_laws(diagram);
    let bare = Diagram::of_accepted(&with_no_loops(diagram.to_raw()));
    let counted = CountedDiagram::of_diagram(&bare);
    SmallDiagram::known(counted)
}

/// The code without its loops.
fn with_no_loops(raw: RawCode) -> RawCode
    ensures { result ≡ with_loops raw 0 }
{
    RawCode {
        crossings: raw.crossings,
        loops: 0,
    }
}
