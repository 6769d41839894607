//! The command `bench`: the counts, the dimension and the Jones polynomial of the diagram of a
//! number.

ghost use Rattle.std.specs.Prelude.{◌≡◌, ◌++◌, IfOk, string_bytes};
ghost use Rattle.word_line.specs.Values.{AreWorkers};
ghost use Rattle.homology_tables.specs.Tables.{total_of};
ghost use Rattle.kh_work.specs.Bench.{bench_counts, bench_lines, bench_reply, bench_text};
ghost use Rattle.kh_work.specs.TableMakers.{IsTableMaker};
ghost use Rattle.kh_runs.specs.Homology.{jones_line};
ghost use Rattle.kh_runs.specs.Replies.{reply_of};
ghost use Rattle.kh_runs.specs.declared.status.Status.{Status};

use crate::tables::table_from;
use braid_maker::from_number;
use braid_maker::laws::numbers_give_small_diagrams;
use circle_smoothing::CountedDiagram;
use cube_signs::SmallDiagram;
use homology_tables::Table;
use kh_replies::{jones_line, too_large_number};
use kh_runs::{Reply, Status, reply_made};
use kh_types::NoMemory;
use prime_field::FieldSize;
use std::alloc::Global;

/// A number, how many crossings, loops and generators its diagram has, and the dimension of its
/// homology.
#[derive(Clone, Copy)]
pub struct BenchCounts {
    /// The number.
    pub number: u32,
    /// The crossings.
    pub crossings: u8,
    /// The crossingless loops.
    pub loops: u8,
    /// The generators of the cube.
    pub generators: u128,
    /// The sum of all dimensions.
    pub dimension: u64,
}

/// The reply to a number: where a diagram has it, from the homology table of that, which the maker
/// makes where there are several workers; else the line of the limit.
pub fn reply_to_bench<M: Fn(FieldSize, u32, &SmallDiagram) -> Result<Table, NoMemory>>(
    alloc: Global,
    field: FieldSize,
    workers: u32,
    number: u32,
    maker: &M,
) -> Result<Reply, NoMemory>
    requires maker { IsTableMaker M.Fn maker.now }
    requires workers { AreWorkers workers }
    ensures { IfOk result (λ reply. reply ≡ bench_reply field number) }
{
    numbers_give_small_diagrams();
    match from_number(number) {
        Ok(diagram) => {
            let small = SmallDiagram::known(CountedDiagram::of_diagram(&diagram));
            Ok(reply_to_small(alloc, field, workers, number, &small, maker)?)
        }
        Err(limit) => Ok(too_large_number(alloc, limit.number)?),
    }
}

/// The reply to a number whose diagram this is.
fn reply_to_small<M: Fn(FieldSize, u32, &SmallDiagram) -> Result<Table, NoMemory>>(
    alloc: Global,
    field: FieldSize,
    workers: u32,
    number: u32,
    small: &SmallDiagram,
    maker: &M,
) -> Result<Reply, NoMemory>
    requires maker { IsTableMaker M.Fn maker.now }
    requires workers { AreWorkers workers }
    ensures { IfOk result (λ reply. reply ≡ reply_of Status.Done (bench_text field number small.now)) }
{
    let table = table_from(alloc, maker, field, workers, small)?;
    Ok(reply_with_dimension(alloc, number, small.counted(), &table)?)
}

/// The lines of the counts and of the sum of all dimensions of the homology table, and the Jones
/// line, which is read from the counts of the diagram's states.
fn reply_with_dimension(
    alloc: Global,
    number: u32,
    counted: &CountedDiagram,
    table: &Table,
) -> Result<Reply, NoMemory>
    ensures { IfOk result (λ reply. reply ≡ reply_of Status.Done
        (bench_lines (bench_counts number counted.now (total_of table.now)) ++ jones_line counted.now)) }
{
    let counts = bench_counts(number, counted, table.total());
    let mut text = bench_lines(alloc, counts)?.into_bytes();
    text.extend_from_slice(&jones_line(alloc, counted)?)?;
    Ok(reply_made(Status::Done, text))
}

/// The counts of a number and its diagram, and a dimension.
fn bench_counts(number: u32, counted: &CountedDiagram, dimension: u64) -> BenchCounts
    ensures { result ≡ bench_counts number counted.now dimension }
{
    let diagram = counted.diagram();
    BenchCounts {
        number,
        crossings: diagram.count(),
        loops: diagram.loops(),
        generators: counted.generator_count(),
        dimension,
    }
}

/// The lines of some counts.
fn bench_lines(alloc: Global, counts: BenchCounts) -> Result<String, NoMemory>
    ensures { IfOk result (λ text. string_bytes text ≡ bench_lines counts) }
{
    Ok(format!(in alloc;
        "bench {}\ncrossings {} loops {} generators {}\ndimension {}\n",
        counts.number, counts.crossings, counts.loops, counts.generators, counts.dimension
    )?)
}
