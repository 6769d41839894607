//! The top calls: they read, answer and write.

ghost use Rattle.std.specs.Prelude.{◌≡◌, IfErr, IfOk, IsErr};
ghost use Rattle.kh_runs.specs.Told.{seen};
ghost use Rattle.kh_work.specs.Runs.{IsProgramRun, KeepsHeadline, KeepsReduced};
ghost use Rattle.kh_work.specs.TableMakers.{AreSeveral, IsTableMaker};

use crate::answer::reply_to;
use crate::tables::{table_alone, table_by};
use cube_signs::SmallDiagram;
use homology_tables::Table;
use kh_io::{Sink, Source};
use kh_runs::{Status, written};
use kh_types::{NoMemory, Words};
use prime_field::FieldSize;
use std::alloc::Global;
use std::sync::Wait;
use std::thread::Threads;
use worker_pool::Gate;

/// Does all that the program does: takes the words after the program's name, reads the source to
/// its end where they mean a command that reads, makes the whole answer, and writes it. Answers how
/// the run ended. Only its maker starts threads and may wait, which may be called for several
/// workers alone: they then call the gate in each of their turns.
pub fn run<R: Threads + Wait + Sync, S: Source, K: Sink, G: Gate + Sync>(
    rt: &R,
    alloc: Global,
    words: &Words,
    source: &mut S,
    sink: &mut K,
    gate: &G,
) -> Status
    ensures run { IsProgramRun words.now
        (seen (S.left source.old) (S.faults source.old)) (seen (S.left source.new) (S.faults source.new))
        (seen (K.written sink.old) (K.faults sink.old)) (seen (K.written sink.new) (K.faults sink.new))
        (source.new ≡ source.old) (sink.new ≡ sink.old) result }
    ensures headline { KeepsHeadline words.now
        (seen (S.left source.old) (S.faults source.old)) (seen (S.left source.new) (S.faults source.new))
        (seen (K.written sink.old) (K.faults sink.old)) (seen (K.written sink.new) (K.faults sink.new)) result }
    ensures reduced { KeepsReduced words.now
        (seen (S.left source.old) (S.faults source.old)) (seen (S.left source.new) (S.faults source.new))
        (seen (K.written sink.old) (K.faults sink.old)) (seen (K.written sink.new) (K.faults sink.new)) result }
{
    let maker = |field: FieldSize, workers: u32, small: &SmallDiagram|
        requires { AreSeveral workers }
    { table_by(rt, alloc, field, workers, small, gate) };
    run_with(alloc, words, source, sink, &maker)
}

/// Does the same with the words that a system has given; where it has given none, ends with the
/// status that stands for that, and neither reads nor writes.
pub fn run_given<R: Threads + Wait + Sync, S: Source, K: Sink, G: Gate + Sync>(
    rt: &R,
    alloc: Global,
    given: Result<Words, Status>,
    source: &mut S,
    sink: &mut K,
    gate: &G,
) -> Status
    ensures run { IfOk given (λ words. IsProgramRun words
        (seen (S.left source.old) (S.faults source.old)) (seen (S.left source.new) (S.faults source.new))
        (seen (K.written sink.old) (K.faults sink.old)) (seen (K.written sink.new) (K.faults sink.new))
        (source.new ≡ source.old) (sink.new ≡ sink.old) result) }
    ensures headline { IfOk given (λ words. KeepsHeadline words
        (seen (S.left source.old) (S.faults source.old)) (seen (S.left source.new) (S.faults source.new))
        (seen (K.written sink.old) (K.faults sink.old)) (seen (K.written sink.new) (K.faults sink.new)) result) }
    ensures reduced { IfOk given (λ words. KeepsReduced words
        (seen (S.left source.old) (S.faults source.old)) (seen (S.left source.new) (S.faults source.new))
        (seen (K.written sink.old) (K.faults sink.old)) (seen (K.written sink.new) (K.faults sink.new)) result) }
    ensures ended { IfErr given (λ status. result ≡ status) }
    ensures unread { IsErr given → source.new ≡ source.old }
    ensures unwritten { IsErr given → sink.new ≡ sink.old }
{
    match given {
        Ok(words) => run(rt, alloc, &words, source, sink, gate),
        Err(status) => status,
    }
}

/// Does the same on the caller's thread, whatever the number of workers, and waits for nobody.
pub fn run_alone<S: Source, K: Sink>(
    alloc: Global,
    words: &Words,
    source: &mut S,
    sink: &mut K,
) -> Status
    ensures run { IsProgramRun words.now
        (seen (S.left source.old) (S.faults source.old)) (seen (S.left source.new) (S.faults source.new))
        (seen (K.written sink.old) (K.faults sink.old)) (seen (K.written sink.new) (K.faults sink.new))
        (source.new ≡ source.old) (sink.new ≡ sink.old) result }
    ensures headline { KeepsHeadline words.now
        (seen (S.left source.old) (S.faults source.old)) (seen (S.left source.new) (S.faults source.new))
        (seen (K.written sink.old) (K.faults sink.old)) (seen (K.written sink.new) (K.faults sink.new)) result }
    ensures reduced { KeepsReduced words.now
        (seen (S.left source.old) (S.faults source.old)) (seen (S.left source.new) (S.faults source.new))
        (seen (K.written sink.old) (K.faults sink.old)) (seen (K.written sink.new) (K.faults sink.new)) result }
{
    let alone = |field: FieldSize, _: u32, small: &SmallDiagram| table_alone(alloc, field, small);
    run_with(alloc, words, source, sink, &alone)
}

/// Does the same with the homology tables that a maker makes for several workers. It waits for
/// nobody but in the maker.
fn run_with<S: Source, K: Sink, M: Fn(FieldSize, u32, &SmallDiagram) -> Result<Table, NoMemory>>(
    alloc: Global,
    words: &Words,
    source: &mut S,
    sink: &mut K,
    maker: &M,
) -> Status
    requires { IsTableMaker M.Fn maker.now }
    ensures run { IsProgramRun words.now
        (seen (S.left source.old) (S.faults source.old)) (seen (S.left source.new) (S.faults source.new))
        (seen (K.written sink.old) (K.faults sink.old)) (seen (K.written sink.new) (K.faults sink.new))
        (source.new ≡ source.old) (sink.new ≡ sink.old) result }
    ensures headline { KeepsHeadline words.now
        (seen (S.left source.old) (S.faults source.old)) (seen (S.left source.new) (S.faults source.new))
        (seen (K.written sink.old) (K.faults sink.old)) (seen (K.written sink.new) (K.faults sink.new)) result }
    ensures reduced { KeepsReduced words.now
        (seen (S.left source.old) (S.faults source.old)) (seen (S.left source.new) (S.faults source.new))
        (seen (K.written sink.old) (K.faults sink.old)) (seen (K.written sink.new) (K.faults sink.new)) result }
{
    let made = reply_to(alloc, words, source, maker);
    written(sink, made)
}
