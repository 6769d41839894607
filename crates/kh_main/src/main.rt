//! The program `kh`: it gives the real words, input and output to the top call, and ends with the
//! number of its status.
#![tactic(auto)]

#[cfg(test)]
mod tests;

ghost use Rattle.std.specs.Prelude.{◌≡◌, IfErr, IfOk, IsErr};
ghost use Rattle.std.specs.Process.{exit_status};
ghost use Rattle.kh_runs.specs.Statuses.{status_number};
ghost use Rattle.kh_runs.specs.Told.{seen};
ghost use Rattle.kh_work.specs.Runs.{IsProgramRun, KeepsHeadline};

use kh_io::{StdSink, StdSource};
use kh_runs::words_of;
use kh_types::Words;
use kh_work::{Status, run_given};
use std::alloc::Global;
use std::io;
use std::io::{Read, Write};
use std::process::ExitCode;
use std::rt::Env;
use std::sync::Wait;
use std::thread::Threads;
use worker_pool::Free;

fn main(rt: HostRuntime) -> ExitCode {
    exit_of(&rt, &rt)
}

/// Does all that the program does, over a system's words, input and output and with threads, and
/// answers what the program ends with.
fn exit_of<T: Threads + Wait + Sync>(
    threads: &T,
    rt: &(impl Input + Print + Env + AllocGlobal),
) -> ExitCode {
    exit_code(status_of(threads, rt))
}

/// The exit status that stands for a status.
fn exit_code(status: Status) -> ExitCode
    ensures { exit_status result ≡ status_number status }
{
    ExitCode::from(status.number())
}

fn status_of<T: Threads + Wait + Sync>(
    threads: &T,
    rt: &(impl Input + Print + Env + AllocGlobal),
) -> Status {
    let mut source = StdSource::new(rt.reader());
    let mut sink = StdSink::new(io::writer(rt));
    run_over_std(threads, rt.alloc(), words_of(rt), &mut source, &mut sink)
}

/// Does it over a reader and a writer of std: the theorem of `run_given`, at the bytes that std
/// tells of these. Of a system's own it tells none.
pub fn run_over_std<T: Threads + Wait + Sync, R: Read + Drop, W: Write + Drop>(
    threads: &T,
    alloc: Global,
    given: Result<Words, Status>,
    source: &mut StdSource<R>,
    sink: &mut StdSink<W>,
) -> Status
    ensures run { IfOk given (λ words. IsProgramRun words
        (seen (R.remaining source.old.inner) source.old.faults) (seen (R.remaining source.new.inner) source.new.faults)
        (seen (W.contents sink.old.inner) sink.old.faults) (seen (W.contents sink.new.inner) sink.new.faults)
        (source.new ≡ source.old) (sink.new ≡ sink.old) result) }
    ensures headline { IfOk given (λ words. KeepsHeadline words
        (seen (R.remaining source.old.inner) source.old.faults) (seen (R.remaining source.new.inner) source.new.faults)
        (seen (W.contents sink.old.inner) sink.old.faults) (seen (W.contents sink.new.inner) sink.new.faults) result) }
    ensures ended { IfErr given (λ status. result ≡ status) }
    ensures unread { IsErr given → source.new ≡ source.old }
    ensures unwritten { IsErr given → sink.new ≡ sink.old }
{
    run_given(threads, alloc, given, source, sink, &Free)
}
