//! The program `kh-scan`: one diagram, or a list, answered crossing by crossing, whatever the size
//! of its cube.
#![tactic(auto)]

mod characteristic;
mod jones;
mod laws;
mod list;
mod replies;
mod table;
#[cfg(test)]
mod tests;
mod top;

ghost use Rattle.std.specs.Prelude.{◌≡◌, IfErr, IfOk, IsErr};
ghost use Rattle.std.specs.Process.{exit_status};
ghost use Rattle.kh_runs.specs.Statuses.{status_number};
ghost use Rattle.kh_runs.specs.Told.{seen};
ghost use Rattle.scan_main.specs.ScanRuns.{IsScanRun, KeepsListHeadline, KeepsScanHeadline};

use kh_io::{StdSink, StdSource};
use kh_runs::{Status, words_of};
use kh_types::Words;
use std::alloc::Global;
use std::io;
use std::io::{Read, Write};
use std::process::ExitCode;
use std::rt::Env;
use top::run_given;

fn main(rt: HostRuntime) -> ExitCode {
    exit_of(&rt)
}

/// Does all that the program does, over a system's words, input and output, and answers what the
/// program ends with.
fn exit_of(rt: &(impl Input + Print + Env + AllocGlobal)) -> ExitCode {
    exit_code(status_of(rt))
}

/// The exit status that stands for a status.
fn exit_code(status: Status) -> ExitCode
    ensures { exit_status result ≡ status_number status }
{
    ExitCode::from(status.number())
}

fn status_of(rt: &(impl Input + Print + Env + AllocGlobal)) -> Status {
    let mut source = StdSource::new(rt.reader());
    let mut sink = StdSink::new(io::writer(rt));
    run_over_std(rt.alloc(), words_of(rt), &mut source, &mut sink)
}

/// Does it over a reader and a writer of std: the theorem of `run_given`, at the bytes that std
/// tells of these. Of a system's own it tells none.
pub fn run_over_std<R: Read + Drop, W: Write + Drop>(
    alloc: Global,
    given: Result<Words, Status>,
    source: &mut StdSource<R>,
    sink: &mut StdSink<W>,
) -> Status
    ensures run { IfOk given (λ words. IsScanRun words
        (seen (R.remaining source.old.inner) source.old.faults) (seen (R.remaining source.new.inner) source.new.faults)
        (seen (W.contents sink.old.inner) sink.old.faults) (seen (W.contents sink.new.inner) sink.new.faults)
        (source.new ≡ source.old) (sink.new ≡ sink.old) result) }
    ensures headline { IfOk given (λ words. KeepsScanHeadline words
        (seen (R.remaining source.old.inner) source.old.faults) (seen (R.remaining source.new.inner) source.new.faults)
        (seen (W.contents sink.old.inner) sink.old.faults) (seen (W.contents sink.new.inner) sink.new.faults) result) }
    ensures lists { IfOk given (λ words. KeepsListHeadline words
        (seen (R.remaining source.old.inner) source.old.faults) (seen (R.remaining source.new.inner) source.new.faults)
        (seen (W.contents sink.old.inner) sink.old.faults) (seen (W.contents sink.new.inner) sink.new.faults) result) }
    ensures ended { IfErr given (λ status. result ≡ status) }
    ensures unread { IsErr given → source.new ≡ source.old }
    ensures unwritten { IsErr given → sink.new ≡ sink.old }
{
    run_given(alloc, given, source, sink)
}
