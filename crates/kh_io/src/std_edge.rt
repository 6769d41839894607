//! Readers and writers of std as sources and sinks: the edge of the program. Their bytes are known
//! where std tells those of the reader or the writer: of slices, queues, vectors, cursors that are
//! read, and what is buffered or borrowed over these. Of a locked standard input (`LockedStdin`),
//! of what prints (`io::writer`) and of files it tells none: what these give and take is trusted.

ghost use Rattle.std.specs.Prelude.{◌≡◌, ◌<◌, ◌≤◌, ◌+◌, length, take, IfOk};
ghost use Rattle.std.specs.Io.{ReadsAtMost, WritesAtMost};
ghost use Rattle.std.specs.Io.KnownBytes.{ReadConsumes, Appends};
ghost use Rattle.kh_io.specs.Faults.{HasCause, IsCounted};
ghost use Rattle.kh_io.specs.Prefixes.{AppendsPrefix};

use crate::counts::counted;
use crate::sink::Sink;
use crate::source::{Failed, Source};
use std::io::{Read, Write};
use std::marker::Model;

/// A reader of std as a source, whose bytes are those that the reader has left, where std tells
/// them. A read is one read of the reader, and an error of std is a fault that is counted.
#[derive(Drop)]
pub struct StdSource<R: Read + Drop> {
    reader: R,
    faults: u64,
}

impl<R: Read + Drop> Model for StdSource<R> {
    ghost use Rattle.kh_io.specs.Watches.{Watch};

    ghost Value = { Watch R };

    ghost view = { λ watch. record { inner = watch.reader; faults = watch.faults } };
}

impl<R: Read + Drop> StdSource<R> {
    /// The source over a reader, without faults so far.
    pub fn new(reader: R) -> StdSource<R>
        ensures { result ≡ record { inner = reader; faults = 0 } }
    {
        StdSource { reader, faults: 0 }
    }
}

impl<R: Read + Drop> Source for StdSource<R> {
    ghost left = { λ source. R.remaining source.inner };

    ghost faults = { λ source. source.faults };

    ghost reads = { λ _. 0 };

    fn read(&mut self, buffer: &mut [u8]) -> Result<usize, Failed>
        ensures bound { ReadsAtMost result buffer.new }
        ensures bytes { ReadConsumes (R.remaining self.old.inner) (R.remaining self.new.inner)
            result buffer.new }
        ensures cause { HasCause self.old.faults self.new.faults result }
        ensures counted { IsCounted self.old.faults self.new.faults result }
    {
        match self.reader.read(buffer) {
            Ok(count) => Ok(count),
            Err(_) => {
                self.faults = counted(self.faults);
                Err(Failed)
            }
        }
    }
}

/// A writer of std as a sink, whose bytes are the writer's contents, where std tells them. A write
/// is one write of the writer and, if that took bytes, one flush; it fails, and counts a fault,
/// where either does or nothing was taken. Where the flush failed, all that was taken is written.
#[derive(Drop)]
pub struct StdSink<W: Write + Drop> {
    writer: W,
    faults: u64,
}

impl<W: Write + Drop> Model for StdSink<W> {
    ghost use Rattle.kh_io.specs.Watches.{Watch};

    ghost Value = { Watch W };

    ghost view = { λ watch. record { inner = watch.writer; faults = watch.faults } };
}

impl<W: Write + Drop> StdSink<W> {
    /// The sink over a writer, without faults so far.
    pub fn new(writer: W) -> StdSink<W>
        ensures { result ≡ record { inner = writer; faults = 0 } }
    {
        StdSink { writer, faults: 0 }
    }
}

impl<W: Write + Drop> Sink for StdSink<W> {
    ghost written = { λ sink. W.contents sink.inner };

    ghost faults = { λ sink. sink.faults };

    fn write(&mut self, piece: &[u8]) -> Result<usize, Failed>
        ensures some { IfOk result (λ count. 0 < count) }
        ensures bound { WritesAtMost result piece.now }
        ensures taken { IfOk result (λ count. Appends
            (W.contents self.old.inner) (W.contents self.new.inner) (take count piece.now)) }
        ensures prefix { AppendsPrefix
            (W.contents self.old.inner) (W.contents self.new.inner) piece.now }
        ensures cause { HasCause self.old.faults self.new.faults result }
        ensures counted { IsCounted self.old.faults self.new.faults result }
    {
        match write_through(&mut self.writer, piece) {
            Ok(count) => Ok(count),
            Err(Failed) => {
                self.faults = counted(self.faults);
                Err(Failed)
            }
        }
    }
}

/// Writes once and flushes. It fails where std does, and where nothing was taken.
fn write_through<W: Write>(writer: &mut W, piece: &[u8]) -> Result<usize, Failed>
    ensures some { IfOk result (λ count. 0 < count) }
    ensures bound { WritesAtMost result piece.now }
    ensures taken { IfOk result (λ count. Appends
        (W.contents writer.old) (W.contents writer.new) (take count piece.now)) }
    ensures prefix { AppendsPrefix (W.contents writer.old) (W.contents writer.new) piece.now }
{
    match writer.write(piece) {
        Ok(0) | Err(_) => Err(Failed),
        Ok(count) => match writer.flush() {
            Ok(()) => Ok(count),
            Err(_) => Err(Failed),
        },
    }
}
