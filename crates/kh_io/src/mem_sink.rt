//! A sink in memory, for tests: its room, its pieces and its failures are given.

ghost use Rattle.std.specs.Prelude.{◌≡◌, ◌<◌, ◌≤◌, ◌+◌, ◌⊎◌, ◌↔◌, min, length, take, IsErr, IfOk, OnErr, Some};
ghost use Rattle.std.specs.Io.{WritesAtMost};
ghost use Rattle.std.specs.Io.KnownBytes.{WriteAppends};
ghost use Rattle.kh_io.specs.Faults.{HasCause};
ghost use Rattle.kh_io.specs.Supplies.{FailsNext};
ghost use Rattle.kh_io.specs.Stores.{IsFull, first_store, store_after_write, store_after_fault, next_taken};

use crate::counts::{counted, is_listed};
use crate::sink::Sink;
use crate::source::Failed;
use kh_types::NoMemory;
use std::alloc::Global;
use std::marker::Model;

/// A sink that keeps what is written, at most so much in all and in a write, and fails in chosen
/// writes. Contracts see it as a `Store`. Writes are numbered from 1, and take no memory.
#[derive(Debug, Drop)]
pub struct MemSink {
    written: Vec<u8>,
    room: usize,
    piece: usize,
    fail: Vec<u64>,
    calls: u64,
    faults: u64,
}

impl Model for MemSink {
    ghost use Rattle.kh_io.specs.Stores.{Store};

    ghost Value = { Store };

    ghost use Rattle.kh_io.specs.MemSinks.{store_of, KeepsStore};

    ghost view = { store_of };

    ghost invariant = { KeepsStore };
}

impl MemSink {
    /// The empty sink that has room for `room` bytes and takes at most `piece` of them in a write.
    /// The writes whose numbers stand in `fail` fail.
    pub fn new(alloc: Global, room: usize, piece: usize, fail: &[u64]) -> Result<MemSink, NoMemory>
        requires { 0 < piece }
        ensures { IfOk result (λ sink. sink ≡ first_store room piece fail.now) }
    {
        Ok(MemSink {
            written: Vec::with_capacity(alloc, room)?,
            room,
            piece,
            fail: Vec::from_slice(alloc, fail)?,
            calls: 0,
            faults: 0,
        })
    }

    /// The bytes written so far.
    pub fn bytes(&self) -> &[u8]
        ensures { result.now ≡ self.now.written }
    {
        &self.written
    }
}

impl Sink for MemSink {
    ghost written = { λ sink. Some sink.written };

    ghost faults = { λ sink. sink.faults };

    fn write(&mut self, piece: &[u8]) -> Result<usize, Failed>
        requires { 0 < length piece.now }
        ensures some { IfOk result (λ count. 0 < count) }
        ensures bound { WritesAtMost result piece.now }
        ensures bytes { WriteAppends (Some self.old.written) (Some self.new.written)
            result piece.now }
        ensures cause { HasCause self.old.faults self.new.faults result }
        ensures fails { IsErr result ↔ (FailsNext self.old.fail self.old.calls ⊎ IsFull self.old) }
        ensures taken { IfOk result (λ count. count ≡ next_taken self.old (length piece.now)) }
        ensures after { IfOk result (λ count.
            self.new ≡ store_after_write self.old (take count piece.now)) }
        ensures failed { OnErr result (self.new ≡ store_after_fault self.old) }
    {
        self.calls = counted(self.calls);
        let left = self.room - self.written.len();
        if left == 0 || is_listed(&self.fail, self.calls) {
            self.faults = counted(self.faults);
            return Err(Failed);
        }
        let count = self.piece.min(left.min(piece.len()));
        match self.written.extend_from_slice(&piece[..count]) {
            Ok(()) => Ok(count),
            Err(_) => unreachable!(),
        }
    }
}
