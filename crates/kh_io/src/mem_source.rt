//! A source in memory, for tests: its bytes, its pieces and its failures are given.

ghost use Rattle.std.specs.Prelude.{◌≡◌, ◌<◌, ◌≤◌, ◌+◌, ◌↔◌, min, length, take, IsErr, IfOk, OnErr, Some};
ghost use Rattle.std.specs.Io.{ReadsAtMost};
ghost use Rattle.std.specs.Io.KnownBytes.{ReadConsumes};
ghost use Rattle.kh_io.specs.Faults.{HasCause};
ghost use Rattle.kh_io.specs.Supplies.{FailsNext, first_supply, supply_after_read, supply_after_fault, next_piece};

use crate::counts::{counted, is_listed};
use crate::source::{Failed, Source};
use kh_types::NoMemory;
use std::alloc::Global;
use std::marker::Model;

/// A source that gives the bytes it was made of, at most so many in a read, and fails in chosen
/// reads. Contracts see it as a `Supply`. Reads are numbered from 1.
#[derive(Debug, Drop)]
pub struct MemSource {
    bytes: Vec<u8>,
    at: usize,
    piece: usize,
    fail: Vec<u64>,
    calls: u64,
    faults: u64,
}

impl Model for MemSource {
    ghost use Rattle.kh_io.specs.Supplies.{Supply};

    ghost Value = { Supply };

    ghost use Rattle.kh_io.specs.MemSources.{supply_of, KeepsSupply};

    ghost view = { supply_of };

    ghost invariant = { KeepsSupply };
}

impl MemSource {
    /// The source of these bytes, which gives at most `piece` of them in a read.
    /// The reads whose numbers stand in `fail` fail.
    pub fn new(
        alloc: Global,
        bytes: &[u8],
        piece: usize,
        fail: &[u64],
    ) -> Result<MemSource, NoMemory>
        requires { 0 < piece }
        ensures { IfOk result (λ source. source ≡ first_supply bytes.now piece fail.now) }
    {
        Ok(MemSource {
            bytes: Vec::from_slice(alloc, bytes)?,
            at: 0,
            piece,
            fail: Vec::from_slice(alloc, fail)?,
            calls: 0,
            faults: 0,
        })
    }
}

impl Source for MemSource {
    ghost left = { λ source. Some source.left };

    ghost faults = { λ source. source.faults };

    ghost reads = { λ source. source.calls };

    fn read(&mut self, buffer: &mut [u8]) -> Result<usize, Failed>
        requires { 0 < length buffer.old }
        ensures bound { ReadsAtMost result buffer.new }
        ensures bytes { ReadConsumes (Some self.old.left) (Some self.new.left) result buffer.new }
        ensures cause { HasCause self.old.faults self.new.faults result }
        ensures reads { self.new.calls ≤ self.old.calls + 1 }
        ensures fails { IsErr result ↔ FailsNext self.old.fail self.old.calls }
        ensures piece { IfOk result (λ count. count ≡ next_piece self.old (length buffer.old)) }
        ensures after { IfOk result (λ count. self.new ≡ supply_after_read self.old count) }
        ensures failed { OnErr result (self.new ≡ supply_after_fault self.old) }
    {
        self.calls = counted(self.calls);
        if is_listed(&self.fail, self.calls) {
            self.faults = counted(self.faults);
            return Err(Failed);
        }
        let count = copy_prefix(&self.bytes[self.at..], self.piece, buffer);
        self.at += count;
        Ok(count)
    }
}

/// Copies a prefix of the bytes into the buffer, at most a piece of them, and answers how many.
fn copy_prefix(bytes: &[u8], piece: usize, buffer: &mut [u8]) -> usize
    ensures count { result ≡ min piece (min (length bytes.now) (length buffer.old)) }
    ensures prefix { take result buffer.new ≡ take result bytes.now }
{
    let count = piece.min(bytes.len().min(buffer.len()));
    buffer[..count].copy_from_slice(&bytes[..count]);
    count
}
