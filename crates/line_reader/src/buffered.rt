//! Bytes that were read before they are wanted.

ghost use Rattle.std.specs.Prelude.{◌≡◌, ◌≢◌, ◌+◌, ◌<◌, ◌≤◌, [], length, IfOk, IsOk, OnErr};
ghost use Rattle.kh_io.specs.Faults.{HasCause};
ghost use Rattle.kh_io.specs.declared.limits.TheConstants.{READ_BYTES};
ghost use Rattle.std.specs.Io.KnownBytes.{IsAtEnd};
ghost use Rattle.line_reader.specs.Advances.{IsAdvanced, IsNextByte, IsTakenFrom};

use kh_io::{Failed, READ_BYTES, Source};
use std::marker::Model;

/// Bytes that a source gave and nobody has taken yet. Contracts see them as a list.
#[derive(Drop)]
pub struct Buffered {
    bytes: [u8; READ_BYTES],
    at: usize,
    end: usize,
}

impl Model for Buffered {
    ghost use Rattle.std.specs.Prelude.{ℕ, List};

    ghost Value = { List ℕ };

    ghost use Rattle.line_reader.specs.Buffers.{bytes_of, KeepsBytes};

    ghost view = { bytes_of };

    ghost invariant = { KeepsBytes };
}

impl Buffered {
    /// Nothing is buffered.
    pub fn new() -> Buffered
        ensures { result ≡ [] }
    {
        Buffered {
            bytes: [0; READ_BYTES],
            at: 0,
            end: 0,
        }
    }

    /// The next byte of a source behind these; `None` at its end. Where nothing is buffered it
    /// reads the source once, as much as that gives.
    pub fn next_byte<S: Source>(&mut self, source: &mut S) -> Result<Option<u8>, Failed>
        ensures byte { IfOk result
            (IsNextByte self.old self.new (S.left source.old) (S.left source.new)) }
        ensures failed { OnErr result
            (IsAdvanced self.old self.new (S.left source.old) (S.left source.new) []) }
        ensures emptied { OnErr result (self.new ≡ []) }
        ensures cause { HasCause (S.faults source.old) (S.faults source.new) result }
        ensures unread { self.old ≢ [] → source.new ≡ source.old }
        ensures buffered { self.old ≢ [] → IsOk result × IfOk result (IsTakenFrom self.old self.new) }
        ensures reads { S.reads source.new ≤ S.reads source.old + 1 }
        ensures size { length self.new < READ_BYTES }
    {
        match self.take_byte() {
            Some(byte) => Ok(Some(byte)),
            None => {
                self.refill(source)?;
                Ok(self.take_byte())
            }
        }
    }

    /// Reads the source once, where nothing is buffered.
    fn refill<S: Source>(&mut self, source: &mut S) -> Result<(), Failed>
        requires { self.old ≡ [] }
        ensures given { IfOk result (λ _.
            IsAdvanced self.old self.new (S.left source.old) (S.left source.new) []) }
        ensures ended { IfOk result (λ _. self.new ≡ [] → IsAtEnd (S.left source.new)) }
        ensures failed { OnErr result
            (IsAdvanced self.old self.new (S.left source.old) (S.left source.new) []) }
        ensures emptied { OnErr result (self.new ≡ []) }
        ensures cause { HasCause (S.faults source.old) (S.faults source.new) result }
        ensures reads { S.reads source.new ≤ S.reads source.old + 1 }
    {
        self.at = 0;
        self.end = 0;
        self.end = source.read(&mut self.bytes)?;
        Ok(())
    }

    /// Takes the first of the buffered bytes.
    fn take_byte(&mut self) -> Option<u8>
        ensures first { IsTakenFrom self.old self.new result }
        ensures size { length self.new < READ_BYTES }
    {
        if self.at == self.end {
            return None;
        }
        let byte = self.bytes[self.at];
        self.at += 1;
        Some(byte)
    }
}
