//! Reading a source to its end, and writing bytes whole.

ghost use Rattle.std.specs.Prelude.{◌≡◌, ◌≢◌, ◌-◌, ◌^◌, ℕ, ◌+◌, ◌<◌, ◌≤◌, ◌↔◌, List, [], length, IfOk, OnOk, IsOk, IfSome, Err};
ghost use Rattle.std.specs.Io.KnownBytes.{Consumes, Appends, IsAtEnd};
ghost use Rattle.kh_io.specs.Faults.{Rose, HasCause};
ghost use Rattle.kh_io.specs.Prefixes.{AppendsPrefix};

use crate::limits::READ_BYTES;
use crate::sink::Sink;
use crate::source::{Failed, Source};
use kh_types::INPUT_BYTES;
use std::alloc::{AllocError, Global};

/// Why a source was not read to its end.
#[derive(Clone, Copy, Debug, PartialEq, Eq)]
pub enum ReadStop {
    /// A read failed.
    Fault,
    /// The source has more bytes than the caller takes.
    ByteLimit,
    /// Out of memory.
    NoMemory,
}

impl From<Failed> for ReadStop {
    ghost use Rattle.kh_io.specs.declared.transfer.ReadStop.{ReadStop};

    ghost from_gives = { λ _ stop. stop ≡ ReadStop.Fault };

    fn from(_: Failed) -> Self {
        ReadStop::Fault
    }
}

impl From<AllocError> for ReadStop {
    ghost use Rattle.kh_io.specs.declared.transfer.ReadStop.{ReadStop};

    ghost from_gives = { λ _ stop. stop ≡ ReadStop.NoMemory };

    fn from(_: AllocError) -> Self {
        ReadStop::NoMemory
    }
}

/// All bytes of a source that has at most `INPUT_BYTES`. It stops at the first fault, and where
/// there are more.
pub fn read_all<S: Source>(alloc: Global, source: &mut S) -> Result<Vec<u8>, ReadStop>
    ensures bytes { IfOk result (λ bytes. IfSome (S.left source.old) (λ all. bytes.items ≡ all)) }
    ensures end { OnOk result (IsAtEnd (S.left source.new)) }
    ensures size { IfOk result (λ bytes. length bytes.items ≤ INPUT_BYTES) }
    // More than `INPUT_BYTES` are taken exactly where the answer says so.
    ensures taken { (prefix : List ℕ) × Consumes (S.left source.old) (S.left source.new) prefix
        × (result ≡ Err ReadStop.ByteLimit ↔ (INPUT_BYTES < length prefix)) }
    ensures fault { result ≡ Err ReadStop.Fault → Rose (S.faults source.old) (S.faults source.new) }
    ensures later { S.faults source.old ≤ S.faults source.new }
    ensures stayed { result ≢ Err ReadStop.Fault → S.faults source.new ≡ S.faults source.old }
    ensures reads { S.reads source.new ≤ S.reads source.old + (INPUT_BYTES + 1) }
    ensures reads_to_end { IfOk result (λ bytes.
        S.reads source.new ≤ S.reads source.old + (length bytes.items + 1)) }
{
    read_most(alloc, source, INPUT_BYTES as u32)
}

/// All bytes of a source that has at most so many. It stops at the first fault, and where there are
/// more.
pub fn read_most<S: Source>(alloc: Global, source: &mut S, most: u32) -> Result<Vec<u8>, ReadStop>
    requires { most < 2 ^ 32 - 2 }
    ensures bytes { IfOk result (λ bytes. IfSome (S.left source.old) (λ all. bytes.items ≡ all)) }
    ensures end { OnOk result (IsAtEnd (S.left source.new)) }
    ensures size { IfOk result (λ bytes. length bytes.items ≤ most) }
    // More bytes than these are taken exactly where the answer says so.
    ensures taken { (prefix : List ℕ) × Consumes (S.left source.old) (S.left source.new) prefix
        × (result ≡ Err ReadStop.ByteLimit ↔ (most < length prefix)) }
    ensures fault { result ≡ Err ReadStop.Fault → Rose (S.faults source.old) (S.faults source.new) }
    ensures later { S.faults source.old ≤ S.faults source.new }
    ensures stayed { result ≢ Err ReadStop.Fault → S.faults source.new ≡ S.faults source.old }
    ensures reads { S.reads source.new ≤ S.reads source.old + (most + 1) }
    ensures reads_to_end { IfOk result (λ bytes.
        S.reads source.new ≤ S.reads source.old + (length bytes.items + 1)) }
{
    let mut bytes = Vec::new(alloc);
    let mut buffer = [0; READ_BYTES];
    'reading: loop {
        let count = source.read(&mut buffer)?;
        if count == 0 {
            return Ok(bytes);
        }
        if bytes.len() + count > most as usize {
            return Err(ReadStop::ByteLimit);
        }
        bytes.extend_from_slice(&buffer[..count])?;
    }
}

/// Writes all the bytes. It stops at the first fault, with a prefix of them written. No bytes are
/// no write.
pub fn write_all<K: Sink>(sink: &mut K, bytes: &[u8]) -> Result<(), Failed>
    ensures whole { OnOk result (Appends (K.written sink.old) (K.written sink.new) bytes.now) }
    ensures prefix { AppendsPrefix (K.written sink.old) (K.written sink.new) bytes.now }
    ensures cause { HasCause (K.faults sink.old) (K.faults sink.new) result }
    ensures empty { bytes.now ≡ [] → IsOk result × (sink.new ≡ sink.old) }
{
    let mut at = 0;
    'writing: while at < bytes.len() {
        at += sink.write(&bytes[at..])?;
    }
    Ok(())
}
