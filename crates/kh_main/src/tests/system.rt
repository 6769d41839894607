//! A system of the tests' own: words and input that are given, and an output that is kept.

use kh_io::{MemSink, Sink, write_all};
use kh_types::NoMemory;
use std::alloc::{Alloc, Allocator, Global};
use std::cell::RefCell;
use std::env::FillError;
use std::fmt::Display;
use std::io;
use std::io::{BufRead, ErrorKind, Lines, Read};
use std::process::Abort;
use std::rt::Env;

/// A command line with the program's name, the bytes of an input, and where they go that are
/// written.
#[derive(Drop)]
pub struct System<'a> {
    alloc: Global,
    line: &'a [&'a [u8]],
    input: &'a [u8],
    is_broken: bool,
    sink: RefCell<MemSink>,
}

/// The input: each read gives at most seven bytes, and where it is broken the read behind the last
/// byte fails.
#[derive(Drop)]
pub struct Bytes<'a> {
    left: &'a [u8],
    is_broken: bool,
}

impl<'a> System<'a> {
    /// A system that reads these bytes and has room for this many, of which a write takes at most
    /// five.
    pub(crate) fn new(
        alloc: Global,
        line: &'a [&'a [u8]],
        input: &'a [u8],
        room: usize,
    ) -> Result<System<'a>, NoMemory> {
        Ok(System {
            alloc,
            line,
            input,
            is_broken: false,
            sink: RefCell::new(MemSink::new(alloc, room, 5, &[])?),
        })
    }

    /// The system whose input fails behind its last byte.
    pub(crate) fn broken(self) -> System<'a> {
        System {
            is_broken: true,
            ..self
        }
    }

    /// Asserts that these bytes were written, and no others.
    pub(crate) fn has_written(&self, rt: &impl Abort, bytes: &[u8]) {
        match self.sink.try_borrow() {
            Ok(sink) => assert_eq!(rt; sink.bytes(), bytes),
            Err(_) => assert!(rt; false, "the output is in use"),
        }
    }
}

impl Alloc for System<'_> {
    type A = Global;

    fn alloc(&self) -> Global {
        self.alloc
    }
}

impl Env for System<'_> {
    fn arg(&self, i: usize, buf: &mut [u8]) -> Result<usize, FillError> {
        match self.line.get(i) {
            None => Err(FillError::NotPresent),
            Some(word) if buf.len() < word.len() => Err(FillError::TooLong),
            Some(word) => {
                buf[..word.len()].copy_from_slice(word);
                Ok(word.len())
            }
        }
    }

    fn var(&self, _name: &str, _buf: &mut [u8]) -> Result<usize, FillError> {
        Err(FillError::NotPresent)
    }

    fn var_at(&self, _i: usize, _buf: &mut [u8]) -> Result<usize, FillError> {
        Err(FillError::NotPresent)
    }
}

impl Read for Bytes<'_> {
    fn read(&mut self, buf: &mut [u8]) -> io::Result<usize> {
        if self.is_broken && self.left.is_empty() {
            return Err(ErrorKind::Interrupted.into());
        }
        let room = buf.len().min(7);
        self.left.read(&mut buf[..room])
    }
}

impl BufRead for Bytes<'_> {
    fn fill_buf(&mut self) -> io::Result<&[u8]> {
        Ok(self.left)
    }

    fn consume(&mut self, amount: usize) {
        self.left.consume(amount)
    }
}

impl<'a> Input for System<'a> {
    type Reader = Bytes<'a>;

    fn read_line<A: Allocator + Clone>(&self, buf: &mut String<A>) -> io::Result<usize> {
        self.reader().read_line(buf)
    }

    fn lines<A: Allocator>(&self, alloc: A) -> Lines<Bytes<'a>, A> {
        self.reader().lines(alloc)
    }

    fn reader(&self) -> Bytes<'a> {
        Bytes {
            left: self.input,
            is_broken: self.is_broken,
        }
    }
}

impl Print for System<'_> {
    fn print<D: Display + Drop>(&self, value: D) -> io::Result<()> {
        self.write_all(value.to_string(self.alloc)?.as_bytes())
    }

    fn println<D: Display + Drop>(&self, value: D) -> io::Result<()> {
        self.print(value)?;
        self.write_all(b"\n")
    }

    fn write_all(&self, bytes: &[u8]) -> io::Result<()> {
        match self.sink.try_borrow_mut() {
            Ok(mut sink) => write_all(&mut *sink, bytes).map_err(|_| ErrorKind::StorageFull.into()),
            Err(_) => Err(ErrorKind::Other.into()),
        }
    }

    fn write_some(&self, bytes: &[u8]) -> io::Result<usize> {
        if bytes.is_empty() {
            return Ok(0);
        }
        match self.sink.try_borrow_mut() {
            Ok(mut sink) => sink.write(bytes).map_err(|_| ErrorKind::StorageFull.into()),
            Err(_) => Err(ErrorKind::Other.into()),
        }
    }
}
