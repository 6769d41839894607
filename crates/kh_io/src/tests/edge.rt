//! The edge over readers and writers of std that fail, take nothing or take little, and then go on.

use crate::{Failed, ReadStop, Sink, Source, StdSink, StdSource, read_all, write_all};
use std::alloc::AllocGlobal;
use std::io;
use std::io::{ErrorKind, Read, Write};
use std::process::Abort;
use std::test::Fail;

/// What a call of a reader or a writer comes to: it moves at most so many bytes, or fails.
#[derive(Clone, Copy)]
enum Turn {
    Moves(usize),
    Fails(ErrorKind),
}

const MOVES_ALL: Turn = Turn::Moves(usize::MAX);

/// Takes the next of the turns. Behind the last, all is moved.
fn next_of(turns: &mut &[Turn]) -> Turn {
    match turns.split_first() {
        Some((turn, rest)) => {
            *turns = rest;
            *turn
        }
        None => MOVES_ALL,
    }
}

/// A reader of std whose reads come to its turns.
#[derive(Drop)]
struct Reader<'a> {
    turns: &'a [Turn],
    bytes: &'a [u8],
}

impl Read for Reader<'_> {
    fn read(&mut self, buffer: &mut [u8]) -> io::Result<usize> {
        match next_of(&mut self.turns) {
            Turn::Moves(count) => {
                let room = count.min(buffer.len());
                self.bytes.read(&mut buffer[..room])
            }
            Turn::Fails(kind) => Err(kind.into()),
        }
    }
}

/// A writer of std whose writes and flushes come to its turns, in one row.
#[derive(Drop)]
struct Writer<'a> {
    turns: &'a [Turn],
    written: Vec<u8>,
}

impl Write for Writer<'_> {
    fn write(&mut self, piece: &[u8]) -> io::Result<usize> {
        match next_of(&mut self.turns) {
            Turn::Moves(count) => {
                let taken = count.min(piece.len());
                self.written.extend_from_slice(&piece[..taken])?;
                Ok(taken)
            }
            Turn::Fails(kind) => Err(kind.into()),
        }
    }

    fn flush(&mut self) -> io::Result<()> {
        match next_of(&mut self.turns) {
            Turn::Moves(_) => Ok(()),
            Turn::Fails(kind) => Err(kind.into()),
        }
    }
}

const KINDS: [ErrorKind; 42] = [
    ErrorKind::NotFound,
    ErrorKind::PermissionDenied,
    ErrorKind::ConnectionRefused,
    ErrorKind::ConnectionReset,
    ErrorKind::HostUnreachable,
    ErrorKind::NetworkUnreachable,
    ErrorKind::ConnectionAborted,
    ErrorKind::NotConnected,
    ErrorKind::AddrInUse,
    ErrorKind::AddrNotAvailable,
    ErrorKind::NetworkDown,
    ErrorKind::BrokenPipe,
    ErrorKind::AlreadyExists,
    ErrorKind::WouldBlock,
    ErrorKind::NotADirectory,
    ErrorKind::IsADirectory,
    ErrorKind::DirectoryNotEmpty,
    ErrorKind::ReadOnlyFilesystem,
    ErrorKind::FilesystemLoop,
    ErrorKind::StaleNetworkFileHandle,
    ErrorKind::InvalidInput,
    ErrorKind::InvalidData,
    ErrorKind::TimedOut,
    ErrorKind::WriteZero,
    ErrorKind::StorageFull,
    ErrorKind::NotSeekable,
    ErrorKind::QuotaExceeded,
    ErrorKind::FileTooLarge,
    ErrorKind::ResourceBusy,
    ErrorKind::ExecutableFileBusy,
    ErrorKind::Deadlock,
    ErrorKind::CrossesDevices,
    ErrorKind::TooManyLinks,
    ErrorKind::InvalidFilename,
    ErrorKind::ArgumentListTooLong,
    ErrorKind::Interrupted,
    ErrorKind::Unsupported,
    ErrorKind::UnexpectedEof,
    ErrorKind::OutOfMemory,
    ErrorKind::InProgress,
    ErrorKind::Other,
    ErrorKind::Uncategorized,
];

const TEXT: &[u8] = b"field 2";

/// The reads of a source come to `wanted`, one by one, and together they give the text.
fn reads(rt: &impl Abort, turns: &[Turn], wanted: &[Result<usize, Failed>]) {
    let mut source = StdSource::new(Reader { turns, bytes: TEXT });
    let mut buffer = [0; 16];
    let mut at = 0;
    for (turn, answer) in wanted.iter().enumerate() {
        let read = source.read(&mut buffer);
        assert_eq!(rt; read, *answer, "read {turn}");
        if let Ok(count) = read {
            assert_eq!(rt;
                buffer.get(..count),
                TEXT.get(at..).and_then(|rest| rest.get(..count))
            );
            at = count.saturating_add(at);
        }
    }
    assert_eq!(rt; at, TEXT.len());
}

/// The writes of the text to a sink come to `wanted`, one by one, and leave these bytes.
fn writes(
    rt: &(impl Abort + AllocGlobal),
    turns: &[Turn],
    wanted: &[Result<usize, Failed>],
    left: &[u8],
) -> Result<(), Fail> {
    let mut writer = Writer {
        turns,
        written: Vec::new(rt.alloc()),
    };
    let mut sink = StdSink::new(&mut writer);
    for (turn, answer) in wanted.iter().enumerate() {
        assert_eq!(rt; sink.write(TEXT), *answer, "write {turn}");
    }
    assert_eq!(rt; writer.written.as_slice(), left);
    Ok(())
}

#[test]
fn an_error_of_any_kind_is_one_fault_and_the_next_call_goes_on(
    rt: HostRuntime,
) -> Result<(), Fail> {
    let all = Ok(TEXT.len());
    for kind in KINDS {
        let fails = Turn::Fails(kind);
        reads(&rt, &[fails], &[Err(Failed), all, Ok(0)]);
        writes(&rt, &[fails], &[Err(Failed), all], b"field 2")?;
        writes(
            &rt,
            &[MOVES_ALL, fails],
            &[Err(Failed), all],
            b"field 2field 2",
        )?;
    }
    Ok(())
}

#[test]
fn a_call_of_the_edge_is_one_call_of_std(rt: HostRuntime) -> Result<(), Fail> {
    let fails = Turn::Fails(ErrorKind::Other);
    let (two, none) = (Turn::Moves(2), Turn::Moves(0));
    reads(
        &rt,
        &[two, none, fails, two],
        &[Ok(2), Ok(0), Err(Failed), Ok(2), Ok(3)],
    );
    writes(
        &rt,
        &[two, fails, none, two],
        &[Err(Failed), Err(Failed), Ok(2)],
        b"fifi",
    )?;
    writes(
        &rt,
        &[none, none, two, two, fails],
        &[Err(Failed), Err(Failed), Ok(2), Err(Failed)],
        b"fi",
    )
}

#[test]
fn reading_ends_where_a_read_gives_nothing(rt: HostRuntime) -> Result<(), Fail> {
    let turns = [
        Turn::Moves(3),
        Turn::Moves(0),
        Turn::Fails(ErrorKind::Other),
    ];
    let mut source = StdSource::new(Reader {
        turns: &turns,
        bytes: TEXT,
    });
    assert_eq!(rt;
        read_all(rt.alloc(), &mut source)?.as_slice(),
        b"fie".as_slice()
    );
    assert_eq!(rt;
        read_all(rt.alloc(), &mut source).err(),
        Some(ReadStop::Fault)
    );
    assert_eq!(rt;
        read_all(rt.alloc(), &mut source)?.as_slice(),
        b"ld 2".as_slice()
    );
    Ok(())
}

#[test]
fn texts_of_any_size_go_through_the_edge(rt: HostRuntime) -> Result<(), Fail> {
    for count in [0, 1, 6, 5_000, 65_536] {
        let bytes = vec![in rt.alloc(); b'7'; count]?;
        let read = read_all(rt.alloc(), &mut StdSource::new(bytes.as_slice()))?;
        let mut room = vec![in rt.alloc(); b' '; count]?;
        let mut sink = StdSink::new(room.as_mut_slice());
        assert_eq!(rt; write_all(&mut sink, &read), Ok(()), "{count}");
        assert_eq!(rt; write_all(&mut sink, b"8"), Err(Failed), "{count}");
        assert_eq!(rt; room.as_slice(), bytes.as_slice(), "{count}");
    }
    Ok(())
}
