//! Sources and sinks in memory, reading to the end, and writing whole.

use crate::{Failed, MemSink, MemSource, ReadStop, Sink, Source, read_all, read_most, write_all};
use std::test::Fail;

#[test]
fn a_source_gives_its_pieces_and_fails_in_chosen_reads(rt: HostRuntime) -> Result<(), Fail> {
    let mut source = MemSource::new(rt.alloc(), b"abcde", 2, &[2])?;
    let mut buffer = [0; 8];
    for (turn, wanted) in [Ok(2), Err(Failed), Ok(2), Ok(1), Ok(0)].iter().enumerate() {
        assert_eq!(rt; source.read(&mut buffer), *wanted, "read {turn}");
    }
    assert_eq!(rt; buffer[0], b'e');
    Ok(())
}

#[test]
fn a_sink_takes_its_pieces_and_fails_in_chosen_writes(rt: HostRuntime) -> Result<(), Fail> {
    let mut sink = MemSink::new(rt.alloc(), 16, 1, &[2])?;
    assert_eq!(rt; sink.write(b"field"), Ok(1));
    assert_eq!(rt; write_all(&mut sink, b"ield"), Err(Failed));
    assert_eq!(rt; write_all(&mut sink, b"ield"), Ok(()));
    assert_eq!(rt; sink.bytes(), b"field".as_slice());
    Ok(())
}

#[test]
fn reads_and_writes_what_there_is_room_for(rt: HostRuntime) -> Result<(), Fail> {
    for (count, is_read) in [(0, true), (7, true), (65_536, true), (65_537, false)] {
        let bytes = vec![in rt.alloc(); b' '; count]?;
        let mut source = MemSource::new(rt.alloc(), &bytes, 5_000, &[])?;
        match read_all(rt.alloc(), &mut source) {
            Ok(read) => assert!(rt; is_read && read.as_slice() == bytes.as_slice(), "{count}"),
            Err(stop) => assert!(rt; !is_read && stop == ReadStop::ByteLimit, "{count}"),
        }
        let mut sink = MemSink::new(rt.alloc(), 65_536, 5_000, &[])?;
        assert_eq!(rt; write_all(&mut sink, &bytes).is_ok(), is_read, "{count}");
        assert_eq!(rt; sink.bytes().len(), count.min(65_536));
    }
    Ok(())
}

#[test]
fn reads_no_more_than_is_asked(rt: HostRuntime) -> Result<(), Fail> {
    let mut source = MemSource::new(rt.alloc(), b"0123456789", 3, &[])?;
    let bytes = read_most(rt.alloc(), &mut source, 10)?;
    assert!(rt; bytes.as_slice() == b"0123456789".as_slice());
    let mut long = MemSource::new(rt.alloc(), b"0123456789a", 3, &[])?;
    let stop = read_most(rt.alloc(), &mut long, 10).err();
    assert!(rt; stop == Some(ReadStop::ByteLimit));
    Ok(())
}

#[test]
fn a_failed_read_stops_the_reading(rt: HostRuntime) -> Result<(), Fail> {
    let mut source = MemSource::new(rt.alloc(), b"field", 4, &[2])?;
    let stop = read_all(rt.alloc(), &mut source).err();
    assert_eq!(rt; stop, Some(ReadStop::Fault));
    Ok(())
}

#[test]
fn the_causes_of_a_stop_differ(rt: HostRuntime) {
    let stops = [ReadStop::Fault, ReadStop::ByteLimit, ReadStop::NoMemory];
    for (place, one) in stops.iter().enumerate() {
        for (other_place, other) in stops.iter().enumerate() {
            assert_eq!(rt; one == other, place == other_place);
        }
    }
}
