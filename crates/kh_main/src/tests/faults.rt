//! The trefoil's homology, read and written byte by byte, with a fault of each call in turn.

use super::{TREFOIL, TREFOIL_TABLE};
use kh_io::{MemSink, MemSource};
use kh_types::{NoMemory, Words};
use kh_work::{Status, run};
use std::alloc::Global;
use std::fmt::Debug;
use std::process::Abort;
use std::test::Fail;
use worker_pool::Free;

/// How often a source is read that gives the 38 bytes of the trefoil one by one: the last read
/// finds its end.
const READS: u64 = 39;

/// How often a sink is written to that takes the 145 bytes of the table one by one.
const WRITES: u64 = 145;

/// The words of the command.
fn homology(alloc: Global) -> Result<Words, NoMemory> {
    let mut words = Words::new(alloc)?;
    words.push(alloc, "homology")?;
    Ok(words)
}

/// A source or a sink says of itself that there were so many calls, and so many faults.
fn tells(
    rt: &(impl Abort + AllocGlobal),
    itself: &impl Debug,
    calls: u64,
    faults: u64,
) -> Result<(), Fail> {
    let text = format!(in rt.alloc(); "{itself:?}")?;
    let end = format!(in rt.alloc(); "calls: {calls}, faults: {faults} }}")?;
    assert!(rt; text.as_str().ends_with(end.as_str()), "{text}");
    Ok(())
}

#[test]
fn each_read_that_fails_is_a_fault_and_none_comes_behind_the_end(
    rt: HostRuntime,
) -> Result<(), Fail> {
    let words = homology(rt.alloc())?;
    for call in 1..READS + 2 {
        let mut source = MemSource::new(rt.alloc(), TREFOIL, 1, &[call])?;
        let mut sink = MemSink::new(rt.alloc(), 4_096, 4_096, &[])?;
        let status = run(&rt, rt.alloc(), &words, &mut source, &mut sink, &Free);
        if call <= READS {
            assert!(rt;
                status == Status::ReadFault && sink.bytes().is_empty(),
                "{call}"
            );
            tells(&rt, &source, call, 1)?;
        } else {
            assert!(rt; status == Status::Done, "{call}");
            assert!(rt; sink.bytes() == TREFOIL_TABLE.as_bytes(), "{call}");
            tells(&rt, &source, READS, 0)?;
        }
    }
    Ok(())
}

#[test]
fn each_write_that_fails_is_a_fault_behind_the_bytes_before_it(
    rt: HostRuntime,
) -> Result<(), Fail> {
    let words = homology(rt.alloc())?;
    for call in 1..WRITES + 2 {
        let mut source = MemSource::new(rt.alloc(), TREFOIL, 4_096, &[])?;
        let mut sink = MemSink::new(rt.alloc(), 4_096, 1, &[call])?;
        let status = run(&rt, rt.alloc(), &words, &mut source, &mut sink, &Free);
        let fails = call <= WRITES;
        let wanted = if fails {
            Status::WriteFault
        } else {
            Status::Done
        };
        assert!(rt; status == wanted, "{call}");
        let written = TREFOIL_TABLE.as_bytes().get(..call as usize - 1);
        assert!(rt; Some(sink.bytes()) == written, "{call}");
        tells(
            &rt,
            &sink,
            if fails { call } else { WRITES },
            u64::from(fails),
        )?;
    }
    Ok(())
}
