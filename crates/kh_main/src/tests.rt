//! The program over a system of the tests' own, whose words, input and output are known: what no
//! clause says of it.

mod faults;
mod gates;
mod system;

use crate::exit_of;
use kh_io::{MemSink, MemSource};
use kh_runs::words_of;
use kh_types::Words;
use kh_work::{Status, run, run_alone};
use std::process::{Abort, ExitCode};
use std::sync::Wait;
use std::test::Fail;
use std::thread::Threads;
use system::System;
use worker_pool::Free;

const TREFOIL: &[u8] = b"PD[X[1,4,2,5], X[3,6,4,1], X[5,2,6,3]]";

const TREFOIL_TABLE: &str = "table 2
field 2
j -9 i -3 dim 1
j -7 i -3 dim 1
j -7 i -2 dim 1
j -5 i -2 dim 1
j -3 i 0 dim 1
j -1 i 0 dim 1
jones -1*q^-9 1*q^-5 1*q^-3 1*q^-1
";

const USAGE: &str = "usage: kh COMMAND [OPTIONS]\n";

/// Command lines, with the program's name, and what each comes to where the trefoil is the input: a
/// status and a text.
const LINES: [(&[&[u8]], u8, &str); 12] = [
    (&[b"kh", b"homology"], 0, TREFOIL_TABLE),
    (&[b"", b"homology"], 0, TREFOIL_TABLE),
    (&[], 2, USAGE),
    (&[b"homology"], 2, USAGE),
    (&[b"kh", b"homology", b"homology"], 2, USAGE),
    (&[b"kh", b"", b"homology"], 2, USAGE),
    (&[b"kh", b" homology"], 2, USAGE),
    (&[b"kh", b"homology "], 2, USAGE),
    (&[b"kh", b"homology", b"\xff"], 2, ""),
    (&[b"kh", b"homology", b"--workers", b"1"], 0, TREFOIL_TABLE),
    (&[b"kh", b"homology", b"--workers", b"8"], 0, TREFOIL_TABLE),
    (&[b"kh", b"homology", b"--workers", b"65"], 2, USAGE),
];

/// The program ends with this status, and has written this text.
fn ends<R: Abort + Threads + Wait + Sync>(rt: &R, system: &System<'_>, exit: u8, text: &[u8]) {
    assert_eq!(rt; exit_of(rt, system), ExitCode::from(exit));
    system.has_written(rt, text);
}

#[test]
fn a_command_line_comes_to_a_status_and_a_text(rt: HostRuntime) -> Result<(), Fail> {
    for (line, exit, text) in LINES {
        let system = System::new(rt.alloc(), line, TREFOIL, 1_000)?;
        ends(&rt, &system, exit, text.as_bytes());
    }
    Ok(())
}

#[test]
fn run_alone_does_what_run_does_with_workers(rt: HostRuntime) -> Result<(), Fail> {
    let mut words = Words::new(rt.alloc())?;
    for word in ["homology", "--workers", "3"] {
        words.push(rt.alloc(), word)?;
    }
    let mut source = MemSource::new(rt.alloc(), TREFOIL, 7, &[])?;
    let mut sink = MemSink::new(rt.alloc(), 4_096, 5, &[])?;
    let mut other_source = MemSource::new(rt.alloc(), TREFOIL, 7, &[])?;
    let mut other_sink = MemSink::new(rt.alloc(), 4_096, 5, &[])?;
    let status = run(&rt, rt.alloc(), &words, &mut source, &mut sink, &Free);
    let alone = run_alone(rt.alloc(), &words, &mut other_source, &mut other_sink);
    assert!(rt; status == Status::Done && alone == status);
    assert!(rt; other_sink.bytes() == sink.bytes());
    assert!(rt; other_sink.bytes() == TREFOIL_TABLE.as_bytes());
    Ok(())
}

#[test]
fn all_words_but_the_name_are_taken_as_they_are(rt: HostRuntime) -> Result<(), Fail> {
    let long = [b'w'; 700];
    let line = [
        b"kh".as_slice(),
        b"homology",
        b"",
        b" -1\n",
        &long,
        b"homology",
        b"\xc3\xa9",
    ];
    let system = System::new(rt.alloc(), &line, b"", 0)?;
    let words = words_of(&system)?;
    assert_eq!(rt; words.count(), 6);
    for (place, word) in line.iter().skip(1).enumerate() {
        assert_eq!(rt; words.word(place).as_bytes(), *word, "{place}");
    }
    Ok(())
}

#[test]
fn the_input_is_read_to_its_end(rt: HostRuntime) -> Result<(), Fail> {
    let homology = [b"kh".as_slice(), b"homology"];
    for (count, exit, text) in [
        (65_536, 0, TREFOIL_TABLE),
        (65_537, 6, "limit bytes 65537 of 65536\n"),
    ] {
        let mut bytes = Vec::from_slice(rt.alloc(), TREFOIL)?;
        bytes.resize(count, b' ')?;
        let system = System::new(rt.alloc(), &homology, &bytes, 1_000)?;
        ends(&rt, &system, exit, text.as_bytes());
    }
    Ok(())
}

#[test]
fn a_fault_of_the_input_or_the_output_is_a_status(rt: HostRuntime) -> Result<(), Fail> {
    let homology = [b"kh".as_slice(), b"homology"];
    let system = System::new(rt.alloc(), &homology, TREFOIL, 1_000)?.broken();
    ends(&rt, &system, 3, b"");
    for room in [0, 1, 12, 101] {
        let system = System::new(rt.alloc(), &homology, TREFOIL, room)?;
        let written = TREFOIL_TABLE.as_bytes().get(..room);
        ends(&rt, &system, 4, written.unwrap_or(TREFOIL));
    }
    Ok(())
}
