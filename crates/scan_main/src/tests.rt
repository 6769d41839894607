//! The top call over sources and sinks in memory: what no clause says of it.

use crate::top::run;
use kh_io::{MemSink, MemSource};
use kh_runs::Status;
use kh_types::Words;
use prime_field::{FieldSize, PrimeField, over_field};
use std::process::Abort;
use std::test::Fail;

const TREFOIL: &[u8] = b"PD[X[1,4,2,5], X[3,6,4,1], X[5,2,6,3]]";

const TREFOIL_OVER_THREE: &str = "table 2
field 3
j -9 i -3 dim 1
j -5 i -2 dim 1
j -3 i 0 dim 1
j -1 i 0 dim 1
jones -1*q^-9 1*q^-5 1*q^-3 1*q^-1
";

/// Words, an input and room for what is written come to a status and a text.
fn comes_to<R: Abort + AllocGlobal>(
    rt: &R,
    words: &[&str],
    given: &[u8],
    room: usize,
    wanted: (Status, &str),
) -> Result<(), Fail> {
    let mut line = Words::new(rt.alloc())?;
    for word in words {
        line.push(rt.alloc(), word)?;
    }
    let mut source = MemSource::new(rt.alloc(), given, 7, &[])?;
    let mut sink = MemSink::new(rt.alloc(), room, 5, &[])?;
    let status = run(rt.alloc(), &line, &mut source, &mut sink);
    assert!(rt; status == wanted.0);
    assert!(rt; sink.bytes() == wanted.1.as_bytes());
    Ok(())
}

#[test]
fn words_and_an_input_come_to_a_status_and_a_text(rt: HostRuntime) -> Result<(), Fail> {
    let usage = (Status::Usage, "usage: kh-scan [each] [--field FIELD]\n");
    let table = (Status::Done, TREFOIL_OVER_THREE);
    comes_to(&rt, &["--field", "3"], TREFOIL, 1_000, table)?;
    comes_to(&rt, &["--field=3"], TREFOIL, 1_000, table)?;
    comes_to(&rt, &["homology"], TREFOIL, 1_000, usage)?;
    comes_to(&rt, &["--field", "all"], TREFOIL, 1_000, usage)?;
    let refused = (Status::CodeRefused, "refused text at 37\n");
    comes_to(&rt, &[], &TREFOIL[..37], 1_000, refused)?;
    let cut = (Status::WriteFault, "table 2\nfiel");
    comes_to(&rt, &["--field", "3"], TREFOIL, 12, cut)
}

/// A loop, a blank line, no code, and a line without a line feed, over three elements.
const ANSWERS_OVER_THREE: &str = "answers 1
code 1 field 3 status 0 bytes 64
table 2
field 3
j -1 i 0 dim 1
j 1 i 0 dim 1
jones 1*q^-1 1*q^1
code 3 field 3 status 1 bytes 18
refused text at 0
code 4 field 3 status 0 bytes 64
table 2
field 3
j -1 i 0 dim 1
j 1 i 0 dim 1
jones 1*q^-1 1*q^1
";

#[test]
fn each_line_of_a_list_is_answered(rt: HostRuntime) -> Result<(), Fail> {
    let list = b"PD[Loop[1]]\n \t\r\n?\nPD[Loop[1]]";
    let whole = (Status::Done, ANSWERS_OVER_THREE);
    comes_to(&rt, &["each", "--field", "3"], list, 1_000, whole)?;
    let cut = (Status::WriteFault, &ANSWERS_OVER_THREE[..100]);
    comes_to(&rt, &["--field=3", "each"], list, 100, cut)?;
    comes_to(&rt, &["each"], b"", 1_000, (Status::Done, "answers 1\n"))
}

/// The number of elements of a field.
fn elements_of<F: PrimeField>() -> u8 {
    F::P
}

#[test]
fn each_size_chooses_its_field(rt: HostRuntime) -> Result<(), Fail> {
    assert!(&rt; over_field!(FieldSize::TWO, elements_of()) == 2);
    assert!(&rt; over_field!(FieldSize::THREE, elements_of()) == 3);
    assert!(&rt; over_field!(FieldSize::FIVE, elements_of()) == 5);
    assert!(&rt; over_field!(FieldSize::SEVEN, elements_of()) == 7);
    Ok(())
}
