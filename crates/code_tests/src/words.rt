//! Lines of words, and what each comes to.

use kh_types::Words;
use prime_field::FieldSize;
use std::alloc::Global;
use std::test::Fail;
use word_line::{Command, Form, Task, WordStop, read_words};

const HOMOLOGY: Command = Command {
    task: Task::Homology,
    field: FieldSize::TWO,
    workers: 1,
    to: Form::Pd,
    number: None,
    mark: None,
};

/// Lines that mean a command, and the command.
const COMMANDS: [(&[&str], Command); 16] = [
    (&["homology"], HOMOLOGY),
    (
        &["--field=3", "homology"],
        Command {
            field: FieldSize::THREE,
            ..HOMOLOGY
        },
    ),
    (
        &["--field", "3", "homology"],
        Command {
            field: FieldSize::THREE,
            ..HOMOLOGY
        },
    ),
    (
        &["homology", "--field", "5"],
        Command {
            field: FieldSize::FIVE,
            ..HOMOLOGY
        },
    ),
    (&["--", "homology"], HOMOLOGY),
    (&["homology", "--"], HOMOLOGY),
    (
        &["--field=7", "--", "homology"],
        Command {
            field: FieldSize::SEVEN,
            ..HOMOLOGY
        },
    ),
    (
        &["homology", "--workers", "64"],
        Command {
            workers: 64,
            ..HOMOLOGY
        },
    ),
    (
        &["homology", "--workers=01"],
        Command {
            workers: 1,
            ..HOMOLOGY
        },
    ),
    (
        &["--to", "gauss", "convert"],
        Command {
            task: Task::Convert,
            to: Form::Gauss,
            ..HOMOLOGY
        },
    ),
    (
        &["--to=pd", "check", "--workers", "12"],
        Command {
            task: Task::Check,
            workers: 12,
            ..HOMOLOGY
        },
    ),
    (
        &["schedule"],
        Command {
            task: Task::Schedule,
            ..HOMOLOGY
        },
    ),
    (
        &["--field", "5", "edit"],
        Command {
            task: Task::Edit,
            field: FieldSize::FIVE,
            ..HOMOLOGY
        },
    ),
    (
        &["check", "--number", "0000007"],
        Command {
            task: Task::Check,
            number: Some(7),
            ..HOMOLOGY
        },
    ),
    (
        &["--number=9999999", "bench", "--workers", "4"],
        Command {
            task: Task::Bench,
            workers: 4,
            number: Some(9_999_999),
            ..HOMOLOGY
        },
    ),
    (
        &["reduced", "--mark", "007"],
        Command {
            task: Task::Reduced,
            mark: Some(7),
            ..HOMOLOGY
        },
    ),
];

/// Lines that mean none.
const USAGES: [&[&str]; 58] = [
    &[],
    &[""],
    &["--"],
    &["-"],
    &["help"],
    &["--help"],
    &["-h"],
    &["homology", "--help"],
    &["homology", "-h"],
    &["--version"],
    &["-V"],
    &["Homology"],
    &["homology "],
    &["homolog"],
    &["homology", ""],
    &["homology", "homology"],
    &["homology", "jones"],
    &["homology", "-"],
    &["homology", "--", "-"],
    &["homology", "--", "--"],
    &["homology", "--", "--field=3"],
    &["--", "--field", "3"],
    &["--", "homology", "--"],
    &["homology", "--workers", "0"],
    &["homology", "--workers", "00"],
    &["homology", "--workers", "65"],
    &["homology", "--workers", "001"],
    &["homology", "--workers", "+1"],
    &["homology", "--workers", "-1"],
    &["homology", "--workers", " 1"],
    &["homology", "--workers", ""],
    &["homology", "--workers="],
    &["homology", "--workers"],
    &["homology", "--workers", "--"],
    &["homology", "--field", "2", "--field", "2"],
    &["homology", "--field=2", "--field", "2"],
    &["homology", "--field", "4"],
    &["homology", "--field", "02"],
    &["homology", "--field=2=2"],
    &["homology", "--field==2"],
    &["homology", "--fiel", "2"],
    &["homology", "--fields", "2"],
    &["homology", "-field", "2"],
    &["homology", "-f", "2"],
    &["homology", "--Field", "2"],
    &["homology", "---field", "2"],
    &["homology", "--=2"],
    &["--field", "--", "homology"],
    &["--field", "--", "2", "homology"],
    &["--field", "--workers", "2", "homology"],
    &["--field", "-2", "homology"],
    &["convert", "--to", "PD"],
    &["bench"],
    &["bench", "--number", "00000000"],
    &["bench", "--number="],
    &["bench", "--number", "1", "--number", "1"],
    &["reduced"],
    &["reduced", "--mark", "256"],
];

fn reads(alloc: Global, line: &[&str]) -> Result<Result<Command, WordStop>, Fail> {
    let mut words = Words::new(alloc)?;
    for word in line {
        words.push(alloc, word)?;
    }
    Ok(read_words(alloc, &words))
}

#[test]
fn words_mean_a_command(rt: HostRuntime) -> Result<(), Fail> {
    for (line, command) in COMMANDS {
        assert!(rt; reads(rt.alloc(), line)? == Ok(command));
    }
    Ok(())
}

#[test]
fn words_mean_none(rt: HostRuntime) -> Result<(), Fail> {
    for line in USAGES {
        assert!(rt; reads(rt.alloc(), line)? == Err(WordStop::Usage));
    }
    Ok(())
}
