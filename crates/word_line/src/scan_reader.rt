//! The reading of the words of `kh-scan`.

ghost use Rattle.std.specs.Prelude.{◌≡◌, IfOk, Err};
ghost use Rattle.clap.specs.Words.{found_of};
ghost use Rattle.word_line.specs.Reading.{word_behind};
ghost use Rattle.word_line.specs.ScanCommands.{HasFieldSizes, IsScanCommand};
ghost use Rattle.word_line.specs.ScanLine.{scan_command_found};
ghost use Rattle.word_line.specs.ScanReading.{fields_in, fields_of, scan_command_given};
ghost use Rattle.word_line.specs.declared.command.WordStop.TheVariants.{Usage};
ghost use Rattle.word_line.specs.declared.scan_command.ScanCommand.{ScanCommand};

use crate::command::WordStop;
use crate::reader::{stop_of, texts_of};
use crate::scan_command::{Fields, ScanCommand};
use crate::scan_line::scan_line;
use crate::values::{field_in, field_of};
use clap::ArgMatches;
use kh_types::Words;
use prime_field::FieldSize;
use std::alloc::Global;

/// What the words after the name of `kh-scan` ask for.
pub fn read_scan_words(alloc: Global, words: &Words) -> Result<ScanCommand, WordStop>
    ensures command { IfOk result (IsScanCommand words.now) }
    ensures sizes { IfOk result HasFieldSizes }
    ensures usage { result ≡ Err Usage → (command : ScanCommand) → IsScanCommand words.now command → ⊥ }
{
    let texts = texts_of(alloc, words)?;
    let line = scan_line(alloc)?;
    match line.try_get_matches_from(texts.as_slice()) {
        Ok(matches) => match scan_command_in(&matches) {
            Some(command) => Ok(command),
            None => Err(WordStop::Usage),
        },
        Err(error) => Err(stop_of(error.kind())),
    }
}

/// The command of the matches.
fn scan_command_in(matches: &ArgMatches<'_>) -> Option<ScanCommand>
    ensures { result ≡ scan_command_found (found_of matches.now) }
{
    scan_command_given(matches.get_str("task"), matches.get_str("field"))
}

/// The command of the texts that a line gives: its positional, and the value of `--field`.
fn scan_command_given(task: Option<&str>, field: Option<&str>) -> Option<ScanCommand>
    ensures { result ≡ scan_command_given (word_behind task.entry) (word_behind field.entry) }
{
    match task {
        None => Some(ScanCommand::Alone(field_in(field)?)),
        Some("each") => Some(ScanCommand::Each(fields_in(field)?)),
        Some(_) => None,
    }
}

/// The fields of a value; the one of two elements where there is none.
fn fields_in(value: Option<&str>) -> Option<Fields>
    ensures { result ≡ fields_in (word_behind value.entry) }
{
    match value {
        Some(value) => fields_of(value),
        None => Some(Fields::One(FieldSize::TWO)),
    }
}

/// The fields that a value names.
fn fields_of(value: &str) -> Option<Fields>
    ensures { result ≡ fields_of value.now }
{
    match value {
        "all" => Some(Fields::All),
        _ => Some(Fields::One(field_of(value)?)),
    }
}
