//! The reading of words.

ghost use Rattle.std.specs.Prelude.{◌≡◌, ◌≤◌, IfOk, map, length};
ghost use Rattle.clap.specs.Words.{found_of};
ghost use Rattle.word_line.specs.Commands.{IsCommand};
ghost use Rattle.word_line.specs.Line.{command_found, stop_of};
ghost use Rattle.word_line.specs.Values.{AreWorkers, IsFieldSize};
ghost use Rattle.word_line.specs.declared.command.Command.{Command};
ghost use Rattle.word_line.specs.declared.command.WordStop.TheVariants.{Usage};
ghost use Rattle.std.specs.Prelude.{Err};

use crate::command::{Command, WordStop};
use crate::line::kh_line;
use crate::values::{Given, command_given};
use clap::ArgMatches;
use clap::error::ErrorKind;
use kh_types::Words;
use std::alloc::{AllocError, Global};

/// The command that the words after the program's name give.
pub fn read_words(alloc: Global, words: &Words) -> Result<Command, WordStop>
    ensures command { IfOk result (IsCommand words.now) }
    ensures sizes { IfOk result (λ command. IsFieldSize command.field × AreWorkers command.workers) }
    ensures usage { result ≡ Err Usage → (command : Command) → IsCommand words.now command → ⊥ }
{
    let texts = texts_of(alloc, words)?;
    let line = kh_line(alloc)?;
    match line.try_get_matches_from(texts.as_slice()) {
        Ok(matches) => match command_in(&matches) {
            Some(command) => Ok(command),
            None => Err(WordStop::Usage),
        },
        Err(error) => Err(stop_of(error.kind())),
    }
}

/// Why words of which `clap` finds this fault give no command.
pub(crate) fn stop_of(kind: ErrorKind) -> WordStop
    ensures { result ≡ stop_of kind }
{
    match kind {
        ErrorKind::OutOfMemory => WordStop::NoMemory,
        _ => WordStop::Usage,
    }
}

/// The words as a list of texts.
pub(crate) fn texts_of(alloc: Global, words: &Words) -> Result<Vec<&str>, AllocError>
    ensures { IfOk result (λ texts. map (λ s. s.now) texts.items ≡ words.now) }
{
    let mut texts = Vec::new(alloc);
    'words: for place in 0..words.count() {
        texts.push(words.word(place))?;
    }
    Ok(texts)
}

/// The command of the matches.
fn command_in(matches: &ArgMatches<'_>) -> Option<Command>
    ensures { result ≡ command_found (found_of matches.now) }
{
    command_given(&Given {
        task: matches.get_str("task"),
        field: matches.get_str("field"),
        workers: matches.get_str("workers"),
        to: matches.get_str("to"),
        number: matches.get_str("number"),
        mark: matches.get_str("mark"),
    })
}
