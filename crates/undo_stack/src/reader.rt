//! Reads a script, whatever its commands are.

ghost use Rattle.std.specs.Prelude.{◌≡◌, ◌≢◌, ◌≤◌, ◌<◌, ◌^◌, ◌++◌, IfOk, IfErr, OnOk, Ok, Err, length};
ghost use Rattle.kh_lex.specs.Lines.{lines_of};
ghost use Rattle.kh_lex.specs.LineWords.{words_of};
ghost use Rattle.undo_stack.specs.Steps.{line_command, commands_from, with_number, script_reading};

use crate::command::Command;
use crate::limits::SCRIPT_LINES;
use crate::script::Script;
use crate::stop::ScriptStop;
use kh_lex::{line_at, line_count, words_of};
use kh_types::INPUT_BYTES;
use std::alloc::{AllocFailed, Global};

/// Reads a script: its lines in order, of which those without words do nothing.
pub fn read_script<T: Command>(alloc: Global, text: &[u8]) -> Result<Script<T>, ScriptStop>
    requires { length text.now ≤ INPUT_BYTES }
    ensures { result ≢ Err ScriptStop.NoMemory → result ≡ script_reading T.meaning text.now }
{
    let count = line_count(text);
    if count as usize > SCRIPT_LINES {
        return Err(ScriptStop::LineLimit { count });
    }
    let lines = commands_of(alloc, text)?;
    Ok(Script { lines })
}

/// The commands of a text, each with its number.
fn commands_of<T: Command>(alloc: Global, text: &[u8]) -> Result<Vec<(u32, T)>, ScriptStop>
    requires { length text.now ≤ INPUT_BYTES }
    ensures ok { IfOk result (λ commands.
        commands_from T.meaning 1 (lines_of text.now) ≡ Ok commands.items) }
    ensures wrong { IfErr result (λ stop.
        stop ≢ ScriptStop.NoMemory → commands_from T.meaning 1 (lines_of text.now) ≡ Err stop) }
{
    let mut commands = Vec::new(alloc);
    let mut number = 1;
    let mut place = 0;
    while place < text.len() {
        let line = line_at(text, place);
        let command = command_of(alloc, line, number)?;
        push_command(&mut commands, number, command)?;
        number += 1;
        place += line.len() + 1;
    }
    Ok(commands)
}

/// Adds a command with its number, if there is one.
fn push_command<T: Copy>(
    commands: &mut Vec<(u32, T)>,
    number: u32,
    command: Option<T>,
) -> Result<(), AllocFailed<(u32, T)>>
    ensures { OnOk result (commands.new.items ≡ commands.old.items ++ with_number number command) }
{
    match command {
        Some(command) => commands.push((number, command)),
        None => Ok(()),
    }
}

/// The command that a line is, if it has words.
fn command_of<T: Command>(alloc: Global, line: &[u8], number: u32) -> Result<Option<T>, ScriptStop>
    requires { length line.now ≤ INPUT_BYTES }
    ensures ok { IfOk result (λ command.
        line_command T.meaning number (words_of line.now) ≡ Ok command) }
    ensures wrong { IfErr result (λ stop.
        stop ≢ ScriptStop.NoMemory → line_command T.meaning number (words_of line.now) ≡ Err stop) }
{
    let words = words_of(alloc, line)?;
    if words.is_empty() {
        return Ok(None);
    }
    match T::of_words(&words) {
        Some(command) => Ok(Some(command)),
        None => Err(ScriptStop::Line { line: number }),
    }
}
