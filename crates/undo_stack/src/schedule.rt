//! Schedules: what workers do, and when.

ghost use Rattle.std.specs.Prelude.{◌≡◌, ◌≢◌, ◌≤◌, All, Err, IfOk, length};
ghost use Rattle.undo_stack.specs.Schedule.{HasWorker, IsSchedule};
ghost use Rattle.undo_stack.specs.ScheduleSteps.{line_of_three, line_of_two, block_named, worker_named, schedule_line_of};

use crate::command::Command;
use crate::limits::SCRIPT_LINES;
use crate::reader::read_script;
use crate::script::Script;
use crate::stop::ScriptStop;
use kh_lex::{number_of, signed_number_of};
use kh_types::{INPUT_BYTES, WORKERS};
use std::alloc::Global;

/// What a line of a schedule lets a worker do. Workers are counted from 1; a block is named by
/// its quantum degree.
#[derive(Clone, Copy, Debug, PartialEq, Eq)]
pub enum ScheduleLine {
    /// `look W J`: the worker takes a look at the block.
    Look { worker: u32, block: i16 },
    /// `commit W`: the worker commits what it has looked up.
    Commit { worker: u32 },
    /// `forget W`: the worker forgets what it has looked up.
    Forget { worker: u32 },
}

impl Command for ScheduleLine {
    ghost meaning = { schedule_line_of };

    fn of_words(words: &[&[u8]]) -> Option<Self> {
        match words {
            [name, first, second] => line_of_three(name, first, second),
            [name, first] => line_of_two(name, first),
            _ => None,
        }
    }
}

/// Reads the text of a schedule: lines of the forms `look W J`, `commit W` and `forget W`, and
/// lines without words, which do nothing.
pub fn read_schedule(alloc: Global, text: &[u8]) -> Result<Script<ScheduleLine>, ScriptStop>
    requires { length text.now ≤ INPUT_BYTES }
    ensures reads { result ≢ Err ScriptStop.NoMemory → IsSchedule text.now result }
    ensures workers { IfOk result (λ lines. All HasWorker lines) }
    ensures few { IfOk result (λ lines. length lines ≤ SCRIPT_LINES) }
{
    read_script(alloc, text)
}

/// The line that a name and two words spell.
fn line_of_three(name: &[u8], first: &[u8], second: &[u8]) -> Option<ScheduleLine>
    ensures { result ≡ line_of_three name.now first.now second.now }
{
    if name != b"look".as_slice() {
        return None;
    }
    let worker = worker_of(first)?;
    let block = block_of(second)?;
    Some(ScheduleLine::Look { worker, block })
}

/// The line that a name and one word spell.
fn line_of_two(name: &[u8], first: &[u8]) -> Option<ScheduleLine>
    ensures { result ≡ line_of_two name.now first.now }
{
    if name == b"commit".as_slice() {
        let worker = worker_of(first)?;
        Some(ScheduleLine::Commit { worker })
    } else if name == b"forget".as_slice() {
        let worker = worker_of(first)?;
        Some(ScheduleLine::Forget { worker })
    } else {
        None
    }
}

/// The worker that a word names.
fn worker_of(word: &[u8]) -> Option<u32>
    ensures { result ≡ worker_named word.now }
{
    let worker = number_of(word, 2)?;
    if 1 <= worker && worker <= WORKERS {
        Some(worker)
    } else {
        None
    }
}

/// The block that a word names.
fn block_of(word: &[u8]) -> Option<i16>
    ensures { result ≡ block_named word.now }
{
    let block = signed_number_of(word, 3)?;
    Some(block as i16)
}
