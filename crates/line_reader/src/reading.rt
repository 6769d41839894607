//! The next line of a source.

ghost use Rattle.std.specs.Prelude.{◌≡◌, ◌≢◌, ◌⊎◌, Err, IfErr, IfOk};
ghost use Rattle.kh_io.specs.Faults.{Rose};
ghost use Rattle.kh_lex.specs.Lines.{HasNoLineFeed};
ghost use Rattle.line_reader.specs.Advances.{IsNextLine, IsReadForLine, IsStopped};
ghost use Rattle.line_reader.specs.declared.reading.LineStop.{LineStop};

use crate::buffered::Buffered;
use crate::line::Line;
use kh_io::{Failed, Source};
use kh_types::NoMemory;
use std::alloc::Global;

/// Why there is no next line.
#[derive(Clone, Copy, Debug, PartialEq, Eq)]
pub enum LineStop {
    /// A read failed.
    Fault,
    /// The line has 2^64 - 1 bytes and more.
    Limit,
    /// Out of memory.
    NoMemory,
}

impl From<Failed> for LineStop {
    ghost use Rattle.line_reader.specs.declared.reading.LineStop.{LineStop};

    ghost from_gives = { λ _ stop. stop ≡ LineStop.Fault };

    fn from(_: Failed) -> Self {
        LineStop::Fault
    }
}

impl From<NoMemory> for LineStop {
    ghost use Rattle.line_reader.specs.declared.reading.LineStop.{LineStop};

    ghost from_gives = { λ _ stop. stop ≡ LineStop.NoMemory };

    fn from(_: NoMemory) -> Self {
        LineStop::NoMemory
    }
}

/// What comes next of a source.
#[derive(Drop)]
pub enum NextLine {
    /// A line that a line feed ends, without it.
    Ended(Line),
    /// What follows the last line feed: the source is at its end.
    Last(Line),
}

/// The next line of a source. Where the buffered bytes have a line feed the source is not read, else
/// up to the read that gives one: what this gives behind it is buffered. A stop comes behind a part
/// of a line.
pub fn next_line<S: Source>(
    alloc: Global,
    source: &mut S,
    buffered: &mut Buffered,
) -> Result<NextLine, LineStop>
    ensures line { IfOk result
        (IsNextLine buffered.old buffered.new (S.left source.old) (S.left source.new)) }
    ensures unread { ¬ HasNoLineFeed buffered.old → source.new ≡ source.old }
    ensures read { (source.new ≡ source.old) ⊎ IsReadForLine buffered.old buffered.new
        (S.left source.old) (S.left source.new) (S.reads source.old) (S.reads source.new) }
    ensures begun { IfErr result
        (IsStopped buffered.old buffered.new (S.left source.old) (S.left source.new)) }
    ensures fault { result ≡ Err LineStop.Fault
        → Rose (S.faults source.old) (S.faults source.new) }
    ensures stayed { result ≢ Err LineStop.Fault
        → S.faults source.new ≡ S.faults source.old }
{
    let mut line = Line::new(alloc);
    'bytes: for _ in 0..u64::MAX {
        match buffered.next_byte(source)? {
            Some(b'\n') => return Ok(NextLine::Ended(line)),
            Some(byte) => line.push(byte)?,
            None => return Ok(NextLine::Last(line)),
        }
    }
    Err(LineStop::Limit)
}
