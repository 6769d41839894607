//! The blocks of a log, line by line: each line cancels in the last block that has begun, begins
//! the next, or closes. One block is in memory at a time.

ghost use Rattle.std.specs.Prelude.{◌≡◌, ◌&&◌, length, nat_lt, pos, slice_index_or, true, [], None, Some, IfOk, OnOk};
ghost use Rattle.std.specs.List.{Contains};
ghost use Rattle.std.specs.Ordering.{int_eq};
ghost use Rattle.cube_signs.specs.Blocks.{block_degrees};
ghost use Rattle.shared_block.specs.BlockHistories.{block_with};
ghost use Rattle.cancel_log.specs.Standings.{Does, begin_in, cancel_in, close_in, is_closed, rows_and, standing_first, step};

use crate::logged_block::LoggedBlock;
use crate::{LogCause, LogLine};
use cube_signs::Cube;
use homology_tables::Row;
use kh_types::NoMemory;
use prime_field::PrimeField;
use sparse_block::{Entry, Pivot};
use std::alloc::Global;
use std::marker::Model;

/// How many blocks have begun, the last of them, and the table's rows of those before it.
#[derive(Drop)]
pub(crate) struct Walk<'a, F: PrimeField> {
    begun: usize,
    current: Option<LoggedBlock<'a, F>>,
    rows: Vec<Row>,
}

impl<'a, F: PrimeField> Model for Walk<'a, F> {
    ghost use Rattle.cancel_log.specs.Standings.{Standing};

    ghost Value = { Standing };

    ghost view = { λ walk. record {
      begun = walk.begun;
      current = walk.current;
      rows = walk.rows.items;
    } };
}

impl<'a, F: PrimeField> Walk<'a, F> {
    /// Before the first block.
    pub(crate) fn first(alloc: Global) -> Walk<'a, F>
        ensures { result ≡ standing_first }
    {
        Walk {
            begun: 0,
            current: None,
            rows: Vec::new(alloc),
        }
    }

    /// The rows.
    pub(crate) fn into_rows(self) -> Vec<Row>
        ensures { result.items ≡ self.entry.rows }
    {
        self.rows
    }

    /// A line that cancels, with memory in which lines of matrices are made.
    fn cancel(
        &mut self,
        scratch: &mut Vec<Entry>,
        pivot: Pivot,
    ) -> Result<Option<LogCause>, NoMemory>
        ensures { IfOk result (λ fault.
            Does (cancel_in F.P self.old pivot self.old.current) self.old fault self.new) }
    {
        match &mut self.current {
            None => Ok(Some(LogCause::Text)),
            Some(held) => {
                if held.cancel_at(scratch, pivot)? {
                    Ok(None)
                } else {
                    Ok(Some(LogCause::Entry))
                }
            }
        }
    }

    /// Whether the last block is cancelled to zero, or none has begun.
    fn is_closed(&self) -> bool
        ensures { result ≡ is_closed F.P self.now.current }
    {
        match &self.current {
            None => true,
            Some(held) => held.is_zero(),
        }
    }

    /// A line that begins a block.
    fn begin(
        &mut self,
        alloc: Global,
        cube: &'a Cube,
        degrees: &[i16],
        j: i16,
    ) -> Result<Option<LogCause>, NoMemory>
        requires { degrees.now ≡ block_degrees cube.now }
        ensures { IfOk result (λ fault.
            Does (begin_in F.P cube.now self.old j) self.old fault self.new) }
    {
        if !self.is_closed() {
            return Ok(Some(LogCause::Open));
        }
        if !is_next(degrees, self.begun, j) {
            return Ok(Some(LogCause::Block));
        }
        next_is_block(degrees, self.begun, j);
        self.flush()?;
        self.hold(alloc, cube, j)?;
        self.begun += 1;
        Ok(None)
    }

    /// Makes the next block, where none is held. No other call makes one.
    fn hold(&mut self, alloc: Global, cube: &'a Cube, j: i16) -> Result<(), NoMemory>
        requires none_held { self.old.current ≡ None }
        requires degree { Contains (block_degrees cube.now) j }
        ensures current { OnOk result (self.new.current ≡ Some (block_with cube.now j [])) }
        ensures rows { self.new.rows ≡ self.old.rows }
        ensures begun { self.new.begun ≡ self.old.begun }
    {
        self.current = Some(LoggedBlock::begun(alloc, cube, j)?);
        Ok(())
    }

    /// A line that closes.
    fn close(&mut self, cube: &Cube, degrees: &[i16]) -> Result<Option<LogCause>, NoMemory>
        requires { degrees.now ≡ block_degrees cube.now }
        ensures { IfOk result (λ fault.
            Does (close_in F.P cube.now self.old self.old.current) self.old fault self.new) }
    {
        if !self.is_closed() {
            return Ok(Some(LogCause::Open));
        }
        if self.begun != degrees.len() {
            return Ok(Some(match self.current {
                None => LogCause::Text,
                Some(_) => LogCause::Block,
            }));
        }
        self.flush()?;
        Ok(None)
    }

    /// Adds the rows of the last block, which is let go.
    fn flush(&mut self) -> Result<(), NoMemory>
        requires { is_closed F.P self.old.current ≡ true }
        ensures rows { OnOk result
            (self.new.rows ≡ rows_and F.P self.old.rows self.old.current) }
        ensures current { self.new.current ≡ None }
        ensures begun { self.new.begun ≡ self.old.begun }
    {
        match self.current.take() {
            None => Ok(()),
            Some(held) => held.push_rows(&mut self.rows),
        }
    }
}

/// The next block is one of the blocks.
#[tactic(auto, using(crate::proofs::NextBlocks::next_found))]
fn next_is_block(degrees: &[i16], begun: usize, j: i16)
    requires { (nat_lt begun (length degrees.now)
        && int_eq (slice_index_or degrees.now begun (pos 0)) j) ≡ true }
    ensures { Contains degrees.now j }
{}

/// Whether a block is the next.
fn is_next(degrees: &[i16], begun: usize, j: i16) -> bool
    ensures { result ≡ (nat_lt begun (length degrees.now)
        && int_eq (slice_index_or degrees.now begun (pos 0)) j) }
{
    begun < degrees.len() && degrees[begun] == j
}

/// What a line of blocks does: the cause, where it fails, and then the walk is as it was.
pub(crate) fn take_line<'a, F: PrimeField>(
    scratch: &mut Vec<Entry>,
    cube: &'a Cube,
    degrees: &[i16],
    walk: &mut Walk<'a, F>,
    line: LogLine,
) -> Result<Option<LogCause>, NoMemory>
    requires { degrees.now ≡ block_degrees cube.now }
    ensures { IfOk result (λ fault.
        Does (step F.P cube.now walk.old line) walk.old fault walk.new) }
{
    let alloc = *scratch.allocator();
    match line {
        LogLine::Cancel { pivot } => walk.cancel(scratch, pivot),
        LogLine::Begin { degree } => walk.begin(alloc, cube, degrees, degree),
        LogLine::Close => walk.close(cube, degrees),
        LogLine::Other => Ok(Some(LogCause::Text)),
    }
}
