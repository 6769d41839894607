//! The columns, or the rows, of one degree in memory. It is counted how many have an entry; once
//! none has, all of them may be let go, and they are empty still.

ghost use Rattle.std.specs.Prelude.{◌≡◌, ◌+◌, ◌<◌, ◌≤◌, ℕ, [], length, slice_index_or, slice_set};
ghost use Rattle.std.specs.Prelude.{false, min, replicate, All};
ghost use Rattle.sparse_block.specs.declared.held_lines.TheConstants.{MOST_LINES};
ghost use Rattle.sparse_block.specs.Clearing.{AreExchanged, without};
ghost use Rattle.sparse_block.specs.Entries.{AreEntries};
ghost use Rattle.sparse_block.specs.Held.{filled_count, no_entries};
ghost use Rattle.sparse_block.specs.Inside.{entries_in};

use crate::change::Line;
use crate::clearing::remove;
use crate::{Entry, INLINE_ENTRIES};
use smallvec::SmallVec;
use std::alloc::Global;
use std::marker::Model;

pub(crate) type Entries = SmallVec<Entry, INLINE_ENTRIES>;

/// The columns, or the rows, of one degree. Contracts see the entries of each.
#[derive(Drop)]
pub(crate) struct HeldLines {
    /// How many lines there are.
    size: usize,
    /// The lines; or nothing, where no line has an entry.
    lines: Vec<Entries>,
    /// How many lines have an entry.
    count: usize,
}

impl Model for HeldLines {
    ghost use Rattle.std.specs.Prelude.{List};
    ghost use Rattle.sparse_block.specs.Entries.{Entry as Item};
    ghost use Rattle.sparse_block.specs.Held.{AreHeld, padded};
    ghost use Rattle.sparse_block.specs.Inside.{entries_in};

    ghost Value = { List (List Item) };

    ghost view = { λ held. padded held.size (entries_in held.lines.items) };

    ghost invariant = { λ held. AreHeld held.size (entries_in held.lines.items) held.count };
}

impl HeldLines {
    /// These lines.
    pub(crate) fn of(lines: Vec<Entries>) -> HeldLines
        ensures { result ≡ entries_in lines.items }
    {
        let size = lines.len();
        let count = count_filled(&lines);
        HeldLines { size, lines, count }
    }

    /// So many lines without entries.
    pub(crate) fn empty_lines(alloc: Global, size: usize) -> HeldLines
        ensures { result ≡ replicate size [] }
    {
        HeldLines {
            size,
            lines: Vec::new(alloc),
            count: 0,
        }
    }

    /// The entries of a line, none past the last one.
    pub(crate) fn line(&self, place: u32) -> &[Entry]
        ensures { result.now ≡ slice_index_or self.now place [] }
    {
        match self.lines.get(place as usize) {
            Some(line) => line.as_slice(),
            None => &[],
        }
    }

    /// Whether no line has an entry.
    pub(crate) fn has_no_entries(&self) -> bool
        ensures { result ≡ no_entries self.now }
    {
        self.count == 0
    }

    /// Puts each of these lines in the place of the old one there.
    pub(crate) fn exchange(&mut self, named: Vec<Line>)
        requires some { no_entries self.old ≡ false }
        requires places { All (λ line. line.place < length self.old) named.items }
        ensures { AreExchanged named.items self.old self.new }
    {
        self.count = exchange_lines(&mut self.lines, self.count, named);
    }

    /// Takes the entry at a place out of a line.
    pub(crate) fn remove(&mut self, line: u32, place: u32)
        requires { (p : ℕ) × (size : ℕ) × AreEntries p size (slice_index_or self.old line []) }
        ensures { self.new
            ≡ slice_set self.old line (without place (slice_index_or self.old line [])) }
    {
        if (line as usize) < self.lines.len() {
            self.count = remove_at(&mut self.lines, self.count, line, place);
        }
    }

    /// Empties a line, which keeps its memory for entries to come.
    pub(crate) fn empty(&mut self, place: u32)
        ensures { self.new ≡ slice_set self.old place [] }
    {
        if (place as usize) < self.lines.len() {
            self.count = empty_at(&mut self.lines, self.count, place);
        }
    }

    /// Gives the memory of all lines back, where none has an entry.
    pub(crate) fn give_back(&mut self)
        ensures { self.new ≡ self.old }
    {
        if self.count == 0 {
            self.lines = Vec::new(*self.lines.allocator());
        }
    }
}

/// How many lines have an entry.
fn count_filled(lines: &[Entries]) -> usize
    ensures { result ≡ filled_count (entries_in lines.now) }
{
    lines.iter().filter(|line| !line.is_empty()).count()
}

/// Puts each of these lines in the place of the old one there, and counts the lines with an entry.
fn exchange_lines(lines: &mut [Entries], count: usize, named: Vec<Line>) -> usize
    requires places { All (λ line. line.place < length lines.old) named.items }
    requires count { count ≡ filled_count (entries_in lines.old) }
    ensures lines { AreExchanged named.items (entries_in lines.old) (entries_in lines.new) }
    ensures count { result ≡ filled_count (entries_in lines.new) }
{
    let mut left = named;
    let mut counted = count;
    'lines: while let Some(line) = left.pop() {
        let Line { place, entries } = line;
        counted = put_at(lines, counted, place, entries);
    }
    counted
}

/// Puts a line in its place, and counts the lines with an entry.
fn put_at(lines: &mut [Entries], count: usize, place: u32, entries: Entries) -> usize
    requires place { place < length lines.old }
    requires count { count ≡ filled_count (entries_in lines.old) }
    ensures lines { entries_in lines.new
        ≡ slice_set (entries_in lines.old) place entries.items }
    ensures count { result ≡ filled_count (entries_in lines.new) }
{
    let before = lines[place as usize].len();
    let after = entries.len();
    lines[place as usize] = entries;
    recount(count, before, after)
}

/// Takes the entry at a place out of a line, and counts the lines with an entry.
fn remove_at(lines: &mut [Entries], count: usize, line: u32, place: u32) -> usize
    requires line { line < length lines.old }
    requires count { count ≡ filled_count (entries_in lines.old) }
    requires entries { (p : ℕ) × (size : ℕ)
        × AreEntries p size (slice_index_or (entries_in lines.old) line []) }
    ensures lines { entries_in lines.new ≡ slice_set (entries_in lines.old) line
        (without place (slice_index_or (entries_in lines.old) line [])) }
    ensures count { result ≡ filled_count (entries_in lines.new) }
{
    let before = lines[line as usize].len();
    remove(&mut lines[line as usize], place);
    let after = lines[line as usize].len();
    recount(count, before, after)
}

/// Empties a line, and counts the lines with an entry.
fn empty_at(lines: &mut [Entries], count: usize, place: u32) -> usize
    requires place { place < length lines.old }
    requires count { count ≡ filled_count (entries_in lines.old) }
    ensures lines { entries_in lines.new ≡ slice_set (entries_in lines.old) place [] }
    ensures count { result ≡ filled_count (entries_in lines.new) }
{
    let before = lines[place as usize].len();
    lines[place as usize].clear();
    recount(count, before, 0)
}

/// More lines than a list in memory has.
const MOST_LINES: usize = 1 << 63;

/// The count of lines with an entry, once a line of one length has another.
fn recount(count: usize, before: usize, after: usize) -> usize
    requires before { min before 1 ≤ count }
    requires room { count < MOST_LINES }
    ensures { result + min before 1 ≡ count + min after 1 }
{
    count - before.min(1) + after.min(1)
}
