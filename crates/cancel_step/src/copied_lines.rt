//! Copies of columns or rows.

ghost use Rattle.std.specs.Prelude.{◌≡◌, ◌<◌, [], ◌∷◌, ◌++◌, drop, length, slice_index_or, take};
ghost use Rattle.std.specs.Prelude.{IfOk, OnOk};
ghost use Rattle.sparse_block.specs.Changes.{placed};

use kh_types::NoMemory;
use sparse_block::Entry;
use std::alloc::Global;
use std::marker::Model;

/// Where the entries of one line stand in the list of all.
#[derive(Clone, Copy)]
pub(crate) struct Span {
    /// The place of the line.
    pub(crate) place: u32,
    /// The index of its first entry.
    pub(crate) start: usize,
    /// The index behind its last entry.
    pub(crate) end: usize,
}

/// Columns and rows of a differential, whose entries stand in one list, so that a copy of many
/// lines takes memory but twice. Contracts see the list of the lines.
#[derive(Drop)]
pub(crate) struct CopiedLines {
    pub(crate) spans: Vec<Span>,
    pub(crate) entries: Vec<Entry>,
}

impl Model for CopiedLines {
    ghost use Rattle.std.specs.Prelude.{List};
    ghost use Rattle.sparse_block.specs.Changes.{PlacedLine};
    ghost use Rattle.cancel_step.specs.Spans.{AreSpans, spanned_lines};

    ghost Value = { List PlacedLine };

    ghost view = { λ lines. spanned_lines lines.spans.items lines.entries.items };

    ghost invariant = { λ lines. AreSpans lines.spans.items lines.entries.items };
}

impl CopiedLines {
    /// No lines, with room for so many and for so many entries.
    pub(crate) fn with_room(
        alloc: Global,
        lines: usize,
        entries: usize,
    ) -> Result<CopiedLines, NoMemory>
        ensures { IfOk result (λ made. made ≡ []) }
    {
        Ok(CopiedLines {
            spans: Vec::with_capacity(alloc, lines)?,
            entries: Vec::with_capacity(alloc, entries)?,
        })
    }

    /// Copies one more line, behind the others.
    pub(crate) fn push(&mut self, place: u32, entries: &[Entry]) -> Result<(), NoMemory>
        ensures { OnOk result (self.new ≡ self.old ++ placed place entries.now ∷ []) }
    {
        let start = self.entries.len();
        self.entries.extend_from_slice(entries)?;
        let end = self.entries.len();
        self.spans.push(Span { place, start, end })?;
        Ok(())
    }

    /// How many lines there are.
    pub(crate) fn len(&self) -> usize
        ensures { result ≡ length self.now }
    {
        self.spans.len()
    }

    /// The first lines, so many, or all where there are fewer.
    pub(crate) fn first(&self, count: usize) -> SomeLines<'_>
        ensures { result ≡ take count self.now }
    {
        let end = count.min(self.spans.len());
        SomeLines {
            spans: &self.spans[..end],
            entries: &self.entries,
        }
    }

    /// The lines behind these.
    pub(crate) fn behind(&self, count: usize) -> SomeLines<'_>
        ensures { result ≡ drop count self.now }
    {
        let start = count.min(self.spans.len());
        SomeLines {
            spans: &self.spans[start..],
            entries: &self.entries,
        }
    }
}

/// Some of the lines that were copied. Contracts see their list.
#[derive(Drop)]
pub(crate) struct SomeLines<'a> {
    spans: &'a [Span],
    entries: &'a [Entry],
}

impl<'a> Model for SomeLines<'a> {
    ghost use Rattle.std.specs.Prelude.{List};
    ghost use Rattle.sparse_block.specs.Changes.{PlacedLine};
    ghost use Rattle.cancel_step.specs.Spans.{AreSpans, spanned_lines};

    ghost Value = { List PlacedLine };

    ghost view = { λ lines. spanned_lines lines.spans.now lines.entries.now };

    ghost invariant = { λ lines. AreSpans lines.spans.now lines.entries.now };
}

impl<'a> SomeLines<'a> {
    /// How many lines there are.
    pub(crate) fn len(&self) -> usize
        ensures { result ≡ length self.now }
    {
        self.spans.len()
    }

    /// The place and the entries of a line, by its index.
    pub(crate) fn at(&self, index: usize) -> (u32, &[Entry])
        requires { index < length self.now }
        ensures { placed result.0 result.1.now
            ≡ slice_index_or self.now index (placed result.0 result.1.now) }
    {
        match self.spans.get(index) {
            Some(span) => (span.place, &self.entries[span.start..span.end]),
            None => (0, &[]),
        }
    }
}
