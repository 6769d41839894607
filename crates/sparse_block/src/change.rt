//! What a cancellation changes in the pivot's own differential.

use crate::{Entry, INLINE_ENTRIES};
use smallvec::SmallVec;
use std::marker::Model;

/// A column or a row of a differential, by its place.
#[derive(Drop)]
pub struct Line {
    /// Its place, from 0.
    pub place: u32,
    /// Its entries, ascending by place.
    pub entries: SmallVec<Entry, INLINE_ENTRIES>,
}

impl Model for Line {
    ghost use Rattle.sparse_block.specs.Changes.{PlacedLine, placed};

    ghost Value = { PlacedLine };

    ghost view = { λ line. placed line.place line.entries.items };
}

/// A pivot, and what its cancellation changes in its own differential: whole new columns and rows.
#[derive(Drop)]
pub struct Change {
    /// The pivot's degree.
    pub degree: i16,
    /// The pivot's column, a place of that degree.
    pub column: u32,
    /// The pivot's row, a place of the next degree.
    pub row: u32,
    /// The new columns.
    pub columns: Vec<Line>,
    /// The new rows.
    pub rows: Vec<Line>,
}

impl Model for Change {
    ghost use Rattle.kh_types.specs.Complex.{pivot_at};
    ghost use Rattle.sparse_block.specs.Changes.{Exchange};

    ghost Value = { Exchange };

    ghost view = { λ change. record {
      pivot = pivot_at change.degree change.column change.row;
      columns = change.columns.items;
      rows = change.rows.items;
    } };
}
