//! Rows of homology tables.

ghost use Rattle.std.specs.Prelude.{◌≡◌, ◌↔◌, [], ◌∷◌, ◌++◌, IsTrue, OnErr, OnOk};
ghost use Rattle.std.specs.List.{filter};
ghost use Rattle.kh_types.specs.Table.{is_shown};
ghost use Rattle.homology_tables.specs.Tables.{IsBefore};

use kh_types::NoMemory;
use std::marker::Model;

/// A row of a homology table: the quantum degree j, the homological degree i and the dimension.
/// Contracts see the definition's row.
#[derive(Clone, Copy, Debug, PartialEq, Eq)]
pub struct Row {
    pub j: i16,
    pub i: i16,
    pub dim: u32,
}

impl Model for Row {
    ghost use Rattle.kh_types.specs.Table as tables;

    ghost Value = { tables.Row };

    ghost view = { λ row. record { j = row.j; i = row.i; dim = row.dim } };

    ghost inverse = { λ row. record { j = row.j; i = row.i; dim = row.dim } };
}

impl Row {
    /// Whether the row comes before another: by the quantum degree, then by the homological degree.
    pub fn is_before(self, other: Row) -> bool
        ensures { IsTrue result ↔ IsBefore self other }
    {
        self.j < other.j || (self.j == other.j && self.i < other.i)
    }
}

/// Adds a row to those of a table, where its dimension is above 0: a table shows no others. What
/// memory it takes is that in which `rows` grow.
pub fn push_row(rows: &mut Vec<Row>, row: Row) -> Result<(), NoMemory>
    ensures ok { OnOk result
        (rows.new.items ≡ rows.old.items ++ filter is_shown (row ∷ [])) }
    ensures err { OnErr result (rows.new.items ≡ rows.old.items) }
{
    if row.dim > 0 {
        rows.push(row)?;
    }
    Ok(())
}
