//! Homology tables.

ghost use Rattle.std.specs.Prelude.{◌≡◌};
ghost use Rattle.std.specs.List.{find};
ghost use Rattle.homology_tables.specs.Tables.{IsTable, dim_at, is_at, total_of};

use crate::laws::table_laws;
use crate::row::Row;
use std::marker::Model;

/// The homology table of a diagram over a field: a row for each two degrees with a dimension above
/// 0, ascending by j, then by i. Contracts see the definition's table.
#[derive(Debug, Drop)]
pub struct Table {
    pub(crate) field: u8,
    pub(crate) rows: Vec<Row>,
}

impl Model for Table {
    ghost use Rattle.kh_types.specs.Table as tables;
    ghost use Rattle.homology_tables.specs.Tables.{IsTable};

    ghost Value = { tables.Table };

    ghost view = { λ table. record { field = table.field; rows = table.rows.items } };

    ghost invariant = { λ table. IsTable (record { field = table.field; rows = table.rows.items }) };
}

impl Table {
    /// The table of a field with these rows.
    pub fn of_rows(field: u8, rows: Vec<Row>) -> Table
        requires { IsTable (record { field = field; rows = rows.items }) }
        ensures { result ≡ record { field = field; rows = rows.items } }
    {
        Table { field, rows }
    }

    /// The number of elements of the field.
    pub fn field(&self) -> u8
        ensures { result ≡ self.now.field }
    {
        self.field
    }

    /// The rows.
    pub fn rows(&self) -> &[Row]
        ensures { result.now ≡ self.now.rows }
    {
        &self.rows
    }

    /// The dimension at the degrees i and j, which is 0 where there is no row.
    pub fn dim(&self, i: i16, j: i16) -> u32
        ensures { result ≡ dim_at self.now i j }
    {
        match row_at(self.rows(), i, j) {
            Some(row) => row.dim,
            None => 0,
        }
    }

    /// The sum of all dimensions.
    pub fn total(&self) -> u64
        ensures { result ≡ total_of self.now }
    {
        table_laws(self);
        let rows = self.rows();
        let mut total = 0;
        'rows: for row in rows {
            total += u64::from(row.dim);
        }
        total
    }
}

/// The row of the degrees i and j, if there is one.
fn row_at(rows: &[Row], i: i16, j: i16) -> Option<Row>
    ensures { result ≡ find (is_at i j) rows.now }
{
    rows.iter().copied().find(|row| row.i == i && row.j == j)
}
