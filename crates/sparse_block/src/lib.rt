//! Complexes over a field of prime size, sparse: the entries other than zero, by columns and rows.
#![tactic(auto)]

mod building;
mod cancelling;
mod change;
mod clearing;
mod column_complex;
mod column_source;
mod complex;
mod counts;
mod entry;
mod generator;
mod held_lines;
pub mod laws;
mod line_pairs;
mod lines;
mod pivot;
mod reading;

pub use building::build;
pub use change::{Change, Line};
pub use column_complex::{ColumnComplex, ColumnParts};
pub use column_source::{ColumnSource, OwnedSource};
pub use complex::Complex;
pub use entry::{Entry, INLINE_ENTRIES, MOST_PLACES, MOST_VALUES};
pub use generator::Generator;
pub use laws::complex_laws;
pub use line_pairs::{first_difference, subtract_into};
pub use pivot::Pivot;
pub use reading::{column_at, row_at, value_at};
