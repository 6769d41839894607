//! A diagram scanned crossing by crossing: its complex in memory, which changes by the steps of the
//! theorem alone, and the table that it counts at its end.
#![tactic(auto)]

mod adding;
mod clearing;
mod complex;
mod finished;
mod scan;
mod scanning;
#[cfg(test)]
mod tests;

pub use adding::add_crossing;
pub use clearing::eliminate_all;
pub use complex::{Column, Entry, Front, Object, TangleComplex};
pub use finished::table::{ScanRow, ScanTable};
pub use finished::{finished_scan, finished_scans_are_last, table_of_finished};
pub use scan::Scan;
pub use scanning::order::{ordered, reordered};
pub use scanning::{scan_table, scan_table_by};
