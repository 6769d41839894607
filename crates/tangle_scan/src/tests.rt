//! What no clause says: which tables diagrams have, in whatever order, and how much a scan holds.

pub mod orders;
mod tables;
mod work;
