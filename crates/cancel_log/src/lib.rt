//! Logs of cancellations, from which anybody can check a homology table: a diagram, a field, the
//! pivots of each block, and the table that they leave.
#![tactic(auto)]

mod cause;
mod difference;
pub mod laws;
mod limits;
mod line;
mod lines;
mod logged_block;
mod numbers;
mod reading;
mod replay;
mod saying;
mod start;
mod stop;
mod walk;
mod writing;

pub use cause::LogCause;
pub use limits::{DEGREE_DIGITS, LOG_BYTES, PLACE_DIGITS};
pub use line::LogLine;
pub use reading::verify_log;
pub use stop::LogStop;
pub use writing::{log_of_blocks, write_log};
