//! The cancellation of pivots of a complex: the search for one, and its cancellation on a copy and
//! in place.
#![tactic(auto)]

mod applying;
mod comparing;
mod copied_lines;
mod copying;
mod finishing;
mod foreign;
mod passing;
mod patched;
mod reading;
mod search;
mod side;
mod updating;

pub use applying::{apply, apply_fitting, cancel_in_place, cancel_with};
pub use copying::{Look, copy};
pub use finishing::finish;
pub use foreign::Foreign;
pub use patched::Patch;
pub use search::{Found, find, look};
pub use updating::patch;
