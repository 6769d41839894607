//! The homology table by the definitions themselves, slow, for comparison; and worked values of the
//! definitions, as laws.
#![tactic(auto)]

mod circles;
mod coefficient;
mod cube;
mod generators;
mod labels;
mod resolved;
mod table;
mod text;
pub mod worked;

pub use cube::Cube;
pub use generators::{Generator, Placed};
pub use text::table_text_of;
