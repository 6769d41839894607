//! Reduced homology at a marked arc or loop: the blocks of the generators whose marked circle has
//! v-, and their table.
#![tactic(auto)]

mod blocks;
mod degrees;
pub mod laws;
mod marked_cube;
mod marks;
mod stop;
mod table;

pub use blocks::reduced_columns;
pub use degrees::reduced_degrees;
pub use stop::ReducedStop;
pub use table::reduced_table;
