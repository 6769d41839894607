//! A block of the cube with the history of its cancellations, which changes by commits of patches,
//! as a whole complex or as a column reduction; all blocks of a diagram, and its homology table from
//! them once they are cancelled to zero.
#![tactic(auto)]

mod all_blocks;
mod block_look;
mod block_patch;
mod building;
mod column_block;
mod column_look;
mod commit_answer;
mod finishing;
mod held;
pub mod laws;
mod pivots;
mod rows;
mod shared_block;
mod table;
pub mod table_laws;

pub use all_blocks::{blocks_of, finish_all};
pub use block_look::BlockLook;
pub use block_patch::BlockPatch;
pub use column_block::{ColumnBlock, column_block_laws};
pub use column_look::ColumnLook;
pub use commit_answer::CommitAnswer;
pub use rows::push_rows;
pub use shared_block::SharedBlock;
pub use table::{homology_table, small_table, table_of, whole_table};
