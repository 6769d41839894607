//! The blocks of the cube, whole or over chosen generators: the labels behind its edges, and their
//! coefficients with signs.
#![tactic(auto)]

mod around;
mod block_places;
mod blocks;
mod borrowed_block;
mod by_kind;
mod chosen;
mod chosen_opening;
mod columns;
mod cube;
mod head_labels;
mod labels;
pub mod laws;
mod levels;
mod limits;
mod names;
mod opening_block;
mod outs;
mod places;
mod quantum_degrees;
mod shape;
mod size;
mod steps;

pub use around::Around;
pub use block_places::BlockPlaces;
pub use blocks::block_columns;
pub use borrowed_block::BorrowedBlock;
pub use by_kind::kind_shapes;
pub use chosen_opening::ChosenBlock;
pub use cube::Cube;
pub use opening_block::OpeningBlock;
pub use quantum_degrees::{block_degrees, counted_degrees};
pub use shape::Shape;
pub use size::{SizeLimit, SmallDiagram, check_size};
pub use sparse_block::Generator;
