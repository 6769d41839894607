//! The commands that need the cube, the editor, a log or a second code, each to its reply.

mod bench;
mod certify;
mod edit;
mod edit_refusals;
mod homology;
mod reduced;
mod schedule;
mod union;
mod verify;

pub use bench::reply_to_bench;
pub use certify::reply_to_certify;
pub use edit::reply_to_edit;
pub use homology::{reply_to_homology, text_with_table};
pub use reduced::reply_to_reduced;
pub use schedule::reply_to_schedule;
pub use union::reply_to_union;
pub use verify::reply_to_verify;
