//! The replies to diagrams that need no cube, and those to what passes a limit of a command.
#![tactic(auto)]

mod check;
mod convert;
mod draw;
mod jones;
mod limits;
mod turns;
mod union;

pub use check::reply_to_check;
pub use convert::reply_to_convert;
pub use draw::reply_to_draw;
pub use jones::{jones_line, reply_to_jones};
pub use limits::{too_large_number, too_many_generators};
pub use turns::{reply_to_mirror, reply_to_reverse};
pub use union::reply_to_pair;
