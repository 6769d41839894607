//! What a run promises, whatever answers it: how a source is read and a reply written, how a run
//! ends, and the lines of refusals and limits.
#![tactic(auto)]

mod ending;
mod reading;
mod refusals;
mod reply;
mod status;
mod stop;
mod words;

pub use ending::written;
pub use reading::{Input, read_input};
pub use refusals::{
    limit_on, refused_line, refused_log_line, refused_mark, refused_with, refused_with_both,
    too_many_bytes, too_many_crossings, too_many_lines, too_many_loops, usage,
};
pub use reply::{Reply, fixed_reply, reply_made, reply_with};
pub use status::Status;
pub use stop::ReplyStop;
pub use words::{words_given, words_of};
