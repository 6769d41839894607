//! A list of codes, one a line, answered line by line as it comes; and what a run of `kh-scan`
//! answers.
#![tactic(auto)]

mod answering;
mod frame;
mod laws;
mod list;
mod stop;

pub use answering::Answering;
pub use laws::frames_tell_replies;
pub use list::{Turn, answer_list, answer_next};
pub use stop::ListStop;
