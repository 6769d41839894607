//! The lines of the text of a homology table, printed one by one.
#![tactic(auto)]

mod printing;

pub use printing::{head_text, line_text, push_line};
