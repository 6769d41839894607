//! What a command orders, the replies that need a cube, the editor, a log or a second code, and the
//! top calls, which do all that the program does: from words and bytes to a status and the bytes to
//! write.
#![tactic(auto)]

mod answer;
mod byte_limits;
mod circles;
mod commands;
pub mod laws;
mod order;
mod tables;
mod top;

pub use kh_runs::Status;
pub use laws::printed::printed_diagrams_are_read_back;
pub use laws::{
    accepted_diagrams_are_answered_by_their_counts,
    accepted_diagrams_are_answered_by_their_drawing, accepted_diagrams_are_answered_by_their_edit,
    accepted_diagrams_are_answered_by_their_logs, accepted_diagrams_are_answered_by_their_mirror,
    accepted_diagrams_are_answered_by_their_polynomial,
    accepted_diagrams_are_answered_by_their_reduced_table,
    accepted_diagrams_are_answered_by_their_schedule,
    accepted_diagrams_are_answered_by_their_table, accepted_diagrams_are_answered_by_their_union,
    jones_line_is_the_euler_characteristic, logs_are_answered_by_their_table,
    numbers_are_answered_by_their_table, one_answer, workers_do_not_change_answers,
};
pub use top::{run, run_alone, run_given};
