//! Scripts, which are lines of words, read whole before any is carried out; and the editor, which
//! makes moves and takes them back.
#![tactic(auto)]

mod command;
mod edit_laws;
mod edit_line;
mod edit_run;
mod edit_words;
mod editor;
mod laws;
mod limits;
mod reader;
mod schedule;
mod script;
mod stop;
mod undo_laws;

pub use edit_laws::{each_edit_has_one_reading, limits_of_edits, worked_edits};
pub use edit_line::{EditLine, read_edit};
pub use edit_run::{EditFault, carry_out};
pub use editor::{Editor, NothingToRedo, NothingToUndo};
pub use laws::{each_text_has_one_reading, limits_of_scripts, worked_scripts};
pub use limits::{NAMED_DIGITS, NAMED_LIMIT, SCRIPT_LINES, UNDO_DEPTH};
pub use schedule::{ScheduleLine, read_schedule};
pub use script::Script;
pub use stop::ScriptStop;
pub use undo_laws::{
    histories_are_bounded, histories_keep_state_sums, limits_of_histories,
    undo_and_redo_are_inverse,
};
