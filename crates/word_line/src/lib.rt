//! The commands that the words after the programs' names give, read with `clap`.
#![tactic(auto)]

mod command;
mod laws;
mod limits;
mod line;
mod reader;
mod scan_command;
mod scan_line;
mod scan_reader;
mod values;

pub use command::{Command, Form, Task, WordStop};
pub use laws::{
    limits_of_words, scan_words_are_decided, scan_words_mean_one_command, words_are_decided,
    words_mean_one_command, worked_commands, worked_scan_commands, worked_scan_usage, worked_usage,
};
pub use limits::{MARK_DIGITS, MARK_LIMIT, NUMBER_DIGITS, WORKERS_DIGITS};
pub use reader::read_words;
pub use scan_command::{Fields, ScanCommand};
pub use scan_reader::read_scan_words;
