//! What can be wrong with a line.

/// What is wrong with the first line of a log that fails. Where a line has two of them, Text goes
/// before Open, and Open before Block and Entry, whatever their order here.
#[derive(Clone, Copy, Debug, PartialEq, Eq)]
pub enum LogCause {
    /// It is no line that can stand there, or the text ends before it.
    Text,
    /// It names no diagram.
    Diagram,
    /// It begins another block than the next, or closes where one is missing.
    Block,
    /// It cancels at places that are none, or an entry that is 0 by then.
    Entry,
    /// The block before it is not cancelled to zero.
    Open,
    /// It is not the line of the table that the log proves.
    Table,
}
