//! Commands of `kh-scan`.

use prime_field::FieldSize;

/// Over which fields the tables of a list are made.
#[derive(Clone, Copy, Debug, PartialEq, Eq)]
pub enum Fields {
    /// One field, of so many elements.
    One(FieldSize),
    /// All four fields, of 2, 3, 5 and 7 elements in this order.
    All,
}

/// What the words of `kh-scan` ask for.
#[derive(Clone, Copy, Debug, PartialEq, Eq)]
pub enum ScanCommand {
    /// The table of one diagram, over the field of so many elements.
    Alone(FieldSize),
    /// The tables of a list of codes, one a line.
    Each(Fields),
}
