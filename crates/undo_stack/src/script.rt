//! What a script holds.

ghost use Rattle.std.specs.Prelude.{List, ℕ};

use std::marker::Model;

/// The lines of a script that are commands, in order, each with its number, from 1. A contract
/// sees the list of them.
#[derive(Debug, Drop)]
pub struct Script<T> {
    pub lines: Vec<(u32, T)>,
}

impl<T> Model for Script<T> {
    ghost Value = { List (ℕ × T) };

    ghost view = { λ s. s.lines.items };
}
