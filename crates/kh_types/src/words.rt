//! The words of a command line.

ghost use Rattle.std.specs.Prelude.{◌≡◌, ◌<◌, [], ◌∷◌, ◌++◌, length, OnErr, OnOk, IfOk, slice_get, Some};

use crate::memory::NoMemory;
use std::alloc::Global;
use std::marker::Model;

/// A list of texts, in order. Contracts see it as the list of their bytes.
#[derive(Debug, Drop)]
pub struct Words {
    items: Vec<String>,
}

impl Model for Words {
    ghost use Rattle.std.specs.Prelude.{ℕ, List, map, string_bytes};

    ghost Value = { List (List ℕ) };

    ghost view = { λ w. map string_bytes w.items.items };
}

impl Words {
    /// The empty list.
    pub fn new(alloc: Global) -> Result<Words, NoMemory>
        ensures empty { IfOk result (λ words. words ≡ []) }
    {
        Ok(Words {
            items: Vec::new(alloc),
        })
    }

    /// Adds a word at the end.
    pub fn push(&mut self, alloc: Global, word: &str) -> Result<(), NoMemory>
        ensures added { OnOk result (self.new ≡ self.old ++ word.now ∷ []) }
        ensures unchanged { OnErr result (self.new ≡ self.old) }
    {
        let text = String::from_str(alloc, word)?;
        self.items.push(text)?;
        Ok(())
    }

    /// The number of words.
    pub fn count(&self) -> usize
        ensures { result ≡ length self.now }
    {
        self.items.len()
    }

    /// The word at a place, counted from 0.
    pub fn word(&self, place: usize) -> &str
        requires { place < length self.now }
        ensures { slice_get self.now place ≡ Some result.now }
    {
        self.items[place].as_str()
    }
}
