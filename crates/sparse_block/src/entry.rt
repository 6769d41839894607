//! The entries of columns and rows.

ghost use Rattle.std.proofs.Common.{rules};
ghost use Rattle.std.specs.Cmp.Rules.{comparing};
ghost use Rattle.std.specs.Prelude.{◌≡◌, ◌<◌};
ghost use Rattle.sparse_block.specs.declared.entry.TheConstants.{MOST_PLACES, MOST_VALUES};
ghost use Rattle.sparse_block.specs.Entries.{are_alike, entry_at};

use std::marker::Model;

/// How many entries a column or a row holds in place, before it takes memory of its own.
pub const INLINE_ENTRIES: usize = 12;

/// Places of entries are below this number, 2 to the 29.
pub const MOST_PLACES: u32 = 536_870_912;

/// Values of entries are below this number, 2 to the 3.
pub const MOST_VALUES: u8 = 8;

/// An entry of a column or a row: its place, which is its row where it stands in a column, and its
/// column where it stands in a row, from 0; and its value, an element of the field, 1 to `P` - 1
/// in the lines of a complex. Contracts see the two apart; in memory they share four bytes.
#[derive(Clone, Copy, Debug, Default)]
pub struct Entry {
    /// The place times `MOST_VALUES`, and the value.
    bits: u32,
}

impl Model for Entry {
    ghost use Rattle.std.specs.Prelude.{◌+◌, ◌*◌, ◌%◌, ◌/◌};
    ghost use Rattle.sparse_block.specs.Entries.{Entry as Placed};

    ghost Value = { Placed };

    ghost view = { λ entry. record { place = entry.bits / 8; value = entry.bits % 8 } };

    ghost inverse = { λ placed. record { bits = 8 * placed.place + placed.value } };
}

impl PartialEq for Entry {
    ghost eq = { are_alike };

    ghost laws = { Prim.search (comparing, rules) };

    fn eq(&self, other: &Entry) -> bool {
        self.place() == other.place() && self.value() == other.value()
    }
}

impl Eq for Entry {
    ghost laws = { Prim.search rules };
}

impl Entry {
    /// The entry with this place and this value.
    pub fn new(place: u32, value: u8) -> Entry
        requires place { place < MOST_PLACES }
        requires value { value < MOST_VALUES }
        ensures { result ≡ entry_at (place, value) }
    {
        Entry {
            bits: place * 8 + u32::from(value),
        }
    }

    /// The place of an entry, from 0.
    pub fn place(self) -> u32
        ensures place { result ≡ self.place }
        ensures below { result < MOST_PLACES }
    {
        self.bits / 8
    }

    /// The value of an entry, an element of the field.
    pub fn value(self) -> u8
        ensures value { result ≡ self.value }
        ensures below { result < MOST_VALUES }
    {
        (self.bits % 8) as u8
    }
}
