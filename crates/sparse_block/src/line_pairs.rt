//! Two lists of entries side by side: a line less a multiple of another, and where two differ.

ghost use Rattle.std.specs.Prelude.{◌≡◌, ◌≢◌, ℕ, ◌*◌, ◌<◌, ◌≤◌, ◌∷◌, ◌++◌, [], drop, length, OnOk};
ghost use Rattle.kh_types.specs.Rank.{minus_mod};
ghost use Rattle.sparse_block.specs.declared.entry.TheConstants.{MOST_PLACES, MOST_VALUES};
ghost use Rattle.sparse_block.specs.Entries.{AreEntries, entries_from, entries_of, value_at};
ghost use Rattle.sparse_block.specs.Least.{FindsLeast};
ghost use Rattle.sparse_block.specs.LinePairs.{line_less};
ghost use Rattle.sparse_block.specs.LinePairs.{first_place_of, rest_after, value_first};

use crate::Entry;
use kh_types::NoMemory;
use prime_field::laws::element_laws;
use prime_field::{PrimeField, difference};

/// Makes the entries of a line less a multiple of another line.
pub fn subtract_into<F: PrimeField>(
    made: &mut Vec<Entry>,
    line: &[Entry],
    factor: F,
    other: &[Entry],
) -> Result<(), NoMemory>
    requires line { (size : ℕ) × AreEntries F.P size line.now }
    requires other { (size : ℕ) × AreEntries F.P size other.now }
    ensures { OnOk result ((size : ℕ) → AreEntries F.P size line.now
        → AreEntries F.P size other.now → made.new.items
        ≡ entries_of (line_less F.P size line.now (F.value_of factor) other.now)) }
{
    element_laws::<F>();
    made.clear();
    let mut at = 0;
    let mut other_at = 0;
    'places: while at < line.len() || other_at < other.len() {
        let place = first_place(line, at, other, other_at);
        let here = entry_here(line, at, place);
        let there = entry_here(other, other_at, place);
        push_value(made, place, less(here.value, factor, there.value))?;
        at = here.next;
        other_at = there.next;
    }
    Ok(())
}

/// The least place at which two lines differ.
pub fn first_difference(left: &[Entry], right: &[Entry]) -> Option<u32>
    requires left { (p : ℕ) × (size : ℕ) × AreEntries p size left.now }
    requires right { (p : ℕ) × (size : ℕ) × AreEntries p size right.now }
    ensures { FindsLeast (λ place. value_at left.now place ≢ value_at right.now place) result }
{
    let mut at = 0;
    let mut other_at = 0;
    'places: while at < left.len() || other_at < right.len() {
        let place = first_place(left, at, right, other_at);
        let here = entry_here(left, at, place);
        let there = entry_here(right, other_at, place);
        if here.value != there.value {
            return Some(place);
        }
        at = here.next;
        other_at = there.next;
    }
    None
}

/// The first place of two lists, from an index of each on.
fn first_place(left: &[Entry], at: usize, right: &[Entry], right_at: usize) -> u32
    ensures place { result ≡ first_place_of (drop at left.now) (drop right_at right.now) }
    ensures below { result < MOST_PLACES }
{
    match (left.get(at), right.get(right_at)) {
        (Some(left), Some(right)) => left.place().min(right.place()),
        (Some(left), None) => left.place(),
        (None, Some(right)) => right.place(),
        (None, None) => 0,
    }
}

/// The value that a list has at a place, and the index where it goes on.
#[derive(Clone, Copy)]
struct Here {
    value: u8,
    next: usize,
}

/// The value at a place, which no entry from an index on comes before, and the index behind it.
fn entry_here(entries: &[Entry], at: usize, place: u32) -> Here
    requires { at ≤ length entries.now }
    ensures value { result.value ≡ value_first (drop at entries.now) place }
    ensures rest { drop result.next entries.now ≡ rest_after (drop at entries.now) place }
    ensures within { result.next ≤ length entries.now }
{
    match entries.get(at) {
        Some(entry) if entry.place() == place => Here {
            value: entry.value(),
            next: at + 1,
        },
        _ => Here { value: 0, next: at },
    }
}

/// A value less a multiple of another.
fn less<F: PrimeField>(value: u8, factor: F, other: u8) -> u8
    requires value { value < F.P }
    requires other { other < F.P }
    ensures value { result ≡ minus_mod F.P value (F.value_of factor * other) }
    ensures below { result < F.P }
{
    element_laws::<F>();
    if other == 0 {
        return value;
    }
    difference(F::of(value), factor.mul(F::of(other))).value()
}

/// Puts an entry at the end, if its value is not 0.
fn push_value(made: &mut Vec<Entry>, place: u32, value: u8) -> Result<(), NoMemory>
    requires place { place < MOST_PLACES }
    requires value { value < MOST_VALUES }
    ensures { OnOk result (made.new.items ≡ made.old.items ++ entries_from place (value ∷ [])) }
{
    if value != 0 {
        made.push(Entry::new(place, value))?;
    }
    Ok(())
}
