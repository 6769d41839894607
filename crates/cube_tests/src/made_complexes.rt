//! What worked complexes are made of: the names of their places, and their columns.

ghost use Rattle.std.specs.Prelude.{◌≡◌, map, IfOk};
ghost use Rattle.std.specs.List.{range_with_len};
ghost use Rattle.kh_types.specs.Generators.{generator_of};
ghost use Rattle.sparse_block.specs.Entries.{entry_at};
ghost use Rattle.sparse_block.specs.Inside.{entries_in};

use kh_types::NoMemory;
use smallvec::SmallVec;
use sparse_block::{Entry, Generator, INLINE_ENTRIES, MOST_PLACES, MOST_VALUES};
use std::alloc::Global;

pub(crate) const NONE: [(u32, u8); 0] = [];

pub(crate) type Columns = Vec<SmallVec<Entry, INLINE_ENTRIES>>;

pub(crate) fn name(state: u32, label: u64) -> Generator
    ensures { result ≡ generator_of state label }
{
    Generator { state, label }
}

/// The generators of a state with the first so many labels.
pub(crate) fn labels(alloc: Global, state: u32, count: u64) -> Result<Vec<Generator>, NoMemory>
    ensures { IfOk result (λ made.
        made.items ≡ map (generator_of state) (range_with_len 0 count)) }
{
    let mut made = Vec::new(alloc);
    'labels: for label in 0..count {
        made.push(name(state, label))?;
    }
    Ok(made)
}

pub(crate) fn lines<const N: usize>(
    alloc: Global,
    columns: &[[(u32, u8); N]],
) -> Result<Columns, NoMemory>
    ensures { IfOk result (λ made. entries_in made.items ≡ map (map entry_at) columns.now) }
{
    let mut made = Vec::new(alloc);
    'columns: for k in 0..columns.len() {
        made.push(line(alloc, columns[k].as_slice())?)?;
    }
    Ok(made)
}

pub(crate) fn line(
    alloc: Global,
    pairs: &[(u32, u8)],
) -> Result<SmallVec<Entry, INLINE_ENTRIES>, NoMemory>
    ensures { IfOk result (λ made. made.items ≡ map entry_at pairs.now) }
{
    let mut made = SmallVec::new(alloc);
    'pairs: for k in 0..pairs.len() {
        made.push(entry(pairs[k])?)?;
    }
    Ok(made)
}

/// Tests fail where an entry cannot be kept.
fn entry(pair: (u32, u8)) -> Result<Entry, NoMemory>
    ensures { IfOk result (λ made. made ≡ entry_at pair) }
{
    let (place, value) = pair;
    if place >= MOST_PLACES || value >= MOST_VALUES {
        return Err(NoMemory);
    }
    Ok(Entry::new(place, value))
}
