//! Changes of columns, rows and places in memory. None takes memory.

ghost use Rattle.std.specs.Prelude.{◌≡◌, ℕ, ◌+◌, ◌<◌, [], length, map, nat_eq, All};
ghost use Rattle.std.specs.Prelude.{slice_index_or, slice_set};
ghost use Rattle.std.specs.List.{position};
ghost use Rattle.sparse_block.specs.Clearing.{AreCrossed, CanClear};
ghost use Rattle.sparse_block.specs.Clearing.{crossed_out, crossed_out_before};
ghost use Rattle.sparse_block.specs.Clearing.{emptied, emptied_before, with_dead, without};
ghost use Rattle.sparse_block.specs.Entries.{AreEntries, value_at};
ghost use Rattle.sparse_block.specs.Inside.{lists_in};

use crate::Entry;
use crate::held_lines::{Entries, HeldLines};

/// The two places of a pivot.
#[derive(Clone, Copy)]
pub(crate) struct Pair {
    /// The number of its degree, from the least degree on.
    pub(crate) k: usize,
    pub(crate) column: u32,
    pub(crate) row: u32,
}

/// Clears the pivot's row and column in its own differential.
pub(crate) fn clear_own(columns: &mut [HeldLines], rows: &mut [HeldLines], pair: Pair)
    requires row { CanClear pair.k pair.row rows.old columns.old }
    requires column { CanClear pair.k pair.column columns.old rows.old }
    ensures columns { columns.new
        ≡ emptied pair.k pair.column (crossed_out pair.k pair.row columns.old) }
    ensures rows { rows.new
        ≡ crossed_out pair.k pair.column (emptied pair.k pair.row rows.old) }
{
    clear(rows, columns, pair.k, pair.row);
    clear(columns, rows, pair.k, pair.column);
}

/// Clears what the neighbouring differentials have at the pivot's places: the row of its column's
/// place in the one before, and the column of its row's place in the one after.
pub(crate) fn clear_neighbours(columns: &mut [HeldLines], rows: &mut [HeldLines], pair: Pair)
    requires before { (j : ℕ) → pair.k ≡ j + 1
        → CanClear j pair.column rows.old columns.old }
    requires after { CanClear (pair.k + 1) pair.row columns.old rows.old }
    ensures columns { columns.new
        ≡ emptied (pair.k + 1) pair.row
        (crossed_out_before pair.k pair.column columns.old) }
    ensures rows { rows.new
        ≡ crossed_out (pair.k + 1) pair.row
        (emptied_before pair.k pair.column rows.old) }
{
    clear_before(rows, columns, pair.k, pair.column);
    clear(columns, rows, pair.k + 1, pair.row);
    give_back(columns, pair.k);
    give_back(rows, pair.k);
}

/// Gives the memory of lines back that have no entry, at degree number `k` and the two beside it.
fn give_back(lines: &mut [HeldLines], k: usize)
    requires { k + 1 < length lines.old }
    ensures { lines.new ≡ lines.old }
{
    give_back_at(lines, k);
    give_back_at(lines, k + 1);
    if k > 0 {
        give_back_at(lines, k - 1);
    }
}

/// Gives the memory of the lines of degree number `k` back, if none has an entry.
fn give_back_at(lines: &mut [HeldLines], k: usize)
    ensures { lines.new ≡ lines.old }
{
    if k < lines.len() {
        lines[k].give_back();
    }
}

/// Marks the two places dead.
pub(crate) fn kill(alive: &mut [Vec<bool>], pair: Pair)
    requires degree { pair.k + 1 < length alive.old }
    requires column { pair.column < length (slice_index_or (lists_in alive.old) pair.k []) }
    requires row { pair.row < length (slice_index_or (lists_in alive.old) (pair.k + 1) []) }
    ensures { lists_in alive.new ≡ with_dead (pair.k + 1) pair.row
        (with_dead pair.k pair.column (lists_in alive.old)) }
{
    alive[pair.k][pair.column as usize] = false;
    alive[pair.k + 1][pair.row as usize] = false;
}

/// Empties a line of the degree before number `k`, as `clear` does, where there is one.
fn clear_before(lines: &mut [HeldLines], across: &mut [HeldLines], k: usize, place: u32)
    requires { (j : ℕ) → k ≡ j + 1 → CanClear j place lines.old across.old }
    ensures lines { lines.new ≡ emptied_before k place lines.old }
    ensures across { across.new ≡ crossed_out_before k place across.old }
{
    if k > 0 {
        clear(lines, across, k - 1, place);
    }
}

/// Empties a line of degree number `k`, and takes its entries out of the lines across.
fn clear(lines: &mut [HeldLines], across: &mut [HeldLines], k: usize, place: u32)
    requires { CanClear k place lines.old across.old }
    ensures lines { lines.new ≡ emptied k place lines.old }
    ensures across { across.new ≡ crossed_out k place across.old }
{
    clear_line(&mut lines[k], &mut across[k], place);
}

/// Empties a line, and takes its entries out of the lines across.
fn clear_line(lines: &mut HeldLines, across: &mut HeldLines, place: u32)
    requires place { place < length lines.old }
    requires crossed { (p : ℕ) × AreCrossed p lines.old across.old }
    ensures lines { lines.new ≡ slice_set lines.old place [] }
    ensures across { across.new ≡ map (without place) across.old }
{
    remove_from_each(across, lines.line(place), place);
    lines.empty(place);
}

/// Takes the entry at a place out of each line that has one: those that these entries name.
fn remove_from_each(lines: &mut HeldLines, entries: &[Entry], place: u32)
    requires entries { (p : ℕ) × AreEntries p (length lines.old) entries.now }
    requires lines { (p : ℕ) × (size : ℕ) × All (AreEntries p size) lines.old }
    requires others { (other : ℕ) → value_at entries.now other ≡ 0
        → value_at (slice_index_or lines.old other []) place ≡ 0 }
    ensures { lines.new ≡ map (without place) lines.old }
{
    'entries: for entry in entries {
        lines.remove(entry.place(), place);
    }
}

/// Takes the entry at a place out of a line.
pub(crate) fn remove(line: &mut Entries, place: u32)
    requires { (p : ℕ) × (size : ℕ) × AreEntries p size line.old.items }
    ensures { line.new.items ≡ without place line.old.items }
{
    if let Some(at) = position_of(line.as_slice(), place) {
        line.remove(at);
    }
}

fn position_of(entries: &[Entry], place: u32) -> Option<usize>
    ensures { result ≡ position (λ entry. nat_eq entry.place place) entries.now }
{
    entries.iter().position(|entry| entry.place() == place)
}
