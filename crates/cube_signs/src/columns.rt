//! The columns of a block.

ghost use Rattle.std.specs.Prelude.{◌≡◌, ◌+◌, ◌^◌, ◌<◌, ◌≤◌, ◌++◌, length, map, None, All, OnOk};
ghost use Rattle.std.specs.List.{last_or};
ghost use Rattle.kh_types.specs.declared.limits.TheConstants.{CIRCLES};
ghost use Rattle.sparse_block.specs.declared.entry.TheConstants.{MOST_VALUES};
ghost use Rattle.cube_signs.specs.Columns.{column_along, head_entry, out_entries, IsSmallOut};
ghost use Rattle.cube_signs.specs.declared.limits.TheConstants.{PLACES};

use crate::head_labels::labels_behind;
use crate::outs::{Out, number_at};
use kh_types::NoMemory;
use smallvec::SmallVec;
use sparse_block::{Entry, INLINE_ENTRIES};

/// The entries of a column.
pub type Column = SmallVec<Entry, INLINE_ENTRIES>;

/// Puts the entries of the column of a generator in place of others, given the edges out of its
/// state, and how many labels before each have as many v-.
pub fn put_entries(
    column: &mut Vec<Entry>,
    outs: &[Out],
    ranks: &[u32],
    label: u64,
) -> Result<(), NoMemory>
    requires outs { All IsSmallOut outs.now }
    requires label { label < 2 ^ CIRCLES }
    requires ranks { All (λ rank. rank < PLACES) ranks.now }
    ensures { OnOk result (column.new.items ≡ column_along ranks.now label outs.now) }
{
    column.clear();
    'outs: for k in 0..outs.len() {
        push_entries(column, ranks, outs[k], label)?;
    }
    Ok(())
}

/// Adds the entries along an edge.
fn push_entries(
    column: &mut Vec<Entry>,
    ranks: &[u32],
    out: Out,
    label: u64,
) -> Result<(), NoMemory>
    requires out { IsSmallOut out }
    requires label { label < 2 ^ CIRCLES }
    requires ranks { All (λ rank. rank < PLACES) ranks.now }
    ensures { OnOk result
        (column.new.items ≡ column.old.items ++ out_entries ranks.now label out) }
{
    let labels = labels_behind(out.change, label);
    push_heads(column, out.base, ranks, out.sign, &labels)
}

/// Adds the entries of the generators with these labels.
fn push_heads(
    column: &mut Vec<Entry>,
    base: u32,
    ranks: &[u32],
    sign: u8,
    labels: &[u64],
) -> Result<(), NoMemory>
    requires base { base < PLACES }
    requires sign { sign < MOST_VALUES }
    requires ranks { All (λ rank. rank < PLACES) ranks.now }
    ensures { OnOk result (column.new.items
        ≡ column.old.items ++ map (head_entry base ranks.now sign) labels.now) }
{
    'labels: for k in 0..labels.len() {
        column.push(head(base, ranks, sign, labels[k]))?;
    }
    Ok(())
}

/// The entry of the generator with a label.
fn head(base: u32, ranks: &[u32], sign: u8, label: u64) -> Entry
    requires base { base < PLACES }
    requires sign { sign < MOST_VALUES }
    requires ranks { All (λ rank. rank < PLACES) ranks.now }
    ensures { result ≡ head_entry base ranks.now sign label }
{
    Entry::new(base + number_at(ranks, label as usize), sign)
}

/// The last entry of the column of a generator, given the edges out of its state, and how many
/// labels before each have as many v-; none where the column has no entry.
pub fn last_entry(outs: &[Out], ranks: &[u32], label: u64) -> Option<Entry>
    requires outs { All IsSmallOut outs.now }
    requires label { label < 2 ^ CIRCLES }
    requires ranks { All (λ rank. rank < PLACES) ranks.now }
    ensures { result ≡ last_or None (column_along ranks.now label outs.now) }
{
    'outs: for k in 0..outs.len() {
        let last = last_along(outs[outs.len() - 1 - k], ranks, label);
        if last.is_some() {
            return last;
        }
    }
    None
}

/// The last entry along an edge; none where it leads to no generator.
fn last_along(out: Out, ranks: &[u32], label: u64) -> Option<Entry>
    requires out { IsSmallOut out }
    requires label { label < 2 ^ CIRCLES }
    requires ranks { All (λ rank. rank < PLACES) ranks.now }
    ensures { result ≡ last_or None (out_entries ranks.now label out) }
{
    let labels = labels_behind(out.change, label);
    if labels.is_empty() {
        return None;
    }
    Some(head(out.base, ranks, out.sign, labels[labels.len() - 1]))
}
