//! The labels of circles, by their numbers of v-.

ghost use Rattle.std.specs.Prelude.{◌≡◌, ◌+◌, ◌^◌, ◌<◌, ◌≤◌, ◌++◌, [], ◌∷◌, length};
ghost use Rattle.std.specs.Prelude.{nat_eq, slice_index, slice_index_or, slice_set, replicate};
ghost use Rattle.std.specs.Prelude.{IfOk, OnOk};
ghost use Rattle.std.specs.List.{count_by};
ghost use Rattle.sparse_block.specs.Inside.{lists_in};
ghost use Rattle.cube_signs.specs.LabelRanks.{labels_by_weight, ranks_of, weights_of};
ghost use Rattle.cube_signs.specs.declared.limits.TheConstants.{WEIGHTS, WIDTH};

use crate::limits::WEIGHTS;
use kh_types::{NoMemory, ones};
use std::alloc::Global;

/// How many v- each label of some circles has.
#[tactic(auto, using(kh_types::proofs::Ranges::range_steps))]
pub fn weights_of(alloc: Global, circles: u8) -> Result<Vec<u8>, NoMemory>
    requires { circles ≤ WIDTH }
    ensures { IfOk result (λ weights. weights.items ≡ weights_of circles) }
{
    let mut weights = Vec::with_capacity(alloc, 1 << circles)?;
    'labels: for label in 0..1u64 << circles {
        weights.push(ones(usize::from(circles), label))?;
    }
    Ok(weights)
}

/// For each number of v- that a label of some circles can have, the labels that have as many,
/// ascending.
pub fn labels_by_weight(
    alloc: Global,
    circles: u8,
    weights: &[u8],
) -> Result<Vec<Vec<u32>>, NoMemory>
    requires circles { circles ≤ WIDTH }
    requires weights { weights.now ≡ weights_of circles }
    ensures { IfOk result (λ lists. lists_in lists.items ≡ labels_by_weight circles) }
{
    let mut lists = empty_lists(alloc, weights, usize::from(circles) + 1)?;
    'labels: for label in 0..weights.len() {
        push_label(&mut lists, weights[label], label as u32)?;
    }
    Ok(lists)
}

/// So many empty lists, each with room for the labels of its weight.
fn empty_lists(alloc: Global, weights: &[u8], count: usize) -> Result<Vec<Vec<u32>>, NoMemory>
    ensures { IfOk result (λ lists. lists_in lists.items ≡ replicate count []) }
{
    let mut lists = Vec::with_capacity(alloc, count)?;
    'lists: for weight in 0..count {
        lists.push(Vec::with_capacity(alloc, label_count(weights, weight))?)?;
    }
    Ok(lists)
}

/// How many labels have this many v-.
fn label_count(weights: &[u8], weight: usize) -> usize
    ensures { result ≡ count_by (λ x. nat_eq x weight) weights.now }
{
    weights
        .iter()
        .filter(|x| usize::from(**x) == weight)
        .count()
}

/// Adds a label to the list of its weight.
fn push_label(lists: &mut Vec<Vec<u32>>, weight: u8, label: u32) -> Result<(), NoMemory>
    requires { weight < length lists.old.items }
    ensures { OnOk result (lists_in lists.new.items ≡ slice_set (lists_in lists.old.items) weight
        (slice_index_or (lists_in lists.old.items) weight [] ++ label ∷ [])) }
{
    lists[usize::from(weight)].push(label)?;
    Ok(())
}

/// For each label, how many labels before it have as many v-.
pub fn ranks_of(alloc: Global, weights: &[u8]) -> Result<Vec<u32>, NoMemory>
    requires { length weights.now < 2 ^ 32 }
    ensures { IfOk result (λ ranks. ranks.items ≡ ranks_of weights.now (length weights.now)) }
{
    let mut counts = [0u32; WEIGHTS];
    let mut ranks = Vec::with_capacity(alloc, weights.len())?;
    'labels: for label in 0..weights.len() {
        ranks.push(count_one(&mut counts, weights[label]))?;
    }
    Ok(ranks)
}

/// How often a weight was counted, before it is counted once more.
fn count_one(counts: &mut [u32], weight: u8) -> u32
    requires all { length counts.old ≡ WEIGHTS }
    requires room { slice_index counts.old weight + 1 < 2 ^ 32 }
    ensures before { result ≡ slice_index counts.old weight }
    ensures more { counts.new ≡ slice_set counts.old weight (slice_index counts.old weight + 1) }
{
    let before = counts[usize::from(weight)];
    counts[usize::from(weight)] = before + 1;
    before
}
