//! What a signed Gauss text lists, in memory.

ghost use Rattle.std.specs.Prelude.{◌≡◌, ◌≤◌, ◌+◌, ◌++◌, [], length, OnOk};
ghost use Rattle.kh_types.specs.declared.limits.TheConstants.{INPUT_BYTES};
ghost use Rattle.gauss_code.specs.declared.listing.TheConstants.{LABELS};
ghost use Rattle.gauss_code.specs.Faults.{signs_of};
ghost use Rattle.gauss_code.specs.Listings.{crossing_count, groups_of, labels_of, loop_group_count};
ghost use Rattle.gauss_code.specs.Held.{body_held, labels_held};
ghost use Rattle.gauss_code.specs.Machine.{group_ended, with_group};
ghost use Rattle.code_passes.specs.Passes.{all_passes};

use crate::passes::{push_all_passes, push_passes};
use arrayvec::ArrayVec;
use code_passes::Pass;
use kh_types::{ARCS, INPUT_BYTES};
use std::alloc::{AllocFailed, Global};
use std::marker::Model;

/// The most labels of a text that has no more crossings than the limit: one more than the most
/// arcs, since the number of crossings is rounded down.
pub const LABELS: usize = ARCS + 1;

/// The body of a text: labels without braces, or groups of labels.
#[derive(Drop)]
pub struct Body {
    bare: Vec<i32>,
    groups: Vec<Vec<i32>>,
}

impl Model for Body {
    ghost use Rattle.gauss_code.specs.Listings.{Body};
    ghost use Rattle.gauss_code.specs.Held.{body_held, numbers_of};

    ghost Value = { Body };

    ghost view = { λ body. body_held body.bare.items (numbers_of body.groups.items) };
}

/// What a text lists: a body, and the signs of the crossings if it has any.
#[derive(Drop)]
pub struct Listing {
    /// The labels, by components.
    pub body: Body,
    /// The signs.
    pub signs: Option<Vec<i32>>,
}

impl Model for Listing {
    ghost use Rattle.gauss_code.specs.Listings.{Listing};
    ghost use Rattle.gauss_code.specs.Held.{listing_held};

    ghost Value = { Listing };

    ghost view = { λ listing. listing_held listing.body listing.signs };
}

impl Listing {
    /// The signs, none where the text has none.
    pub fn signs(&self) -> &[i32]
        ensures { result.now ≡ signs_of self.now }
    {
        match &self.signs {
            Some(signs) => signs,
            None => &[],
        }
    }
}

impl Body {
    /// The empty body.
    pub fn new(alloc: Global) -> Body
        ensures { result ≡ body_held [] [] }
    {
        Body {
            bare: Vec::new(alloc),
            groups: Vec::new(alloc),
        }
    }

    /// Adds a group.
    pub fn push_group(&mut self, group: Vec<i32>) -> Result<(), AllocFailed<Vec<i32>>>
        ensures { OnOk result (self.new ≡ with_group group.items self.old) }
    {
        self.groups.push(group)
    }

    /// Ends the body: numbers behind no group are its labels.
    pub fn end(&mut self, numbers: Vec<i32>)
        ensures { self.new ≡ group_ended numbers.items self.old }
    {
        self.bare = numbers;
    }

    /// The number of labels.
    pub fn label_count(&self) -> usize
        requires { length (labels_of self.now) ≤ INPUT_BYTES }
        ensures { result ≡ length (labels_of self.now) }
    {
        if self.groups.is_empty() {
            self.bare.len()
        } else {
            count_in_groups(&self.groups)
        }
    }

    /// The number of crossings.
    pub fn crossing_count(&self) -> usize
        requires { length (labels_of self.now) ≤ INPUT_BYTES }
        ensures { result ≡ crossing_count self.now }
    {
        self.label_count() / 2
    }

    /// The labels of all components, of which there are few enough.
    pub fn labels(&self) -> ArrayVec<i32, LABELS>
        requires { length (labels_of self.now) ≤ LABELS }
        ensures { result.items ≡ labels_of self.now }
    {
        let mut labels = ArrayVec::new();
        if self.groups.is_empty() {
            push_labels(&mut labels, &self.bare);
            return labels;
        }
        push_groups(&mut labels, &self.groups);
        labels
    }

    /// The passes of all components, of which there are few enough.
    pub fn passes(&self) -> ArrayVec<Pass, LABELS>
        requires { length (labels_of self.now) ≤ LABELS }
        ensures { result.items ≡ all_passes 1 (groups_of self.now) }
    {
        let mut passes = ArrayVec::new();
        if self.groups.is_empty() {
            push_passes(&mut passes, &self.bare);
            return passes;
        }
        push_all_passes(&mut passes, &self.groups);
        passes
    }

    /// The number of loops.
    pub fn loop_group_count(&self) -> usize
        ensures { result ≡ loop_group_count self.now }
    {
        self.groups.iter().filter(|group| group.is_empty()).count()
    }
}

/// The number of labels in groups.
fn count_in_groups(groups: &[Vec<i32>]) -> usize
    requires { length (labels_held groups.now) ≤ INPUT_BYTES }
    ensures { result ≡ length (labels_held groups.now) }
{
    let mut count = 0;
    for group in groups {
        count += group.len();
    }
    count
}

/// Adds the labels of groups, for which there is room.
fn push_groups(labels: &mut ArrayVec<i32, LABELS>, groups: &[Vec<i32>])
    requires { length labels.old.items + length (labels_held groups.now) ≤ LABELS }
    ensures { labels.new.items ≡ labels.old.items ++ labels_held groups.now }
{
    for group in groups {
        push_labels(labels, group);
    }
}

/// Adds labels, for which there is room.
fn push_labels(labels: &mut ArrayVec<i32, LABELS>, more: &[i32])
    requires { length labels.old.items + length more.now ≤ LABELS }
    ensures { labels.new.items ≡ labels.old.items ++ more.now }
{
    for label in more {
        labels.push(*label);
    }
}
