//! Old objects with their successors, and new objects as ends of maps.

ghost use Rattle.std.specs.Prelude.{◌≡◌, ℕ, ◌^◌, ◌<◌, length, nat_eq, false, IfNone, IfSome, if◌then◌else◌};
ghost use Rattle.scan_laws.specs.Scans.{pairs_of};
ghost use Rattle.tangle_maps.specs.Pairings.{joins_of};
ghost use Rattle.tangle_scan.specs.Additions.{AreLinks, IsChild, IsParent, IsSideOf, objects_in, scan_in};
ghost use Rattle.tangle_scan.specs.Held.{is_alive_at, partners_at};

use crate::adding::{Adding, Successors};
use crossing_maps::between::Side;
use crossing_maps::seams::Labels;
use crossing_maps::splitting::Split;
use std::alloc::Global;
use tangle_maps::Pairing;

/// What new maps are made of: the old complex, the successors of each of its objects, and how many
/// these are.
#[derive(Clone, Copy)]
pub struct Links<'a> {
    pub alloc: Global,
    pub adding: &'a Adding<'a>,
    pub successors: &'a [Option<Successors>],
    pub count: usize,
}

/// The place of an object that is there, and its successors.
#[derive(Clone, Copy)]
pub struct Parent<'a> {
    pub place: usize,
    pub successors: &'a Successors,
}

/// A new object: its place, that of the object from which it comes, the side of that, and labels of
/// the circles that this closes.
#[derive(Clone, Copy)]
pub struct Child<'a> {
    pub place: usize,
    pub parent: usize,
    pub side: Side<'a>,
    pub label: u64,
}

impl<'a> Parent<'a> {
    /// What a smoothing makes of the object.
    pub fn split(&self, smoothing: u8) -> &'a Split
        ensures { result.now ≡ (if nat_eq smoothing 0
            then self.now.successors.now.zero else self.now.successors.now.one) }
    {
        if smoothing == 0 {
            &self.successors.zero
        } else {
            &self.successors.one
        }
    }

    /// The place of its first successor with a smoothing.
    fn first(&self, smoothing: u8) -> usize
        ensures { result ≡ (if nat_eq smoothing 0
            then self.now.successors.now.first else self.now.successors.now.second) }
    {
        if smoothing == 0 {
            self.successors.first
        } else {
            self.successors.second
        }
    }
}

/// The pairing of an object.
pub fn pairing_of<'a>(links: &Links<'a>, parent: &Parent<'a>) -> &'a Pairing
    requires links { (p : ℕ) × AreLinks p links.now }
    requires parent { IsParent links.now.adding.now parent.now }
    ensures pairs { joins_of result.now.partners links.now.adding.now.site.opened.now
        ≡ pairs_of (scan_in links.now.adding.now) parent.now.place }
    ensures partners { result.now.partners
        ≡ partners_at (objects_in links.now.adding.now) parent.now.place }
{
    &links.adding.complex.objects[parent.place].pairing
}

/// What a smoothing makes of an object.
pub fn side_of<'a>(links: &Links<'a>, parent: &Parent<'a>, smoothing: u8) -> Side<'a>
    requires links { (p : ℕ) × AreLinks p links.now }
    requires parent { IsParent links.now.adding.now parent.now }
    requires smoothing { smoothing < 2 }
    ensures side { IsSideOf links.now.adding.now parent.now.place result }
    ensures smoothing { result.smoothing ≡ smoothing }
    ensures partners { result.pairing.now.partners
        ≡ partners_at (objects_in links.now.adding.now) parent.now.place }
{
    Side {
        pairing: pairing_of(links, parent),
        smoothing,
        split: parent.split(smoothing),
    }
}

/// The successor of an object with a smoothing and labels.
pub fn child_of<'a>(links: &Links<'a>, parent: &Parent<'a>, smoothing: u8, label: u64) -> Child<'a>
    requires links { (p : ℕ) × AreLinks p links.now }
    requires parent { IsParent links.now.adding.now parent.now }
    requires smoothing { smoothing < 2 }
    requires label { label < 2 ^ length (if nat_eq smoothing 0
        then parent.now.successors.now.zero else parent.now.successors.now.one).closed.items }
    ensures child { IsChild links.now.adding.now result }
    ensures parent { result.parent ≡ parent.now.place }
    ensures smoothing { result.side.smoothing ≡ smoothing }
    ensures label { result.label ≡ label }
{
    Child {
        place: parent.first(smoothing) + label as usize,
        parent: parent.place,
        side: side_of(links, parent, smoothing),
        label,
    }
}

/// The object at a place with its successors, if it is there.
pub fn parent_at<'a>(links: &Links<'a>, place: usize) -> Option<Parent<'a>>
    requires links { (p : ℕ) × AreLinks p links.now }
    requires place { place < length (objects_in links.now.adding.now) }
    ensures none { IfNone result
        (is_alive_at (objects_in links.now.adding.now) place ≡ false) }
    ensures some { IfSome result (λ parent. IsParent links.now.adding.now parent) }
    ensures place { IfSome result (λ parent. parent.place ≡ place) }
{
    match &links.successors[place] {
        None => None,
        Some(successors) => Some(Parent { place, successors }),
    }
}

/// The labels of two new objects.
pub fn labels_between(from: &Child<'_>, to: &Child<'_>) -> Labels
    ensures { result ≡ record { before = from.now.label; behind = to.now.label } }
{
    Labels {
        before: from.label,
        behind: to.label,
    }
}
