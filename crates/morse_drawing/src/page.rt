//! Drawings under way.

ghost use Rattle.std.specs.Prelude.{◌≡◌, ◌+◌, ◌*◌, ◌<◌, ◌≤◌, [], ◌∷◌, ◌++◌, drop, length, take, OnOk};
ghost use Rattle.kh_types.specs.declared.limits.TheConstants.{CROSSINGS};
ghost use Rattle.morse_drawing.specs.DartRows.{turned_back};
ghost use Rattle.morse_drawing.specs.Pages.{begun, blank_page, closed, crossed_by, is_in};
ghost use Rattle.morse_drawing.specs.declared.limits.TheConstants.{DRAWN_STRANDS};

use crate::limits::DRAWN_STRANDS;
use crate::slice::Slice;
use arrayvec::ArrayVec;
use kh_types::{CROSSINGS, Dart, NoMemory, dart_at, dart_place};
use std::alloc::Global;
use std::marker::Model;

/// A drawing under way: the places of the crossings that are drawn, the last one first, the places
/// of the darts in the row, whose arcs are open, and the slices. Contracts see it as the page of
/// these lists.
#[derive(Debug, Drop)]
pub struct Page {
    pub(crate) drawn: ArrayVec<u8, CROSSINGS>,
    pub(crate) row: ArrayVec<u8, DRAWN_STRANDS>,
    pub(crate) slices: Vec<Slice>,
}

impl Model for Page {
    ghost use Rattle.morse_drawing.specs.Pages.{Page};

    ghost Value = { Page };

    ghost use Rattle.morse_drawing.specs.Seen.{page_seen};

    ghost view = { page_seen };
}

impl Page {
    /// A page with nothing drawn.
    pub fn blank(alloc: Global) -> Page
        ensures { result ≡ blank_page }
    {
        Page {
            drawn: ArrayVec::new(),
            row: ArrayVec::new(),
            slices: Vec::new(alloc),
        }
    }

    /// How many strands there are.
    pub fn strands(&self) -> usize
        ensures { result ≡ length self.now.row }
    {
        self.row.len()
    }

    /// Whether a crossing, given by its place, is drawn.
    pub fn has_drawn(&self, crossing: u8) -> bool
        ensures { result ≡ is_in self.now.drawn crossing }
    {
        self.drawn.contains(&crossing)
    }

    /// Begins a crossing, given by its place, where the row is empty.
    pub fn begin(&mut self, crossing: u8) -> Result<(), NoMemory>
        requires crossing { crossing < CROSSINGS }
        requires room { length self.old.drawn < CROSSINGS }
        ensures { OnOk result (self.new ≡ begun self.old crossing) }
    {
        let dart = Dart {
            crossing: crossing + 1,
            slot: 0,
        };
        let first = dart_place(dart);
        let second = turned_back(first);
        let third = turned_back(second);
        self.drawn.insert(0, crossing);
        self.row.clear();
        self.row.push(first);
        self.row.push(second);
        self.row.push(third);
        self.row.push(turned_back(third));
        self.slices.push(Slice::Cap { at: 1 })?;
        self.slices.push(Slice::Cap { at: 3 })?;
        self.slices.push(Slice::Cross {
            at: 2,
            crossing: dart.crossing,
            slot: dart.slot,
        })?;
        Ok(())
    }

    /// Lets the strand at a place meet the crossing of its partner, a dart.
    pub fn cross(&mut self, place: usize, dart: u8) -> Result<(), NoMemory>
        requires dart { dart < 4 * CROSSINGS }
        requires within { place < length self.old.row }
        requires strands { length self.old.row + 2 ≤ DRAWN_STRANDS }
        requires room { length self.old.drawn < CROSSINGS }
        ensures { OnOk result (self.new ≡ crossed_by self.old place dart) }
    {
        let Dart { crossing, slot } = dart_at(dart);
        let first = turned_back(dart);
        let second = turned_back(first);
        self.drawn.insert(0, crossing - 1);
        put_three(&mut self.row, place, first, second, turned_back(second));
        let at = place as u8 + 1;
        self.slices.push(Slice::Cap { at: at + 1 })?;
        self.slices.push(Slice::Cross { at, crossing, slot })?;
        Ok(())
    }

    /// Lets two neighbours end.
    pub fn close(&mut self, place: usize) -> Result<(), NoMemory>
        requires within { place + 1 < length self.old.row }
        requires strands { length self.old.row ≤ DRAWN_STRANDS }
        ensures { OnOk result (self.new ≡ closed self.old place) }
    {
        remove_two(&mut self.row, place);
        let at = place as u8 + 1;
        self.slices.push(Slice::Cup { at })?;
        Ok(())
    }
}

/// One gives way to three.
#[tactic(auto, using(crate::proofs::RowEdits::three_for_one))]
fn put_three(row: &mut ArrayVec<u8, DRAWN_STRANDS>, place: usize, first: u8, second: u8, third: u8)
    requires within { place < length row.old.items }
    requires room { length row.old.items + 2 ≤ DRAWN_STRANDS }
    ensures { row.new.items ≡ take place row.old.items ++ (first ∷ second ∷ third ∷ [])
        ++ drop (place + 1) row.old.items }
{
    row.remove(place);
    row.insert(place, third);
    row.insert(place, second);
    row.insert(place, first);
}

/// Two neighbours are taken out.
#[tactic(auto, using(crate::proofs::RowEdits::removed_two))]
fn remove_two(row: &mut ArrayVec<u8, DRAWN_STRANDS>, place: usize)
    requires { place + 1 < length row.old.items }
    ensures { row.new.items ≡ take place row.old.items ++ drop (place + 2) row.old.items }
{
    row.remove(place);
    row.remove(place);
}

/// The place of the dart at the slot after, round the same crossing.
fn turned_back(dart: u8) -> u8
    requires { dart < 4 * CROSSINGS }
    ensures turned { result ≡ turned_back dart }
    ensures below { result < 4 * CROSSINGS }
{
    let Dart { crossing, slot } = dart_at(dart);
    dart_place(Dart {
        crossing,
        slot: (slot + 1) % 4,
    })
}
