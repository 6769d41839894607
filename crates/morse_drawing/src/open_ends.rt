//! The row of open ends of slices that are read.

ghost use Rattle.std.specs.Prelude.{
  ◌≡◌,
  ◌≤◌,
  ◌<◌,
  ◌+◌,
  ◌*◌,
  Some,
  length,
  map,
  nat_lt,
  not,
  set,
  true,
};
ghost use Rattle.std.specs.List.{insert, remove};
ghost use Rattle.kh_types.specs.declared.limits.TheConstants.{CROSSINGS};
ghost use Rattle.morse_drawing.specs.OpenEnds.{
  ArePaired,
  after_cap,
  after_cross,
  after_cup,
  end_at,
  has_line,
  is_drawn,
  is_free,
  is_end_of,
  is_later,
  no_strands,
  pairs_before,
  renamed,
  tied,
  unused,
  with_two,
};
ghost use Rattle.morse_drawing.specs.Sketches.{dart_after};
ghost use Rattle.morse_drawing.specs.declared.end.End.TheVariants.{AtDart, OnLine};
ghost use Rattle.morse_drawing.specs.declared.limits.TheConstants.{
  CAP_STRANDS,
  DARTS,
  JOINED_LOOPS,
  ROW_STRANDS,
};

use crate::end::End;
use crate::joins::Pair;
use crate::limits::{DARTS, JOINED_LOOPS, ROW_STRANDS};
use arrayvec::ArrayVec;
use kh_types::{ARCS, CROSSINGS, Dart, dart_at, dart_place};
use std::marker::Model;

/// The ends of the strands of the row, from left to right; for each dart the place of the other
/// dart of its line, where it is known; which crossings are drawn; and how many loops are closed.
#[derive(Debug, Drop)]
pub struct OpenEnds {
    pub(crate) row: ArrayVec<End, ROW_STRANDS>,
    pub(crate) others: [Option<u8>; DARTS],
    pub(crate) drawn: [bool; CROSSINGS],
    pub(crate) loops: u8,
}

impl Model for OpenEnds {
    ghost use Rattle.morse_drawing.specs.OpenEnds.{OpenEnds};

    ghost Value = { OpenEnds };

    ghost use Rattle.morse_drawing.specs.Seen.{open_ends};

    ghost view = { open_ends };
}

impl OpenEnds {
    /// Before any slice.
    pub(crate) fn new() -> OpenEnds
        ensures { result ≡ no_strands CROSSINGS }
    {
        OpenEnds {
            row: ArrayVec::new(),
            others: [None; DARTS],
            drawn: [false; CROSSINGS],
            loops: 0,
        }
    }

    /// How many strands there are.
    pub(crate) fn strands(&self) -> usize
        ensures strands { result ≡ length self.now.row }
        ensures few { result ≤ ROW_STRANDS }
    {
        self.row.len()
    }

    /// Two strands begin at a place.
    pub(crate) fn cap(&mut self, place: usize)
        requires within { place ≤ length self.old.row }
        requires room { length self.old.row ≤ CAP_STRANDS }
        ensures { self.new ≡ after_cap self.old place }
    {
        open_two(&mut self.row, place);
    }

    /// The strands at a place and the next end; false where this would close a loop too many.
    pub(crate) fn cup(&mut self, place: usize) -> bool
        requires within { place + 1 < length self.old.row }
        ensures few { result
            ≡ not (nat_lt JOINED_LOOPS (after_cup self.old place).loops) }
        ensures next { result ≡ true → self.new ≡ after_cup self.old place }
    {
        let loops = self.loops;
        let (first, second) = close_two(&mut self.row, place);
        if first.is_same(second) {
            if loops == JOINED_LOOPS {
                return false;
            }
            self.loops = loops + 1;
        } else {
            self.tie(first, second);
        }
        true
    }

    /// The strands at a place and the next cross.
    pub(crate) fn cross(&mut self, place: usize, crossing: u8, slot: u8)
        requires bound { place < ROW_STRANDS }
        requires within { place + 1 < length self.old.row }
        requires first { 1 ≤ crossing }
        requires last { crossing ≤ CROSSINGS }
        requires slot { slot < 4 }
        ensures { self.new ≡ after_cross self.old place crossing slot }
    {
        let left = self.end_at(place);
        self.tie(left, End::AtDart(dart_after(crossing, slot, 0)));
        let right = self.end_at(place + 1);
        self.tie(right, End::AtDart(dart_after(crossing, slot, 3)));
        self.replace(
            place,
            crossing,
            dart_after(crossing, slot, 1),
            dart_after(crossing, slot, 2),
        );
    }

    /// Whether a crossing is drawn.
    pub(crate) fn has_drawn(&self, crossing: u8) -> bool
        requires first { 1 ≤ crossing }
        requires last { crossing ≤ CROSSINGS }
        ensures { result ≡ is_drawn self.now crossing }
    {
        self.drawn[crossing as usize - 1]
    }

    /// The pairs of darts that have found each other, by their first darts.
    pub(crate) fn pairs(&self) -> ArrayVec<Pair, ARCS>
        requires { ArePaired CROSSINGS self.now.others }
        ensures { result.items ≡ pairs_before self.now.others (4 * CROSSINGS) }
    {
        found_pairs(&self.others)
    }

    /// The end at a place of the row.
    fn end_at(&self, place: usize) -> End
        ensures { result ≡ end_at self.now.row place }
    {
        self.row.get(place).copied().unwrap_or(End::AtDart(0))
    }

    /// Two neighbours give way to two darts of a crossing.
    fn replace(&mut self, place: usize, crossing: u8, first: u8, second: u8)
        requires within { place + 1 < length self.old.row }
        requires first { 1 ≤ crossing }
        requires last { crossing ≤ CROSSINGS }
        ensures { self.new ≡ with_two self.old place crossing first second }
    {
        cross_two(&mut self.row, place, first, second);
        self.drawn[crossing as usize - 1] = true;
    }

    /// The ends of two lines are joined.
    fn tie(&mut self, first: End, second: End)
        ensures next { self.new ≡ tied self.old first second }
        ensures size { length self.new.row ≡ length self.old.row }
    {
        match first {
            End::OnLine(_) => rename(&mut self.row, first, second),
            End::AtDart(dart) => match second {
                End::OnLine(_) => rename(&mut self.row, second, first),
                End::AtDart(other) => pair_up(&mut self.others, dart, other),
            },
        }
    }
}

/// One end, where another has been renamed.
fn renamed(old: End, new: End, end: End) -> End
    ensures { result ≡ renamed old new end }
{
    if end.is_same(old) { new } else { end }
}

/// Renames an end in the row.
#[tactic(auto, using(crate::proofs::EndLemmas::place_renamed))]
fn rename(row: &mut [End], old: End, new: End)
    ensures { row.new ≡ map (renamed old new) row.old }
{
    for end in row.iter_mut() {
        *end = renamed(old, new, *end);
    }
}

/// Whether no strand is an end of a line.
fn is_free(row: &[End], line: u8) -> bool
    ensures { result ≡ is_free row.now line }
{
    !has_line(row, line)
}

/// Whether a strand is an end of a line.
fn has_line(row: &[End], line: u8) -> bool
    ensures { result ≡ has_line row.now line }
{
    row.iter().any(|end| is_end_of(*end, line))
}

/// Whether an end is one of a line.
fn is_end_of(end: End, line: u8) -> bool
    ensures { result ≡ is_end_of end line }
{
    End::OnLine(line).is_same(end)
}

/// The least line of which no strand is an end.
fn unused(row: &[End]) -> u8
    ensures { result ≡ unused row.now }
{
    (0..ROW_STRANDS as u8)
        .find(|line| is_free(row, *line))
        .unwrap_or(0)
}

/// Two strands begin.
fn open_two(row: &mut ArrayVec<End, ROW_STRANDS>, place: usize)
    requires within { place ≤ length row.old.items }
    requires room { length row.old.items ≤ CAP_STRANDS }
    ensures { row.new.items
        ≡ insert (insert row.old.items place (OnLine (unused row.old.items))) place
        (OnLine (unused row.old.items)) }
{
    let line = End::OnLine(unused(row));
    row.insert(place, line);
    row.insert(place, line);
}

/// Two strands end.
fn close_two(row: &mut ArrayVec<End, ROW_STRANDS>, place: usize) -> (End, End)
    requires within { place + 1 < length row.old.items }
    ensures row { row.new.items ≡ remove (remove row.old.items place) place }
    ensures first { result.0 ≡ end_at row.old.items place }
    ensures second { result.1 ≡ end_at row.old.items (place + 1) }
{
    let first = row.get(place).copied().unwrap_or(End::AtDart(0));
    let second = row.get(place + 1).copied().unwrap_or(End::AtDart(0));
    row.remove(place);
    row.remove(place);
    (first, second)
}

/// Two darts have found each other.
fn pair_up(others: &mut [Option<u8>], first: u8, second: u8)
    ensures { others.new ≡ set (set others.old first (Some second)) second (Some first) }
{
    find_other(others, first, second);
    find_other(others, second, first);
}

/// A dart has found another; what is no dart finds none.
fn find_other(others: &mut [Option<u8>], dart: u8, other: u8)
    ensures { others.new ≡ set others.old dart (Some other) }
{
    if (dart as usize) < others.len() {
        others[dart as usize] = Some(other);
    }
}

/// The pairs of darts that have found each other, by their first darts.
fn found_pairs(others: &[Option<u8>; DARTS]) -> ArrayVec<Pair, ARCS>
    requires { ArePaired CROSSINGS others.now }
    ensures { result.items ≡ pairs_before others.now (4 * CROSSINGS) }
{
    let mut pairs = ArrayVec::new();
    'darts: for dart in 0..DARTS as u8 {
        push_found(&mut pairs, others, dart);
    }
    pairs
}

/// Adds the pair of a dart and the other dart of its line, where that one is known and later.
fn push_found(pairs: &mut ArrayVec<Pair, ARCS>, others: &[Option<u8>; DARTS], dart: u8)
    requires dart { dart < DARTS }
    requires paired { ArePaired CROSSINGS others.now }
    requires before { pairs.old.items ≡ pairs_before others.now dart }
    ensures { pairs.new.items ≡ pairs_before others.now (dart + 1) }
{
    let other = others[dart as usize];
    if is_later(dart, other) {
        pairs.push(Pair([dart_at(dart), dart_at(other.unwrap_or(0))]));
    }
}

/// Whether another dart is known, and comes later.
fn is_later(dart: u8, other: Option<u8>) -> bool
    ensures { result ≡ is_later dart other }
{
    match other {
        Some(second) => dart < second,
        None => false,
    }
}

/// Two neighbours give way to two darts.
fn cross_two(row: &mut [End], place: usize, first: u8, second: u8)
    requires within { place + 1 < length row.old }
    ensures { row.new ≡ set (set row.old place (AtDart first)) (place + 1) (AtDart second) }
{
    row[place] = End::AtDart(first);
    row[place + 1] = End::AtDart(second);
}

/// The place of the dart some slots after one, at a crossing.
fn dart_after(crossing: u8, slot: u8, more: u8) -> u8
    requires first { 1 ≤ crossing }
    requires last { crossing ≤ CROSSINGS }
    requires slot { slot < 4 }
    requires more { more < 4 }
    ensures place { result ≡ dart_after crossing slot more }
    ensures below { result < DARTS }
{
    dart_place(Dart {
        crossing,
        slot: (slot + more) % 4,
    })
}
