//! The columns of a cube, one at a time: the edges out of a state serve for all its generators.

ghost use Rattle.std.specs.Prelude.{◌≡◌, ℕ, ℤ, List, ◌+◌, ◌^◌, ◌<◌, ◌≤◌, length, map, All, IfOk};
ghost use Rattle.std.specs.Prelude.{OnOk};
ghost use Rattle.kh_types.specs.Generators.{states};
ghost use Rattle.sparse_block.specs.declared.entry.TheConstants.{MOST_VALUES};
ghost use Rattle.cube_signs.specs.Columns.{AreFound, AreOuts, IsColumn, IsLastOf, IsTail};
ghost use Rattle.cube_signs.specs.OpeningBlocks.{IsAround};
ghost use Rattle.cube_signs.specs.Tables.{own_base};
ghost use Rattle.cube_signs.specs.declared.limits.TheConstants.{PLACES};

use crate::columns::{last_entry, put_entries};
use crate::cube::Cube;
use crate::outs::{Out, find_outs};
use kh_types::NoMemory;
use sparse_block::{Entry, Generator};
use std::alloc::Global;

/// A state, and the edges out of it that were found last.
#[derive(Drop)]
pub struct Around {
    pub(crate) state: u32,
    pub(crate) outs: Vec<Out>,
}

impl Around {
    /// No state has such a number.
    pub(crate) fn nowhere(alloc: Global) -> Around
        ensures state { result.state + 1 ≡ 2 ^ 32 }
    {
        Around {
            state: u32::MAX,
            outs: Vec::new(alloc),
        }
    }

    /// Whether edges were found. No clause rests on it.
    pub fn is_found(&self) -> bool {
        self.state != u32::MAX
    }
}

impl Cube {
    /// No edges out of any state.
    pub fn nowhere(&self, alloc: Global) -> Around
        ensures { (p : ℕ) (j : ℤ) → IsAround p self.now j result }
    {
        // (the number of crossings is small)
        let _ = self.crossing_count();
        Around::nowhere(alloc)
    }

    /// Puts the entries of the column of a generator in place of others.
    pub(crate) fn put_column(
        &self,
        column: &mut Vec<Entry>,
        p: u8,
        bases: &[u32],
        around: &mut Around,
        tail: Generator,
    ) -> Result<(), NoMemory>
        requires prime { 1 < p }
        requires values { p ≤ MOST_VALUES }
        requires bases { All (λ base. base < PLACES) bases.now }
        requires tail { (i : ℤ) × (j : ℤ) × IsTail self.now i j tail }
        requires found { AreFound p self.now bases.now around.old.state around.old.outs.items }
        ensures found { AreFound p self.now bases.now around.new.state around.new.outs.items }
        ensures column { OnOk result ((i j : ℤ) → bases.now ≡ map (own_base self.now j)
            (states self.now) → IsTail self.now i j tail → IsColumn p self.now i j tail
            column.new.items) }
    {
        self.go_to(p, bases, around, tail.state)?;
        self.put_column_of(column, around, tail)
    }

    /// The same, where these edges are those out of the generator's state.
    pub(crate) fn put_column_of(
        &self,
        column: &mut Vec<Entry>,
        around: &Around,
        tail: Generator,
    ) -> Result<(), NoMemory>
        requires tail { (i : ℤ) × (j : ℤ) × IsTail self.now i j tail }
        requires outs { (p : ℕ) × (bases : List ℕ)
            × AreOuts p self.now bases tail.state around.now.outs.items }
        ensures { OnOk result ((p : ℕ) (bases : List ℕ) (i j : ℤ) → 1 < p
            → AreOuts p self.now bases tail.state around.now.outs.items
            → bases ≡ map (own_base self.now j) (states self.now) → IsTail self.now i j tail
            → IsColumn p self.now i j tail column.new.items) }
    {
        put_entries(column, &around.outs, self.ranks(), tail.label)
    }

    /// The last entry of the column of a generator; none where it has no entry.
    pub(crate) fn last_entry(
        &self,
        p: u8,
        bases: &[u32],
        around: &mut Around,
        tail: Generator,
    ) -> Result<Option<Entry>, NoMemory>
        requires prime { 1 < p }
        requires values { p ≤ MOST_VALUES }
        requires bases { All (λ base. base < PLACES) bases.now }
        requires tail { (i : ℤ) × (j : ℤ) × IsTail self.now i j tail }
        requires found { AreFound p self.now bases.now around.old.state around.old.outs.items }
        ensures found { AreFound p self.now bases.now around.new.state around.new.outs.items }
        ensures last { IfOk result (λ last. (i j : ℤ) → bases.now ≡ map (own_base self.now j)
            (states self.now) → IsTail self.now i j tail → IsLastOf p self.now i j tail last) }
    {
        self.go_to(p, bases, around, tail.state)?;
        Ok(self.last_entry_of(around, tail))
    }

    /// The same, where these edges are those out of the generator's state.
    pub(crate) fn last_entry_of(&self, around: &Around, tail: Generator) -> Option<Entry>
        requires tail { (i : ℤ) × (j : ℤ) × IsTail self.now i j tail }
        requires outs { (p : ℕ) × (bases : List ℕ)
            × AreOuts p self.now bases tail.state around.now.outs.items }
        ensures { (p : ℕ) (bases : List ℕ) (i j : ℤ) → 1 < p
            → AreOuts p self.now bases tail.state around.now.outs.items
            → bases ≡ map (own_base self.now j) (states self.now) → IsTail self.now i j tail
            → IsLastOf p self.now i j tail result }
    {
        last_entry(&around.outs, self.ranks(), tail.label)
    }

    /// Puts the entries of the column of a generator in place of others; edges that were found
    /// before serve where they are those out of its state.
    pub(crate) fn put_column_near(
        &self,
        column: &mut Vec<Entry>,
        p: u8,
        bases: &[u32],
        near: &Around,
        around: &mut Around,
        tail: Generator,
    ) -> Result<(), NoMemory>
        requires prime { 1 < p }
        requires values { p ≤ MOST_VALUES }
        requires bases { All (λ base. base < PLACES) bases.now }
        requires tail { (i : ℤ) × (j : ℤ) × IsTail self.now i j tail }
        requires near { AreFound p self.now bases.now near.now.state near.now.outs.items }
        requires found { AreFound p self.now bases.now around.old.state around.old.outs.items }
        ensures found { AreFound p self.now bases.now around.new.state around.new.outs.items }
        ensures column { OnOk result ((i j : ℤ) → bases.now ≡ map (own_base self.now j)
            (states self.now) → IsTail self.now i j tail → IsColumn p self.now i j tail
            column.new.items) }
    {
        if tail.state == near.state {
            return self.put_column_of(column, near, tail);
        }
        self.put_column(column, p, bases, around, tail)
    }

    /// The last entry of the column of a generator, where other edges were found before; none where
    /// it has no entry.
    pub(crate) fn last_entry_near(
        &self,
        p: u8,
        bases: &[u32],
        near: &Around,
        around: &mut Around,
        tail: Generator,
    ) -> Result<Option<Entry>, NoMemory>
        requires prime { 1 < p }
        requires values { p ≤ MOST_VALUES }
        requires bases { All (λ base. base < PLACES) bases.now }
        requires tail { (i : ℤ) × (j : ℤ) × IsTail self.now i j tail }
        requires near { AreFound p self.now bases.now near.now.state near.now.outs.items }
        requires found { AreFound p self.now bases.now around.old.state around.old.outs.items }
        ensures found { AreFound p self.now bases.now around.new.state around.new.outs.items }
        ensures last { IfOk result (λ last. (i j : ℤ) → bases.now ≡ map (own_base self.now j)
            (states self.now) → IsTail self.now i j tail → IsLastOf p self.now i j tail last) }
    {
        if tail.state == near.state {
            return Ok(self.last_entry_of(near, tail));
        }
        self.last_entry(p, bases, around, tail)
    }

    /// Finds the edges out of a state, where they are not those that were found last.
    fn go_to(&self, p: u8, bases: &[u32], around: &mut Around, state: u32) -> Result<(), NoMemory>
        requires prime { 1 < p }
        requires values { p ≤ MOST_VALUES }
        requires state { state < 2 ^ length self.now.crossings }
        requires bases { All (λ base. base < PLACES) bases.now }
        requires found { AreFound p self.now bases.now around.old.state around.old.outs.items }
        ensures found { AreFound p self.now bases.now around.new.state around.new.outs.items }
        ensures outs { OnOk result
            (AreOuts p self.now bases.now state around.new.outs.items) }
    {
        if around.state == state {
            return Ok(());
        }
        // (no state has this number)
        around.state = u32::MAX;
        let steps = self.steps(state as usize);
        find_outs(&mut around.outs, p, steps, bases, state)?;
        around.state = state;
        Ok(())
    }
}
