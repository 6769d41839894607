//! The blocks over chosen generators: those with v- on the circle that is given for each state.
//! Their columns are those of the cube, with the rows numbered anew.

ghost use Rattle.std.specs.Prelude.{◌≡◌, ◌+◌, ◌*◌, ◌<◌, ◌≤◌, ◌++◌, ◌∷◌, [], length, map, All};
ghost use Rattle.std.specs.Prelude.{pos, neg_ℤ, ◌+ℤ◌, ◌≤ℤ◌, slice_index, slice_index_or};
ghost use Rattle.std.specs.Prelude.{if◌then◌else◌, IfOk, OnOk};
ghost use Rattle.std.specs.List.{filter};
ghost use Rattle.kh_types.specs.Generators.{states};
ghost use Rattle.sparse_block.specs.declared.entry.TheConstants.{MOST_VALUES};
ghost use Rattle.sparse_block.specs.Inside.{entries_in, lines_in, lists_in};
ghost use Rattle.cube_signs.specs.Chosen.{chosen_at, chosen_block, has_minus, IsClosed};
ghost use Rattle.cube_signs.specs.ChosenParts.{all_places, all_places_to, chosen_to};
ghost use Rattle.cube_signs.specs.ChosenParts.{moved_entry, AreChosenParts, AreMovedColumns};
ghost use Rattle.cube_signs.specs.Columns.{IsTail};
ghost use Rattle.cube_signs.specs.Tables.{own_base};
ghost use Rattle.cube_signs.specs.declared.limits.TheConstants.{DEGREES, PLACES};

use crate::columns::Column;
use crate::cube::Cube;
use crate::names::Degrees;
use crate::outs::number_at;
use kh_types::{NoMemory, bit};
use prime_field::PrimeField;
use prime_field::laws::element_laws;
use sparse_block::{Complex, Entry, Generator, build};
use std::alloc::Global;

/// The chosen generators of two degrees, and for each generator of these degrees how many before it
/// are chosen.
#[derive(Drop)]
struct Chosen {
    names: Vec<Generator>,
    before: Vec<u32>,
}

/// The same of each degree.
#[derive(Drop)]
pub(crate) struct AllChosen {
    pub(crate) names: Vec<Vec<Generator>>,
    pub(crate) before: Vec<Vec<u32>>,
}

/// The parts of a block over chosen generators.
#[derive(Drop)]
struct ChosenParts {
    names: Vec<Vec<Generator>>,
    columns: Vec<Vec<Column>>,
}

impl Cube {
    /// The block at a quantum degree over the generators with v- on a circle, whose number is given
    /// for each state. The differential leads from these to such alone.
    pub fn chosen_block<F: PrimeField>(
        &self,
        alloc: Global,
        circles: &[u8],
        j: i16,
    ) -> Result<Complex<F>, NoMemory>
        requires { IsClosed (has_minus circles.now) F.P self.now }
        ensures { IfOk result (λ made.
            made ≡ chosen_block (has_minus circles.now) F.P self.now j) }
    {
        element_laws::<F>();
        // (the number of crossings is small)
        let _ = self.crossing_count();
        let parts = self.chosen_parts(alloc, F::P, circles, j)?;
        build(alloc, self.lowest(j).i, parts.names, parts.columns)
    }

    /// The parts of this block.
    fn chosen_parts(
        &self,
        alloc: Global,
        p: u8,
        circles: &[u8],
        j: i16,
    ) -> Result<ChosenParts, NoMemory>
        requires prime { 1 < p }
        requires values { p ≤ MOST_VALUES }
        requires closed { IsClosed (has_minus circles.now) p self.now }
        ensures { IfOk result (λ parts. AreChosenParts (has_minus circles.now) p self.now j
            (lists_in parts.names.items) (lines_in parts.columns.items)) }
    {
        // (what a cube keeps)
        let _ = self.state_count();
        let places = self.places(alloc, j)?;
        let lowest = self.lowest(j);
        let count = 2 * self.crossing_count() + 1;
        let chosen = self.all_chosen(alloc, circles, lowest, count)?;
        let mut columns = Vec::with_capacity(alloc, count)?;
        'degrees: for k in 0..count {
            let heads = list_at(&chosen.before, k + 1);
            let degree = self.chosen_columns(
                alloc,
                p,
                lowest.above(k),
                &places.bases,
                &chosen.names[k],
                heads,
            )?;
            columns.push(degree)?;
        }
        Ok(ChosenParts {
            names: chosen.names,
            columns,
        })
    }

    /// The columns of some generators of two degrees, where each row has the number that is given.
    fn chosen_columns(
        &self,
        alloc: Global,
        p: u8,
        at: Degrees,
        bases: &[u32],
        names: &[Generator],
        heads: &[u32],
    ) -> Result<Vec<Column>, NoMemory>
        requires prime { 1 < p }
        requires values { p ≤ MOST_VALUES }
        requires bases { bases.now ≡ map (own_base self.now at.j) (states self.now) }
        requires small { All (λ base. base < PLACES) bases.now }
        requires names { All (IsTail self.now at.i at.j) names.now }
        requires heads { All (λ head. head < PLACES) heads.now }
        ensures { IfOk result (λ columns. AreMovedColumns p self.now at.i at.j names.now heads.now
            (entries_in columns.items)) }
    {
        let mut columns = self.columns(alloc, p, at, bases, names)?;
        renumber_all(&mut columns, heads);
        Ok(columns)
    }

    /// The chosen generators of the degrees from the lowest on.
    pub(crate) fn all_chosen(
        &self,
        alloc: Global,
        circles: &[u8],
        lowest: Degrees,
        count: usize,
    ) -> Result<AllChosen, NoMemory>
        requires lowest { lowest.i ≡ neg_ℤ (pos (length self.now.crossings)) }
        requires count { count ≤ 2 * length self.now.crossings + 1 }
        ensures names { IfOk result (λ chosen. lists_in chosen.names.items
            ≡ chosen_to (has_minus circles.now) self.now lowest.j count) }
        ensures places { IfOk result (λ chosen. lists_in chosen.before.items
            ≡ all_places_to (has_minus circles.now) self.now lowest.j count) }
    {
        // (the number of crossings is small, and so is that of generators)
        let _ = (self.crossing_count(), self.state_count());
        let mut names = Vec::with_capacity(alloc, count)?;
        let mut before = Vec::with_capacity(alloc, count)?;
        'degrees: for k in 0..count {
            let all = self.names(alloc, lowest.above(k), 0)?;
            names.push(chosen_of(alloc, &all, circles)?)?;
            before.push(places_before(alloc, &all, circles)?)?;
        }
        Ok(AllChosen { names, before })
    }
}

/// The chosen among some generators, in the same order.
fn chosen_of(alloc: Global, names: &[Generator], circles: &[u8]) -> Result<Vec<Generator>, NoMemory>
    ensures { IfOk result (λ chosen. chosen.items ≡ filter (has_minus circles.now) names.now) }
{
    let mut chosen = Vec::new(alloc);
    'names: for k in 0..names.len() {
        push_chosen(&mut chosen, names[k], has_minus(circles, names[k]))?;
    }
    Ok(chosen)
}

/// Adds a generator, where it is chosen.
fn push_chosen(
    chosen: &mut Vec<Generator>,
    name: Generator,
    is_chosen: bool,
) -> Result<(), NoMemory>
    ensures { OnOk result (chosen.new.items
        ≡ chosen.old.items ++ (if is_chosen then name ∷ [] else [])) }
{
    if is_chosen {
        chosen.push(name)?;
    }
    Ok(())
}

/// For each of some generators, how many before it are chosen.
fn places_before(alloc: Global, names: &[Generator], circles: &[u8]) -> Result<Vec<u32>, NoMemory>
    requires { length names.now < PLACES }
    ensures { IfOk result (λ places. places.items ≡ all_places (has_minus circles.now) names.now) }
{
    let mut before = Vec::with_capacity(alloc, names.len())?;
    let mut count = 0;
    'names: for k in 0..names.len() {
        before.push(count)?;
        count = next_count(count, has_minus(circles, names[k]));
    }
    Ok(before)
}

/// A count, after one more that is chosen or not.
fn next_count(count: u32, is_chosen: bool) -> u32
    requires { count < PLACES }
    ensures { result ≡ count + (if is_chosen then 1 else 0) }
{
    if is_chosen { count + 1 } else { count }
}

/// Whether a generator has v- on the circle that is given for its state.
fn has_minus(circles: &[u8], name: Generator) -> bool
    ensures { result ≡ has_minus circles.now name }
{
    bit(name.label, circle_at(circles, name.state as usize)) == 1
}

/// The circle that is given for a state.
fn circle_at(circles: &[u8], state: usize) -> usize
    ensures { result ≡ slice_index circles.now state }
{
    usize::from(circles.get(state).copied().unwrap_or(0))
}

/// Numbers the rows of columns anew.
fn renumber_all(columns: &mut [Column], heads: &[u32])
    requires { All (λ head. head < PLACES) heads.now }
    ensures { entries_in columns.new ≡ map (map (moved_entry heads.now)) (entries_in columns.old) }
{
    'columns: for column in columns.iter_mut() {
        renumber(column, heads);
    }
}

/// Numbers the rows of a column anew, where it is given how many rows are kept before each.
pub(crate) fn renumber(column: &mut [Entry], heads: &[u32])
    requires { All (λ head. head < PLACES) heads.now }
    ensures { column.new ≡ map (moved_entry heads.now) column.old }
{
    'entries: for entry in column.iter_mut() {
        *entry = moved(*entry, heads);
    }
}

/// An entry at its new row.
pub(crate) fn moved(entry: Entry, heads: &[u32]) -> Entry
    requires { All (λ head. head < PLACES) heads.now }
    ensures { result ≡ moved_entry heads.now entry }
{
    Entry::new(number_at(heads, entry.place() as usize), entry.value())
}

/// The list at a place, and an empty one past the end.
pub(crate) fn list_at(lists: &[Vec<u32>], place: usize) -> &[u32]
    ensures { result.now ≡ slice_index_or (lists_in lists.now) place [] }
{
    match lists.get(place) {
        Some(list) => list,
        None => &[],
    }
}
