//! The blocks of a cube.

ghost use Rattle.std.specs.Prelude.{◌≡◌, ◌+◌, ◌-◌, ◌*◌, ◌^◌, ◌<◌, ◌≤◌, ◌++◌, [], length, map, not};
ghost use Rattle.std.specs.Prelude.{pos, neg_ℤ, ◌+ℤ◌, ◌-ℤ◌, ◌≤ℤ◌, All, IfOk, OnOk};
ghost use Rattle.std.specs.List.{Contains, position, position_or_len};
ghost use Rattle.kh_types.specs.Generators.{generators_at, states};
ghost use Rattle.kh_types.specs.History.{first_or_zero, homological_degrees, is_empty};
ghost use Rattle.kh_types.specs.Table.{from_minus};
ghost use Rattle.kh_types.specs.declared.limits.TheConstants.{CROSSINGS};
ghost use Rattle.circle_smoothing.specs.GeneratorCounts.{generator_count};
ghost use Rattle.circle_smoothing.specs.declared.limits.TheConstants.{GENERATORS};
ghost use Rattle.sparse_block.specs.declared.entry.TheConstants.{MOST_VALUES};
ghost use Rattle.sparse_block.specs.Inside.{entries_in, lines_in, lists_in};
ghost use Rattle.cube_signs.specs.Blocks.{block_degrees, named_block};
ghost use Rattle.cube_signs.specs.Columns.{flags_of, generators_from, AreAllColumns, AreColumns};
ghost use Rattle.cube_signs.specs.Columns.{AreFound, AreOuts, AreParts, IsTail};
ghost use Rattle.cube_signs.specs.Tables.{own_base, HaveSizes};
ghost use Rattle.cube_signs.specs.declared.limits.TheConstants.{DEGREES, PLACES};

use crate::around::Around;
use crate::columns::Column;
use crate::cube::Cube;
use crate::names::Degrees;
use kh_types::{Diagram, NoMemory};
use prime_field::PrimeField;
use prime_field::laws::element_laws;
use smallvec::SmallVec;
use sparse_block::{Complex, Generator, build};
use std::alloc::Global;

/// The degrees of a block: the least homological degree, and how many there are.
#[derive(Clone, Copy)]
pub(crate) struct Span {
    pub(crate) least: Degrees,
    pub(crate) count: usize,
}

/// The parts of a block: its least degree, and from there on the generators of each degree and
/// their columns.
#[derive(Drop)]
struct Parts {
    least: Degrees,
    names: Vec<Vec<Generator>>,
    columns: Vec<Vec<Column>>,
}

impl Cube {
    /// The block at a quantum degree.
    pub fn block<F: PrimeField>(&self, alloc: Global, j: i16) -> Result<Complex<F>, NoMemory>
        requires { Contains (block_degrees self.now) j }
        ensures { IfOk result (λ made. made ≡ named_block F.P self.now j) }
    {
        element_laws::<F>();
        let parts = self.parts(alloc, F::P, j)?;
        build(alloc, parts.least.i, parts.names, parts.columns)
    }

    /// The parts of the block at a quantum degree.
    fn parts(&self, alloc: Global, p: u8, j: i16) -> Result<Parts, NoMemory>
        requires prime { 1 < p }
        requires values { p ≤ MOST_VALUES }
        requires degree { Contains (block_degrees self.now) j }
        ensures { IfOk result (λ parts. AreParts p self.now j parts.least.i
            (lists_in parts.names.items) (lines_in parts.columns.items)) }
    {
        // (what a cube keeps)
        let _ = self.state_count();
        let places = self.places(alloc, j)?;
        let span = self.span(alloc, &places.sizes, self.lowest(j))?;
        let least = span.least;
        let names = self.all_names(alloc, &places.sizes, least, span.count)?;
        let columns = self.all_columns(alloc, p, least, &places.bases, &names)?;
        Ok(Parts {
            least,
            names,
            columns,
        })
    }

    /// The columns of some generators of two degrees.
    pub(crate) fn columns(
        &self,
        alloc: Global,
        p: u8,
        at: Degrees,
        bases: &[u32],
        names: &[Generator],
    ) -> Result<Vec<Column>, NoMemory>
        requires prime { 1 < p }
        requires values { p ≤ MOST_VALUES }
        requires bases { bases.now ≡ map (own_base self.now at.j) (states self.now) }
        requires small { All (λ base. base < PLACES) bases.now }
        requires names { All (IsTail self.now at.i at.j) names.now }
        ensures { IfOk result (λ columns. AreColumns p self.now at.i at.j names.now
            (length names.now) (entries_in columns.items)) }
    {
        // (the number of crossings is small)
        let _ = self.crossing_count();
        let mut around = Around::nowhere(alloc);
        let mut column = Vec::new(alloc);
        let mut columns = Vec::with_capacity(alloc, names.len())?;
        'names: for k in 0..names.len() {
            self.put_column(&mut column, p, bases, &mut around, names[k])?;
            columns.push(SmallVec::from_slice(alloc, &column)?)?;
        }
        Ok(columns)
    }

    /// The columns of the generators of each degree from a least one on, which are given.
    fn all_columns(
        &self,
        alloc: Global,
        p: u8,
        least: Degrees,
        bases: &[u32],
        names: &[Vec<Generator>],
    ) -> Result<Vec<Vec<Column>>, NoMemory>
        requires prime { 1 < p }
        requires values { p ≤ MOST_VALUES }
        requires bases { bases.now ≡ map (own_base self.now least.j) (states self.now) }
        requires small { All (λ base. base < PLACES) bases.now }
        requires low { neg_ℤ (pos DEGREES) ≤ℤ least.i }
        requires high { (least.i +ℤ pos (length names.now)) ≤ℤ pos DEGREES }
        requires names { lists_in names.now
            ≡ generators_from self.now least.i least.j (length names.now) }
        ensures { IfOk result (λ columns.
            AreAllColumns p self.now least.i least.j (length names.now) (lines_in columns.items)) }
    {
        let mut columns = Vec::with_capacity(alloc, names.len())?;
        'degrees: for k in 0..names.len() {
            let degree = self.columns(alloc, p, least.above(k), bases, &names[k])?;
            columns.push(degree)?;
        }
        Ok(columns)
    }

    /// The generators of each degree from a least one on, given how many each degree has.
    pub(crate) fn all_names(
        &self,
        alloc: Global,
        sizes: &[usize],
        least: Degrees,
        count: usize,
    ) -> Result<Vec<Vec<Generator>>, NoMemory>
        requires sizes { HaveSizes self.now least.j (2 ^ length self.now.crossings) sizes.now }
        requires low { neg_ℤ (pos DEGREES) ≤ℤ least.i }
        requires high { (least.i +ℤ pos count) ≤ℤ pos DEGREES }
        ensures { IfOk result (λ names.
            lists_in names.items ≡ generators_from self.now least.i least.j count) }
    {
        let mut names = Vec::with_capacity(alloc, count)?;
        'degrees: for k in 0..count {
            let at = least.above(k);
            let degree = self.names(alloc, at, self.size(sizes, at))?;
            names.push(degree)?;
        }
        Ok(names)
    }

    /// The degrees of the block at a quantum degree, which is given with the lowest homological
    /// degree that there can be.
    pub(crate) fn span(
        &self,
        alloc: Global,
        sizes: &[usize],
        lowest: Degrees,
    ) -> Result<Span, NoMemory>
        requires sizes { HaveSizes self.now lowest.j (2 ^ length self.now.crossings) sizes.now }
        requires lowest { lowest.i ≡ neg_ℤ (pos (length self.now.crossings)) }
        requires some { 0 < length (homological_degrees self.now lowest.j) }
        ensures low { IfOk result (λ span.
            span.least.i ≡ first_or_zero (homological_degrees self.now lowest.j)) }
        ensures quantum { IfOk result (λ span. span.least.j ≡ lowest.j) }
        ensures count { IfOk result (λ span.
            span.count ≡ length (homological_degrees self.now lowest.j)) }
        ensures above { IfOk result (λ span. neg_ℤ (pos DEGREES) ≤ℤ span.least.i) }
        ensures below { IfOk result (λ span. (span.least.i +ℤ pos span.count) ≤ℤ pos DEGREES) }
    {
        // (the number of crossings is small)
        let _ = self.crossing_count();
        let mut flags = self.flags(alloc, sizes, lowest)?;
        let first = leading(&flags);
        flags.reverse();
        let behind = leading(&flags);
        Ok(Span {
            least: lowest.above(first),
            count: degree_count(&flags, first, behind),
        })
    }

    /// Whether each homological degree has a generator of a quantum degree, from the number of
    /// crossings below 0 to that above 0.
    fn flags(&self, alloc: Global, sizes: &[usize], lowest: Degrees) -> Result<Vec<bool>, NoMemory>
        requires sizes { HaveSizes self.now lowest.j (2 ^ length self.now.crossings) sizes.now }
        requires lowest { lowest.i ≡ neg_ℤ (pos (length self.now.crossings)) }
        ensures { IfOk result (λ flags. flags.items ≡ flags_of self.now lowest.j) }
    {
        let count = 2 * self.crossing_count() + 1;
        let mut flags = Vec::new(alloc);
        'degrees: for k in 0..count {
            flags.push(self.size(sizes, lowest.above(k)) != 0)?;
        }
        Ok(flags)
    }

    /// A quantum degree with the lowest homological degree that there can be.
    pub(crate) fn lowest(&self, j: i16) -> Degrees
        ensures i { result.i ≡ neg_ℤ (pos (length self.now.crossings)) }
        ensures j { result.j ≡ j }
    {
        Degrees {
            i: -(self.crossing_count() as i16),
            j,
        }
    }

    /// The number of crossings.
    pub(crate) fn crossing_count(&self) -> usize
        ensures count { result ≡ length self.now.crossings }
        ensures few { result ≤ CROSSINGS }
    {
        usize::from(self.diagram.count())
    }
}

/// The block at a quantum degree.
pub fn block_columns<F: PrimeField>(
    alloc: Global,
    diagram: &Diagram,
    j: i16,
) -> Result<Complex<F>, NoMemory>
    requires size { generator_count diagram.now ≤ GENERATORS }
    requires degree { Contains (block_degrees diagram.now) j }
    ensures { IfOk result (λ made. made ≡ named_block F.P diagram.now j) }
{
    let cube = Cube::new(alloc, diagram)?;
    cube.block(alloc, j)
}

/// How many degrees there are from the first to the last, by how many there are before and behind.
fn degree_count(flags: &[bool], first: usize, behind: usize) -> usize
    ensures { result ≡ length flags.now - first - behind }
{
    flags.len().saturating_sub(first).saturating_sub(behind)
}

/// The place of the first true value, and the number of values where there is none.
#[tactic(auto, using(kh_types::proofs::Lists::places))]
fn leading(flags: &[bool]) -> usize
    ensures leading { result ≡ position_or_len (λ flag. flag) flags.now }
    ensures within { result ≤ length flags.now }
{
    first_true(flags).unwrap_or(flags.len())
}

fn first_true(flags: &[bool]) -> Option<usize>
    ensures { result ≡ position (λ flag. flag) flags.now }
{
    flags.iter().position(|flag| *flag)
}
