//! What slices join, read with a row of open ends.

ghost use Rattle.std.specs.Prelude.{◌≡◌, ◌<◌, ◌||◌, length, nat_lt, OnOk};
ghost use Rattle.std.specs.Result.{result_err};
ghost use Rattle.kh_types.specs.declared.limits.TheConstants.{CROSSINGS};
ghost use Rattle.morse_drawing.specs.Joins.{is_outside, joined_by};
ghost use Rattle.morse_drawing.specs.OpenEnds.{
  ArePaired,
  after_slice,
  is_drawn,
  strands_ends,
  strands_fault,
};
ghost use Rattle.morse_drawing.specs.declared.slice.Slice.TheVariants.{Cap, Cross, Cup};

use crate::fault::SliceFault;
use crate::joins::Joins;
use crate::limits::CAP_STRANDS;
use crate::open_ends::OpenEnds;
use crate::slice::Slice;
use kh_types::CROSSINGS;

/// What a list of slices joins, or its first fault.
pub fn joins_of(slices: &[Slice]) -> Result<Joins, SliceFault>
    requires { length slices.now < 4294967296 }
    ensures { result ≡ joined_by slices.now }
{
    let mut ends = OpenEnds::new();
    'slices: for place in 0..slices.len() {
        read(&mut ends, slices[place], place as u32 + 1)?;
    }
    joins_at_end(&ends)
}

/// What is joined where no slice is left; no strand may be left then.
fn joins_at_end(ends: &OpenEnds) -> Result<Joins, SliceFault>
    requires { ArePaired CROSSINGS ends.now.others }
    ensures { result ≡ strands_ends CROSSINGS ends.now }
{
    let strands = ends.strands();
    if strands > 0 {
        return Err(SliceFault::Ends {
            strands: strands as u8,
        });
    }
    Ok(Joins {
        pairs: ends.pairs(),
        loops: ends.loops,
    })
}

/// Reads the slice with a number.
fn read(ends: &mut OpenEnds, slice: Slice, number: u32) -> Result<(), SliceFault>
    ensures fault { result_err result ≡ strands_fault CROSSINGS ends.old number slice }
    ensures next { OnOk result (ends.new ≡ after_slice ends.old slice) }
{
    match slice {
        Slice::Cap { at } => read_cap(ends, at, number),
        Slice::Cup { at } => read_cup(ends, at, number),
        Slice::Cross { at, crossing, slot } => read_cross(ends, at, crossing, slot, number),
    }
}

/// Reads a cap.
fn read_cap(ends: &mut OpenEnds, at: u8, number: u32) -> Result<(), SliceFault>
    ensures fault { result_err result ≡ strands_fault CROSSINGS ends.old number (Cap at) }
    ensures next { OnOk result (ends.new ≡ after_slice ends.old (Cap at)) }
{
    let strands = ends.strands();
    if is_outside(strands + 1, at) || CAP_STRANDS < strands {
        return Err(SliceFault::Place { slice: number });
    }
    ends.cap(at as usize - 1);
    Ok(())
}

/// Reads a cup.
fn read_cup(ends: &mut OpenEnds, at: u8, number: u32) -> Result<(), SliceFault>
    ensures fault { result_err result ≡ strands_fault CROSSINGS ends.old number (Cup at) }
    ensures next { OnOk result (ends.new ≡ after_slice ends.old (Cup at)) }
{
    if is_outside(ends.strands().saturating_sub(1), at) {
        return Err(SliceFault::Place { slice: number });
    }
    if !ends.cup(at as usize - 1) {
        return Err(SliceFault::Loops { slice: number });
    }
    Ok(())
}

/// Reads a crossing.
fn read_cross(
    ends: &mut OpenEnds,
    at: u8,
    crossing: u8,
    slot: u8,
    number: u32,
) -> Result<(), SliceFault>
    ensures fault { result_err result
        ≡ strands_fault CROSSINGS ends.old number (Cross at crossing slot) }
    ensures next { OnOk result (ends.new
        ≡ after_slice ends.old (Cross at crossing slot)) }
{
    let last = ends.strands().saturating_sub(1);
    if is_outside(last, at) {
        return Err(SliceFault::Place { slice: number });
    }
    if is_mislabelled(ends, crossing, slot) {
        return Err(SliceFault::Label { slice: number });
    }
    ends.cross(at as usize - 1, crossing, slot);
    Ok(())
}

/// Whether a crossing has a number that is none, was drawn before, or has a slot above 3.
fn is_mislabelled(ends: &OpenEnds, crossing: u8, slot: u8) -> bool
    ensures { result ≡ (is_outside CROSSINGS crossing
        || (is_drawn ends.now crossing || nat_lt 3 slot)) }
{
    if is_outside(CROSSINGS, crossing) {
        return true;
    }
    ends.has_drawn(crossing) || 3 < slot
}

/// Whether a number is outside 1 to a last.
fn is_outside(last: usize, number: u8) -> bool
    ensures { result ≡ is_outside last number }
{
    number < 1 || last < number as usize
}
