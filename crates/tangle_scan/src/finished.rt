//! A diagram scanned to its end, and the table that the finished scan counts.

ghost use Rattle.std.specs.Prelude.{◌≡◌, ◌+◌, ◌<◌, ◌^◌, All, length, IfOk};
ghost use Rattle.kh_types.specs.Directions.{minus_count, plus_count};
ghost use Rattle.kh_types.specs.Table.{table};
ghost use Rattle.order_laws.specs.Orders.{IsReordered};
ghost use Rattle.scan_laws.specs.Counts.{counted_table};
ghost use Rattle.scan_laws.specs.Steps.{IsLast};
ghost use Rattle.tangle_maps.specs.declared.pairing.TheConstants.{POINTS};
ghost use Rattle.tangle_scan.specs.CountedRows.{AreCountedRows};
ghost use Rattle.tangle_scan.specs.Held.{HasNoPivot};
ghost use Rattle.tangle_scan.specs.Scanned.{IsBehind, IsFinished, scan_of};
ghost use Rattle.tangle_scan.specs.Tallies.{once, tallied};

pub mod counting;
pub mod table;

use crate::complex::Object;
use crate::finished::counting::{Counted, Tally, tallies_of};
use crate::finished::table::{ScanRow, ScanTable, all_rows};
use crate::scan::Scan;
use circle_smoothing::Triangle;
use kh_types::laws::diagrams::diagram_laws;
use kh_types::{Diagram, NoMemory};
use prime_field::PrimeField;
use prime_field::laws::element_laws;
use scan_laws::laws::{reached_scans, scans_count_dimensions};
use std::alloc::Global;
use tangle_maps::Pairing;

/// The scan of a diagram after all its crossings, which takes them in their order. What can be
/// cancelled is cancelled after each.
pub fn finished_scan<F: PrimeField>(alloc: Global, diagram: &Diagram) -> Result<Scan<F>, NoMemory>
    ensures behind { IfOk result (IsBehind diagram.now (length diagram.now.crossings)) }
    ensures finished { IfOk result IsFinished }
{
    let mut scan = Scan::new(alloc, diagram)?;
    'crossings: for _ in 0..diagram.count() {
        scan = with_next(alloc, scan)?;
    }
    Ok(scan)
}

/// The scan after one crossing more, with what can be cancelled there cancelled.
fn with_next<F: PrimeField>(alloc: Global, scan: Scan<F>) -> Result<Scan<F>, NoMemory>
    requires { scan.front.done < length scan.front.diagram.crossings }
    ensures behind { IfOk result (IsBehind scan.front.diagram (scan.front.done + 1)) }
    ensures none { IfOk result (λ next. HasNoPivot next.complex) }
{
    let added = scan.with_crossing(alloc)?;
    added.eliminated(alloc)
}

/// The table of a diagram, from a scan of its crossings in some order, once it is finished.
pub fn table_of_finished<F: PrimeField>(
    alloc: Global,
    diagram: &Diagram,
    scan: &Scan<F>,
) -> Result<ScanTable, NoMemory>
    requires order { IsReordered diagram.now.crossings scan.now.front.diagram.crossings }
    requires loops { scan.now.front.diagram.loops ≡ diagram.now.loops }
    requires finished { IsFinished scan.now }
    ensures { IfOk result (λ made. made ≡ table F.P diagram.now) }
{
    element_laws::<F>();
    diagram_laws(diagram);
    scans_count_dimensions();
    scan.laws();
    finished_scans_are_last(scan);
    counted_table(alloc, diagram, scan)
}

/// A finished scan is a last one of the theorem: no map is left. It does nothing but look at each
/// object, so that its proof knows how many partners it keeps.
pub fn finished_scans_are_last<F: PrimeField>(scan: &Scan<F>)
    requires { IsFinished scan.now }
    ensures { IsLast F.P 0 0 scan.now.front.diagram (scan_of scan.now) }
{
    element_laws::<F>();
    reached_scans();
    scan.laws();
    look_at_partners(scan.objects());
}

/// Each object keeps a partner for each number of an arc.
fn look_at_partners(objects: &[Object])
    ensures { All (λ object. length object.pairing.partners ≡ POINTS) objects.now }
{
    'objects: for object in objects {
        look_at_pairing(&object.pairing);
    }
}

/// A pairing keeps a partner for each number of an arc.
fn look_at_pairing(pairing: &Pairing)
    ensures { length pairing.now.partners ≡ POINTS }
{
    let _ = pairing.partners[0];
}

/// The table that the objects of a scan count, with the loops and the signs of a diagram.
pub(crate) fn counted_table<F: PrimeField>(
    alloc: Global,
    diagram: &Diagram,
    scan: &Scan<F>,
) -> Result<ScanTable, NoMemory>
    ensures { IfOk result (λ made. made ≡ counted_table F.P diagram.now (scan_of scan.now)) }
{
    element_laws::<F>();
    let rows = counted_rows(alloc, diagram, scan.objects())?;
    Ok(ScanTable::of_rows(F::P, rows))
}

/// The rows that objects count, for the table of a diagram.
fn counted_rows(
    alloc: Global,
    diagram: &Diagram,
    objects: &[Object],
) -> Result<Vec<ScanRow>, NoMemory>
    ensures { IfOk result (λ rows. AreCountedRows diagram.now objects.now rows.items) }
{
    let tallies = tallies_of(alloc, objects)?;
    let counted = counted_with(diagram, tallies);
    all_rows(alloc, &counted, &Triangle::new(), counted.crossings)
}

/// What is counted, with what a table reads of a diagram.
fn counted_with(diagram: &Diagram, tallies: Vec<Tally>) -> Counted
    requires { tallied once tallies.items < 2 ^ 64 }
    ensures tallies { result.tallies.items ≡ tallies.items }
    ensures loops { result.loops ≡ diagram.now.loops }
    ensures crossings { result.crossings ≡ length diagram.now.crossings }
    ensures plus { result.plus ≡ plus_count diagram.now.crossings }
    ensures minus { result.minus ≡ minus_count diagram.now.crossings }
{
    Counted {
        tallies,
        loops: diagram.loops(),
        crossings: diagram.count(),
        plus: diagram.plus(),
        minus: diagram.minus(),
    }
}
