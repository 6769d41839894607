//! The homology table of a diagram, crossing by crossing.

ghost use Rattle.std.specs.Prelude.{◌≡◌, IfOk};
ghost use Rattle.kh_types.specs.Table.{table};
ghost use Rattle.order_laws.specs.Orders.{IsReordered};
ghost use Rattle.union_laws.specs.Pieces.{first_piece, other_pieces};

pub mod apart;
pub mod order;
pub mod products;

use crate::finished::table::ScanTable;
use crate::finished::{finished_scan, table_of_finished};
use crate::scanning::apart::pieces_apart;
use crate::scanning::order::{ordered, reordered};
use crate::scanning::products::product_rows;
use face_walk::pieces;
use kh_types::laws::diagrams::diagram_laws;
use kh_types::{Crossing, Diagram, NoMemory};
use prime_field::PrimeField;
use prime_field::laws::element_laws;
use std::alloc::Global;
use union_laws::laws::pieces::pieces_multiply_tables;

/// The homology table of a diagram over a field: its connected pieces are scanned apart, each
/// crossing by crossing, and their tables multiplied. Source: Bar-Natan 2007; the table is
/// Bar-Natan 2002, section 3; that tables multiply is Khovanov 2000.
pub fn scan_table<F: PrimeField>(alloc: Global, diagram: &Diagram) -> Result<ScanTable, NoMemory>
    ensures { IfOk result (λ made. made ≡ table F.P diagram.now) }
{
    if pieces(diagram) < 2 {
        scan_whole::<F>(alloc, diagram)
    } else {
        let (first, others) = pieces_apart(diagram);
        let table = scan_whole::<F>(alloc, &first)?;
        let others = scan_table::<F>(alloc, &others)?;
        multiplied::<F>(alloc, diagram, &table, &others)
    }
}

/// The same, of all pieces together, in an order of the crossings that is mostly fast.
fn scan_whole<F: PrimeField>(alloc: Global, diagram: &Diagram) -> Result<ScanTable, NoMemory>
    ensures { IfOk result (λ made. made ≡ table F.P diagram.now) }
{
    let crossings = ordered(diagram);
    scan_table_by::<F>(alloc, diagram, &crossings)
}

/// The same, taking the crossings in an order that the caller gives: any is right, and not each is
/// fast.
pub fn scan_table_by<F: PrimeField>(
    alloc: Global,
    diagram: &Diagram,
    crossings: &[Crossing],
) -> Result<ScanTable, NoMemory>
    requires { IsReordered diagram.now.crossings crossings.now }
    ensures { IfOk result (λ made. made ≡ table F.P diagram.now) }
{
    let listed = reordered(diagram, crossings);
    let scan = finished_scan::<F>(alloc, &listed)?;
    table_of_finished(alloc, diagram, &scan)
}

/// The table of a diagram, by that of its first piece and that of the others. (Diagrams of one
/// piece are not to have its stack.)
#[inline(never)]
fn multiplied<F: PrimeField>(
    alloc: Global,
    diagram: &Diagram,
    first: &ScanTable,
    others: &ScanTable,
) -> Result<ScanTable, NoMemory>
    requires first { first.now ≡ table F.P (first_piece diagram.now) }
    requires others { others.now ≡ table F.P (other_pieces diagram.now) }
    ensures { IfOk result (λ made. made ≡ table F.P diagram.now) }
{
    element_laws::<F>();
    diagram_laws(diagram);
    pieces_multiply_tables();
    let rows = product_rows(alloc, diagram.count(), first.rows(), others.rows())?;
    Ok(ScanTable::of_rows(F::P, rows))
}
