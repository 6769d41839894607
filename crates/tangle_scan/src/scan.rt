//! A scan, whose type keeps what the theorem asks.

ghost use Rattle.std.specs.Prelude.{◌+◌, ◌<◌, length, ◌≡◌, IfOk, IsTrue};
ghost use Rattle.kh_types.specs.Acceptance.{accepted};
ghost use Rattle.scan_laws.specs.Adding.{IsAdding};
ghost use Rattle.scan_laws.specs.Scans.{IsScanOf};
ghost use Rattle.scan_laws.specs.Steps.{LeadsTo};
ghost use Rattle.tangle_scan.specs.Held.{HasNoPivot};
ghost use Rattle.tangle_scan.specs.Scanned.{IsBehind, IsFirstComplex, IsScanned, scan_of};

use crate::adding::add_crossing;
use crate::clearing::eliminate_all;
use crate::complex::{Column, Front, Object, TangleComplex};
use arrayvec::ArrayVec;
use kh_types::laws::diagrams::diagram_laws;
use kh_types::{Diagram, NoMemory};
use prime_field::PrimeField;
use prime_field::laws::element_laws;
use scan_laws::laws::reached_scans;
use std::alloc::Global;
use std::marker::{Model, PhantomData};
use tangle_maps::Pairing;

/// A scan of a diagram over a field: a front and the complex there, to which steps of the theorem
/// lead from before the first crossing. Contracts see both. Source: Bar-Natan 2007.
#[derive(Drop)]
pub struct Scan<F: PrimeField> {
    front: Front,
    complex: TangleComplex,
    field: PhantomData<F>,
}

impl<F: PrimeField> Model for Scan<F> {
    ghost use Rattle.tangle_scan.specs.Scanned.{IsScanned, Scanned, scanned};

    ghost Value = { Scanned };

    ghost view = { λ scan. scanned scan.front scan.complex };

    ghost invariant = { λ scan. IsScanned F.P (scanned scan.front scan.complex) };
}

impl<F: PrimeField> Scan<F> {
    /// The scan before the first crossing of a diagram: one object, which pairs no arcs.
    pub fn new(alloc: Global, diagram: &Diagram) -> Result<Scan<F>, NoMemory>
        ensures behind { IfOk result (IsBehind diagram.now 0) }
        ensures none { IfOk result (λ scan. HasNoPivot scan.complex) }
    {
        diagram_laws(diagram);
        let complex = first_complex(alloc)?;
        let front = Front {
            diagram: *diagram,
            done: 0,
            opened: ArrayVec::new(),
        };
        Ok(Scan {
            front,
            complex,
            field: PhantomData,
        })
    }

    /// The scan with one crossing more.
    pub fn with_crossing(self, alloc: Global) -> Result<Scan<F>, NoMemory>
        requires { self.front.done < length self.front.diagram.crossings }
        ensures adding { IfOk result (λ next.
            IsAdding F.P 0 0 self.front.diagram (scan_of self) (scan_of next)) }
        ensures behind { IfOk result (IsBehind self.front.diagram (self.front.done + 1)) }
    {
        self.laws();
        let front = self.front.next();
        let complex = add_crossing::<F>(alloc, &self.front, &front, &self.complex)?;
        Ok(Scan {
            front,
            complex,
            field: PhantomData,
        })
    }

    /// The scan after maps that are a number times the identity are cancelled, until none is left.
    pub fn eliminated(self, alloc: Global) -> Result<Scan<F>, NoMemory>
        ensures steps { IfOk result (λ next.
            LeadsTo F.P 0 0 self.front.diagram (scan_of self) (scan_of next)) }
        ensures none { IfOk result (λ next. HasNoPivot next.complex) }
        ensures behind { IfOk result (IsBehind self.front.diagram self.front.done) }
    {
        self.laws();
        let Scan {
            front,
            complex,
            field,
        } = self;
        let complex = eliminate_all::<F>(alloc, &front, complex)?;
        Ok(Scan {
            front,
            complex,
            field,
        })
    }

    /// What the type keeps. It does nothing: a function calls it, and its proof then has the facts.
    pub fn laws(&self)
        ensures kept { IsScanned F.P self.now }
        ensures accepted { IsTrue (accepted self.now.front.diagram) }
        ensures of { IsScanOf self.now.front.diagram (scan_of self.now) }
    {
        element_laws::<F>();
        reached_scans();
        diagram_laws(&self.front.diagram);
    }

    /// The diagram.
    pub fn diagram(&self) -> &Diagram
        ensures { result.now ≡ self.now.front.diagram }
    {
        &self.front.diagram
    }

    /// How many of its crossings are done.
    pub fn done(&self) -> u8
        ensures { result ≡ self.now.front.done }
    {
        self.front.done
    }

    /// The objects, with those that are cancelled.
    pub fn objects(&self) -> &[Object]
        ensures { result.now ≡ self.now.complex.objects.items }
    {
        &self.complex.objects
    }

    /// The maps out of each object.
    pub fn columns(&self) -> &[Column]
        ensures { result.now ≡ self.now.complex.columns.items }
    {
        &self.complex.columns
    }
}

/// The complex before the first crossing.
fn first_complex(alloc: Global) -> Result<TangleComplex, NoMemory>
    ensures { IfOk result IsFirstComplex }
{
    let mut objects = Vec::new(alloc);
    objects.push(Object {
        pairing: Pairing::none(),
        degree: 0,
        shift: 0,
        smoothing: 0,
        is_alive: true,
    })?;
    let mut columns: Vec<Column> = Vec::new(alloc);
    columns.push(Vec::new(alloc))?;
    Ok(TangleComplex { objects, columns })
}
