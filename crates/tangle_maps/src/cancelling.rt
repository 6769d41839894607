//! What cancelling a pivot, an entry that is a number times the identity, makes of other entries.

ghost use Rattle.std.specs.Prelude.{◌≡◌, ◌≢◌, OnOk};
ghost use Rattle.prime_field.specs.Residues.{inverse_mod, negative_mod};
ghost use Rattle.tangle_maps.specs.Sums.{AreReduced};
ghost use Rattle.tangle_maps.specs.Ways.{HasReducedMaps, IsCancelledAlong, IsMultiple, IsWay};

use crate::kept::Seams;
use crate::sum::{Terms, add_scaled};
use crate::way::Way;
use kh_types::NoMemory;
use prime_field::laws::element_laws;
use prime_field::{PrimeField, quotient};

/// Takes from an entry what leads through a pivot: the first map of the way, into the pivot's head,
/// the pivot's inverse, and the second map, out of its tail. Out of memory it may be half done.
pub fn cancel<F: PrimeField>(
    entry: &mut Terms,
    seams: &mut Seams,
    way: &Way<'_>,
    pivot: F,
) -> Result<(), NoMemory>
    requires entry { AreReduced F.P entry.old.items }
    requires way { IsWay way.now }
    requires maps { HasReducedMaps F.P way.now }
    requires pivot { F.value_of pivot ≢ 0 }
    ensures entry { OnOk result
        (IsCancelledAlong F.P (F.value_of pivot) way.now entry.old.items entry.new.items) }
    ensures reduced { AreReduced F.P entry.new.items }
{
    element_laws::<F>();
    seams.add_composition(entry, way, minus_inverse(pivot))
}

/// The same where the first map is a number times the identity: what is taken is the second map,
/// times a number.
pub fn cancel_multiple<F: PrimeField>(
    entry: &mut Terms,
    way: &Way<'_>,
    multiple: u8,
    pivot: F,
) -> Result<(), NoMemory>
    requires entry { AreReduced F.P entry.old.items }
    requires way { IsWay way.now }
    requires maps { HasReducedMaps F.P way.now }
    requires multiple { IsMultiple multiple way.now }
    requires pivot { F.value_of pivot ≢ 0 }
    ensures entry { OnOk result
        (IsCancelledAlong F.P (F.value_of pivot) way.now entry.old.items entry.new.items) }
    ensures reduced { AreReduced F.P entry.new.items }
{
    element_laws::<F>();
    let factor = minus_inverse(pivot).mul(F::of(multiple));
    add_scaled(entry, way.second, factor)
}

/// Minus the inverse of an element.
fn minus_inverse<F: PrimeField>(pivot: F) -> F
    requires { F.value_of pivot ≢ 0 }
    ensures { F.value_of result ≡ negative_mod F.P (inverse_mod F.P (F.value_of pivot)) }
{
    element_laws::<F>();
    quotient(F::of(1), pivot).neg()
}
