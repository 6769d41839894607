//! The components of the surface that a crossing adds.

ghost use Rattle.std.specs.Prelude.{◌≡◌, ◌++◌};
ghost use Rattle.kh_types.specs.Circles.{smoothing_of};
ghost use Rattle.kh_types.specs.Classes.{classes_of};
ghost use Rattle.tangle_maps.specs.declared.pairing.TheConstants.{POINTS};
ghost use Rattle.tangle_maps.specs.Pairings.{IsOpened, joins_of};
ghost use Rattle.crossing_maps.specs.Partners.{HasArcsBelow};

use crate::names::smooth;
use crate::splitting::Site;
use tangle_maps::names::Names;
use tangle_maps::{ALONE, POINTS, Pairing, join_pairs};

/// The classes of arcs on the surface that a crossing adds between two pairings, where it has a
/// smoothing on either side: one smoothing twice, or both for a saddle.
pub fn added_classes(site: &Site<'_>, from: &Pairing, first: u8, to: &Pairing, second: u8) -> Names
    requires opened { IsOpened site.now.opened.now }
    requires arcs { HasArcsBelow POINTS site.now.crossing.now }
    ensures { result ≡ classes_of POINTS
        ((joins_of from.now.partners site.now.opened.now ++ smoothing_of first site.now.crossing.now)
        ++ (joins_of to.now.partners site.now.opened.now ++ smoothing_of second site.now.crossing.now)) }
{
    let mut classes = ALONE;
    join_pairs(&mut classes, from, site.opened);
    smooth(&mut classes, site.crossing, first);
    join_pairs(&mut classes, to, site.opened);
    smooth(&mut classes, site.crossing, second);
    classes
}
