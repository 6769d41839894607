//! Classes of arcs, named by their least arcs, that a pairing and a smoothing make.

ghost use Rattle.std.specs.Prelude.{◌≡◌, ◌++◌};
ghost use Rattle.std.specs.List.{fold};
ghost use Rattle.kh_types.specs.Circles.{smoothing_of};
ghost use Rattle.kh_types.specs.Classes.{classes_of, joined};
ghost use Rattle.tangle_maps.specs.declared.pairing.TheConstants.{POINTS};
ghost use Rattle.tangle_maps.specs.Pairings.{IsOpened, joins_of};
ghost use Rattle.crossing_maps.specs.Partners.{HasArcsBelow};

use kh_types::Crossing;
use tangle_maps::names::{Names, join};
use tangle_maps::{ALONE, POINTS, Pairing, join_pairs};

/// Joins what a smoothing of a crossing joins.
pub(crate) fn smooth(classes: &mut Names, crossing: &Crossing, smoothing: u8)
    requires { HasArcsBelow POINTS crossing.now }
    ensures { classes.new ≡ fold joined classes.old (smoothing_of smoothing crossing.now) }
{
    let [a, b, c, d] = crossing.0;
    if smoothing == 0 {
        join(classes, a, b);
        join(classes, c, d);
    } else {
        join(classes, a, d);
        join(classes, b, c);
    }
}

/// The classes of arcs that a pairing of these arcs and a smoothing of a crossing join.
pub fn classes_behind(pairing: &Pairing, opened: &[u8], crossing: &Crossing, smoothing: u8) -> Names
    requires opened { IsOpened opened.now }
    requires arcs { HasArcsBelow POINTS crossing.now }
    ensures { result ≡ classes_of POINTS
        (joins_of pairing.now.partners opened.now ++ smoothing_of smoothing crossing.now) }
{
    let mut classes = ALONE;
    join_pairs(&mut classes, pairing, opened);
    smooth(&mut classes, crossing, smoothing);
    classes
}
