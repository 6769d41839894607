//! Numbers of arcs, an entry for each, and classes of arcs: each class is named by its least arc.

ghost use Rattle.std.specs.Prelude.{◌≡◌, ◌<◌, length, slice_index};
ghost use Rattle.kh_types.specs.Classes.{joined, merged};
ghost use Rattle.tangle_maps.specs.declared.pairing.TheConstants.{POINTS};

use crate::pairing::POINTS;

/// A number for each arc.
pub type Names = [u8; POINTS];

/// The number of an arc.
pub fn at(names: &Names, arc: u8) -> u8
    requires { arc < POINTS }
    ensures { result ≡ slice_index names.now arc }
{
    names[usize::from(arc)]
}

/// Makes one class of those of two arcs.
#[tactic(auto, using(kh_types::proofs::ClassLemmas::map_in_place))]
pub fn join(classes: &mut Names, one: u8, other: u8)
    requires one { one < POINTS }
    requires other { other < POINTS }
    ensures { classes.new ≡ joined classes.old (one, other) }
{
    let x = at(classes, one);
    let y = at(classes, other);
    for class in classes.iter_mut() {
        *class = merged(x, y, *class);
    }
}

/// The number of a class, after the classes numbered `x` and `y` have become one.
fn merged(x: u8, y: u8, class: u8) -> u8
    ensures { result ≡ merged x y class }
{
    if class == x.max(y) { x.min(y) } else { class }
}
