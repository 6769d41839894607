//! The ends of arcs.

ghost use Rattle.std.specs.Prelude.{◌≡◌, ◌≤◌, ◌<◌, ◌*◌};
ghost use Rattle.kh_types.specs.declared.limits.TheConstants.{CROSSINGS};
ghost use Rattle.kh_types.specs.Darts.{dart_at, dart_place, turned};

use crate::limits::CROSSINGS;

/// One end of an arc: a crossing, numbered from 1 in the order of the list, and a slot of it, 0 to
/// 3.
#[derive(Clone, Copy, Debug, PartialEq, Eq, PartialOrd, Ord)]
pub struct Dart {
    /// The crossing, from 1.
    pub crossing: u8,
    /// The slot, 0 to 3.
    pub slot: u8,
}

/// The dart at a place in the order of all darts, by crossing, then slot; places begin with 0.
pub fn dart_at(place: u8) -> Dart
    ensures { result ≡ dart_at place }
{
    Dart {
        crossing: place / 4 + 1,
        slot: place % 4,
    }
}

/// The place of a dart in this order.
pub fn dart_place(dart: Dart) -> u8
    requires crossing { dart.crossing ≤ CROSSINGS }
    requires slot { dart.slot < 4 }
    ensures { result ≡ dart_place dart }
{
    4 * dart.crossing.saturating_sub(1) + dart.slot
}

/// The place of the dart at the slot before, round the same crossing.
pub fn turned(place: u8) -> u8
    requires { place < 4 * CROSSINGS }
    ensures { result ≡ turned place }
{
    4 * (place / 4) + (place % 4 + 3) % 4
}
