//! Darts, the ends of arcs.

ghost use Rattle.std.specs.Prelude.{◌≡◌, ◌≤◌, ◌<◌, ◌*◌, length, Bool, unwrap_or};
ghost use Rattle.std.specs.List.{find};
ghost use Rattle.kh_types.specs.declared.dart.Dart.{Dart};
ghost use Rattle.kh_types.specs.declared.limits.TheConstants.{CROSSINGS};
ghost use Rattle.kh_types.specs.Code.{IsArc};
ghost use Rattle.kh_types.specs.Darts.{dart_at, darts, arc_of, times, first_dart, is_partner, partner, partner_at, IsDart};

use crate::acceptance::arcs::arc_at;
use crate::code::Crossing;
use crate::dart::{Dart, dart_at, dart_place};
use crate::limits::CROSSINGS;

/// The arc of a dart.
pub fn arc_of(crossings: &[Crossing], dart: Dart) -> u8
    ensures { result ≡ arc_of crossings.now dart }
{
    arc_at(crossings, dart.crossing, dart.slot)
}

/// How often a number stands: how many darts are of this arc.
pub fn times(crossings: &[Crossing], arc: u8) -> u8
    requires { length crossings.now ≤ CROSSINGS }
    ensures { result ≡ times crossings.now arc }
{
    dart_count_of(crossings, arc) as u8
}

fn dart_count_of(crossings: &[Crossing], arc: u8) -> usize
    requires { length crossings.now ≤ CROSSINGS }
    ensures times { result ≡ times crossings.now arc }
    ensures within { result ≤ 4 * CROSSINGS }
{
    (0..4 * crossings.len() as u8)
        .map(dart_at)
        .filter(|dart| arc_of(crossings, *dart) == arc)
        .count()
}

/// The first dart that passes a test; the given one where none does.
pub fn find_dart<F: Fn(Dart) -> bool>(crossings: &[Crossing], otherwise: Dart, test: F) -> Dart
    requires crossings { length crossings.now ≤ CROSSINGS }
    requires callable { F.IsAlwaysCallable test }
    ensures first { (passes : Dart → Bool)
        → ((dart : Dart) (r : Bool) → IsDart crossings.now dart → F.post test dart r → r ≡ passes dart)
        → result ≡ unwrap_or (find passes (darts crossings.now)) otherwise }
    ensures within { IsDart crossings.now otherwise → IsDart crossings.now result }
{
    for place in 0..4 * crossings.len() as u8 {
        let dart = dart_at(place);
        if test(dart) {
            return dart;
        }
    }
    otherwise
}

/// The first dart of an arc.
pub fn first_dart(crossings: &[Crossing], arc: u8) -> Dart
    requires crossings { length crossings.now ≤ CROSSINGS }
    requires arc { IsArc crossings.now arc }
    ensures dart { result ≡ first_dart crossings.now arc }
    ensures within { IsDart crossings.now result }
{
    find_dart(crossings, dart_at(0), |dart| arc_of(crossings, dart) == arc)
}

/// The other dart of a dart's arc; the dart itself where it has none.
pub fn partner(crossings: &[Crossing], dart: Dart) -> Dart
    requires crossings { length crossings.now ≤ CROSSINGS }
    requires dart { IsDart crossings.now dart }
    ensures partner { result ≡ partner crossings.now dart }
    ensures within { IsDart crossings.now result }
{
    find_dart(crossings, dart, |other| is_partner(crossings, dart, other))
}

/// Whether another dart is of the same arc.
fn is_partner(crossings: &[Crossing], dart: Dart, other: Dart) -> bool
    ensures { result ≡ is_partner crossings.now dart other }
{
    arc_of(crossings, other) == arc_of(crossings, dart) && other != dart
}

/// The place of the other dart of the arc of the dart at a place.
pub fn partner_at(crossings: &[Crossing], place: u8) -> u8
    requires crossings { length crossings.now ≤ CROSSINGS }
    requires place { place < 4 * length crossings.now }
    ensures place { result ≡ partner_at crossings.now place }
    ensures below { result < 4 * length crossings.now }
{
    dart_place(partner(crossings, dart_at(place)))
}
