//! Heads and tails, where an arc enters a crossing and where it leaves one.

ghost use Rattle.std.specs.Prelude.{◌≡◌, ◌≤◌, length, if◌then◌else◌};
ghost use Rattle.kh_types.specs.declared.limits.TheConstants.{CROSSINGS};
ghost use Rattle.kh_types.specs.Code.{IsArc};
ghost use Rattle.kh_types.specs.Darts.{IsDart};
ghost use Rattle.kh_types.specs.Directions.{is_positive, is_head, head_of, tail_of};

use crate::acceptance::darts::{arc_of, find_dart};
use crate::acceptance::signs::is_positive;
use crate::code::Crossing;
use crate::dart::{Dart, dart_at};
use crate::limits::CROSSINGS;

/// The head of an arc, where it enters a crossing.
pub fn head_of(crossings: &[Crossing], arc: u8) -> Dart
    requires crossings { length crossings.now ≤ CROSSINGS }
    requires arc { IsArc crossings.now arc }
    ensures head { result ≡ head_of crossings.now arc }
    ensures within { IsDart crossings.now result }
{
    find_dart(crossings, dart_at(0), |dart| {
        let is_of_arc = arc_of(crossings, dart) == arc;
        is_of_arc && is_head(crossings, dart)
    })
}

/// The tail of an arc, where it leaves one.
pub fn tail_of(crossings: &[Crossing], arc: u8) -> Dart
    requires crossings { length crossings.now ≤ CROSSINGS }
    requires arc { IsArc crossings.now arc }
    ensures tail { result ≡ tail_of crossings.now arc }
    ensures within { IsDart crossings.now result }
{
    find_dart(crossings, dart_at(0), |dart| {
        arc_of(crossings, dart) == arc && !is_head(crossings, dart)
    })
}

/// Whether a dart is where its arc enters a crossing: at slot 0, and at the slot where the over
/// pass begins.
fn is_head(crossings: &[Crossing], dart: Dart) -> bool
    requires { length crossings.now ≤ CROSSINGS }
    ensures { result ≡ is_head crossings.now dart }
{
    dart.slot == 0 || dart.slot == over_start(crossings, dart.crossing)
}

/// The slot where the over pass of a crossing begins.
fn over_start(crossings: &[Crossing], crossing: u8) -> u8
    requires { length crossings.now ≤ CROSSINGS }
    ensures { result ≡ (if is_positive crossings.now crossing then 3 else 1) }
{
    if is_positive(crossings, crossing) {
        3
    } else {
        1
    }
}
