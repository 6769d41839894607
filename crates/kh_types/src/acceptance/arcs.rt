//! The arcs in a list of crossings.

ghost use Rattle.std.specs.Prelude.{◌≡◌};
ghost use Rattle.kh_types.specs.Code.{arc_in, slots_of};

use crate::code::Crossing;

/// The arc at a slot of a crossing; 0 where there is no such crossing or slot.
pub fn arc_at(crossings: &[Crossing], crossing: u8, slot: u8) -> u8
    ensures { result ≡ arc_in (slots_of crossings.now crossing) slot }
{
    match crossings.get(usize::from(crossing.saturating_sub(1))) {
        Some(slots) => slots.0.get(usize::from(slot)).copied().unwrap_or(0),
        None => 0,
    }
}
