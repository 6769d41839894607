//! Reads a crossing from a JSON value.

ghost use Rattle.std.specs.Prelude.{◌≡◌, map};
ghost use Rattle.serde_json.specs.View.{view};
ghost use Rattle.kh_types.specs.RawCodes.{arc_named};
ghost use Rattle.json_code.specs.Steps.{json_arc_at, json_arcs_at, crossing_in_element};

use crate::stop::JsonStop;
use kh_types::Crossing;
use serde_json::Value;

/// The crossing that an element is, or its first wrong slot. The number of the crossing is counted
/// from 1.
pub fn crossing_of(element: &Value, crossing: u32) -> Result<Crossing, JsonStop>
    ensures { result ≡ crossing_in_element crossing (view element.now) }
{
    match element.as_array() {
        Some(members) => json_arcs_at(members, crossing),
        None => Err(JsonStop::Shape { crossing, slot: 0 }),
    }
}

/// The arcs that the members of a crossing name, or the first wrong slot.
fn json_arcs_at(members: &[Value], crossing: u32) -> Result<Crossing, JsonStop>
    ensures { result ≡ json_arcs_at crossing (map view members.now) }
{
    let i = json_arc_at(members, crossing, 0)?;
    let j = json_arc_at(members, crossing, 1)?;
    let k = json_arc_at(members, crossing, 2)?;
    let l = json_arc_at(members, crossing, 3)?;
    if members.len() > 4 {
        return Err(JsonStop::Shape { crossing, slot: 4 });
    }
    Ok(Crossing([i, j, k, l]))
}

/// The arc that the member at a slot names, if that is a number.
fn json_arc_at(members: &[Value], crossing: u32, slot: u8) -> Result<u8, JsonStop>
    ensures { result ≡ json_arc_at crossing slot (map view members.now) }
{
    let number = members.get(slot as usize).and_then(Value::as_u64);
    number
        .map(arc_named)
        .ok_or(JsonStop::Shape { crossing, slot })
}

/// The arc that a number names; 0, which is no arc, for a number above 255.
fn arc_named(number: u64) -> u8
    ensures { result ≡ arc_named number }
{
    u8::try_from(number).unwrap_or(0)
}
