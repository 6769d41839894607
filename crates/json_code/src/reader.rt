//! Reads the code of a diagram from a JSON text.

ghost use Rattle.std.specs.Prelude.{◌≡◌, ◌≢◌, ◌+◌, ◌<◌, ◌≤◌, Err, Ok, IfErr, IfOk, length, map};
ghost use Rattle.serde_json.specs.View.{view};
ghost use Rattle.kh_types.specs.declared.limits.TheConstants.{INPUT_BYTES};
ghost use Rattle.json_code.specs.Reading.{IsJsonReading};
ghost use Rattle.json_code.specs.Steps.{json_code_of, code_of_elements, crossings_from, element_count};

use crate::crossing::crossing_of;
use crate::stop::JsonStop;
use arrayvec::ArrayVec;
use kh_types::{CROSSINGS, Crossing, INPUT_BYTES, RawCode};
use serde_json::Value;
use std::alloc::Global;

/// Reads a JSON text: an array of crossings, each an array of four numbers. A number above 255 is
/// read as 0, which is no arc, and there are no loops. Memory may run out on any text but the empty
/// one.
pub fn read_json(alloc: Global, text: &[u8]) -> Result<RawCode, JsonStop>
    requires { length text.now ≤ INPUT_BYTES }
    ensures reads { result ≢ Err JsonStop.NoMemory → IsJsonReading text.now result }
    ensures memory { result ≡ Err JsonStop.NoMemory → 0 < length text.now }
    ensures few { IfOk result (λ code. length code.crossings ≤ CROSSINGS) }
    ensures no_loops { IfOk result (λ code. code.loops ≡ 0) }
{
    let value = Value::from_slice(alloc, text)?;
    json_code_of(&value)
}

/// The code that a JSON value stands for.
fn json_code_of(value: &Value) -> Result<RawCode, JsonStop>
    requires { element_count (view value.now) ≤ INPUT_BYTES + 1 }
    ensures code { result ≡ json_code_of (view value.now) }
    ensures few { IfOk result (λ code. length code.crossings ≤ CROSSINGS) }
    ensures no_loops { IfOk result (λ code. code.loops ≡ 0) }
{
    match value.as_array() {
        Some(elements) => code_of_elements(elements),
        None => Err(JsonStop::Shape {
            crossing: 0,
            slot: 0,
        }),
    }
}

/// The code that the elements of an array stand for.
fn code_of_elements(elements: &[Value]) -> Result<RawCode, JsonStop>
    requires { length elements.now ≤ INPUT_BYTES + 1 }
    ensures code { result ≡ code_of_elements (map view elements.now) }
    ensures few { IfOk result (λ code. length code.crossings ≤ CROSSINGS) }
    ensures no_loops { IfOk result (λ code. code.loops ≡ 0) }
{
    if elements.len() > CROSSINGS {
        return Err(JsonStop::CrossingLimit {
            count: elements.len() as u32,
        });
    }
    Ok(RawCode {
        crossings: crossings_of(elements)?,
        loops: 0,
    })
}

/// The crossings that elements are, of which there are few enough; or the first that is wrong.
fn crossings_of(elements: &[Value]) -> Result<ArrayVec<Crossing, CROSSINGS>, JsonStop>
    requires { length elements.now ≤ CROSSINGS }
    ensures ok { IfOk result (λ crossings.
        crossings_from 1 (map view elements.now) ≡ Ok crossings.items) }
    ensures wrong { IfErr result (λ stop. crossings_from 1 (map view elements.now) ≡ Err stop) }
{
    let mut crossings = ArrayVec::new();
    for element in elements {
        let number = crossings.len() as u32 + 1;
        crossings.push(crossing_of(element, number)?);
    }
    Ok(crossings)
}
