//! Why no code was read.

ghost use Rattle.std.specs.Prelude.{◌≡◌};
ghost use Rattle.serde_json.specs.Errors.{IsMemory};
ghost use Rattle.json_code.specs.declared.stop.JsonStop.TheVariants.{JsonText, NoMemory};

/// Why no code was read from a JSON text.
#[derive(Clone, Copy, Debug, PartialEq, Eq)]
pub enum JsonStop {
    /// The text is no JSON.
    JsonText,
    /// The first crossing that is no array of four numbers, from 1, and the first of its slots 0 to
    /// 3 that is missing or holds no number, or 4 for a fifth member. A crossing that is no array
    /// has slot 0; both are 0 where the text is no array.
    Shape { crossing: u32, slot: u8 },
    /// The array has `count` elements, and these are more than `CROSSINGS`. It comes before a
    /// crossing that is wrong.
    CrossingLimit { count: u32 },
    /// Memory ran out, whatever the text is.
    NoMemory,
}

impl From<serde_json::Error> for JsonStop {
    ghost from_gives = { λ error stop.
        (IsMemory error → stop ≡ NoMemory) × (¬ IsMemory error → stop ≡ JsonText) };

    fn from(error: serde_json::Error) -> Self {
        if error.is_memory() {
            JsonStop::NoMemory
        } else {
            JsonStop::JsonText
        }
    }
}
