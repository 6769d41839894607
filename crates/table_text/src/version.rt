//! The versions of tables' texts.

ghost use Rattle.std.specs.Prelude.{◌≡◌, ◌≤◌};
ghost use Rattle.kh_types.specs.declared.limits.TheConstants.{CROSSINGS, EXPONENT};
ghost use Rattle.table_text.specs.Versions.{far, wide};

use crate::limits::{FIRST_CROSSINGS, FIRST_EXPONENT};
use kh_types::{CROSSINGS, EXPONENT};

/// A version of tables' texts.
#[derive(Clone, Copy)]
pub enum Version {
    /// A text that begins with the line of its field.
    First,
    /// A text that begins with the line `table 2`.
    Second,
}

impl Version {
    /// The greatest size of a quantum degree in texts of a version.
    pub fn far(self) -> u8
        ensures size { result ≡ far self }
        ensures most { result ≤ EXPONENT }
    {
        match self {
            Version::First => FIRST_EXPONENT as u8,
            Version::Second => EXPONENT as u8,
        }
    }

    /// The greatest size of a homological degree in texts of a version.
    pub fn wide(self) -> u8
        ensures size { result ≡ wide self }
        ensures most { result ≤ CROSSINGS }
    {
        match self {
            Version::First => FIRST_CROSSINGS as u8,
            Version::Second => CROSSINGS as u8,
        }
    }
}
