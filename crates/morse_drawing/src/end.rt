//! The upper ends of strands.

ghost use Rattle.std.specs.Prelude.{◌≡◌};
ghost use Rattle.morse_drawing.specs.OpenEnds.{is_same_end};

/// Where a strand of the row comes from: from a dart, given by its place, or from a cap, as one of
/// the two ends of a line with a number.
#[derive(Clone, Copy, Debug, PartialEq, Eq)]
pub enum End {
    /// The strand leads back to the dart at a place.
    AtDart(u8),
    /// The strand is an end of the line with a number.
    OnLine(u8),
}

impl Default for End {
    fn default() -> End {
        End::AtDart(0)
    }
}

impl End {
    /// Whether two ends are of one dart, or of one line.
    pub(crate) fn is_same(self, other: End) -> bool
        ensures { result ≡ is_same_end self other }
    {
        match self {
            End::AtDart(dart) => match other {
                End::AtDart(second) => dart == second,
                End::OnLine(_) => false,
            },
            End::OnLine(line) => match other {
                End::AtDart(_) => false,
                End::OnLine(second) => line == second,
            },
        }
    }
}
