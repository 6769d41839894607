//! What a place of a complex is named for.

use std::marker::Model;

/// A generator of the cube: a state of the diagram with a label on each of its circles. Source:
/// Bar-Natan 2002, section 3.
#[derive(Clone, Copy, Debug, PartialEq, Eq)]
pub struct Generator {
    /// Bit k is 1 where the crossing at place k has its 1-smoothing.
    pub state: u32,
    /// Bit t is 1 where circle t has v-, and 0 where it has v+.
    pub label: u64,
}

impl Model for Generator {
    ghost use Rattle.kh_types.specs.Generators.{Generator as Named, generator_of};

    ghost Value = { Named };

    ghost view = { λ generator. generator_of generator.state generator.label };

    ghost inverse = { λ generator. record { state = generator.state; label = generator.label } };
}
