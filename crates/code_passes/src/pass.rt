//! Passes as values.

ghost use Rattle.std.specs.Prelude.{◌≡◌};
ghost use Rattle.code_passes.specs.Passes.{no_pass};

use std::marker::Model;

/// A pass of a component at a crossing: the number of the crossing where it passes over, and minus
/// the number where it passes under; the arc on which it enters, and the one on which it leaves.
/// Source: Knot Atlas, "Gauss Codes"; the numbers of arcs are this project's rule.
#[derive(Clone, Copy)]
pub struct Pass {
    pub label: i32,
    pub enters: u8,
    pub leaves: u8,
}

impl Model for Pass {
    ghost use Rattle.code_passes.specs.Passes.{Pass};

    ghost Value = { Pass };

    ghost view = { λ pass. record { label = pass.label; enters = pass.enters; leaves = pass.leaves } };

    ghost inverse = { λ pass. record { label = pass.label; enters = pass.enters; leaves = pass.leaves } };
}

impl Default for Pass {
    ghost is_default = { λ pass. pass ≡ no_pass };

    /// No pass.
    fn default() -> Pass {
        Pass {
            label: 0,
            enters: 0,
            leaves: 0,
        }
    }
}
