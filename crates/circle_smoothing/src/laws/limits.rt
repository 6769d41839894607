//! The limit on generators.

ghost use Rattle.std.specs.Prelude.{◌≡◌};
ghost use Rattle.circle_smoothing.specs.declared.limits.TheConstants.{GENERATORS};

/// The most generators of a diagram whose homology is computed.
pub fn limits()
    ensures generators { GENERATORS ≡ 4194304 }
{}
