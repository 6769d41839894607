//! What the number of generators counts.

ghost use Rattle.std.specs.Prelude.{◌≡◌, length};
ghost use Rattle.kh_types.specs.Code.{Code};
ghost use Rattle.kh_types.specs.Generators.{generators};
ghost use Rattle.circle_smoothing.specs.GeneratorCounts.{generator_count};

/// The sum over all states of 2 to the number of circles is how many generators there are, each
/// state with a label on each circle.
pub fn generators_are_counted()
    ensures { (code : Code) → length (generators code) ≡ generator_count code }
{}
