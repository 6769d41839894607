//! The limit on generators.

ghost use Rattle.std.specs.Prelude.{◌≡◌, ◌↔◌, ◌≤◌, IsOk, IfOk, IfErr};
ghost use Rattle.circle_smoothing.specs.GeneratorCounts.{generator_count};
ghost use Rattle.circle_smoothing.specs.declared.limits.TheConstants.{GENERATORS};

use circle_smoothing::{CountedDiagram, GENERATORS, generator_count};
use kh_types::Diagram;
use std::marker::Model;

/// There are more generators than the limit, `GENERATORS`.
#[derive(Clone, Copy, Debug, PartialEq, Eq)]
pub struct SizeLimit {
    /// How many there are.
    pub generators: u128,
}

/// A diagram with its states counted, whose cube has no more generators than the limit. Contracts
/// see it as the diagram's `Code`.
#[derive(Drop)]
pub struct SmallDiagram {
    counted: CountedDiagram,
}

impl Model for SmallDiagram {
    ghost use Rattle.std.specs.Prelude.{◌≤◌};
    ghost use Rattle.circle_smoothing.specs.GeneratorCounts.{generator_count};
    ghost use Rattle.circle_smoothing.specs.declared.limits.TheConstants.{GENERATORS};
    ghost use Rattle.kh_types.specs.Code.{Code};

    ghost Value = { Code };

    ghost view = { λ small. small.counted };

    ghost invariant = { λ small. generator_count small.counted ≤ GENERATORS };
}

impl SmallDiagram {
    /// The diagram, where its cube is within the limit.
    pub fn try_new(counted: CountedDiagram) -> Result<SmallDiagram, SizeLimit>
        ensures within { IsOk result ↔ (generator_count counted ≤ GENERATORS) }
        ensures diagram { IfOk result (λ small. small ≡ counted) }
        ensures carried { IfErr result (λ limit. limit.generators ≡ generator_count counted) }
    {
        within_limit(counted.generator_count())?;
        Ok(SmallDiagram { counted })
    }

    /// The diagram, of which its caller knows that its cube is within the limit.
    pub fn known(counted: CountedDiagram) -> SmallDiagram
        requires { generator_count counted ≤ GENERATORS }
        ensures { result ≡ counted }
    {
        SmallDiagram { counted }
    }

    /// The diagram with its states counted.
    pub fn counted(&self) -> &CountedDiagram
        ensures diagram { result.now ≡ self.now }
        ensures within { generator_count self.now ≤ GENERATORS }
    {
        &self.counted
    }
}

/// The number of generators, where it is within the limit.
pub fn check_size(diagram: &Diagram) -> Result<u128, SizeLimit>
    ensures within { IsOk result ↔ (generator_count diagram.now ≤ GENERATORS) }
    ensures count { IfOk result (λ count. count ≡ generator_count diagram.now) }
    ensures carried { IfErr result (λ limit. limit.generators ≡ generator_count diagram.now) }
{
    within_limit(generator_count(diagram))
}

/// A number of generators, where it is within the limit.
fn within_limit(generators: u128) -> Result<u128, SizeLimit>
    ensures within { IsOk result ↔ (generators ≤ GENERATORS) }
    ensures count { IfOk result (λ count. count ≡ generators) }
    ensures carried { IfErr result (λ limit. limit.generators ≡ generators) }
{
    if generators <= u128::from(GENERATORS) {
        Ok(generators)
    } else {
        Err(SizeLimit { generators })
    }
}
