//! Labels of the circles that are closed on either side of a crossing, as dots of these circles.

ghost use Rattle.std.specs.Prelude.{◌≡◌, ◌-◌, ◌%◌, ◌^◌, ◌<◌, length};
ghost use Rattle.crossing_maps.specs.AddedSeams.{AreMarks};
ghost use Rattle.crossing_maps.specs.Bridges.{CanLabel};

use crate::bridges::Bridge;

/// Labels of the circles that are closed on either side, as numbers.
#[derive(Clone, Copy)]
pub struct Labels {
    pub before: u64,
    pub behind: u64,
}

/// The number of the lowest bits of another, as many as `count` says.
#[tactic(auto, using(crate::proofs::MarkBits::lowest_below))]
fn lowest(number: u64, count: usize) -> u64
    requires { count < 64 }
    ensures bits { result ≡ number % 2 ^ count }
    ensures below { result < 2 ^ count }
{
    number % (1 << count)
}

impl Bridge {
    /// The dots of the closed circles with these labels: a circle has one before the crossing where
    /// its label is v-, and after it where that is v+.
    pub fn marks(&self, labels: Labels) -> u64
        requires { CanLabel self.now }
        ensures { AreMarks self.now.closed (length self.now.seam.second.items - self.now.closed)
            labels.before labels.behind result }
    {
        let others = self.seam.seam().second.len() - self.closed;
        let behind = lowest(!labels.behind, others);
        (behind << self.closed) + lowest(labels.before, self.closed)
    }
}
