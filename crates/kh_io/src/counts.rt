//! Counts of calls and of faults, which stay at the last value of u64 once they reach it.

ghost use Rattle.std.specs.Prelude.{◌≡◌, ◌↔◌, IsTrue, Contains};
ghost use Rattle.kh_io.specs.Faults.{next_count};

/// The number after a count.
pub fn counted(count: u64) -> u64
    ensures { result ≡ next_count count }
{
    count.saturating_add(1)
}

/// Whether a call is one of those that fail.
pub fn is_listed(fail: &[u64], call: u64) -> bool
    ensures { IsTrue result ↔ Contains fail.now call }
{
    fail.contains(&call)
}
