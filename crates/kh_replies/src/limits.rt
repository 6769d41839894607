//! What passes a limit of a command.

ghost use Rattle.std.specs.Prelude.{◌≡◌, IfOk};
ghost use Rattle.kh_replies.specs.Limits.{too_large_number, too_many_generators};

use braid_maker::NUMBERS;
use circle_smoothing::GENERATORS;
use kh_runs::{Reply, limit_on};
use kh_types::NoMemory;
use std::alloc::Global;

/// The reply to a diagram with more generators than one whose homology is computed.
pub fn too_many_generators(alloc: Global, count: u128) -> Result<Reply, NoMemory>
    ensures { IfOk result (λ reply. reply ≡ too_many_generators count) }
{
    limit_on(alloc, "generators", count, GENERATORS as u128)
}

/// The reply to a number that is none of a diagram.
pub fn too_large_number(alloc: Global, number: u32) -> Result<Reply, NoMemory>
    ensures { IfOk result (λ reply. reply ≡ too_large_number number) }
{
    limit_on(alloc, "number", number.into(), (NUMBERS - 1).into())
}
