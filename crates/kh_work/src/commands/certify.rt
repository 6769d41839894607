//! The command `certify`: a log of cancellations that proves the homology table.

ghost use Rattle.std.specs.Prelude.{◌≤◌, IfOk, length};
ghost use Rattle.circle_smoothing.specs.GeneratorCounts.{generator_count};
ghost use Rattle.circle_smoothing.specs.declared.limits.TheConstants.{GENERATORS};
ghost use Rattle.kh_types.specs.declared.limits.TheConstants.{LOOPS};
ghost use Rattle.cancel_log.specs.Verdicts.{IsLog};
ghost use Rattle.cancel_log.specs.declared.limits.TheConstants.{LOG_BYTES};
ghost use Rattle.kh_work.specs.Certify.{IsCertifyReply};

use cancel_log::write_log;
use cube_signs::check_size;
use kh_replies::too_many_generators;
use kh_runs::{Reply, Status, reply_made};
use kh_types::{Diagram, NoMemory};
use prime_field::{FieldSize, over_field};
use std::alloc::Global;

/// The reply to a diagram: a log over the field of so many elements, made on the caller's thread.
pub fn reply_to_certify(
    alloc: Global,
    field: FieldSize,
    diagram: &Diagram,
) -> Result<Reply, NoMemory>
    requires loops { diagram.now.loops ≤ LOOPS }
    ensures { IfOk result (IsCertifyReply field diagram.now) }
{
    match check_size(diagram) {
        Ok(_) => Ok(reply_made(Status::Done, log_over(alloc, field, diagram)?)),
        Err(limit) => too_many_generators(alloc, limit.generators),
    }
}

/// A log over the field of so many elements.
fn log_over(alloc: Global, field: FieldSize, diagram: &Diagram) -> Result<Vec<u8>, NoMemory>
    requires size { generator_count diagram.now ≤ GENERATORS }
    requires loops { diagram.now.loops ≤ LOOPS }
    ensures log { IfOk result (λ text. IsLog field diagram.now text.items) }
    ensures few { IfOk result (λ text. length text.items ≤ LOG_BYTES) }
{
    over_field!(field, write_log(alloc, diagram))
}
