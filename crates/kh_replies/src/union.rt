//! The command `union`: two diagrams beside each other.

ghost use Rattle.std.specs.Prelude.{◌≡◌, IfOk};
ghost use Rattle.kh_replies.specs.Union.{union_reply};

use crate::convert::reply_to_convert;
use kh_runs::{Reply, too_many_crossings, too_many_loops};
use kh_types::{Diagram, NoMemory};
use link_algebra::{UnionFault, union};
use std::alloc::Global;
use word_line::Form;

/// The text of the union of two diagrams, unless they have too many crossings or loops together.
pub fn reply_to_pair(alloc: Global, first: &Diagram, second: &Diagram) -> Result<Reply, NoMemory>
    ensures { IfOk result (λ reply. reply ≡ union_reply first.now second.now) }
{
    match union(first, second) {
        Ok(diagram) => reply_to_convert(alloc, Form::Pd, &diagram),
        Err(UnionFault::Crossings { count }) => too_many_crossings(alloc, count.into()),
        Err(UnionFault::Loops { count }) => too_many_loops(alloc, count.into()),
    }
}
