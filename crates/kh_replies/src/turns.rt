//! The commands `mirror` and `reverse`: the diagram as a mirror shows it, and with every component
//! turned.

ghost use Rattle.std.specs.Prelude.{◌≡◌, IfOk};
ghost use Rattle.kh_replies.specs.Turns.{mirror_reply, reverse_reply};

use crate::convert::reply_to_convert;
use kh_runs::Reply;
use kh_types::{Diagram, NoMemory};
use link_algebra::{mirror, reverse};
use std::alloc::Global;
use word_line::Form;

/// The text of the mirror of a diagram, and a line feed.
pub fn reply_to_mirror(alloc: Global, diagram: &Diagram) -> Result<Reply, NoMemory>
    ensures { IfOk result (λ reply. reply ≡ mirror_reply diagram.now) }
{
    reply_to_convert(alloc, Form::Pd, &mirror(diagram))
}

/// The text of the reversal of a diagram, and a line feed.
pub fn reply_to_reverse(alloc: Global, diagram: &Diagram) -> Result<Reply, NoMemory>
    ensures { IfOk result (λ reply. reply ≡ reverse_reply diagram.now) }
{
    reply_to_convert(alloc, Form::Pd, &reverse(diagram))
}
