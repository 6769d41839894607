//! The command `draw`: the diagram as slices of a page.

ghost use Rattle.std.specs.Prelude.{◌≡◌, IfOk};
ghost use Rattle.kh_replies.specs.Draw.{draw_reply};

use kh_runs::{Reply, Status, reply_made};
use kh_types::{Diagram, NoMemory};
use morse_drawing::{print_slices, slices};
use std::alloc::Global;

/// The text of the drawing of a diagram.
pub fn reply_to_draw(alloc: Global, diagram: &Diagram) -> Result<Reply, NoMemory>
    ensures { IfOk result (λ reply. reply ≡ draw_reply diagram.now) }
{
    let slices = slices(alloc, diagram)?;
    Ok(reply_made(Status::Done, print_slices(alloc, &slices)?))
}
