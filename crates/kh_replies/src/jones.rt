//! The command `jones`: the unnormalised Jones polynomial.

ghost use Rattle.std.specs.Prelude.{◌≡◌, IfOk};
ghost use Rattle.kh_runs.specs.Homology.{jones_line};
ghost use Rattle.kh_replies.specs.Jones.{jones_reply};

use circle_smoothing::CountedDiagram;
use jones_sum::{print_jones, state_sum};
use kh_runs::{Reply, Status, reply_made};
use kh_types::{Diagram, NoMemory};
use std::alloc::Global;

/// The Jones line of a diagram. Source: Bar-Natan 2002, section 2; the text is this project's rule.
pub fn reply_to_jones(alloc: Global, diagram: &Diagram) -> Result<Reply, NoMemory>
    ensures { IfOk result (λ reply. reply ≡ jones_reply diagram.now) }
{
    Ok(reply_made(
        Status::Done,
        jones_line(alloc, &CountedDiagram::of_diagram(diagram))?,
    ))
}

/// The text of this line, with its line feed, of a diagram with its states counted.
pub fn jones_line(alloc: Global, counted: &CountedDiagram) -> Result<Vec<u8>, NoMemory>
    ensures { IfOk result (λ text. text.items ≡ jones_line counted.now) }
{
    let line = print_jones(alloc, &state_sum(counted))?;
    Ok(line)
}
