//! The command `check`: a line of counts.

ghost use Rattle.std.specs.Prelude.{◌≡◌, IfOk, string_bytes};
ghost use Rattle.kh_replies.specs.Check.{check_reply, counts_line, diagram_counts};

use face_walk::{faces, pieces};
use kh_runs::{Reply, Status, reply_with};
use kh_types::{Diagram, NoMemory};
use orient_arcs::components;
use std::alloc::Global;

/// How many things of each kind a diagram has.
#[derive(Clone, Copy)]
pub struct Counts {
    /// All crossings.
    pub crossings: u8,
    /// The positive crossings.
    pub plus: u8,
    /// The negative crossings.
    pub minus: u8,
    /// The components, without loops.
    pub components: u8,
    /// The connected pieces, without loops.
    pub pieces: u8,
    /// The faces that crossings have.
    pub faces: u8,
    /// The crossingless loops.
    pub loops: u8,
}

/// The line that a diagram is accepted, with its counts.
pub fn reply_to_check(alloc: Global, diagram: &Diagram) -> Result<Reply, NoMemory>
    ensures { IfOk result (λ reply. reply ≡ check_reply diagram.now) }
{
    let line = counts_line(alloc, diagram_counts(diagram))?;
    Ok(reply_with(Status::Done, line))
}

/// The counts of a diagram.
fn diagram_counts(diagram: &Diagram) -> Counts
    ensures { result ≡ diagram_counts diagram.now }
{
    Counts {
        crossings: diagram.count(),
        plus: diagram.plus(),
        minus: diagram.minus(),
        components: components(diagram).count(),
        pieces: pieces(diagram),
        faces: faces(diagram).count(),
        loops: diagram.loops(),
    }
}

/// The line of some counts.
fn counts_line(alloc: Global, counts: Counts) -> Result<String, NoMemory>
    ensures { IfOk result (λ line. string_bytes line ≡ counts_line counts) }
{
    Ok(format!(in alloc;
        "accepted crossings {} plus {} minus {} components {} pieces {} faces {} loops {}\n",
        counts.crossings,
        counts.plus,
        counts.minus,
        counts.components,
        counts.pieces,
        counts.faces,
        counts.loops
    )?)
}
