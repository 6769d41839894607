//! Why a line of an edit is refused, in words.

ghost use Rattle.std.specs.Prelude.{◌≡◌, IfOk, string_bytes};
ghost use Rattle.kh_work.specs.Edit.{edit_refusal, move_refusal};

use diagram_moves::MoveFault;
use kh_types::{CROSSINGS, NoMemory};
use std::alloc::Global;
use undo_stack::EditFault;

/// The words for why a line is refused.
pub fn edit_refusal(alloc: Global, fault: EditFault) -> Result<String, NoMemory>
    ensures { IfOk result (λ words. string_bytes words ≡ edit_refusal fault) }
{
    match fault {
        EditFault::Change(fault) => move_refusal(alloc, fault),
        EditFault::NothingToUndo => Ok(String::from_str(alloc, "nothing to undo")?),
        EditFault::NothingToRedo => Ok(String::from_str(alloc, "nothing to redo")?),
    }
}

/// The words for why a move is not made.
fn move_refusal(alloc: Global, fault: MoveFault) -> Result<String, NoMemory>
    ensures { IfOk result (λ words. string_bytes words ≡ move_refusal fault) }
{
    Ok(match fault {
        MoveFault::NoArc { arc } => format!(in alloc; "no arc {arc}")?,
        MoveFault::NoCrossing { crossing } => format!(in alloc; "no crossing {crossing}")?,
        MoveFault::CrossingLimit { count } => {
            format!(in alloc; "crossings {count} of {CROSSINGS}")?
        }
        MoveFault::OnLoop { arc } => format!(in alloc; "loop {arc}")?,
        MoveFault::SameArc { arc } => format!(in alloc; "same arc {arc}")?,
        MoveFault::NoKink { crossing } => format!(in alloc; "no kink at {crossing}")?,
        MoveFault::NoBigon { first, second } => {
            format!(in alloc; "no bigon at {first} {second}")?
        }
        MoveFault::NoTriangle {
            first,
            second,
            third,
        } => format!(in alloc; "no triangle at {first} {second} {third}")?,
        MoveFault::Heights => String::from_str(alloc, "heights")?,
        MoveFault::Genus { faces, wanted } => {
            format!(in alloc; "genus faces {faces} wanted {wanted}")?
        }
    })
}
