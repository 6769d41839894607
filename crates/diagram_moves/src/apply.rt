//! Moves, applied.

ghost use Rattle.std.specs.Prelude.{◌≡◌, ◌↔◌, ℕ, ℤ, IfOk, Err};
ghost use Rattle.kh_types.specs.StateSum.{state_sum};
ghost use Rattle.diagram_moves.specs.Moved.{JoinsPieces, LeavesSphere, moved};
ghost use Rattle.diagram_moves.specs.declared.fault.MoveFault.TheVariants.{Genus};

use crate::change::Move;
use crate::drops::{drop_finger, drop_kink};
use crate::fault::MoveFault;
use crate::finger_add::{Finger, add_finger, is_left};
use crate::kink_add::{Kink, add_kink};
use crate::slide::slide;
use crate::triangles::Corners;
use kh_types::Diagram;
use kh_types::laws::diagrams::diagram_laws;

/// The diagram after a Reidemeister move, or the least numbered fault. The state sum stays, and so
/// does homology over each field (the law `moves_keep_homology` of the crate `link_laws`). Only a
/// finger that is added can leave the sphere, and one between two pieces never does. Source:
/// Reidemeister 1927; the numbers of arcs and the order of faults are this project's rule.
#[tactic(auto, using(crate::proofs::ApplyLemmas::moves_leave_the_sphere, crate::proofs::ApplyLemmas::joined_pieces_stay_on_the_sphere,))]
pub fn apply_move(diagram: &Diagram, change: Move) -> Result<Diagram, MoveFault>
    ensures moved { result ≡ moved diagram.now change }
    ensures sum { IfOk result (λ new. (exponent : ℤ)
        → state_sum new exponent ≡ state_sum diagram.now exponent) }
    ensures genus { (faces wanted : ℕ) → (result ≡ Err (Genus faces wanted))
        ↔ LeavesSphere diagram.now change faces wanted }
    ensures pieces { JoinsPieces diagram.now change
        → (faces wanted : ℕ) → ¬ (result ≡ Err (Genus faces wanted)) }
{
    diagram_laws(diagram);
    moved(diagram, change)
}

#[tactic(auto, unfolding(crate::specs::Moved::moved))]
fn moved(diagram: &Diagram, change: Move) -> Result<Diagram, MoveFault>
    ensures { result ≡ moved diagram.now change }
{
    match change {
        Move::KinkAdd {
            arc,
            under_first,
            positive,
        } => {
            let kink = Kink {
                arc,
                is_over: !under_first,
                is_positive: positive,
            };
            add_kink(diagram, kink)
        }
        Move::KinkDrop { crossing } => drop_kink(diagram, crossing),
        Move::FingerAdd {
            over,
            over_side,
            under,
            under_side,
        } => {
            let finger = Finger {
                over,
                over_left: is_left(over_side),
                under,
                under_left: is_left(under_side),
            };
            add_finger(diagram, finger)
        }
        Move::FingerDrop { first, second } => drop_finger(diagram, first, second),
        Move::Slide {
            first,
            second,
            third,
        } => {
            let corners = Corners {
                first,
                second,
                third,
            };
            slide(diagram, corners)
        }
    }
}
