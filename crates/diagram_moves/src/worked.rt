//! Drops and slides of worked diagrams, numbered.

ghost use Rattle.std.specs.Prelude.{◌≡◌, ◌∷◌, [], true, Ok, Err};
ghost use Rattle.kh_types.specs.Acceptance.{accepted};
ghost use Rattle.kh_types.specs.WorkedCodes.{curl, over_circle, slots_with, trefoil, two_curls, without_loops};
ghost use Rattle.kink_and_finger_laws.specs.DropComponents.{parts_component_count};
ghost use Rattle.kink_and_finger_laws.specs.Drops.{without_finger, without_kink};
ghost use Rattle.kink_and_finger_laws.specs.WorkedDrops.{curl_fingered, curl_kinked};
ghost use Rattle.orient_arcs.specs.Renumbered.{renumber};
ghost use Rattle.diagram_moves.specs.Kept.{slid_parts};
ghost use Rattle.diagram_moves.specs.Moved.{moved};
ghost use Rattle.diagram_moves.specs.declared.change.Move.TheVariants.{FingerAdd, FingerDrop, KinkAdd, KinkDrop, Slide};
ghost use Rattle.diagram_moves.specs.declared.change.Side.TheVariants.{Left, Right};
ghost use Rattle.diagram_moves.specs.declared.fault.MoveFault.TheVariants.{Genus, Heights, NoArc, NoBigon, NoCrossing, NoKink, NoTriangle, OnLoop, SameArc};

/// Worked drops and a slide.
pub fn worked_joins()
    ensures curl { renumber (without_kink curl 0) ≡ record { crossings = []; loops = 1 } }
    ensures over { renumber (without_finger over_circle 0 1)
        ≡ record { crossings = []; loops = 2 } }
    ensures kinked { renumber (without_kink curl_kinked 1) ≡ curl }
    ensures fingered { (renumber (without_finger curl_fingered 0 1)).crossings
        ≡ slots_with 2 2 1 1 ∷ [] }
    ensures components { parts_component_count 7 (without_finger curl_fingered 0 1) ≡ 1 }
    ensures two { (renumber (without_kink two_curls 0)).loops ≡ 1 }
    // The over circle's arcs, 5 and 6, exchange their numbers.
    ensures circle { (renumber (slid_parts (without_loops (slots_with 1 6 2 5
        ∷ slots_with 4 6 1 5 ∷ slots_with 2 4 3 3 ∷ [])) 1 4 8)).crossings
        ≡ slots_with 2 6 3 5 ∷ slots_with 3 6 4 5 ∷ slots_with 1 1 2 4 ∷ [] }
    ensures circle_accepted { accepted (renumber (slid_parts (without_loops (slots_with 1 6 2 5
        ∷ slots_with 4 6 1 5 ∷ slots_with 2 4 3 3 ∷ [])) 1 4 8))
        ≡ true }
{}

/// What moves of a curl leave, and what refuses moves, in the order of the faults.
#[tactic(auto, unfolding(crate::specs::Moved::moved))]
pub fn worked_moves()
    ensures kink { moved curl (KinkAdd 1 true true)
        ≡ Ok (without_loops (slots_with 3 1 4 4 ∷ slots_with 1 3 2 2 ∷ [])) }
    ensures finger { moved curl (FingerAdd 1 Left 2 Right)
        ≡ Ok (without_loops (slots_with 3 1 4 6 ∷ slots_with 4 1 5 2 ∷ slots_with 5 3 6 2 ∷ [])) }
    ensures across { moved curl (FingerAdd 1 Left 2 Left) ≡ Err (Genus 3 5) }
    ensures nothing { moved curl (KinkAdd 0 true true) ≡ Err (NoArc 0) }
    ensures above { moved curl (KinkAdd 3 true true) ≡ Err (NoArc 3) }
    ensures a_loop { moved (record curl { loops = 1 }) (KinkAdd 3 true true) ≡ Err (OnLoop 3) }
    ensures past_loop { moved (record curl { loops = 1 }) (KinkAdd 4 true true) ≡ Err (NoArc 4) }
    ensures two_loops { moved (record curl { loops = 1 }) (FingerAdd 3 Left 3 Left)
        ≡ Err (OnLoop 3) }
    ensures same { moved curl (FingerAdd 2 Left 2 Right) ≡ Err (SameArc 2) }
    ensures dropped { moved curl (KinkDrop 1) ≡ Ok (record { crossings = []; loops = 1 }) }
    ensures no_kink { moved trefoil (KinkDrop 1) ≡ Err (NoKink 1) }
    ensures no_crossing { moved trefoil (KinkDrop 4) ≡ Err (NoCrossing 4) }
    ensures no_bigon { moved curl (FingerDrop 1 1) ≡ Err (NoBigon 1 1) }
    ensures no_triangle { moved trefoil (Slide 1 2 2) ≡ Err (NoTriangle 1 2 2) }
    ensures heights { moved trefoil (Slide 1 2 3) ≡ Err Heights }
{}

/// A kink and a finger that are added and dropped, and a slide that is made twice at the same three
/// crossings, give the diagram back.
#[tactic(auto, unfolding(crate::specs::Moved::moved))]
pub fn worked_moves_are_taken_back()
    ensures kink { moved (without_loops (slots_with 3 1 4 4 ∷ slots_with 1 3 2 2
        ∷ [])) (KinkDrop 2) ≡ Ok curl }
    ensures finger { moved curl_fingered (FingerDrop 2 3) ≡ Ok curl }
    ensures slide { moved (without_loops (slots_with 5 2 6 1 ∷ slots_with 3 3 4 2
        ∷ slots_with 4 5 1 6 ∷ [])) (Slide 1 2 3)
        ≡ Ok (without_loops (slots_with 6 3 5 2 ∷ slots_with 4 2 1 1 ∷ slots_with 3 6 4 5 ∷ [])) }
    ensures back { moved (without_loops (slots_with 6 3 5 2 ∷ slots_with 4 2 1 1
        ∷ slots_with 3 6 4 5 ∷ [])) (Slide 1 2 3)
        ≡ Ok (without_loops (slots_with 5 2 6 1 ∷ slots_with 3 3 4 2 ∷ slots_with 4 5 1 6 ∷ [])) }
{}
