//! The circles of what is left where a kink, or the two crossings of a bigon, are dropped, and its
//! components.

ghost use Rattle.std.specs.Prelude.{◌≡◌, ◌<◌, ◌++◌, ℕ, ℤ, true, false, ◌+◌, List, Bool, IsTrue, length, map, nat_eq, slice_index};
ghost use Rattle.std.specs.List.{range_with_len};
ghost use Rattle.kh_types.specs.Acceptance.{accepted};
ghost use Rattle.kh_types.specs.Bits.{bit};
ghost use Rattle.kh_types.specs.Circles.{circle_count};
ghost use Rattle.kh_types.specs.Classes.{AreBelow, class_count, classes_of};
ghost use Rattle.kh_types.specs.Code.{Code, arc_count};
ghost use Rattle.kh_types.specs.Components.{component_count};
ghost use Rattle.kink_and_finger_laws.specs.DropComponents.{parts_component_count};
ghost use Rattle.kh_types.specs.Darts.{HasArcsTwice};
ghost use Rattle.kink_and_finger_laws.specs.DropCircles.{closing_at, outer_pairs, parts_circle_count, parts_sum, through_at};
ghost use Rattle.kh_types.specs.StateSum.{state_sum, terms};
ghost use Rattle.kh_types.specs.WorkedCodes.{curl, over_circle, trefoil, two_curls};
ghost use Rattle.kink_and_finger_laws.specs.Drops.{without_finger};
ghost use Rattle.kink_and_finger_laws.specs.KinkAdds.{with_kink};
ghost use Rattle.kink_and_finger_laws.specs.WorkedDrops.{curl_fingered, curl_kinked};
ghost use Rattle.kink_and_finger_laws.specs.Dropping.{HasBigonAt, HasKinkAt};
ghost use Rattle.kink_and_finger_laws.specs.Drops.{dropped, kept_places, straight_pairs, without_kink};
ghost use Rattle.gluing_laws.specs.Glue.{renamed};
ghost use Rattle.kink_and_finger_laws.specs.Pulls.{early};

/// Pairs under the names of classes have as many classes as the pairs together with what joins
/// these classes, but for the numbers that name no class. So a state of the crossings that stay has
/// as many circles as there are classes of the straight pairs and of the smoothings of those that
/// stay, in the arcs before.
pub fn dropped_crossings_leave_circles()
    ensures contracted { (n : ℕ) (straight pairs : List (ℕ × ℕ)) → AreBelow n straight
        → AreBelow n pairs
        → class_count (classes_of n (renamed (slice_index (classes_of n straight)) pairs)) +
        class_count (classes_of n straight)
        ≡ class_count (classes_of n (straight ++ pairs)) + n }
    ensures dropped { (code : Code) (gone : ℕ → Bool) (kept : ℕ → ℕ) (k state new : ℕ)
        → HasArcsTwice code.crossings
        → kept_places code.crossings gone ≡ map kept (range_with_len 0 k)
        → ((i : ℕ) → i < k → kept i < length code.crossings)
        → ((i : ℕ) → i < k → bit new i ≡ bit state (kept i))
        → parts_circle_count (arc_count code.crossings + 1) (dropped code gone) new + 1
        ≡ class_count (classes_of (arc_count code.crossings + 1)
        (straight_pairs code.crossings gone ++ outer_pairs code.crossings gone state)) +
        code.loops }
{}

/// A state that goes through a kink has as many circles as the same state without the kink, and a
/// state that closes it has one more.
pub fn kinks_close_or_go_through()
    ensures through { (code : Code) (c p k state new : ℕ) → IsTrue (accepted code)
        → HasKinkAt code.crossings c p
        → length code.crossings ≡ k + 1 → ((i : ℕ) → i < k
        → bit new i ≡ bit state (early c k i)) → bit state c ≡ through_at p
        → circle_count code state
        ≡ parts_circle_count (arc_count code.crossings + 1) (without_kink code c) new }
    ensures closing { (code : Code) (c p k state new : ℕ) → IsTrue (accepted code)
        → HasKinkAt code.crossings c p
        → length code.crossings ≡ k + 1 → ((i : ℕ) → i < k
        → bit new i ≡ bit state (early c k i)) → bit state c ≡ closing_at p
        → circle_count code state
        ≡ parts_circle_count (arc_count code.crossings + 1) (without_kink code c) new + 1 }
{}

/// Dropping a crossing with a kink keeps the state sum.
pub fn dropped_kinks_keep_the_state_sum()
    ensures { (code : Code) (c p : ℕ) → IsTrue (accepted code) → HasKinkAt code.crossings c p
        → (exponent : ℤ)
        → parts_sum (arc_count code.crossings + 1) (without_kink code c) exponent
        ≡ state_sum code exponent }
{}

/// Dropping two crossings that meet in a bigon keeps the state sum.
pub fn dropped_bigons_keep_the_state_sum()
    ensures { (code : Code) (c d p q : ℕ) → IsTrue (accepted code)
        → HasBigonAt code.crossings c d p q → (exponent : ℤ)
        → parts_sum (arc_count code.crossings + 1) (without_finger code c d) exponent
        ≡ state_sum code exponent }
{}

/// Components and loops together stay where crossings are dropped, whichever they are.
pub fn dropped_crossings_keep_components()
    ensures { (code : Code) (gone : ℕ → Bool) (kept : ℕ → ℕ) (k : ℕ) → HasArcsTwice code.crossings
        → kept_places code.crossings gone ≡ map kept (range_with_len 0 k)
        → ((i : ℕ) → i < k → kept i < length code.crossings)
        → parts_component_count (arc_count code.crossings + 1) (dropped code gone)
        ≡ component_count code.crossings + code.loops }
{}

/// State sums of worked codes, before and after a move.
pub fn worked_sums()
    ensures curl { terms (parts_sum 3 (without_kink curl 0)) ≡ terms (state_sum curl) }
    ensures kinked { terms (parts_sum 5 (without_kink curl_kinked 1)) ≡ terms (state_sum curl) }
    ensures two { terms (parts_sum 5 (without_kink two_curls 0)) ≡ terms (state_sum two_curls) }
    ensures over { terms (parts_sum 5 (without_finger over_circle 0 1))
        ≡ terms (state_sum over_circle) }
    ensures fingered { terms (parts_sum 7 (without_finger curl_fingered 0 1))
        ≡ terms (state_sum curl_fingered) }
    ensures under_plus { terms (state_sum (with_kink false true 2 curl)) ≡ terms (state_sum curl) }
    ensures under_minus { terms (state_sum (with_kink false false 2 curl))
        ≡ terms (state_sum curl) }
    ensures over_plus { terms (state_sum (with_kink true true 1 curl)) ≡ terms (state_sum curl) }
    ensures over_minus { terms (state_sum (with_kink true false 1 curl)) ≡ terms (state_sum curl) }
    ensures trefoil_accepted { accepted (with_kink true false 3 trefoil) ≡ true }
    ensures circle_accepted { accepted (with_kink true true 4 over_circle) ≡ true }
{}
