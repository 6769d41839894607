//! What is left where crossings are dropped.

ghost use Rattle.std.specs.Prelude.{◌≡◌, Bool, ℕ, ◌<◌, List, IsTrue, true, length};
ghost use Rattle.kh_types.specs.Acceptance.{accepted};
ghost use Rattle.kh_types.specs.Code.{Code};
ghost use Rattle.kink_and_finger_laws.specs.Drops.{dropped, is_bigon, is_kink, without_finger, without_kink};
ghost use Rattle.kh_types.specs.Code.{IsArc};
ghost use Rattle.kh_types.specs.Darts.{HasArcsTwice};
ghost use Rattle.code_passes.specs.Parts.{Parts};
ghost use Rattle.kink_and_finger_laws.specs.DropRule.{AreJoinedNames, IsLeft};
ghost use Rattle.kink_and_finger_laws.specs.Dropping.{HasBigonAt, HasKinkAt, IsPlanarRest};
ghost use Rattle.code_passes.specs.Parts.{slots_in};
ghost use Rattle.kink_and_finger_laws.specs.WorkedDrops.{curl_fingered, curl_kinked};

/// Where a crossing with a kink is dropped from an accepted code, each arc that is left has one
/// head and one tail, there is a checkerboard choice, and there are as many faces as on the sphere.
pub fn dropped_kinks_stay_planar()
    ensures found { (crossings : List (List ℕ)) (c : ℕ) → c < length crossings
        → is_kink (slots_in crossings c) ≡ true → (p : ℕ) × HasKinkAt crossings c p }
    ensures sound { (code : Code) (c p : ℕ) → IsTrue (accepted code) → HasKinkAt code.crossings c p
        → IsPlanarRest (without_kink code c) }
    ensures worked { HasKinkAt curl_kinked.crossings 1 2 }
{}

/// So where two crossings that meet in a bigon are dropped.
pub fn dropped_bigons_stay_planar()
    ensures found { (crossings : List (List ℕ)) (c d : ℕ) → c < length crossings
        → d < length crossings
        → is_bigon crossings c d ≡ true → (p : ℕ) × (q : ℕ) × HasBigonAt crossings c d p q }
    ensures sound { (code : Code) (c d p q : ℕ) → IsTrue (accepted code)
        → HasBigonAt code.crossings c d p q
        → IsPlanarRest (without_finger code c d) }
    ensures worked { HasBigonAt curl_fingered.crossings 0 1 1 0 }
{}

/// What is left where crossings are dropped follows the rule, and nothing else does: arcs are
/// joined straight through the crossings that are gone, and each is named by the least that it is
/// joined with; the other crossings keep their order and their signs; and a ring without a crossing
/// is a loop.
pub fn drops_follow_the_rule()
    ensures rule { (code : Code) (gone : ℕ → Bool) → HasArcsTwice code.crossings
        → IsLeft code gone (dropped code gone) }
    ensures one { (code : Code) (gone : ℕ → Bool) (parts others : Parts)
        → HasArcsTwice code.crossings → IsLeft code gone parts → IsLeft code gone others
        → parts ≡ others }
    ensures names { (crossings : List (List ℕ)) (gone : ℕ → Bool) (name other : ℕ → ℕ)
        → AreJoinedNames crossings gone name → AreJoinedNames crossings gone other → (arc : ℕ)
        → IsArc crossings arc → name arc ≡ other arc }
{}
