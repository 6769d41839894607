//! Mirrors of mirrors, and reversals of reversals.

ghost use Rattle.std.specs.Prelude.{◌≡◌, ℕ, ℤ, length, IsTrue};
ghost use Rattle.std.specs.List.{All};
ghost use Rattle.kh_types.specs.Acceptance.{accepted};
ghost use Rattle.kh_types.specs.Code.{Code, IsCrossing};
ghost use Rattle.kh_types.specs.Directions.{is_positive};
ghost use Rattle.kh_types.specs.StateSum.{state_sum};
ghost use Rattle.kh_types.specs.Table.{dimension};
ghost use Rattle.gluing_laws.specs.Alike.{AreAlike};
ghost use Rattle.prime_field.specs.Residues.{IsSmallPrime};
ghost use Rattle.link_algebra.specs.Mirrors.{EntersInOrder, mirror_of, mirror_parts, reversal_of};

/// The mirror of the mirror is the code, up to the numbers of its arcs: two slots hold one arc in
/// the one exactly where they do so in the other, and each crossing has its sign. So it has its
/// state sum and its homology.
pub fn mirrors_come_back()
    ensures crossings { (code : Code) → IsTrue (accepted code)
        → AreAlike code.crossings (mirror_of (mirror_of code)).crossings }
    ensures loops { (code : Code) → (mirror_of (mirror_of code)).loops ≡ code.loops }
    ensures signs { (code : Code) (crossing : ℕ) → IsTrue (accepted code)
        → IsCrossing code.crossings crossing → is_positive (mirror_of (mirror_of code)).crossings crossing
        ≡ is_positive code.crossings crossing }
    ensures sums { (code : Code) (exponent : ℤ) → IsTrue (accepted code)
        → state_sum (mirror_of (mirror_of code)) exponent ≡ state_sum code exponent }
    ensures dimensions { (p : ℕ) (code : Code) (i j : ℤ) → IsSmallPrime p → IsTrue (accepted code)
        → dimension p (mirror_of (mirror_of code)) i j ≡ dimension p code i j }
{}

/// Where each circle of two arcs that lies under all that it meets enters the first listed of its
/// crossings on its first arc, the mirror keeps the numbers of all arcs; then the mirror of the
/// mirror is the code, where each crossing has four slots; and else it is not. Mirrors themselves
/// are so.
pub fn mirrors_keep_numbers()
    ensures kept { (code : Code) → IsTrue (accepted code) → EntersInOrder code.crossings
        → (mirror_of code).crossings ≡ (mirror_parts code).crossings }
    ensures twice { (code : Code) → IsTrue (accepted code) → EntersInOrder code.crossings
        → All (λ slots. length slots ≡ 4) code.crossings → mirror_of (mirror_of code) ≡ code }
    ensures only { (code : Code) → IsTrue (accepted code) → mirror_of (mirror_of code) ≡ code
        → EntersInOrder code.crossings }
    ensures mirrors { (code : Code) → IsTrue (accepted code)
        → EntersInOrder (mirror_of code).crossings }
{}

/// The reversal of the reversal is the code, up to the numbers of its arcs; and with them where
/// each crossing has four slots.
pub fn reversals_come_back()
    ensures crossings { (code : Code) → IsTrue (accepted code)
        → AreAlike code.crossings (reversal_of (reversal_of code)).crossings }
    ensures loops { (code : Code) → (reversal_of (reversal_of code)).loops ≡ code.loops }
    ensures signs { (code : Code) (crossing : ℕ) → IsTrue (accepted code)
        → IsCrossing code.crossings crossing
        → is_positive (reversal_of (reversal_of code)).crossings crossing
        ≡ is_positive code.crossings crossing }
    ensures twice { (code : Code) → IsTrue (accepted code)
        → All (λ slots. length slots ≡ 4) code.crossings → reversal_of (reversal_of code) ≡ code }
{}
