//! What is read off a last page.

ghost use Rattle.std.specs.Prelude.{◌≡◌, ◌≢◌, ℕ, ◌<◌, ℤ, pos, ◌<ℤ◌, ◌≤ℤ◌, IsTrue};
ghost use Rattle.kh_types.specs.Acceptance.{accepted};
ghost use Rattle.kh_types.specs.Code.{Code};
ghost use Rattle.kh_types.specs.Residues.{HasInverses};
ghost use Rattle.link_laws.specs.CodeSurvivors.{code_survivors};
ghost use Rattle.link_laws.specs.LastPages.{deformed_count, s_max, s_min};

/// Where there are classes of degree 0, s_min is the greatest quantum degree from which on all of
/// them survive, and s_max the greatest from which on some do.
pub fn classes_survive_from_s_min_and_s_max()
    ensures all { (p : ℕ) (code : Code) (t : ℤ) → HasInverses p → IsTrue (accepted code)
        → t ≤ℤ s_min p code → code_survivors p 1 code (pos 0) t ≡ deformed_count p code (pos 0) }
    ensures fewer { (p : ℕ) (code : Code) (t : ℤ) → HasInverses p → IsTrue (accepted code)
        → s_min p code <ℤ t → deformed_count p code (pos 0) ≢ 0
        → code_survivors p 1 code (pos 0) t < deformed_count p code (pos 0) }
    ensures some { (p : ℕ) (code : Code) (t : ℤ) → HasInverses p → IsTrue (accepted code)
        → t ≤ℤ s_max p code → deformed_count p code (pos 0) ≢ 0
        → 0 < code_survivors p 1 code (pos 0) t }
    ensures none { (p : ℕ) (code : Code) (t : ℤ) → HasInverses p → IsTrue (accepted code)
        → s_max p code <ℤ t → code_survivors p 1 code (pos 0) t ≡ 0 }
{}
