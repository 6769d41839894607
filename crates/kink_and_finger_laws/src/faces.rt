//! What keeps crossings on the sphere.

ghost use Rattle.std.specs.Prelude.{◌≡◌, ◌≤◌, ◌<◌, ℕ, ◌+◌, ◌*◌};
ghost use Rattle.kink_and_finger_laws.specs.Pulls.{AreNew, IsClosedPlanar, kinked, smoothed};

/// A crossing that is smoothed away leaves the others on the sphere, and so does a kink that is
/// added.
pub fn moves_stay_planar()
    ensures smoothed { (k : ℕ) (partner : ℕ → ℕ) (c p : ℕ) → IsClosedPlanar (k + 1) partner → c ≤ k
        → IsClosedPlanar k (smoothed partner c k p) }
    ensures kinked { (n : ℕ) (partner : ℕ → ℕ) (x u w v s : ℕ) → IsClosedPlanar n partner
        → x < 4 * n → AreNew n u w v s
        → IsClosedPlanar (n + 1) (kinked n partner x u w v s) }
    ensures under_plus { (n : ℕ) → AreNew n (4 * n) (4 * n + 1) (4 * n + 2) (4 * n + 3) }
    ensures under_minus { (n : ℕ) → AreNew n (4 * n) (4 * n + 3) (4 * n + 1) (4 * n + 2) }
    ensures over_plus { (n : ℕ) → AreNew n (4 * n + 3) (4 * n + 2) (4 * n) (4 * n + 1) }
    ensures over_minus { (n : ℕ) → AreNew n (4 * n + 1) (4 * n + 2) (4 * n + 3) (4 * n) }
{}
