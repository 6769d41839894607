//! The numbers of small surfaces.

ghost use Rattle.std.specs.Prelude.{◌≡◌, ℕ, ◌+◌, ◌<◌, List, [], ◌∷◌, nat_eq, if◌then◌else◌};
ghost use Rattle.surface_laws.specs.Surfaces.{HasGenus, value};
ghost use Rattle.surface_laws.specs.Cuts.{sum_over_labels};
ghost use Rattle.surface_laws.specs.Worked.{patched, sphere, torus, double_torus, stripped, pants, behind, merged_number, split_number};

/// A sphere counts once where it has one mark, and a torus twice where it has none. Two dots count
/// as h dots, two hollow dots as k hollow dots, and one of each kind 0.
pub fn small_surfaces()
    ensures sphere { (h k : ℕ) → value h k (sphere 0 0) ≡ 0 }
    ensures dotted { (h k : ℕ) → value h k (sphere 0 1) ≡ 1 }
    ensures hollow { (h k : ℕ) → value h k (sphere 0 2) ≡ 1 }
    ensures both_kinds { (h k : ℕ) → value h k (sphere 1 2) ≡ 0 }
    ensures twice_dotted { (h k : ℕ) → value h k (sphere 1 1) ≡ h }
    ensures twice_hollow { (h k : ℕ) → value h k (sphere 2 2) ≡ k }
    ensures torus { (h k : ℕ) → value h k torus ≡ 2 }
    ensures cut_torus { (h k : ℕ) → sum_over_labels h k (patched []) ((0, 0) ∷ []) ≡ 2 }
    ensures double_torus { (h k : ℕ) → value h k double_torus ≡ h + k }
{}

/// A saddle is a strip: two half strips that lower the Euler count. A split and then a merge make a
/// torus of the sphere, 2. It is none where one half strip is left out, where each strip is counted
/// once, or where both raise the Euler count. Strips that raise it take as many back, each half of
/// them: 8 less 3 are those of no closed surface.
pub fn strips_count_in_halves()
    ensures torus { (h k : ℕ) → value h k (stripped 4 0) ≡ 2 }
    ensures one_left_out { (h k : ℕ) → value h k (stripped 3 0) ≡ 0 }
    ensures counted_once { (h k : ℕ) → value h k (stripped 2 0) ≡ 0 }
    ensures other_side { (h k : ℕ) → value h k (stripped 0 4) ≡ 0 }
    ensures taken_back { (h k : ℕ) → value h k (stripped 8 4) ≡ 2 }
    ensures not_taken_back { (h k : ℕ) → value h k (stripped 8 0) ≡ h + k }
    ensures three_taken_back { (genus : ℕ) → ¬ HasGenus (stripped 8 3) 0 genus }
{}

/// A cylinder is an identity: 1 where the labels of its ends agree, and else 0.
pub fn cylinders_are_identities()
    ensures { (h k label other : ℕ) → label < 2 → other < 2
        → value h k (sphere label (behind other)) ≡ (if nat_eq label other then 1 else 0) }
{}

/// The pair of pants is the merge table and the split table, each with a row more.
pub fn pants_are_tables()
    ensures merge { (h k x y z : ℕ) → x < 2 → y < 2 → z < 2 → value h k (pants x y (behind z)) ≡ merged_number h x y z }
    ensures split { (h k x y z : ℕ) → x < 2 → y < 2 → z < 2 → value h k (pants x (behind y) (behind z)) ≡ split_number k x y z }
{}
