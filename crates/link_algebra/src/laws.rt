//! Laws of mirrors, reversals and unions.

pub mod twice;
pub mod worked;

ghost use Rattle.std.specs.Prelude.{◌≡◌, ◌+◌, ◌*◌, ◌^◌, ◌<◌, ◌≤◌, ℕ, ℤ, neg_ℤ, not, length, IsTrue};
ghost use Rattle.kh_types.specs.Acceptance.{accepted};
ghost use Rattle.kh_types.specs.Bits.{bit};
ghost use Rattle.kh_types.specs.Circles.{circle_count};
ghost use Rattle.kh_types.specs.Code.{Code, IsCrossing};
ghost use Rattle.kh_types.specs.Components.{component_count};
ghost use Rattle.kh_types.specs.Directions.{is_positive, minus_count, plus_count};
ghost use Rattle.kh_types.specs.StateSum.{state_sum};
ghost use Rattle.kh_types.specs.Table.{dimension};
ghost use Rattle.kh_types.specs.declared.limits.TheConstants.{COMPONENTS};
ghost use Rattle.prime_field.specs.Residues.{IsSmallPrime};
ghost use Rattle.link_algebra.specs.Mirrors.{mirror_of, opposite_state, reversal_of};
ghost use Rattle.link_algebra.specs.Unions.{product_coefficient, union_of};

/// The mirror of an accepted code is accepted, with as many components; each crossing has the
/// opposite sign.
pub fn mirrors_are_accepted()
    ensures accepted { (code : Code) → IsTrue (accepted code) → IsTrue (accepted (mirror_of code)) }
    ensures signs { (code : Code) (crossing : ℕ) → IsTrue (accepted code)
        → IsCrossing code.crossings crossing
        → is_positive (mirror_of code).crossings crossing ≡ not (is_positive code.crossings crossing) }
    ensures plus { (code : Code) → IsTrue (accepted code)
        → plus_count (mirror_of code).crossings ≡ minus_count code.crossings }
    ensures components { (code : Code) → IsTrue (accepted code)
        → component_count (mirror_of code).crossings ≡ component_count code.crossings }
{}

/// A state of the mirror has as many circles as the code's state with the other smoothing at each
/// crossing; so the state sum of the mirror is the code's with q^-1 for q.
pub fn mirrors_exchange_smoothings()
    ensures other { (code : Code) (state k : ℕ) → state < 2 ^ length code.crossings
        → k < length code.crossings → bit (opposite_state code state) k + bit state k ≡ 1 }
    ensures circles { (code : Code) (state : ℕ) → IsTrue (accepted code)
        → state < 2 ^ length code.crossings
        → circle_count (mirror_of code) (opposite_state code state) ≡ circle_count code state }
    ensures sums { (code : Code) (exponent : ℤ) → IsTrue (accepted code)
        → state_sum (mirror_of code) (neg_ℤ exponent) ≡ state_sum code exponent }
{}

/// The homology of the mirror is that of the code at the opposite degrees (Khovanov 2000).
pub fn mirrors_are_dual()
    ensures { (p : ℕ) (code : Code) (i j : ℤ) → IsSmallPrime p → IsTrue (accepted code)
        → dimension p (mirror_of code) (neg_ℤ i) (neg_ℤ j) ≡ dimension p code i j }
{}

/// The reversal of an accepted code is accepted, with as many components; each crossing keeps its
/// sign.
pub fn reversals_are_accepted()
    ensures accepted { (code : Code) → IsTrue (accepted code) → IsTrue (accepted (reversal_of code)) }
    ensures signs { (code : Code) (crossing : ℕ) → IsTrue (accepted code)
        → IsCrossing code.crossings crossing
        → is_positive (reversal_of code).crossings crossing ≡ is_positive code.crossings crossing }
    ensures components { (code : Code) → IsTrue (accepted code)
        → component_count (reversal_of code).crossings ≡ component_count code.crossings }
{}

/// Reversal keeps the circles of each state, so the state sum, and the homology.
pub fn reversals_keep_homology()
    ensures circles { (code : Code) (state : ℕ) → IsTrue (accepted code)
        → state < 2 ^ length code.crossings
        → circle_count (reversal_of code) state ≡ circle_count code state }
    ensures sums { (code : Code) (exponent : ℤ) → IsTrue (accepted code)
        → state_sum (reversal_of code) exponent ≡ state_sum code exponent }
    ensures dimensions { (p : ℕ) (code : Code) (i j : ℤ) → IsSmallPrime p → IsTrue (accepted code)
        → dimension p (reversal_of code) i j ≡ dimension p code i j }
{}

/// The union of accepted codes is accepted where their components and loops together are few
/// enough; it has the components of both, and each crossing keeps its sign.
pub fn unions_are_accepted()
    ensures accepted { (first second : Code) → IsTrue (accepted first) → IsTrue (accepted second)
        → component_count first.crossings + component_count second.crossings
        + (first.loops + second.loops) ≤ COMPONENTS → IsTrue (accepted (union_of first second)) }
    ensures components { (first second : Code) → IsTrue (accepted first) → IsTrue (accepted second)
        → component_count (union_of first second).crossings
        ≡ component_count first.crossings + component_count second.crossings }
    ensures plus { (first second : Code) → IsTrue (accepted first) → IsTrue (accepted second)
        → plus_count (union_of first second).crossings
        ≡ plus_count first.crossings + plus_count second.crossings }
    ensures minus { (first second : Code) → IsTrue (accepted first) → IsTrue (accepted second)
        → minus_count (union_of first second).crossings
        ≡ minus_count first.crossings + minus_count second.crossings }
{}

/// The state sum of a union is the product of the two: its coefficients are sums over all exponents
/// of the first, which are at most 3n and the components and loops in size.
pub fn state_sums_of_unions_are_products()
    ensures { (first second : Code) (most : ℕ) (exponent : ℤ) → IsTrue (accepted first)
        → IsTrue (accepted second)
        → 3 * length first.crossings + component_count first.crossings + first.loops ≤ most
        → state_sum (union_of first second) exponent
        ≡ product_coefficient most (state_sum first) (state_sum second) exponent }
{}
