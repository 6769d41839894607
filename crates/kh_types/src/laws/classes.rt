//! What classes are.

ghost use Rattle.std.specs.Prelude.{◌≡◌, ◌≢◌, ◌↔◌, ℕ, ◌+◌, ◌<◌, List, [], ◌∷◌, ◌++◌, slice_index};
ghost use Rattle.kh_types.specs.Classes.{classes_of, class_count, Respects, AreBelow, IsNamed};

/// The two numbers of each pair are in one class; and whatever has one value at the numbers of each
/// pair has one value on each class. So the classes are the finest in which the numbers of each
/// pair are together.
pub fn classes_are_finest()
    ensures together { (n : ℕ) (pairs : List (ℕ × ℕ)) → AreBelow n pairs
        → Respects (λ x. slice_index (classes_of n pairs) x) pairs }
    ensures finest { (f : ℕ → ℕ) (n : ℕ) (pairs : List (ℕ × ℕ)) → Respects f pairs
        → AreBelow n pairs → (x y : ℕ) → x < n → y < n
        → slice_index (classes_of n pairs) x ≡ slice_index (classes_of n pairs) y → f x ≡ f y }
{}

/// Each class is named by its least number. Pairs that the same functions respect have the same
/// classes, so neither their order nor their direction matters. One more pair lowers the number of
/// classes by one where it joins two of them, and changes nothing where its numbers are in one.
pub fn classes_by_pairs()
    ensures named { (n : ℕ) (pairs : List (ℕ × ℕ)) → AreBelow n pairs
        → IsNamed n (classes_of n pairs) }
    ensures same { (n : ℕ) (pairs others : List (ℕ × ℕ)) → AreBelow n pairs → AreBelow n others
        → ((f : ℕ → ℕ) → Respects f pairs ↔ Respects f others)
        → classes_of n pairs ≡ classes_of n others }
    ensures apart { (n : ℕ) (pairs : List (ℕ × ℕ)) (pair : ℕ × ℕ)
        → AreBelow n pairs → pair.0 < n → pair.1 < n
        → slice_index (classes_of n pairs) pair.0 ≢ slice_index (classes_of n pairs) pair.1
        → class_count (classes_of n pairs) ≡ class_count (classes_of n (pairs ++ pair ∷ [])) + 1 }
    ensures together { (n : ℕ) (pairs : List (ℕ × ℕ)) (pair : ℕ × ℕ)
        → slice_index (classes_of n pairs) pair.0 ≡ slice_index (classes_of n pairs) pair.1
        → classes_of n (pairs ++ pair ∷ []) ≡ classes_of n pairs }
{}
