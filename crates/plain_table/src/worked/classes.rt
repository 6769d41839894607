//! Bits of numbers, and classes of numbers that pairs join, on small numbers.

ghost use Rattle.std.specs.Prelude.{◌≡◌, [], ◌∷◌, true, false};
ghost use Rattle.kh_types.specs.Bits.{bit, ones};
ghost use Rattle.kh_types.specs.Classes.{merged, merged_all, joined, classes_of, is_least};

/// The bits of 24, whose digits to the base 2 are 11000, and of 22, whose digits are 10110.
pub fn worked_bits()
    ensures bit { bit 24 3 ≡ 1 }
    ensures bit_zero { bit 24 2 ≡ 0 }
    ensures ones { ones 4 22 ≡ 2 }
    ensures ones_all { ones 5 22 ≡ 3 }
{}

/// Classes of numbers from 0 on: the class of a number is the least number in it.
pub fn worked_classes()
    // The classes 4 and 2 become one, in either order: 4 becomes 2, and 5 stays.
    ensures merged { merged 4 2 4 ≡ 2 }
    ensures merged_turned { merged 2 4 4 ≡ 2 }
    ensures merged_other { merged 4 2 5 ≡ 5 }
    ensures merged_all { merged_all 4 2 (0 ∷ 2 ∷ 3 ∷ 4 ∷ 4 ∷ []) ≡ 0 ∷ 2 ∷ 3 ∷ 2 ∷ 2 ∷ [] }
    // Among the classes 0, 1 2 and 3 4 a pair joins the class of 2 and that of 4.
    ensures joined { joined (0 ∷ 1 ∷ 1 ∷ 3 ∷ 3 ∷ []) (2, 4) ≡ 0 ∷ 1 ∷ 1 ∷ 1 ∷ 1 ∷ [] }
    ensures classes_of { classes_of 6 ((1, 4) ∷ (5, 2) ∷ (4, 5) ∷ []) ≡ 0 ∷ 1 ∷ 1 ∷ 3 ∷ 1 ∷ 1 ∷ [] }
    ensures is_least { is_least (0 ∷ 1 ∷ 1 ∷ 3 ∷ 3 ∷ []) 1 ≡ true }
    ensures is_least_not { is_least (0 ∷ 1 ∷ 1 ∷ 3 ∷ 3 ∷ []) 2 ≡ false }
{}
