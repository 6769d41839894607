//! Diagrams in several pieces: up to numbers and order a diagram is the union of its pieces.

ghost use Rattle.std.specs.Prelude.{◌≡◌, ◌+◌, ◌<◌, ◌≤◌, ℕ, ℤ, Bool, IsTrue, false, length, not, true};
ghost use Rattle.kh_types.specs.Acceptance.{accepted};
ghost use Rattle.kh_types.specs.Code.{Code, IsCrossing};
ghost use Rattle.kh_types.specs.Directions.{is_positive};
ghost use Rattle.kh_types.specs.Faces.{piece_count};
ghost use Rattle.kh_types.specs.Residues.{HasInverses};
ghost use Rattle.kh_types.specs.Table.{dimension, table};
ghost use Rattle.kh_types.specs.declared.limits.TheConstants.{CROSSINGS};
ghost use Rattle.prime_field.specs.Residues.{IsSmallPrime};
ghost use Rattle.order_laws.specs.Orders.{IsReordered, listed_by};
ghost use Rattle.gluing_laws.specs.Codes.{IsRenumbered};
ghost use Rattle.link_algebra.specs.Unions.{union_of};
ghost use Rattle.union_laws.specs.Pieces.{IsCut, first_piece, is_in_first_piece, kept_first, other_pieces, part_of};
ghost use Rattle.union_laws.specs.UnitedRows.{rows_product};

/// No arc joins the first piece of a code to the others; the first crossing is in it, and where
/// there are more pieces, so that some crossing is not.
pub fn pieces_share_no_arc()
    ensures cut { (code : Code) → IsTrue (accepted code)
        → IsCut (is_in_first_piece code.crossings) code.crossings }
    ensures first { (code : Code) → IsTrue (accepted code) → 0 < length code.crossings
        → is_in_first_piece code.crossings 0 ≡ true }
    ensures others { (code : Code) → IsTrue (accepted code) → 1 < piece_count code.crossings
        → (place : ℕ) × (place < length code.crossings)
        × (is_in_first_piece code.crossings place ≡ false) }
{}

/// The pieces of two parts are together those of the code; the first piece is one, and the others
/// are all but one.
pub fn pieces_are_counted()
    ensures parts { (keep : ℕ → Bool) (code : Code) (loops others : ℕ) → IsTrue (accepted code)
        → IsCut keep code.crossings → loops + others ≡ code.loops
        → piece_count (part_of keep code loops).crossings
        + piece_count (part_of (λ place. not (keep place)) code others).crossings
        ≡ piece_count code.crossings }
    ensures first { (code : Code) → IsTrue (accepted code) → 0 < length code.crossings
        → piece_count (first_piece code).crossings ≡ 1 }
    ensures others { (code : Code) → IsTrue (accepted code) → 0 < length code.crossings
        → piece_count (other_pieces code).crossings + 1 ≡ piece_count code.crossings }
{}

/// Crossings of an accepted code that share no arc with the others are an accepted code.
pub fn parts_are_accepted()
    ensures { (keep : ℕ → Bool) (code : Code) (loops : ℕ) → IsTrue (accepted code)
        → IsCut keep code.crossings → loops ≤ code.loops
        → IsTrue (accepted (part_of keep code loops)) }
{}

/// A code is the union of such crossings and of the others, up to order and numbers: its crossings
/// are those of the one part, then those of the other, under other numbers, and each keeps its
/// sign.
pub fn codes_are_unions_of_parts()
    ensures order { (keep : ℕ → Bool) (code : Code)
        → IsReordered code.crossings (kept_first keep code.crossings) }
    ensures numbers { (keep : ℕ → Bool) (code : Code) (loops others : ℕ) → IsTrue (accepted code)
        → IsCut keep code.crossings → loops + others ≡ code.loops
        → (f : ℕ → ℕ) × IsRenumbered f (listed_by code (kept_first keep code.crossings))
        (union_of (part_of keep code loops) (part_of (λ place. not (keep place)) code others)) }
    ensures signs { (keep : ℕ → Bool) (code : Code) (loops others crossing : ℕ)
        → IsTrue (accepted code) → IsCut keep code.crossings → loops + others ≡ code.loops
        → IsCrossing code.crossings crossing
        → is_positive (union_of (part_of keep code loops)
        (part_of (λ place. not (keep place)) code others)).crossings crossing
        ≡ is_positive (kept_first keep code.crossings) crossing }
    ensures accepted { (keep : ℕ → Bool) (code : Code) (loops others : ℕ) → IsTrue (accepted code)
        → IsCut keep code.crossings → loops + others ≡ code.loops
        → IsTrue (accepted (union_of (part_of keep code loops)
        (part_of (λ place. not (keep place)) code others))) }
{}

/// So tables of parts multiply, and those of pieces: the dimension of a code at (i, j) is the sum
/// of the products of the dimensions of a row of either, over all pairs of rows whose degrees add
/// up to i and j.
pub fn pieces_multiply_tables()
    ensures parts { (p : ℕ) (keep : ℕ → Bool) (code : Code) (loops others : ℕ) → HasInverses p
        → IsTrue (accepted code) → IsCut keep code.crossings → length code.crossings ≤ CROSSINGS
        → loops + others ≡ code.loops → (i j : ℤ) → dimension p code i j
        ≡ rows_product (table p (part_of keep code loops)).rows
        (table p (part_of (λ place. not (keep place)) code others)).rows i j }
    ensures pieces { (p : ℕ) (code : Code) → HasInverses p → IsTrue (accepted code)
        → length code.crossings ≤ CROSSINGS → (i j : ℤ) → dimension p code i j
        ≡ rows_product (table p (first_piece code)).rows (table p (other_pieces code)).rows i j }
    ensures small { (p : ℕ) (code : Code) → IsSmallPrime p → IsTrue (accepted code)
        → length code.crossings ≤ CROSSINGS → (i j : ℤ) → dimension p code i j
        ≡ rows_product (table p (first_piece code)).rows (table p (other_pieces code)).rows i j }
{}
