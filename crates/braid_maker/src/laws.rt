//! What closed braids are as codes, and how many generators those of numbers have.

ghost use Rattle.std.specs.Prelude.{◌≡◌, ◌<◌, ◌≤◌, ◌+◌, ◌-◌, ◌*◌, ◌^◌, ℕ, ℤ, List, Bool, [], ◌∷◌, pos, neg_ℤ, codes, int_lt, length, slice_index_or, true, IsTrue};
ghost use Rattle.kh_types.specs.declared.limits.TheConstants.{COMPONENTS};
ghost use Rattle.kh_types.specs.Checkerboard.{IsCheckerboard};
ghost use Rattle.kh_types.specs.Code.{IsCrossing};
ghost use Rattle.kh_types.specs.Darts.{HasArcsTwice};
ghost use Rattle.kh_types.specs.Directions.{is_positive};
ghost use Rattle.gluing_laws.specs.Alike.{AreAlike};
ghost use Rattle.kh_types.specs.Acceptance.{accepted, first_fault, checkerboard_fault, genus_fault, arc_times_fault};
ghost use Rattle.kh_types.specs.Faces.{face_count, piece_count, planar_face_count};
ghost use Rattle.kh_types.specs.Components.{component_count};
ghost use Rattle.kh_types.specs.StateSum.{state_sum, polynomial_text};
ghost use Rattle.kh_types.specs.WorkedCodes.{slots_with, one_loop, curl, over_circle, hopf_link};
ghost use Rattle.circle_smoothing.specs.GeneratorCounts.{generator_count};
ghost use Rattle.circle_smoothing.specs.declared.limits.TheConstants.{GENERATORS};
ghost use Rattle.braid_maker.specs.declared.limits.TheConstants.{LETTERS, NUMBERS, STRANDS};
ghost use Rattle.braid_maker.specs.Words.{closed_crossings};
ghost use Rattle.braid_maker.specs.Braids.{braid_crossings, braid_code, letter_at};
ghost use Rattle.code_passes.specs.Parts.{passes_through};
ghost use Rattle.orient_arcs.specs.Renumbered.{name_in_component, named_components};
ghost use Rattle.braid_maker.specs.Bottoms.{HasBottom, IsLeastBottom, bottom_name};
ghost use Rattle.braid_maker.specs.Closures.{closure, closure_parts, code_of_number, letters_of, AreLetters};

/// Closures worked out: how many pieces, faces and loops, the trefoil, the figure eight knot, and
/// the number 0.
pub fn known_closures()
    ensures pieces { piece_count (braid_crossings (pos 1 ∷ pos 1 ∷ neg_ℤ (pos 3) ∷ pos 3 ∷ []))
        ≡ 2 }
    ensures faces { face_count (braid_crossings (pos 1 ∷ pos 1 ∷ neg_ℤ (pos 3) ∷ pos 3 ∷ [])) ≡ 8 }
    ensures loops { (braid_code 6 (pos 1 ∷ pos 1 ∷ neg_ℤ (pos 3) ∷ pos 3 ∷ [])).loops ≡ 2 }
    ensures alone { closure 1 [] ≡ one_loop }
    ensures over { closure 2 (pos 1 ∷ neg_ℤ (pos 1) ∷ []) ≡ record {
      crossings = slots_with 3 2 4 1 ∷ slots_with 4 2 3 1 ∷ [];
      loops = 0;
    } }
    ensures trefoil { (closure 2 (pos 1 ∷ pos 1 ∷ pos 1 ∷ [])).crossings
        ≡ slots_with 4 2 5 1 ∷ slots_with 2 6 3 5 ∷ slots_with 6 4 1 3 ∷ [] }
    ensures accepted { accepted (closure 2 (pos 1 ∷ pos 1 ∷ pos 1 ∷ [])) ≡ true }
    ensures eight { polynomial_text (state_sum (closure 3
        (pos 1 ∷ neg_ℤ (pos 2) ∷ pos 1 ∷ neg_ℤ (pos 2) ∷ []))) ≡ codes "jones 1*q^-5 1*q^5\n" }
    ensures trefoil_jones { polynomial_text (state_sum (closure 2 (pos 1 ∷ pos 1 ∷ pos 1 ∷ [])))
        ≡ codes "jones 1*q^1 1*q^3 1*q^5 -1*q^9\n" }
    ensures number { letters_of 3 27 ≡ neg_ℤ (pos 2) ∷ pos 2 ∷ neg_ℤ (pos 1) ∷ [] }
    ensures bench_loops { (code_of_number 0).loops ≡ 1 }
    ensures bench_crossings { length (code_of_number 0).crossings ≡ 10 }
{}

/// How many generators the diagram of the number 0 has.
pub fn generators_of_the_first_number()
    ensures { generator_count (code_of_number 0) ≡ 118104 }
{}

/// The closed braid of any letters, before its arcs are numbered: each arc stands twice, there is a
/// checkerboard choice, and there are as many faces as on the sphere.
pub fn closed_braids_are_planar()
    ensures twice { (n : ℕ) (left : ℕ → ℕ) (is_over : ℕ → Bool) → HasArcsTwice (closed_crossings n left is_over) }
    ensures checkerboard { (n : ℕ) (left : ℕ → ℕ) (is_over : ℕ → Bool) (others : List (List ℕ))
        → AreAlike (closed_crossings n left is_over) others → HasArcsTwice others → IsCheckerboard others }
    ensures faces { (n bound : ℕ) (left : ℕ → ℕ) (is_over : ℕ → Bool)
        → ((place : ℕ) → place < n → left place + 1 < bound)
        → face_count (closed_crossings n left is_over) ≡ planar_face_count (closed_crossings n left is_over) }
    ensures alike { (n bound : ℕ) (left : ℕ → ℕ) (is_over : ℕ → Bool) (others : List (List ℕ))
        → AreAlike (closed_crossings n left is_over) others → HasArcsTwice others
        → ((place : ℕ) → place < n → left place + 1 < bound)
        → face_count others ≡ planar_face_count others }
{}

/// The closure of each braid is accepted. Its components and loops are at most as many as its
/// strands, and it has at most 2^strands times 3^letters generators.
pub fn closures_are_accepted()
    ensures accepted { (strands : ℕ) (letters : List ℤ) → AreLetters strands letters
        → strands ≤ COMPONENTS → IsTrue (accepted (closure strands letters)) }
    ensures components { (strands : ℕ) (letters : List ℤ) → AreLetters strands letters
        → component_count (closure strands letters).crossings
        + (closure strands letters).loops ≤ strands }
    ensures generators { (strands : ℕ) (letters : List ℤ) → AreLetters strands letters
        → generator_count (closure strands letters) ≤ 2 ^ strands * 3 ^ length letters }
{}

/// A crossing of a closure is positive exactly where its letter is.
pub fn closures_have_the_signs_of_their_letters()
    ensures { (strands : ℕ) (letters : List ℤ) (crossing : ℕ)
        → IsCrossing (closure strands letters).crossings crossing
        → is_positive (closure strands letters).crossings crossing
        ≡ int_lt (pos 0) (letter_at letters (crossing - 1)) }
{}

/// The arc through the bottom of a position has that position as its name, before the arcs are
/// numbered; and each component of a closure begins with the least bottom that it passes, before
/// components are turned.
pub fn components_of_closures_begin_at_their_least_bottoms()
    ensures names { (strands : ℕ) (letters : List ℤ) (position : ℕ)
        → HasBottom strands letters position → bottom_name strands letters position ≡ position }
    ensures least { (strands : ℕ) (letters : List ℤ) (at : ℕ) → AreLetters strands letters
        → at < length (named_components (passes_through (closure_parts strands letters)))
        → IsLeastBottom strands letters
        (slice_index_or (named_components (passes_through (closure_parts strands letters))) at [])
        (name_in_component (named_components (passes_through (closure_parts strands letters))) at
        0) }
{}

/// The code of each number is accepted, and its generators are within the limit.
pub fn numbers_give_small_diagrams()
    ensures accepted { (number : ℕ) → IsTrue (accepted (code_of_number number)) }
    ensures few { (number : ℕ) → generator_count (code_of_number number) ≤ 472392 }
    ensures within { (number : ℕ) → generator_count (code_of_number number) ≤ GENERATORS }
{}

/// The limits: as many diagrams have a number as there are lists of ten letters on three strands.
pub fn limits()
    ensures strands { STRANDS ≡ 8 }
    ensures letters { LETTERS ≡ 16 }
    ensures numbers { NUMBERS ≡ 1048576 }
    ensures digits { NUMBERS ≡ 4 ^ 10 }
{}
