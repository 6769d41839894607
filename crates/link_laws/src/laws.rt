//! Diagrams of one link, and what they have in common.

ghost use Rattle.std.specs.Prelude.{◌≡◌, ◌+◌, ℕ, ℤ, Bool, IsTrue, Ok, not};
ghost use Rattle.kh_types.specs.Acceptance.{accepted};
ghost use Rattle.kh_types.specs.Code.{Code};
ghost use Rattle.kh_types.specs.Residues.{HasInverses};
ghost use Rattle.kh_types.specs.StateSum.{state_sum};
ghost use Rattle.kh_types.specs.Table.{dimension, table};
ghost use Rattle.prime_field.specs.Residues.{IsSmallPrime};
ghost use Rattle.diagram_moves.specs.Moved.{moved};
ghost use Rattle.diagram_moves.specs.declared.change.Move.{Move};
ghost use Rattle.link_algebra.specs.Unions.{union_of};
ghost use Rattle.union_laws.specs.Pieces.{IsCut, first_piece, other_pieces, part_of};
ghost use Rattle.link_laws.specs.CodeSurvivors.{code_survivors};
ghost use Rattle.link_laws.specs.LastPages.{lasting_of, s, s_max, s_min};
ghost use Rattle.link_laws.specs.Links.{AreOneLink};

/// That two codes are diagrams of one link is an equivalence of accepted codes.
pub fn one_link_is_an_equivalence()
    ensures own { (code : Code) → IsTrue (accepted code) → AreOneLink code code }
    ensures back { (first last : Code) → AreOneLink first last → AreOneLink last first }
    ensures onward { (first middle last : Code) → AreOneLink first middle → AreOneLink middle last
        → AreOneLink first last }
    ensures accepted { (first last : Code) → AreOneLink first last → IsTrue (accepted last) }
{}

/// Each move of the program keeps the link, also where it adds a kink or a finger: for these are
/// dropped again.
pub fn moves_keep_the_link()
    ensures { (code new : Code) (change : Move) → IsTrue (accepted code)
        → moved code change ≡ Ok new → AreOneLink code new }
{}

/// All diagrams of one link have the same survivors, at each homological degree and from each
/// quantum degree on, whatever h is.
pub fn links_have_the_same_survivors()
    ensures { (p h : ℕ) (first last : Code) → HasInverses p → AreOneLink first last
        → (i t : ℤ) → code_survivors p h last i t ≡ code_survivors p h first i t }
{}

/// They have one last page: at each homological degree as many classes last up to each quantum
/// degree (Rasmussen 2010; Mackaay, Turner and Vaz 2007; Lipshitz and Sarkar 2014).
pub fn links_have_one_last_page()
    ensures lasting { (p : ℕ) (first last : Code) → HasInverses p → AreOneLink first last
        → (i j : ℤ) → lasting_of p last i j ≡ lasting_of p first i j }
    ensures fields { (p : ℕ) (first last : Code) → IsSmallPrime p → AreOneLink first last
        → (i j : ℤ) → lasting_of p last i j ≡ lasting_of p first i j }
{}

/// So all diagrams of a knot have one s, over each field of p elements; and what s is read off is one for all
/// diagrams of any link (Rasmussen 2010; Mackaay, Turner and Vaz 2007; Lipshitz and Sarkar 2014).
pub fn knots_have_one_s()
    ensures least { (p : ℕ) (first last : Code) → HasInverses p → AreOneLink first last
        → s_min p last ≡ s_min p first }
    ensures greatest { (p : ℕ) (first last : Code) → HasInverses p → AreOneLink first last
        → s_max p last ≡ s_max p first }
    ensures s { (p : ℕ) (first last : Code) → HasInverses p → AreOneLink first last
        → s p last ≡ s p first }
    ensures fields { (p : ℕ) (first last : Code) → IsSmallPrime p → AreOneLink first last
        → s p last ≡ s p first }
{}

/// All diagrams of a link have one homology over each field of p elements, so over the four fields
/// of the program (Khovanov 2000, theorem 1).
pub fn links_have_one_table()
    ensures dimensions { (p : ℕ) (first last : Code) → HasInverses p → AreOneLink first last
        → (i j : ℤ) → dimension p last i j ≡ dimension p first i j }
    ensures table { (p : ℕ) (first last : Code) → HasInverses p → AreOneLink first last
        → table p last ≡ table p first }
    ensures fields { (p : ℕ) (first last : Code) → IsSmallPrime p → AreOneLink first last
        → table p last ≡ table p first }
{}

/// They have one state sum, the unnormalised Jones polynomial (Jones 1985; Kauffman 1987).
pub fn links_have_one_polynomial()
    ensures { (first last : Code) (exponent : ℤ) → AreOneLink first last
        → state_sum last exponent ≡ state_sum first exponent }
{}

/// A diagram in several pieces, or in any parts that share no arc, is one of the same link as the
/// disjoint union of these.
pub fn pieces_are_one_link()
    ensures parts { (keep : ℕ → Bool) (code : Code) (loops others : ℕ) → IsTrue (accepted code)
        → IsCut keep code.crossings → loops + others ≡ code.loops
        → AreOneLink code (union_of (part_of keep code loops)
        (part_of (λ place. not (keep place)) code others)) }
    ensures pieces { (code : Code) → IsTrue (accepted code)
        → AreOneLink code (union_of (first_piece code) (other_pieces code)) }
{}
