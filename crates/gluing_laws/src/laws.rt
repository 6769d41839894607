//! What moves and other numbers of arcs keep of the state sum.

ghost use Rattle.std.specs.Prelude.{◌≡◌, ℕ, ◌+◌, ◌<◌, ◌++◌, ℤ, List, true};
ghost use Rattle.kh_types.specs.Classes.{AreBelow, class_count, classes_of};
ghost use Rattle.kh_types.specs.Code.{Code};
ghost use Rattle.kh_types.specs.StateSum.{sum_with};
ghost use Rattle.gluing_laws.specs.Codes.{HoldsArcs, IsRenumbered};
ghost use Rattle.gluing_laws.specs.Glue.{JoinAlike, Places, renamed};
ghost use Rattle.gluing_laws.specs.SlidCodes.{IsSlid};
ghost use Rattle.gluing_laws.specs.Slides.{inside_sum, inside_terms, is_slidable, triangle_after};
ghost use Rattle.gluing_laws.specs.Slides.{triangle_before};

/// How circles of the whole come from those of the parts: where two inner parts join the ends of
/// one outer part alike, the outer part merges as many classes of the one as of the other. So the
/// wholes differ by as many circles as the inner parts alone.
pub fn glued_parts_differ_by_the_inner_ones()
    ensures { (m n k : ℕ) (f g : ℕ → ℕ) (outer inner others : List (ℕ × ℕ)) → AreBelow m outer
        → AreBelow n inner → AreBelow k others → Places f m n → Places g m k
        → JoinAlike m f g (classes_of n inner) (classes_of k others)
        → class_count (classes_of n inner) + class_count (classes_of k (others ++ renamed g outer))
        ≡ class_count (classes_of k others)
        + class_count (classes_of n (inner ++ renamed f outer)) }
{}

/// The table of the third Reidemeister move: at each slots of a triangle that do not have one
/// parity, the terms of the eight states have one sum before and after, whatever the rest of the
/// diagram is worth at each way in which the six ends are joined and at each exponent.
pub fn triangles_have_one_sum()
    ensures { (p q r : ℕ) → p < 4 → q < 4 → r < 4 → is_slidable p q r ≡ true
        → (rest : List ℕ → ℤ → ℤ) → inside_sum rest (inside_terms (triangle_before p q r))
        ≡ inside_sum rest (inside_terms (triangle_after p q r)) }
{}

/// A third Reidemeister move keeps the state sum, with any numbers of positive and negative
/// crossings.
pub fn slides_keep_the_sum()
    ensures { (old new : Code) (c d e p q r plus minus : ℕ) (arcs : ℕ → ℕ) → IsSlid old new c d e p q r arcs
        → (exponent : ℤ) → sum_with plus minus new exponent ≡ sum_with plus minus old exponent }
{}

/// Other numbers on the arcs keep the state sum, with any numbers of positive and negative
/// crossings.
pub fn renumbering_keeps_the_sum()
    ensures { (f : ℕ → ℕ) (old new : Code) (plus minus : ℕ) → IsRenumbered f old new → HoldsArcs old → HoldsArcs new
        → (exponent : ℤ) → sum_with plus minus new exponent ≡ sum_with plus minus old exponent }
{}
