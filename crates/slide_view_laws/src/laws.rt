//! What slides do to the circles of states, as they are seen round the triangle.

ghost use Rattle.std.specs.Prelude.{◌≡◌, ◌≢◌, ◌+◌, ◌*◌, ◌<◌, ℕ, ℤ, Ok, IsTrue, true, List};
ghost use Rattle.kh_types.specs.Acceptance.{accepted};
ghost use Rattle.kh_types.specs.Code.{Code};
ghost use Rattle.kh_types.specs.Darts.{HasArcsTwice};
ghost use Rattle.kh_types.specs.Residues.{HasInverses};
ghost use Rattle.cell_laws.specs.Cells.{dimension_at};
ghost use Rattle.cell_laws.specs.Cubes.{cube_of};
ghost use Rattle.order_laws.specs.Orders.{listed_by};
ghost use Rattle.gluing_laws.specs.Codes.{HoldsArcs, IsRenumbered, name_count};
ghost use Rattle.gluing_laws.specs.SlidCodes.{IsSlid};
ghost use Rattle.gluing_laws.specs.Slides.{is_slidable};
ghost use Rattle.diagram_moves.specs.Moved.{moved};
ghost use Rattle.diagram_moves.specs.declared.change.Move.TheVariants.{Slide};
ghost use Rattle.layer_laws.specs.Slid.{kind_after, kind_before};
ghost use Rattle.view_laws.specs.Views.{IsView, SeeAlike, View, AreTogether};
ghost use Rattle.slide_view_laws.specs.Together.{AreJoinedAlike};
ghost use Rattle.slide_view_laws.specs.Triangles.{across, changed_at, closing, IsStateAt, SidesClose, SidesShow};
ghost use Rattle.slide_view_laws.specs.SlideViews.{slide_view, three_first};
ghost use Rattle.slide_view_laws.specs.RenamedViews.{IsRenumberedOnto, renamed_view};
ghost use Rattle.slide_view_laws.specs.SeenSlides.{HasSeenSlide};
ghost use Rattle.slide_view_laws.specs.SlidMoves.{IsSlidFrom};

/// The sides of the triangle close at one state of its three crossings, the same in both codes:
/// then they are one circle with nothing else on it. At each other state every side is on a circle
/// with an end. Where a slide can be made this state has a 0-smoothing and a 1-smoothing.
pub fn sides_close_at_one_state()
    ensures mixed { (p q r : ℕ) → p < 4 → q < 4 → r < 4 → is_slidable p q r ≡ true
        → (0 < closing p q r) × (closing p q r < 7) }
    ensures close_before { (old new : Code) (c d e p q r n base state : ℕ) (arcs : ℕ → ℕ)
        → IsSlid old new c d e p q r arcs → IsStateAt n c d e base state (closing p q r)
        → SidesClose old arcs state }
    ensures close_after { (old new : Code) (c d e p q r n base state : ℕ) (arcs : ℕ → ℕ)
        → IsSlid old new c d e p q r arcs → IsStateAt n c d e base state (closing p q r)
        → SidesClose new arcs state }
    ensures show_before { (old new : Code) (c d e p q r n base state inner : ℕ) (arcs : ℕ → ℕ)
        → IsSlid old new c d e p q r arcs → inner < 8 → inner ≢ closing p q r
        → IsStateAt n c d e base state inner → SidesShow old arcs state }
    ensures show_after { (old new : Code) (c d e p q r n base state inner : ℕ) (arcs : ℕ → ℕ)
        → IsSlid old new c d e p q r arcs → inner < 8 → inner ≢ closing p q r
        → IsStateAt n c d e base state inner → SidesShow new arcs state }
{}

/// Through all arcs and loops but the sides, where all other crossings keep their smoothings: in
/// each code the three neighbours of the closing state see what it sees. Across it the old code
/// sees what the new code sees there, and the other way round. And at the three neighbours of the
/// state across both codes see the same.
pub fn slides_turn_the_triangle()
    ensures before { (old new : Code) (c d e p q r n base state other place : ℕ) (arcs : ℕ → ℕ)
        → IsSlid old new c d e p q r arcs → place < 3
        → IsStateAt n c d e base state (changed_at place (closing p q r))
        → IsStateAt n c d e base other (closing p q r) → AreJoinedAlike arcs old state old other }
    ensures after { (old new : Code) (c d e p q r n base state other place : ℕ) (arcs : ℕ → ℕ)
        → IsSlid old new c d e p q r arcs → place < 3
        → IsStateAt n c d e base state (changed_at place (closing p q r))
        → IsStateAt n c d e base other (closing p q r) → AreJoinedAlike arcs new state new other }
    ensures across_before { (old new : Code) (c d e p q r n base state other : ℕ) (arcs : ℕ → ℕ)
        → IsSlid old new c d e p q r arcs → IsStateAt n c d e base state (across p q r)
        → IsStateAt n c d e base other (closing p q r) → AreJoinedAlike arcs old state new other }
    ensures across_after { (old new : Code) (c d e p q r n base state other : ℕ) (arcs : ℕ → ℕ)
        → IsSlid old new c d e p q r arcs → IsStateAt n c d e base state (closing p q r)
        → IsStateAt n c d e base other (across p q r) → AreJoinedAlike arcs old state new other }
    ensures middle { (old new : Code) (c d e p q r n base state other place : ℕ) (arcs : ℕ → ℕ)
        → IsSlid old new c d e p q r arcs → place < 3
        → IsStateAt n c d e base state (changed_at place (across p q r))
        → IsStateAt n c d e base other (changed_at place (across p q r))
        → AreJoinedAlike arcs old state new other }
{}

/// A slide stays one when its three crossings are brought to the front in both codes; and so do
/// the dimensions of the cube, and that the code is accepted.
pub fn slides_come_to_the_front()
    ensures slid { (old new : Code) (c d e p q r : ℕ) (arcs : ℕ → ℕ)
        → IsSlid old new c d e p q r arcs
        → IsSlid (listed_by old (three_first c d e old.crossings))
        (listed_by new (three_first c d e new.crossings)) 0 1 2 p q r arcs }
    ensures old_cube { (old new : Code) (c d e p q r field plus minus : ℕ) (arcs : ℕ → ℕ)
        → IsSlid old new c d e p q r arcs → HasInverses field → (i j : ℤ)
        → dimension_at field
        (cube_of field (listed_by old (three_first c d e old.crossings)) plus minus) i j
        ≡ dimension_at field (cube_of field old plus minus) i j }
    ensures new_cube { (old new : Code) (c d e p q r field plus minus : ℕ) (arcs : ℕ → ℕ)
        → IsSlid old new c d e p q r arcs → HasInverses field → (i j : ℤ)
        → dimension_at field
        (cube_of field (listed_by new (three_first c d e new.crossings)) plus minus) i j
        ≡ dimension_at field (cube_of field new plus minus) i j }
    ensures old_accepted { (old new : Code) (c d e p q r : ℕ) (arcs : ℕ → ℕ)
        → IsSlid old new c d e p q r arcs → IsTrue (accepted old)
        → IsTrue (accepted (listed_by old (three_first c d e old.crossings))) }
{}

/// Where the triangle stands at the first three crossings, all arcs and loops but its sides are a
/// view of both codes, of three inner crossings: the sides close at the closing state, and nothing
/// at the others.
pub fn slides_have_views()
    ensures before { (old new : Code) (p q r : ℕ) (arcs : ℕ → ℕ) → IsSlid old new 0 1 2 p q r arcs
        → HasArcsTwice old.crossings → IsView old (slide_view old arcs (closing p q r)) }
    ensures after { (old new : Code) (p q r : ℕ) (arcs : ℕ → ℕ) → IsSlid old new 0 1 2 p q r arcs
        → HasArcsTwice old.crossings → IsView new (slide_view new arcs (closing p q r)) }
    ensures same { (old new : Code) (p q r : ℕ) (arcs : ℕ → ℕ) → IsSlid old new 0 1 2 p q r arcs
        → slide_view new arcs (closing p q r) ≡ slide_view old arcs (closing p q r) }
{}

/// Through these views, at one state of the other crossings: what slides_turn_the_triangle says.
pub fn slides_see_alike()
    ensures before { (old new : Code) (p q r outside place : ℕ) (arcs : ℕ → ℕ)
        → IsSlid old new 0 1 2 p q r arcs → place < 3
        → SeeAlike old (slide_view old arcs (closing p q r)) (changed_at place (closing p q r) + 8
        * outside) old (slide_view old arcs (closing p q r)) (closing p q r + 8 * outside) }
    ensures after { (old new : Code) (p q r outside place : ℕ) (arcs : ℕ → ℕ)
        → IsSlid old new 0 1 2 p q r arcs → place < 3
        → SeeAlike new (slide_view new arcs (closing p q r)) (changed_at place (closing p q r) + 8
        * outside) new (slide_view new arcs (closing p q r)) (closing p q r + 8 * outside) }
    ensures across_before { (old new : Code) (p q r outside : ℕ) (arcs : ℕ → ℕ)
        → IsSlid old new 0 1 2 p q r arcs
        → SeeAlike old (slide_view old arcs (closing p q r)) (across p q r + 8 * outside) new
        (slide_view new arcs (closing p q r)) (closing p q r + 8 * outside) }
    ensures across_after { (old new : Code) (p q r outside : ℕ) (arcs : ℕ → ℕ)
        → IsSlid old new 0 1 2 p q r arcs
        → SeeAlike old (slide_view old arcs (closing p q r)) (closing p q r + 8 * outside) new
        (slide_view new arcs (closing p q r)) (across p q r + 8 * outside) }
    ensures middle { (old new : Code) (p q r outside place : ℕ) (arcs : ℕ → ℕ)
        → IsSlid old new 0 1 2 p q r arcs → place < 3
        → SeeAlike old (slide_view old arcs (closing p q r)) (changed_at place (across p q r) + 8
        * outside) new (slide_view new arcs (closing p q r)) (changed_at place (across p q r) + 8
        * outside) }
{}

/// By kinds: the closing state and its neighbours have one kind, and each other state its own;
/// after the slide the closing state and its neighbours have the kind that the state across had,
/// and this theirs. What a state sees of either code, the old code sees at the state of its kind.
pub fn slides_have_kinds()
    ensures before { (old new : Code) (p q r outside inner : ℕ) (arcs : ℕ → ℕ)
        → IsSlid old new 0 1 2 p q r arcs → inner < 8
        → SeeAlike old (slide_view old arcs (closing p q r)) (inner + 8 * outside) old
        (slide_view old arcs (closing p q r)) (kind_before (closing p q r) inner + 8 * outside) }
    ensures after { (old new : Code) (p q r outside inner : ℕ) (arcs : ℕ → ℕ)
        → IsSlid old new 0 1 2 p q r arcs → inner < 8
        → SeeAlike old (slide_view old arcs (closing p q r)) (kind_after (closing p q r) inner + 8
        * outside) new (slide_view new arcs (closing p q r)) (inner + 8 * outside) }
{}

/// Other numbers leave which arcs and loops are on one circle; so a view of a code is a view of the
/// code under other numbers, and sees the same.
pub fn other_numbers_are_seen_alike()
    ensures onward { (f : ℕ → ℕ) (old new : Code) → IsRenumbered f old new → HoldsArcs old
        → (state x y : ℕ) → x < name_count old → y < name_count old → AreTogether old state x y
        → AreTogether new state (f x) (f y) }
    ensures back { (f : ℕ → ℕ) (old new : Code) → IsRenumbered f old new → HoldsArcs old
        → (state x y : ℕ) → x < name_count old → y < name_count old
        → AreTogether new state (f x) (f y) → AreTogether old state x y }
    ensures view { (f : ℕ → ℕ) (old new : Code) (view : View) → IsRenumberedOnto f old new
        → IsView old view → IsView new (renamed_view f view) }
    ensures alike { (f : ℕ → ℕ) (old new : Code) (view : View) (state : ℕ)
        → IsRenumberedOnto f old new → IsView old view
        → SeeAlike old view state new (renamed_view f view) state }
{}

/// The code that a slide leaves is the slid code under other numbers of arcs, with as many
/// positive and negative crossings.
pub fn slides_leave_slid_codes()
    ensures { (code new : Code) (first second third : ℕ) → IsTrue (accepted code)
        → moved code (Slide first second third) ≡ Ok new → IsSlidFrom code new }
{}

/// So a slide is seen through two views: of the code, and of the code that it leaves, both with the
/// three crossings first.
pub fn slides_are_seen()
    ensures { (code new : Code) (first second third : ℕ) → IsTrue (accepted code)
        → moved code (Slide first second third) ≡ Ok new → HasSeenSlide code new }
{}
