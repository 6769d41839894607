//! What drawings are, on known diagrams and in general.

ghost use Rattle.std.specs.Prelude.{◌≡◌, ◌≢◌, ◌≤◌, ◌<◌, ◌+◌, ◌*◌, ◌++◌, ℕ, List, [], ◌∷◌, IsTrue, Ok, Err, None, codes, length, map, max, take};
ghost use Rattle.std.specs.Option.{IsSome};
ghost use Rattle.kh_types.specs.Acceptance.{accepted};
ghost use Rattle.kh_types.specs.Code.{Code};
ghost use Rattle.kh_types.specs.Darts.{dart_at, partner_at};
ghost use Rattle.kh_types.specs.Faces.{piece_count};
ghost use Rattle.kh_types.specs.WorkedCodes.{curl, slots_with, trefoil, without_loops};
ghost use Rattle.kh_types.specs.declared.limits.TheConstants.{CROSSINGS};
ghost use Rattle.morse_drawing.specs.Joins.{JoinedDarts, arc_pairs, ends_of, joined_by};
ghost use Rattle.morse_drawing.specs.Pages.{Page, blank_page, is_in, leading, loop_slices, page_of, pages_on, paired, slices_of};
ghost use Rattle.morse_drawing.specs.PageRules.{ArePages, last_page};
ghost use Rattle.morse_drawing.specs.ReadBack.{AreAlikeCodes, code_read};
ghost use Rattle.morse_drawing.specs.Texts.{IsPlaced, cells, drawing_text, strands_after, strands_behind};
ghost use Rattle.morse_drawing.specs.declared.limits.TheConstants.{CAP_STRANDS, DRAWN_STRANDS, JOINED_LOOPS};
ghost use Rattle.morse_drawing.specs.declared.slice.Slice.{Slice};
ghost use Rattle.morse_drawing.specs.declared.fault.SliceFault.TheVariants.{Ends, Label, Loops, Place};
ghost use Rattle.morse_drawing.specs.declared.slice.Slice.TheVariants.{Cap, Cross, Cup};

/// The slices of an accepted code join exactly its arcs, each as its two darts, the lesser first,
/// by their first darts, and have its loops; none has a fault.
pub fn drawings_join_arcs()
    ensures { (code : Code) → IsTrue (accepted code) → length code.crossings ≤ CROSSINGS
        → joined_by (slices_of code) ≡ Ok (record {
          pairs = map ends_of (arc_pairs (length code.crossings) (partner_at code.crossings));
          loops = code.loops;
        }) }
{}

/// They are three for each crossing, and two for each piece and each loop.
pub fn drawings_have_few_slices()
    ensures { (code : Code) → IsTrue (accepted code) → length (slices_of code)
        ≡ 3 * length code.crossings + 2 * (piece_count code.crossings + code.loops) }
{}

/// After five steps for each crossing the page of an accepted code is finished: its row is empty,
/// all crossings are drawn, and more steps leave it as it is.
pub fn drawings_finish()
    ensures row { (code : Code) → IsTrue (accepted code)
        → (page_of (length code.crossings) (partner_at code.crossings)).row ≡ [] }
    ensures drawn { (code : Code) (crossing : ℕ) → IsTrue (accepted code) → crossing < length code.crossings
        → IsTrue (is_in (page_of (length code.crossings) (partner_at code.crossings)).drawn crossing) }
    ensures later { (code : Code) (count : ℕ) → IsTrue (accepted code) → 5 * length code.crossings ≤ count
        → pages_on (length code.crossings) (partner_at code.crossings) count blank_page
        ≡ page_of (length code.crossings) (partner_at code.crossings) }
{}

/// The pages of a drawing are given by the rules alone: there is one list of pages of which the
/// first follows the blank one, each follows the one before it, and the last has an empty row and
/// all crossings. The slices are those of the last page, and then those of the loops.
pub fn pages_follow_the_rules()
    ensures all { (code : Code) → IsTrue (accepted code) → (pages : List Page) × ArePages code pages
        × (last_page blank_page pages
        ≡ page_of (length code.crossings) (partner_at code.crossings)) }
    ensures one { (code : Code) (pages others : List Page) → ArePages code pages
        → ArePages code others → pages ≡ others }
    ensures slices { (code : Code) (pages : List Page) → IsTrue (accepted code)
        → ArePages code pages
        → slices_of code ≡ (last_page blank_page pages).slices ++ loop_slices code.loops }
{}

/// Between any two slices of an accepted code there are at most two strands for each crossing, and
/// two more; so a cap never stands beside too many.
pub fn drawings_have_few_strands()
    ensures each { (code : Code) (place : ℕ) → IsTrue (accepted code)
        → strands_behind (take place (slices_of code)) ≤ 2 * length code.crossings + 2 }
    ensures most { (code : Code) (place : ℕ) → IsTrue (accepted code) → length code.crossings ≤ CROSSINGS
        → strands_behind (take place (slices_of code)) ≤ DRAWN_STRANDS }
{}

/// On each page of a drawing of an accepted code whose row is not empty and has no strand that
/// leads on, two neighbours are partners; and the row has two strands at most for each crossing,
/// and two more.
pub fn neighbours_are_partners()
    ensures pair { (code : Code) (count : ℕ) → IsTrue (accepted code)
        → (pages_on (length code.crossings) (partner_at code.crossings) count blank_page).row ≢ []
        → leading (partner_at code.crossings)
        (pages_on (length code.crossings) (partner_at code.crossings) count blank_page).drawn
        (pages_on (length code.crossings) (partner_at code.crossings) count blank_page).row ≡ None
        → IsSome (paired (partner_at code.crossings)
        (pages_on (length code.crossings) (partner_at code.crossings) count blank_page).row) }
    ensures few { (code : Code) (count : ℕ) → IsTrue (accepted code)
        → length (pages_on (length code.crossings) (partner_at code.crossings) count blank_page).row
        ≤ 2 * length code.crossings + 2 }
{}

/// A drawing tells its code: what is read back of the slices and their joins is the code up to the
/// numbers of its arcs.
pub fn drawings_tell_codes()
    ensures { (code : Code) (joins : JoinedDarts) → IsTrue (accepted code) → length code.crossings ≤ CROSSINGS
        → joined_by (slices_of code) ≡ Ok joins → AreAlikeCodes code (code_read (slices_of code) joins) }
{}

/// Loops alone: up to 255 are joined, and of more the slice is named that closes the 256th.
pub fn loops_are_joined()
    ensures few { (loops : ℕ) → loops ≤ 255
        → joined_by (loop_slices loops) ≡ Ok (record { pairs = []; loops = loops }) }
    ensures many { (loops : ℕ) → 256 ≤ loops → joined_by (loop_slices loops) ≡ Err (Loops 512) }
{}

/// A line has a cell for each strand that passes by, and one for the two that begin, end or cross
/// there.
pub fn lines_have_a_cell_for_each_strand()
    ensures { (strands : ℕ) (slice : Slice) → IsPlaced strands slice
        → 1 + length (cells strands slice) ≡ max strands (strands_after strands slice) }
{}

/// The limits of drawings.
pub fn limits_of_drawings()
    ensures caps { CAP_STRANDS ≡ 62 }
    ensures drawn { DRAWN_STRANDS ≡ 42 }
    ensures loops { JOINED_LOOPS ≡ 255 }
{}

/// The slices of the curl and of the trefoil; and those of a diagram in which the leftmost strand
/// that leads on leads to another crossing than the least that is not drawn.
pub fn worked_drawings()
    ensures curl { slices_of curl ≡ Cap 1 ∷ Cap 3 ∷ Cross 2 1 0 ∷ Cup 1 ∷ Cup 1 ∷ [] }
    ensures trefoil { slices_of trefoil ≡ Cap 1 ∷ Cap 3 ∷ Cross 2 1 0 ∷ Cap 2 ∷ Cross 1 2 3
        ∷ Cap 2 ∷ Cross 1 3 3 ∷ Cup 3 ∷ Cup 3 ∷ Cup 2 ∷ Cup 1 ∷ [] }
    ensures leftmost { slices_of (without_loops
        (slots_with 6 1 5 4 ∷ slots_with 2 3 3 4 ∷ slots_with 5 1 6 2 ∷ []))
        ≡ Cap 1 ∷ Cap 3 ∷ Cross 2 1 0 ∷ Cap 2 ∷ Cross 1 3 2 ∷ Cap 2 ∷ Cross 1 2 0
        ∷ Cup 1 ∷ Cup 3 ∷ Cup 2 ∷ Cup 1 ∷ [] }
{}

/// Lists with a fault: a cup where there is no strand; a cap at position 0; a crossing above the
/// most; one that is drawn twice; a slot above 3; a place before a label; and strands that are
/// left.
pub fn worked_faults()
    ensures place { joined_by (Cup 1 ∷ []) ≡ Err (Place 1) }
    ensures cap { joined_by (Cap 0 ∷ []) ≡ Err (Place 1) }
    ensures label { joined_by (Cap 1 ∷ Cross 1 21 0 ∷ []) ≡ Err (Label 2) }
    ensures twice { joined_by (Cap 1 ∷ Cross 1 1 0 ∷ Cross 1 1 0 ∷ []) ≡ Err (Label 3) }
    ensures slot { joined_by (Cap 1 ∷ Cross 1 1 4 ∷ []) ≡ Err (Label 2) }
    ensures first { joined_by (Cap 1 ∷ Cross 2 21 0 ∷ []) ≡ Err (Place 2) }
    ensures ends { joined_by (Cap 1 ∷ []) ≡ Err (Ends 2) }
{}

/// The texts of a loop, of the curl and of nothing.
pub fn worked_texts()
    ensures one_loop { drawing_text (loop_slices 1) ≡ codes "open 1: /\\\nclose 1: \\/\n" }
    ensures curl { drawing_text (slices_of curl) ≡ codes
        "open 1: /\\\nopen 3: | | /\\\nright 2: | -/ |\nclose 1: \\/ | |\nclose 1: \\/\n" }
    ensures none { drawing_text [] ≡ [] }
{}
