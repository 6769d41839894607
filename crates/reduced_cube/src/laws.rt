//! What the reduced cube has: its blocks are complexes, its tables are made of them, and their
//! Euler characteristic is a factor of the state sum. The tables of known diagrams are computed.

ghost use Rattle.std.specs.Prelude.{◌≡◌, ◌≢◌, ℕ, ◌<◌, ◌≤◌, ℤ, pos, neg_ℤ, ◌+ℤ◌, ◌-ℤ◌, List};
ghost use Rattle.std.specs.Prelude.{[], ◌∷◌};
ghost use Rattle.std.specs.Prelude.{◌↔◌, length, map, codes, true, false, IsTrue};
ghost use Rattle.std.specs.List.{flat_map};
ghost use Rattle.kh_types.specs.Acceptance.{accepted};
ghost use Rattle.kh_types.specs.CircleNumbers.{IsName};
ghost use Rattle.kh_types.specs.Code.{Code};
ghost use Rattle.kh_types.specs.Complex.{IsComplex, Pivot, alive_count, degree_of, dimension_of};
ghost use Rattle.kh_types.specs.Complex.{entry_in, entry_of, is_zero};
ghost use Rattle.kh_types.specs.Differential.{coefficient, label_of};
ghost use Rattle.kh_types.specs.Generators.{Generator};
ghost use Rattle.kh_types.specs.History.{IsLegal, block, replay};
ghost use Rattle.kh_types.specs.StateSum.{euler, state_sum};
ghost use Rattle.kh_types.specs.Table.{IsWithin, table_text};
ghost use Rattle.kh_types.specs.WorkedCodes.{curl, empty_link, hopf_link, one_loop, trefoil};
ghost use Rattle.kh_types.specs.declared.limits.TheConstants.{CROSSINGS, EXPONENT};
ghost use Rattle.prime_field.specs.Residues.{IsField};
ghost use Rattle.reduced_cube.specs.Reduced.{has_reduced, is_mark, reduced_block};
ghost use Rattle.reduced_cube.specs.Reduced.{reduced_degrees, reduced_differential};
ghost use Rattle.reduced_cube.specs.Reduced.{reduced_dimension, reduced_generators, reduced_rows};
ghost use Rattle.reduced_cube.specs.Reduced.{reduced_table};

/// The reduced tables of known diagrams.
pub fn known_reduced_tables()
    ensures loop_alone { table_text (reduced_table 2 one_loop 1)
        ≡ codes "table 2\nfield 2\nj 0 i 0 dim 1\n" }
    ensures curled { table_text (reduced_table 2 curl 2)
        ≡ codes "table 2\nfield 2\nj 0 i 0 dim 1\n" }
    ensures three { table_text (reduced_table 2 trefoil 1)
        ≡ codes "table 2\nfield 2\nj -8 i -3 dim 1\nj -6 i -2 dim 1\nj -2 i 0 dim 1\n" }
    ensures three_over_three { table_text (reduced_table 3 trefoil 4)
        ≡ codes "table 2\nfield 3\nj -8 i -3 dim 1\nj -6 i -2 dim 1\nj -2 i 0 dim 1\n" }
    ensures hopf { table_text (reduced_table 2 hopf_link 3)
        ≡ codes "table 2\nfield 2\nj -5 i -2 dim 1\nj -1 i 0 dim 1\n" }
{}

/// Which mark is meant matters: beside a loop the trefoil has a dimension over three elements where
/// an arc of it is marked, and none there where the loop is.
pub fn marks_matter()
    ensures arc { reduced_dimension 3 (record trefoil { loops = 1 }) 1 (neg_ℤ (pos 3)) (neg_ℤ (pos 7))
        ≡ 1 }
    ensures loop_marked { reduced_dimension 3 (record trefoil { loops = 1 }) 7
        (neg_ℤ (pos 3)) (neg_ℤ (pos 7)) ≡ 0 }
{}

/// At quantum degrees that tables do not list there is no generator, so tables leave nothing out.
pub fn reduced_degrees_are_within()
    ensures { (code : Code) (mark : ℕ) (i j : ℤ) → IsTrue (accepted code)
        → length code.crossings ≤ CROSSINGS → IsName code mark → ¬ IsWithin EXPONENT j
        → reduced_generators code mark i j ≡ [] }
{}

/// The reduced quantum degrees that have a generator are the same for each mark.
pub fn marks_have_the_same_degrees()
    ensures { (code : Code) (first second : ℕ) → IsTrue (accepted code) → IsName code first
        → IsName code second → reduced_degrees code first ≡ reduced_degrees code second }
{}

/// A mark is an arc or a loop: the trefoil has the marks 1 to 6, one loop the mark 1, and the empty
/// link none.
pub fn known_marks()
    ensures names { (code : Code) (mark : ℕ) → (is_mark code mark ≡ true) ↔ IsName code mark }
    ensures three { map (is_mark trefoil) (0 ∷ 1 ∷ 6 ∷ 7 ∷ [])
        ≡ false ∷ true ∷ true ∷ false ∷ [] }
    ensures alone { map (is_mark one_loop) (0 ∷ 1 ∷ 2 ∷ []) ≡ false ∷ true ∷ false ∷ [] }
    ensures none { map (is_mark empty_link) (0 ∷ 1 ∷ []) ≡ false ∷ false ∷ [] }
{}

/// Along an edge a marked v- stays v-: so from the generators whose marked circle has v- the
/// differential leads to such alone.
pub fn marked_minus_stays()
    ensures { (p : ℕ) (code : Code) (mark : ℕ) (tail head : Generator) → IsTrue (accepted code)
        → IsName code mark → coefficient p code tail head ≢ 0
        → label_of code tail mark ≡ 1 → label_of code head mark ≡ 1 }
{}

/// The blocks of the reduced cube are complexes, modulo any number above 1.
pub fn reduced_blocks_are_complexes()
    ensures { (p : ℕ) (code : Code) (mark : ℕ) (j : ℤ) → 1 < p → IsTrue (accepted code)
        → IsName code mark → IsComplex p (reduced_block p code mark j).complex }
{}

/// At each degree, also outside of those that it lists, a block has a place, alive, for each
/// generator, and the entries of the differential out of them; its dimensions are those of the
/// table, and where a legal history ends at zero they are the places that it leaves alive.
pub fn reduced_blocks_have_all_generators()
    ensures places { (p : ℕ) (code : Code) (mark : ℕ) (j i : ℤ)
        → (degree_of (reduced_block p code mark j).complex i).alive
        ≡ map (λ generator. true) (reduced_generators code mark i j) }
    ensures entries { (p : ℕ) (code : Code) (mark : ℕ) (j i : ℤ) (row column : ℕ)
        → entry_of (reduced_block p code mark j).complex i row column
        ≡ entry_in (reduced_differential p code mark i j) row column }
    ensures dimensions { (p : ℕ) (code : Code) (mark : ℕ) (j i : ℤ)
        → dimension_of p (reduced_block p code mark j).complex i ≡ reduced_dimension p code mark i j }
    ensures finished { (p : ℕ) (code : Code) (mark : ℕ) (j i : ℤ) (history : List Pivot)
        → IsField p → IsTrue (accepted code) → IsName code mark
        → IsLegal p (reduced_block p code mark j).complex history
        → is_zero (replay p (reduced_block p code mark j).complex history) ≡ true
        → alive_count (replay p (reduced_block p code mark j).complex history) i
        ≡ reduced_dimension p code mark i j }
{}

/// (q + q^-1) times the graded Euler characteristic of a reduced table is the state sum.
pub fn reduced_euler_characteristic()
    ensures { (p : ℕ) (code : Code) (mark : ℕ) (exponent : ℤ) → IsField p → IsTrue (accepted code)
        → length code.crossings ≤ CROSSINGS → IsName code mark
        → euler (reduced_table p code mark) (exponent -ℤ pos 1)
        +ℤ euler (reduced_table p code mark) (exponent +ℤ pos 1) ≡ state_sum code exponent }
{}

/// The rows of a reduced table are those of its blocks, one after another; other reduced quantum
/// degrees have none.
pub fn reduced_tables_are_their_blocks()
    ensures rows { (p : ℕ) (code : Code) (mark : ℕ) → (reduced_table p code mark).rows
        ≡ flat_map (reduced_rows p code mark) (reduced_degrees code mark) }
    ensures none { (p : ℕ) (code : Code) (mark : ℕ) (j : ℤ) → has_reduced code mark j ≡ false
        → reduced_rows p code mark j ≡ [] }
{}
