//! What column reduction finds: the pivots of the reduced columns are a legal history, which leaves
//! no entry. What is left of the next column ends at an entry that the column then has, its last
//! one, and that is the next pivot.

ghost use Rattle.std.specs.Prelude.{◌≡◌, ◌≢◌, ℕ, ◌+◌, ◌*◌, ◌<◌, ℤ, pos, ◌+ℤ◌, ◌-ℤ◌, ◌<ℤ◌};
ghost use Rattle.std.specs.Prelude.{List, [], ◌∷◌, ◌++◌, length, get_or, false, true};
ghost use Rattle.std.specs.Prelude.{if◌then◌else◌};
ghost use Rattle.kh_types.specs.Complex.{Complex, IsComplex, IsPivot, Pivot, cancel};
ghost use Rattle.kh_types.specs.Complex.{degree_of, entry_of, is_zero, pivot_at};
ghost use Rattle.kh_types.specs.History.{IsLegal, replay};
ghost use Rattle.kh_types.specs.Rank.{minus_mod};
ghost use Rattle.prime_field.specs.Residues.{IsField};
ghost use Rattle.sparse_block.specs.Complexes.{place_count};
ghost use Rattle.sparse_block.specs.Entries.{AreEntries, entries_of, value_at};
ghost use Rattle.sparse_block.specs.Entries.{Entry};
ghost use Rattle.sparse_block.specs.Histories.{ComesByCancelling};
ghost use Rattle.sparse_block.specs.LinePairs.{line_less};
ghost use Rattle.column_reduction.specs.Reductions.{AreReduced, AreReducedColumns};
ghost use Rattle.column_reduction.specs.Reductions.{AreReducedUp, EndsAt, HasNoEntry};
ghost use Rattle.column_reduction.specs.Reductions.{HaveNoEntryBelow, IsDeadIn, IsLeftOf};
ghost use Rattle.column_reduction.specs.Reductions.{IsLineBelow, IsReducedComplex, IsReducedDegree};
ghost use Rattle.column_reduction.specs.Reductions.{IsZeroLine};
ghost use Rattle.column_reduction.specs.Reductions.{ReducedColumn, column_numbers};
ghost use Rattle.column_reduction.specs.Reductions.{is_last_row, is_pivot_column};
ghost use Rattle.column_reduction.specs.Reductions.{is_place_alive, pivots_from_greatest, with_column};
ghost use Rattle.column_reduction.specs.WorkedColumns.{three_columns, three_rows, three_rows_after};

/// What is left of a line as multiples of reduced columns are taken away: at first the whole line.
pub fn reduced_columns_may_be_taken_away()
    ensures whole { (p : ℕ) (reduced : List ReducedColumn) (whole : ℕ → ℕ)
        → IsLeftOf p reduced whole whole }
    ensures less { (p : ℕ) (reduced : List ReducedColumn) (whole left less : ℕ → ℕ) (at factor : ℕ)
        (none : ReducedColumn) → IsField p → AreReducedColumns p reduced → at < length reduced
        → IsLeftOf p reduced whole left → ((row : ℕ)
        → less row ≡ minus_mod p (left row) (factor * (get_or reduced at none).values row))
        → IsLeftOf p reduced whole less }
{}

/// A line and what is left of it, where this is 0 in the last rows of the reduced columns: if the
/// line ends at another row, what is left ends there too, with the same number; and if the line is
/// 0, so is what is left.
pub fn lines_end_with_what_is_left()
    ensures ends { (p : ℕ) (reduced : List ReducedColumn) (line left : ℕ → ℕ) (row : ℕ) → IsField p
        → AreReducedColumns p reduced → IsLeftOf p reduced line left → IsLineBelow p left
        → IsDeadIn reduced left → IsLineBelow p line → EndsAt row line
        → is_last_row row reduced ≡ false → EndsAt row left }
    ensures number { (p : ℕ) (reduced : List ReducedColumn) (line left : ℕ → ℕ) (row : ℕ)
        → IsField p → AreReducedColumns p reduced → IsLeftOf p reduced line left
        → IsLineBelow p left → IsDeadIn reduced left → IsLineBelow p line → EndsAt row line
        → is_last_row row reduced ≡ false → left row ≡ line row }
    ensures zero { (p : ℕ) (reduced : List ReducedColumn) (line left : ℕ → ℕ) → IsField p
        → AreReducedColumns p reduced → IsLeftOf p reduced line left → IsLineBelow p left
        → IsDeadIn reduced left → IsZeroLine line → IsZeroLine left }
{}

/// At first no column is reduced.
pub fn no_column_is_reduced_at_first()
    ensures { (p : ℕ) (before : Complex) (i : ℤ) → AreReduced p before i 0 [] before }
{}

/// Where nothing is left of the next column, it adds no pivot.
pub fn columns_with_nothing_left_add_no_pivot()
    ensures { (p : ℕ) (before after : Complex) (i : ℤ) (count : ℕ) (reduced : List ReducedColumn)
        (values : ℕ → ℕ) → IsField p → IsComplex p before
        → AreReduced p before i count reduced after
        → IsLeftOf p reduced (column_numbers before i count) values → IsZeroLine values
        → AreReduced p before i (count + 1) reduced after }
{}

/// Where what is left of the next column ends at a row that is the last one of no reduced column,
/// the entry there is a pivot, and the last entry that the column has after the cancellations so
/// far. It is cancelled, and there is one reduced column more.
pub fn last_entries_are_pivots()
    ensures pivot { (p : ℕ) (before after : Complex) (i : ℤ) (count last : ℕ)
        (reduced : List ReducedColumn) (values : ℕ → ℕ) → IsField p → IsComplex p before
        → AreReduced p before i count reduced after
        → IsLeftOf p reduced (column_numbers before i count) values → IsLineBelow p values
        → EndsAt last values → is_last_row last reduced ≡ false
        → IsPivot after (pivot_at i count last) }
    ensures ends { (p : ℕ) (before after : Complex) (i : ℤ) (count last : ℕ)
        (reduced : List ReducedColumn) (values : ℕ → ℕ) → IsField p → IsComplex p before
        → AreReduced p before i count reduced after
        → IsLeftOf p reduced (column_numbers before i count) values → IsLineBelow p values
        → EndsAt last values → is_last_row last reduced ≡ false
        → EndsAt last (column_numbers after i count) }
    ensures reduced { (p : ℕ) (before after : Complex) (i : ℤ) (count last : ℕ)
        (reduced : List ReducedColumn) (values : ℕ → ℕ) → IsField p → IsComplex p before
        → AreReduced p before i count reduced after
        → IsLeftOf p reduced (column_numbers before i count) values → IsLineBelow p values
        → EndsAt last values → is_last_row last reduced ≡ false
        → AreReduced p before i (count + 1) (with_column reduced count last values)
        (cancel p after (pivot_at i count last)) }
{}

/// What reduced columns leave comes by cancelling. Where all columns of a degree are reduced, no
/// entry is left there; and matrices of other degrees that had no entry have none.
pub fn reduced_degrees_have_no_entry()
    ensures comes { (p : ℕ) (before after : Complex) (i : ℤ) (count : ℕ)
        (reduced : List ReducedColumn) → AreReduced p before i count reduced after
        → ComesByCancelling p before after }
    ensures own { (p : ℕ) (before after : Complex) (i : ℤ) (reduced : List ReducedColumn)
        → IsField p → IsComplex p before → IsReducedDegree p before i reduced after
        → HasNoEntry after i }
    ensures others { (p : ℕ) (before after : Complex) (i j : ℤ) (count : ℕ)
        (reduced : List ReducedColumn) → IsField p → IsComplex p before
        → AreReduced p before i count reduced after → HasNoEntry before j → HasNoEntry after j }
{}

/// What the pivots of a degree do to other matrices: the next one is 0 in the columns that are last
/// rows, the one before is 0 in the rows that are reduced columns, and all other entries stay.
pub fn reductions_clear_rows_and_columns()
    ensures next { (p : ℕ) (before after : Complex) (i : ℤ) (count : ℕ)
        (reduced : List ReducedColumn) (row column : ℕ) → AreReduced p before i count reduced after
        → entry_of after (i +ℤ pos 1) row column
        ≡ (if is_last_row column reduced then 0 else entry_of before (i +ℤ pos 1) row column) }
    ensures previous { (p : ℕ) (before after : Complex) (i : ℤ) (count : ℕ)
        (reduced : List ReducedColumn) (row column : ℕ) → AreReduced p before i count reduced after
        → entry_of after (i -ℤ pos 1) row column
        ≡ (if is_pivot_column row reduced then 0 else entry_of before (i -ℤ pos 1) row column) }
    ensures others { (p : ℕ) (before after : Complex) (i j : ℤ) (count : ℕ)
        (reduced : List ReducedColumn) → AreReduced p before i count reduced after → j ≢ i
        → j ≢ i +ℤ pos 1 → j +ℤ pos 1 ≢ i → degree_of after j ≡ degree_of before j }
{}

/// The places that die: in the degree the reduced columns, in the next degree the last rows. In the
/// degree before none does.
pub fn reductions_kill_columns_and_last_rows()
    ensures columns { (p : ℕ) (before after : Complex) (i : ℤ) (count : ℕ)
        (reduced : List ReducedColumn) (place : ℕ) → AreReduced p before i count reduced after
        → is_place_alive after i place
        ≡ (if is_pivot_column place reduced then false else is_place_alive before i place) }
    ensures rows { (p : ℕ) (before after : Complex) (i : ℤ) (count : ℕ)
        (reduced : List ReducedColumn) (place : ℕ) → AreReduced p before i count reduced after
        → is_place_alive after (i +ℤ pos 1) place
        ≡ (if is_last_row place reduced then false else is_place_alive before (i +ℤ pos 1) place) }
    ensures previous { (p : ℕ) (before after : Complex) (i : ℤ) (count : ℕ)
        (reduced : List ReducedColumn) → AreReduced p before i count reduced after
        → (degree_of after (i -ℤ pos 1)).alive ≡ (degree_of before (i -ℤ pos 1)).alive }
{}

/// Cancellations in two degrees commute. The pivot of the greater degree is one before the other is
/// cancelled, the other is one after it, and both orders leave the same complex.
pub fn cancellations_in_two_degrees_commute()
    ensures greater { (p : ℕ) (complex : Complex) (less greater : Pivot) → IsField p
        → IsComplex p complex → IsPivot complex less → IsPivot (cancel p complex less) greater
        → less.degree <ℤ greater.degree → IsPivot complex greater }
    ensures less { (p : ℕ) (complex : Complex) (less greater : Pivot) → IsField p
        → IsComplex p complex → IsPivot complex less → IsPivot (cancel p complex less) greater
        → less.degree <ℤ greater.degree → IsPivot (cancel p complex greater) less }
    ensures same { (p : ℕ) (complex : Complex) (less greater : Pivot) → IsField p
        → IsComplex p complex → IsPivot complex less → IsPivot (cancel p complex less) greater
        → less.degree <ℤ greater.degree → cancel p (cancel p complex greater) less
        ≡ cancel p (cancel p complex less) greater }
{}

/// One degree after another, from the least up: below the least there is no entry; where there is
/// none below a degree, and this is reduced, there is none below the next; and where there is none
/// below what is above the greatest, the complex is zero.
pub fn degrees_are_reduced_upwards()
    ensures first { (p : ℕ) (complex : Complex) → IsComplex p complex
        → HaveNoEntryBelow complex complex.low }
    ensures next { (p : ℕ) (before after : Complex) (i : ℤ) (reduced : List ReducedColumn)
        → IsField p → IsComplex p before → IsReducedDegree p before i reduced after
        → HaveNoEntryBelow before i → HaveNoEntryBelow after (i +ℤ pos 1) }
    ensures zero { (p : ℕ) (complex : Complex) → IsComplex p complex
        → HaveNoEntryBelow complex (complex.low +ℤ pos (length complex.degrees))
        → is_zero complex ≡ true }
{}

/// Degrees are reduced one after another: at first none, and then one more at the end. What is
/// above the degree next to the last one stays as it was.
pub fn degrees_are_reduced_one_by_one()
    ensures none { (p : ℕ) (complex : Complex) (i : ℤ) → AreReducedUp p complex i [] complex }
    ensures longer { (p : ℕ) (before between after : Complex) (i j : ℤ)
        (degrees : List (List ReducedColumn)) (reduced : List ReducedColumn)
        → AreReducedUp p before i degrees between → j ≡ i +ℤ pos (length degrees)
        → IsReducedDegree p between j reduced after
        → AreReducedUp p before i (degrees ++ reduced ∷ []) after }
    ensures above { (p : ℕ) (before after : Complex) (i j : ℤ)
        (degrees : List (List ReducedColumn)) → AreReducedUp p before i degrees after
        → (i +ℤ pos (length degrees)) <ℤ j → degree_of after j ≡ degree_of before j }
{}

/// All degrees together, from the least up: their pivots, those of the greatest degree first, are a
/// legal history of the complex, and what it leaves is zero.
pub fn reductions_end_at_zero()
    ensures legal { (p : ℕ) (before after : Complex) (i : ℤ) (degrees : List (List ReducedColumn))
        → IsField p → IsComplex p before → AreReducedUp p before i degrees after
        → IsLegal p before (pivots_from_greatest i degrees) }
    ensures replayed { (p : ℕ) (before after : Complex) (i : ℤ)
        (degrees : List (List ReducedColumn)) → IsField p → IsComplex p before
        → AreReducedUp p before i degrees after
        → after ≡ replay p before (pivots_from_greatest i degrees) }
    ensures comes { (p : ℕ) (before after : Complex) (i : ℤ) (degrees : List (List ReducedColumn))
        → IsField p → IsComplex p before → AreReducedUp p before i degrees after
        → ComesByCancelling p before after }
    ensures zero { (p : ℕ) (before after : Complex) (degrees : List (List ReducedColumn))
        → IsField p → IsComplex p before → AreReducedUp p before before.low degrees after
        → length degrees ≡ length before.degrees → is_zero after ≡ true }
{}

/// A complex is reduced in one way: two reductions of all its degrees list the same pivots, and
/// leave the same.
pub fn complexes_are_reduced_in_one_way()
    ensures pivots { (p : ℕ) (before first second : Complex) (pivots others : List Pivot)
        → IsField p → IsReducedComplex p before pivots first
        → IsReducedComplex p before others second → pivots ≡ others }
    ensures left { (p : ℕ) (before first second : Complex) (pivots others : List Pivot)
        → IsField p → IsReducedComplex p before pivots first
        → IsReducedComplex p before others second → first ≡ second }
{}

/// A complex is known by its least degree, how many degrees and places it has, which places are
/// alive, and its entries: so what reductions leave may be made anew.
pub fn complexes_are_known_by_places_and_entries()
    ensures { (p q : ℕ) (first second : Complex) → IsComplex p first → IsComplex q second
        → first.low ≡ second.low → length first.degrees ≡ length second.degrees
        → ((i : ℤ) → place_count first i ≡ place_count second i)
        → ((i : ℤ) (place : ℕ) → is_place_alive first i place ≡ is_place_alive second i place)
        → ((i : ℤ) (row column : ℕ) → entry_of first i row column ≡ entry_of second i row column)
        → first ≡ second }
{}

/// A column that is stored as a list of entries ends at the last one, and its numbers are below p.
/// It is 0 where there is none. And a multiple of a stored column may be taken from another.
pub fn stored_columns_end_at_their_last_entries()
    ensures below { (p size : ℕ) (entries : List Entry) → IsField p → AreEntries p size entries
        → IsLineBelow p (value_at entries) }
    ensures ends { (p size k : ℕ) (entries : List Entry) (none : Entry) → AreEntries p size entries
        → k + 1 ≡ length entries → EndsAt (get_or entries k none).place (value_at entries) }
    ensures empty { (entries : List Entry) → entries ≡ [] → IsZeroLine (value_at entries) }
    ensures less { (p size at factor : ℕ) (reduced : List ReducedColumn) (none : ReducedColumn)
        (whole : ℕ → ℕ) (entries others : List Entry) → IsField p → AreReducedColumns p reduced
        → at < length reduced → AreEntries p size entries → AreEntries p size others
        → ((row : ℕ) → value_at others row ≡ (get_or reduced at none).values row)
        → IsLeftOf p reduced whole (value_at entries) → IsLeftOf p reduced whole
        (value_at (entries_of (line_less p size entries factor others))) }
{}

/// A worked matrix of three rows and four columns over the field of three elements: three columns
/// have pivots, in the rows 1, 2 and 0, nothing is left of the fourth, and the pivots leave zero.
pub fn three_rows_are_reduced()
    ensures complex { IsComplex 3 three_rows }
    ensures reduced { AreReduced 3 three_rows (pos 0) 4 three_columns three_rows_after }
    ensures zero { is_zero three_rows_after ≡ true }
{}
