//! Laws of ranks: the plain rank does not depend on the pivots that are taken, and what keeps it.
//! They hold modulo every p with inverses, which each field has; `prime_field` has the law that 2,
//! 3, 5 and 7 are fields.

ghost use Rattle.std.specs.Prelude.{◌≡◌, ◌≢◌, ℕ, suc, List};
ghost use Rattle.kh_types.specs.Complex.{Pivot, cancelled_matrix, entry_in};
ghost use Rattle.kh_types.specs.Complex.{without_column, without_row};
ghost use Rattle.kh_types.specs.Rank.{rank};
ghost use Rattle.kh_types.specs.Residues.{HasInverses};
ghost use Rattle.prime_field.specs.Residues.{IsField};
ghost use Rattle.kh_types.specs.MatrixRanks.{IsMatrix, HasRank, IsDependent};
ghost use Rattle.plain_matrix.specs.Matrices.{transposed_rows};
ghost use Rattle.plain_matrix.specs.Ranks.{IsAmong};
ghost use Rattle.plain_matrix.specs.Scaled.{IsScaled};
ghost use Rattle.plain_matrix.specs.Steps.{IsColumnStep, IsElimination, IsRowStep};

/// Modulo each p that gives a field, what is not 0 has an inverse.
pub fn fields_have_inverses()
    ensures { (p : ℕ) → IsField p → HasInverses p }
{}

/// A matrix has one rank, the least middle size of a product that is the matrix: the plain rank.
pub fn plain_rank_is_the_rank()
    ensures plain { (p columns : ℕ) (rows : List (List ℕ)) → HasInverses p → IsMatrix p columns rows
        → HasRank p (entry_in rows) (rank p rows) }
    ensures unique { (p r s : ℕ) (matrix : ℕ → ℕ → ℕ)
        → HasRank p matrix r → HasRank p matrix s → r ≡ s }
{}

/// The rank is the number of pivots, whatever entries other than 0 are taken for pivots.
pub fn rank_counts_any_pivots()
    ensures pivots { (p columns steps : ℕ) (rows : List (List ℕ)) → HasInverses p
        → IsMatrix p columns rows → IsElimination p (entry_in rows) steps → rank p rows ≡ steps }
    ensures cancelled { (p columns : ℕ) (pivot : Pivot) (rows : List (List ℕ)) → HasInverses p
        → IsMatrix p columns rows → entry_in rows pivot.row pivot.column ≢ 0
        → rank p rows ≡ suc (rank p (cancelled_matrix p pivot rows)) }
{}

/// The transpose has the rank of the matrix.
pub fn rank_of_the_transpose()
    ensures has { (p r : ℕ) (matrix : ℕ → ℕ → ℕ)
        → HasRank p matrix r → HasRank p (λ row column. matrix column row) r }
    ensures plain { (p columns : ℕ) (rows : List (List ℕ)) → HasInverses p → IsMatrix p columns rows
        → rank p (transposed_rows columns rows) ≡ rank p rows }
{}

/// Steps on rows and on columns keep the rank.
pub fn steps_keep_the_rank()
    ensures row { (p r : ℕ) (before after : ℕ → ℕ → ℕ) → HasInverses p → IsRowStep p before after
        → HasRank p before r → HasRank p after r }
    ensures column { (p r : ℕ) (before after : ℕ → ℕ → ℕ) → HasInverses p → IsColumnStep p before after
        → HasRank p before r → HasRank p after r }
    ensures order { (p columns width : ℕ) (rows others : List (List ℕ)) → HasInverses p
        → IsMatrix p columns rows → IsMatrix p width others → IsAmong rows others
        → IsAmong others rows → rank p rows ≡ rank p others }
{}

/// A row that depends on others may become 0, and so may such a column.
pub fn dependent_rows_do_not_count()
    ensures row { (p columns m dead : ℕ) (rows : List (List ℕ)) → HasInverses p
        → IsMatrix p columns rows → IsDependent p m dead (entry_in rows)
        → rank p (without_row dead rows) ≡ rank p rows }
    ensures column { (p columns m dead : ℕ) (rows : List (List ℕ)) → HasInverses p
        → IsMatrix p columns rows → IsDependent p m dead (λ i j. entry_in rows j i)
        → rank p (without_column dead rows) ≡ rank p rows }
{}

/// Two matrices have one rank where the entries of each are, up to a factor for the row and one for
/// the column, entries of the other's transpose.
pub fn scaled_transposes_have_one_rank()
    ensures { (p columns width : ℕ) (rows others : List (List ℕ)) → HasInverses p
        → IsMatrix p columns rows → IsMatrix p width others
        → IsScaled p (entry_in rows) (λ i j. entry_in others j i)
        → IsScaled p (entry_in others) (λ i j. entry_in rows j i) → rank p rows ≡ rank p others }
{}
