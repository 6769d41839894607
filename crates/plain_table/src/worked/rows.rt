//! Dimensions, and the rows of homology tables.

ghost use Rattle.std.specs.Prelude.{◌≡◌, [], ◌∷◌, pos, neg_ℤ, codes, true, false};
ghost use Rattle.kh_types.specs.Table.{dimension, from_minus, row_at, is_shown, rows_at, rows_within, row_text, table, table_text};
ghost use Rattle.kh_types.specs.WorkedCodes.{curl, trefoil};
ghost use Rattle.kh_types.specs.declared.limits.TheConstants.{CROSSINGS, COMPONENTS, CIRCLES, EXPONENT};

/// Dimensions of the trefoil's homology, and its rows. At the degrees -3 and -7 there are three
/// generators, and at -2 and -7 three; the differential between them has rank 2 over two elements,
/// and rank 3 over three.
pub fn worked_dimensions()
    ensures dimension { dimension 2 trefoil (neg_ℤ (pos 2)) (neg_ℤ (pos 7)) ≡ 1 }
    ensures dimension_over_three { dimension 3 trefoil (neg_ℤ (pos 2)) (neg_ℤ (pos 7)) ≡ 0 }
    ensures dimension_before { dimension 2 trefoil (neg_ℤ (pos 3)) (neg_ℤ (pos 7)) ≡ 1 }
    ensures dimension_before_over_three { dimension 3 trefoil (neg_ℤ (pos 3)) (neg_ℤ (pos 7)) ≡ 0 }
    ensures from_minus { from_minus 3
        ≡ neg_ℤ (pos 3) ∷ neg_ℤ (pos 2) ∷ neg_ℤ (pos 1) ∷ pos 0 ∷ pos 1 ∷ pos 2 ∷ pos 3 ∷ [] }
    ensures row_at { row_at 2 trefoil (neg_ℤ (pos 7)) (neg_ℤ (pos 2))
        ≡ record { j = neg_ℤ (pos 7); i = neg_ℤ (pos 2); dim = 1 } }
    ensures is_shown { is_shown (record { j = neg_ℤ (pos 7); i = neg_ℤ (pos 2); dim = 1 }) ≡ true }
    ensures is_shown_not { is_shown (record { j = neg_ℤ (pos 7); i = neg_ℤ (pos 2); dim = 0 })
        ≡ false }
    ensures rows_at { rows_at 2 trefoil (neg_ℤ (pos 7))
        ≡ record { j = neg_ℤ (pos 7); i = neg_ℤ (pos 3); dim = 1 }
        ∷ record { j = neg_ℤ (pos 7); i = neg_ℤ (pos 2); dim = 1 } ∷ [] }
{}

/// The trefoil's rows up to the quantum degree 7 in size, the table of the curl, and sizes within
/// which the program works.
pub fn worked_rows()
    ensures rows_within { rows_within 7 2 trefoil
        ≡ record { j = neg_ℤ (pos 7); i = neg_ℤ (pos 3); dim = 1 }
        ∷ record { j = neg_ℤ (pos 7); i = neg_ℤ (pos 2); dim = 1 }
        ∷ record { j = neg_ℤ (pos 5); i = neg_ℤ (pos 2); dim = 1 }
        ∷ record { j = neg_ℤ (pos 3); i = pos 0; dim = 1 }
        ∷ record { j = neg_ℤ (pos 1); i = pos 0; dim = 1 } ∷ [] }
    ensures table { table 2 curl ≡ record {
      field = 2;
      rows = record { j = neg_ℤ (pos 1); i = pos 0; dim = 1 }
          ∷ record { j = pos 1; i = pos 0; dim = 1 } ∷ [];
    } }
    ensures CROSSINGS { CROSSINGS ≡ 20 }
    ensures COMPONENTS { COMPONENTS ≡ 28 }
    ensures CIRCLES { CIRCLES ≡ 48 }
    ensures EXPONENT { EXPONENT ≡ 88 }
{}

/// The table of the trefoil over three elements.
pub fn worked_trefoil_table()
    ensures table { table 3 trefoil ≡ record {
      field = 3;
      rows = record { j = neg_ℤ (pos 9); i = neg_ℤ (pos 3); dim = 1 }
          ∷ record { j = neg_ℤ (pos 5); i = neg_ℤ (pos 2); dim = 1 }
          ∷ record { j = neg_ℤ (pos 3); i = pos 0; dim = 1 }
          ∷ record { j = neg_ℤ (pos 1); i = pos 0; dim = 1 } ∷ [];
    } }
{}

/// Texts of rows and tables.
pub fn worked_table_texts()
    ensures Row { row_text (record { j = neg_ℤ (pos 7); i = neg_ℤ (pos 2); dim = 1 })
        ≡ codes "j -7 i -2 dim 1\n" }
    ensures row_text { row_text (record { j = pos 1; i = pos 0; dim = 12 })
        ≡ codes "j 1 i 0 dim 12\n" }
    ensures Table { table_text (record { field = 3; rows = [] }) ≡ codes "table 2\nfield 3\n" }
    ensures table_text { table_text (table 2 curl)
        ≡ codes "table 2\nfield 2\nj -1 i 0 dim 1\nj 1 i 0 dim 1\n" }
{}
