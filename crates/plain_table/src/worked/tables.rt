//! The homology tables of known diagrams, as the definitions compute them.

ghost use Rattle.std.specs.Prelude.{◌≡◌, codes};
ghost use Rattle.kh_types.specs.WorkedCodes.{empty_link, one_loop, curl, two_curls, over_circle, hopf_link, trefoil, figure_eight};
ghost use Rattle.kh_types.specs.Table.{table, table_text};

/// The tables of known diagrams.
pub fn known_tables()
    // One generator, in the degrees 0 and 0.
    ensures empty { table_text (table 2 empty_link) ≡ codes "table 2\nfield 2\nj 0 i 0 dim 1\n" }
    // The unknot as a loop, and with one curl.
    ensures loop_alone { table_text (table 2 one_loop)
        ≡ codes "table 2\nfield 2\nj -1 i 0 dim 1\nj 1 i 0 dim 1\n" }
    ensures curled { table_text (table 2 curl) ≡ codes "table 2\nfield 2\nj -1 i 0 dim 1\nj 1 i 0 dim 1\n" }
    // Unlinks: two curls apart, a circle over another, and a curl with two loops, whose labels no
    // edge changes.
    ensures apart { table_text (table 2 two_curls)
        ≡ codes "table 2\nfield 2\nj -2 i 0 dim 1\nj 0 i 0 dim 2\nj 2 i 0 dim 1\n" }
    ensures over { table_text (table 2 over_circle)
        ≡ codes "table 2\nfield 2\nj -2 i 0 dim 1\nj 0 i 0 dim 2\nj 2 i 0 dim 1\n" }
    ensures with_loops { table_text (table 2 (record curl { loops = 2 }))
        ≡ codes "table 2\nfield 2\nj -3 i 0 dim 1\nj -1 i 0 dim 3\nj 1 i 0 dim 3\nj 3 i 0 dim 1\n" }
    ensures hopf { table_text (table 2 hopf_link)
        ≡ codes "table 2\nfield 2\nj -6 i -2 dim 1\nj -4 i -2 dim 1\nj -2 i 0 dim 1\nj 0 i 0 dim 1\n" }
    // The left-handed trefoil: over two elements it has two dimensions that it lacks over three.
    ensures three { table_text (table 2 trefoil)
        ≡ codes "table 2\nfield 2\nj -9 i -3 dim 1\nj -7 i -3 dim 1\nj -7 i -2 dim 1\nj -5 i -2 dim 1\nj -3 i 0 dim 1\nj -1 i 0 dim 1\n" }
    ensures three_over_three { table_text (table 3 trefoil)
        ≡ codes "table 2\nfield 3\nj -9 i -3 dim 1\nj -5 i -2 dim 1\nj -3 i 0 dim 1\nj -1 i 0 dim 1\n" }
    ensures four { table_text (table 2 figure_eight)
        ≡ codes "table 2\nfield 2\nj -5 i -2 dim 1\nj -3 i -2 dim 1\nj -3 i -1 dim 1\nj -1 i -1 dim 1\nj -1 i 0 dim 1\nj 1 i 0 dim 1\nj 1 i 1 dim 1\nj 3 i 1 dim 1\nj 3 i 2 dim 1\nj 5 i 2 dim 1\n" }
{}
