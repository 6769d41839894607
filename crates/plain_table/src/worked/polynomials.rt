//! The state sums of known diagrams, as the definitions compute them, and that each is the graded
//! Euler characteristic of the diagram's table.

ghost use Rattle.std.specs.Prelude.{◌≡◌, codes};
ghost use Rattle.kh_types.specs.WorkedCodes.{empty_link, one_loop, curl, hopf_link, trefoil, figure_eight};
ghost use Rattle.kh_types.specs.Table.{table};
ghost use Rattle.kh_types.specs.StateSum.{state_sum, euler, terms, polynomial_text};

/// The state sums, as Jones lines; and that each is the graded Euler characteristic of the table
/// over two elements, and the trefoil's also of the one over three.
pub fn known_state_sums()
    ensures empty { polynomial_text (state_sum empty_link) ≡ codes "jones 1*q^0\n" }
    ensures loop_alone { polynomial_text (state_sum one_loop) ≡ codes "jones 1*q^-1 1*q^1\n" }
    ensures curled { polynomial_text (state_sum curl) ≡ codes "jones 1*q^-1 1*q^1\n" }
    ensures hopf { polynomial_text (state_sum hopf_link)
        ≡ codes "jones 1*q^-6 1*q^-4 1*q^-2 1*q^0\n" }
    ensures three { polynomial_text (state_sum trefoil)
        ≡ codes "jones -1*q^-9 1*q^-5 1*q^-3 1*q^-1\n" }
    ensures four { polynomial_text (state_sum figure_eight) ≡ codes "jones 1*q^-5 1*q^5\n" }
    ensures euler_empty { terms (euler (table 2 empty_link)) ≡ terms (state_sum empty_link) }
    ensures euler_loop_alone { terms (euler (table 2 one_loop)) ≡ terms (state_sum one_loop) }
    ensures euler_curled { terms (euler (table 2 curl)) ≡ terms (state_sum curl) }
    ensures euler_hopf { terms (euler (table 2 hopf_link)) ≡ terms (state_sum hopf_link) }
    ensures euler_three { terms (euler (table 2 trefoil)) ≡ terms (state_sum trefoil) }
    ensures euler_four { terms (euler (table 2 figure_eight)) ≡ terms (state_sum figure_eight) }
    ensures euler_three_over_three { terms (euler (table 3 trefoil)) ≡ terms (state_sum trefoil) }
{}
