//! Laws of the definitions: each is the contract of a function that does nothing, proved with the
//! crate.

ghost use Rattle.std.specs.Prelude.{◌≡◌, ℕ, ◌+◌, ◌*◌, ◌≤◌, ℤ, pos, neg_ℤ, length, codes, IsTrue};
ghost use Rattle.prime_field.specs.Residues.{IsSmallPrime};
ghost use Rattle.kh_types.specs.declared.limits.TheConstants.{CROSSINGS, EXPONENT};
ghost use Rattle.kh_types.specs.Code.{Code};
ghost use Rattle.kh_types.specs.Acceptance.{accepted};
ghost use Rattle.kh_types.specs.Table as tables;
ghost use Rattle.kh_types.specs.Table.{IsWithin, table};
ghost use Rattle.kh_types.specs.StateSum.{euler, polynomial_text};
ghost use Rattle.kh_types.specs.WorkedCodes.{trefoil};
ghost use Rattle.circle_smoothing.specs.declared.limits.TheConstants.{GENERATORS};
ghost use Rattle.circle_smoothing.specs.GeneratorCounts.{generator_count};
ghost use Rattle.homology_tables.specs.Tables.{IsTable, dim_at, total_of};
ghost use Rattle.homology_tables.specs.WorkedTables.{trefoil_table};

use crate::table::Table;

/// The laws of a table. It does nothing: a function calls it, and has them at hand in its proof.
pub fn table_laws(table: &Table)
    ensures table { IsTable table.now }
    ensures few { length table.now.rows ≤ (2 * EXPONENT + 1) * (2 * CROSSINGS + 1) }
    ensures total { total_of table.now
        ≤ GENERATORS * ((2 * EXPONENT + 1) * (2 * CROSSINGS + 1)) }
{
    let _ = &table.field;
}

/// The homology table of an accepted code within the limits, over a field of 2, 3, 5 or 7 elements,
/// is a table.
pub fn tables_of_diagrams_are_tables()
    ensures { (p : ℕ) (code : Code) → IsTrue (accepted code) → length code.crossings ≤ CROSSINGS
        → generator_count code ≤ GENERATORS → IsSmallPrime p → IsTable (table p code) }
{}

/// The graded Euler characteristic of a table has no exponents above EXPONENT in size.
pub fn eulers_are_within_the_exponents()
    ensures { (homology : tables.Table) (exponent : ℤ) → IsTable homology → ¬ IsWithin EXPONENT exponent
        → euler homology exponent ≡ pos 0 }
{}

/// A worked table and what is read off it.
pub fn worked_table()
    ensures table { table 2 trefoil ≡ trefoil_table }
    ensures there { dim_at trefoil_table (neg_ℤ (pos 2)) (neg_ℤ (pos 7)) ≡ 1 }
    ensures nowhere { dim_at trefoil_table (neg_ℤ (pos 7)) (neg_ℤ (pos 2)) ≡ 0 }
    ensures total { total_of trefoil_table ≡ 6 }
    ensures euler { polynomial_text (euler trefoil_table)
        ≡ codes "jones -1*q^-9 1*q^-5 1*q^-3 1*q^-1\n" }
{}
