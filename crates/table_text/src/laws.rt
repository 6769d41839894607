//! What holds of the definitions that the contracts cite, beyond any one call.

ghost use Rattle.std.specs.Prelude.{◌≡◌, ◌≢◌, ◌↔◌, ◌++◌, ℕ, List, [], codes, Result, Ok, Err};
ghost use Rattle.kh_types.specs.Table.{Table as Plain, table_text};
ghost use Rattle.homology_tables.specs.Tables.{IsTable};
ghost use Rattle.table_text.specs.Lines.{first_line};
ghost use Rattle.table_text.specs.Reading.{IsTableReading, IsTableText};
ghost use Rattle.table_text.specs.Versions.{version_line};
ghost use Rattle.table_text.specs.declared.limits.TheConstants.{FIRST_CROSSINGS, FIRST_EXPONENT, TABLE_BYTES};
ghost use Rattle.table_text.specs.declared.stop.TableStop.{TableStop};

/// The most bytes of a text that is read, and the ranges of degrees in texts of version 1.
pub fn limits()
    ensures bytes { TABLE_BYTES ≡ 1048576 }
    ensures exponent { FIRST_EXPONENT ≡ 72 }
    ensures crossings { FIRST_CROSSINGS ≡ 16 }
{}

/// Each text has a reading, and two readings of a text are one.
pub fn each_text_has_one_reading()
    ensures some { (text : List ℕ) → (reading : Result Plain TableStop) × IsTableReading text reading }
    ensures one { (text : List ℕ) (a b : Result Plain TableStop)
        → IsTableReading text a → IsTableReading text b → a ≡ b }
{}

/// A table is read from its text, and what is read from a text prints as that text where it begins
/// with the line of version 2, and else as the text behind that line.
pub fn texts_print_in_version_2()
    ensures read { (table : Plain) → IsTable table → IsTableReading (table_text table) (Ok table) }
    ensures second { (text : List ℕ) (table : Plain) → IsTableReading text (Ok table)
        → first_line text ≡ version_line → table_text table ≡ text }
    ensures first { (text : List ℕ) (table : Plain) → IsTableReading text (Ok table)
        → first_line text ≢ version_line → table_text table ≡ version_line ++ text }
{}

/// A table is told by its text, and a text is refused exactly where it is no table's.
pub fn other_texts_are_refused()
    ensures one { (table other : Plain) → IsTable table → IsTable other
        → table_text table ≡ table_text other → table ≡ other }
    ensures refused { (text : List ℕ)
        → ((place : ℕ) × IsTableReading text (Err (TableStop.Text place))) ↔ ¬ IsTableText text }
{}

/// What some texts read as.
pub fn worked_texts()
    ensures nothing { IsTableReading [] (Err (TableStop.Text 0)) }
    ensures no_feed { IsTableReading (codes "field 2") (Err (TableStop.Text 0)) }
    ensures no_field { IsTableReading (codes "table 2\n") (Err (TableStop.Text 8)) }
    ensures no_rows { IsTableReading (codes "table 2\nfield 7\n") (Ok (record { field = 7; rows = [] })) }
    ensures first { IsTableReading (codes "field 7\n") (Ok (record { field = 7; rows = [] })) }
{}
