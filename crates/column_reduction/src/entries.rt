//! The last entry of a line.

ghost use Rattle.std.specs.Prelude.{◌≡◌, ◌≢◌, ℕ, [], IfSome};
ghost use Rattle.sparse_block.specs.Entries.{AreEntries, value_at};
ghost use Rattle.column_reduction.specs.Reductions.{EndsAt};
ghost use Rattle.column_reduction.specs.StoredColumns.{last_place};

use sparse_block::Entry;

/// The row where a line ends; none where it has no entry.
pub(crate) fn last_row(line: &[Entry]) -> Option<u32>
    ensures some { IfSome result (λ row. (line.now ≢ []) × (row ≡ last_place line.now)) }
    ensures none { result ≡ None → line.now ≡ [] }
{
    if line.is_empty() {
        return None;
    }
    Some(line[line.len() - 1].place())
}

/// The value of a line where it ends.
pub(crate) fn last_value(line: &[Entry]) -> u8
    requires { (p : ℕ) × (size : ℕ) × AreEntries p size line.now }
    ensures { (row : ℕ) → EndsAt row (value_at line.now) → result ≡ value_at line.now row }
{
    if line.is_empty() {
        return 0;
    }
    line[line.len() - 1].value()
}
