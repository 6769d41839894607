//! The test of a pivot that others name.

ghost use Rattle.std.specs.Prelude.{◌≡◌};
ghost use Rattle.shared_block.specs.Commits.{is_pivot};

use prime_field::PrimeField;
use sparse_block::{Complex, Pivot, column_at, value_at};

/// Whether a pivot is an entry other than zero; past the places of its degrees it is none.
#[tactic(auto, using(crate::proofs::PivotTests::tested))]
pub(crate) fn is_pivot<F: PrimeField>(complex: &Complex<F>, pivot: Pivot) -> bool
    ensures { result ≡ is_pivot complex.now.complex pivot }
{
    value_at(column_at(complex, pivot.degree, pivot.column), pivot.row) != 0
}
