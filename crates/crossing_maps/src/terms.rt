//! The terms of a map after a crossing.

ghost use Rattle.std.specs.Prelude.{◌≡◌, ℕ, List, map, OnOk};
ghost use Rattle.kh_types.specs.Code.{Code};
ghost use Rattle.surface_laws.specs.Points.{discs};
ghost use Rattle.dotted_maps.specs.Maps.{scaled};
ghost use Rattle.added_crossing_laws.specs.Codes.{points_at, saddle_strips};
ghost use Rattle.tangle_maps.specs.Seams.{CanCompose};
ghost use Rattle.tangle_maps.specs.Sums.{AreReduced, IsSum, dotted_term};
ghost use Rattle.crossing_maps.specs.AddedSeams.{ArePairs, IsSeamAt};
ghost use Rattle.crossing_maps.specs.NewTerms.{first_end, new_map, saddle_map};

use dotted_maps::term::Term;
use kh_types::NoMemory;
use prime_field::PrimeField;
use prime_field::laws::element_laws;
use tangle_maps::{KnownSeam, Terms, add_all};

/// The term with these dots and the coefficient 1.
fn dotted(dots: u64) -> Term
    ensures { result ≡ dotted_term dots 1 }
{
    Term {
        dots,
        coefficient: 1,
    }
}

/// Adds a multiple of what a map becomes after a crossing, where that has one smoothing and the
/// labels of closed circles are these marks, to a sum.
pub fn add_map<F: PrimeField>(
    terms: &mut Terms,
    seam: &mut KnownSeam,
    marks: u64,
    old: &[Term],
    factor: F,
) -> Result<(), NoMemory>
    requires reduced { AreReduced F.P terms.old.items }
    requires seam { CanCompose seam.old }
    requires old { AreReduced F.P old.now }
    ensures same { seam.new ≡ seam.old }
    ensures sum { (code : Code) (k smoothing : ℕ) (m n : List (ℕ × ℕ)) (label other : ℕ)
        → ArePairs code k m n → IsSeamAt code k smoothing smoothing m n
        (discs (points_at code k) m n) (points_at code k).opened label other seam.old marks
        → OnOk result (IsSum F.P terms.old.items (scaled (F.value_of factor)
        (new_map code k smoothing m n label other old.now)) terms.new.items) }
    ensures reduced { AreReduced F.P terms.new.items }
{
    element_laws::<F>();
    let marked = [dotted(marks)];
    add_all(terms, seam, old, &marked, factor)
}

/// Adds a multiple of the saddle of a pairing at a crossing, where the labels of closed circles are
/// these marks, to a sum.
pub fn add_saddle<F: PrimeField>(
    terms: &mut Terms,
    seam: &mut KnownSeam,
    marks: u64,
    sign: F,
) -> Result<(), NoMemory>
    requires reduced { AreReduced F.P terms.old.items }
    requires seam { CanCompose seam.old }
    ensures same { seam.new ≡ seam.old }
    ensures sum { (code : Code) (k : ℕ) (m : List (ℕ × ℕ)) (label other : ℕ)
        → ArePairs code k m m → IsSeamAt code k 0 1 m m
        (map first_end m) (saddle_strips code k) label other seam.old marks
        → OnOk result (IsSum F.P terms.old.items (scaled (F.value_of sign)
        (saddle_map code k m label other)) terms.new.items) }
    ensures reduced { AreReduced F.P terms.new.items }
{
    element_laws::<F>();
    let marked = [dotted(marks)];
    let bare = [dotted(0)];
    add_all(terms, seam, &bare, &marked, sign)
}
