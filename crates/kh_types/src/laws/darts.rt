//! What callers know of the darts of an accepted code.

ghost use Rattle.std.specs.Prelude.{◌≡◌, ◌≢◌, ◌<◌, ℕ, List, IsTrue};
ghost use Rattle.kh_types.specs.Code.{Code};
ghost use Rattle.kh_types.specs.Darts.{dart_count, partner_at, HasArcsTwice, HasPairedDarts, IsPairing};
ghost use Rattle.kh_types.specs.Acceptance.{accepted};
ghost use Rattle.kh_types.specs.Colours.{IsColoured};

/// In an accepted code each slot holds an arc, and each arc stands twice. Where this is so, the
/// darts are partners in pairs: an arc has two of them, and the partner of one is the other. The
/// same by the places of darts, none of which is its own partner.
pub fn darts_of_accepted_codes()
    ensures twice { (code : Code) → IsTrue (accepted code) → HasArcsTwice code.crossings }
    ensures pairs { (crossings : List (List ℕ)) → HasArcsTwice crossings
        → HasPairedDarts crossings }
    ensures places { (crossings : List (List ℕ)) → HasArcsTwice crossings
        → IsPairing (dart_count crossings) (partner_at crossings) }
    ensures none_alone { (crossings : List (List ℕ)) → HasArcsTwice crossings
        → (place : ℕ) → place < dart_count crossings → partner_at crossings place ≢ place }
{}

/// In an accepted code some choice of one bit for each crossing gives each arc one dart of either
/// colour.
pub fn accepted_codes_are_coloured()
    ensures { (code : Code) → IsTrue (accepted code)
        → (choice : ℕ) × IsColoured code.crossings choice }
{}
