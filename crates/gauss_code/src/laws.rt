//! What holds of the definitions that the contracts cite, beyond any one call.

pub mod directed;
pub mod printing;
pub mod reading;

ghost use Rattle.std.specs.Prelude.{◌≡◌, List, [], ◌∷◌, codes, pos, negsuc, neg_ℤ};
ghost use Rattle.gauss_code.specs.Listings.{Body};
ghost use Rattle.gauss_code.specs.Codes.{listed_code};
ghost use Rattle.gauss_code.specs.Printing.{gauss_text};

/// What some labels and signs stand for, and how some codes are printed.
pub fn worked_codes()
    ensures trefoil { listed_code
        (Body.Bare (negsuc 0 ∷ pos 3 ∷ negsuc 1 ∷ pos 1 ∷ negsuc 2 ∷ pos 2 ∷ []))
        (negsuc 0 ∷ negsuc 0 ∷ negsuc 0 ∷ []) ≡ record {
          crossings = (1 ∷ 4 ∷ 2 ∷ 5 ∷ []) ∷ (3 ∷ 6 ∷ 4 ∷ 1 ∷ []) ∷ (5 ∷ 2 ∷ 6 ∷ 3 ∷ []) ∷ [];
          loops = 0;
        } }
    ensures turned_labels { listed_code
        (Body.Groups (negsuc 0 ∷ negsuc 1 ∷ []) ((pos 2 ∷ pos 1 ∷ []) ∷ [] ∷ []))
        (pos 1 ∷ negsuc 0 ∷ []) ≡ record {
          crossings = (1 ∷ 4 ∷ 2 ∷ 3 ∷ []) ∷ (2 ∷ 4 ∷ 1 ∷ 3 ∷ []) ∷ [];
          loops = 1;
        } }
    ensures printed { gauss_text (record {
      crossings = (1 ∷ 4 ∷ 2 ∷ 5 ∷ []) ∷ (3 ∷ 6 ∷ 4 ∷ 1 ∷ []) ∷ (5 ∷ 2 ∷ 6 ∷ 3 ∷ []) ∷ [];
      loops = 0;
    }) ≡ codes "GaussCode[-1, 3, -2, 1, -3, 2] Signs[-1, -1, -1]" }
    ensures printed_groups { gauss_text (record {
      crossings = (1 ∷ 4 ∷ 2 ∷ 3 ∷ []) ∷ (2 ∷ 4 ∷ 1 ∷ 3 ∷ []) ∷ [];
      loops = 1;
    }) ≡ codes "GaussCode[{-1, -2}, {1, 2}, {}] Signs[1, -1]" }
    ensures printed_empty { gauss_text (record { crossings = []; loops = 0 })
        ≡ codes "GaussCode[] Signs[]" }
    ensures printed_loop { gauss_text (record { crossings = []; loops = 1 })
        ≡ codes "GaussCode[{}] Signs[]" }
{}
