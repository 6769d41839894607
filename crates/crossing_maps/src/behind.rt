//! The pairing after a crossing.

ghost use Rattle.std.specs.Prelude.{◌≡◌, ◌<◌, [], ◌∷◌};
ghost use Rattle.std.specs.List.{fold, range_with_len};
ghost use Rattle.added_crossing_laws.specs.Pairings.{IsPairingOf};
ghost use Rattle.added_crossing_laws.specs.Steps.{pairs_among, pairs_at};
ghost use Rattle.tangle_maps.specs.declared.pairing.TheConstants.{POINTS};
ghost use Rattle.tangle_maps.specs.Pairings.{IsOpened, joins_of};
ghost use Rattle.crossing_maps.specs.Partners.{paired_up};

use tangle_maps::Pairing;
use tangle_maps::names::{Names, at};

/// Makes partners of two arcs, if both have none.
fn pair_up(made: &mut Pairing, one: u8, other: u8)
    requires one { one < POINTS }
    requires other { other < POINTS }
    ensures { made.new.partners ≡ paired_up made.old.partners (one, other) }
{
    if one != other && made.partner(one) == one && made.partner(other) == other {
        made.pair(one, other);
    }
}

/// Makes partners of an arc and each greater one, of some arcs, of its class.
#[tactic(auto, using(crate::proofs::MorePairs::mates_more))]
fn pair_mates(made: &mut Pairing, classes: &Names, opened: &[u8], arc: u8)
    requires opened { IsOpened opened.now }
    requires arc { arc < POINTS }
    ensures { made.new.partners
        ≡ fold paired_up made.old.partners (pairs_at opened.now classes.now arc) }
{
    'mates: for mate in opened {
        pair_mate(made, classes, arc, *mate);
    }
}

/// Makes partners of an arc and another, if that is greater and of its class.
fn pair_mate(made: &mut Pairing, classes: &Names, arc: u8, mate: u8)
    requires arc { arc < POINTS }
    requires mate { mate < POINTS }
    ensures { made.new.partners
        ≡ fold paired_up made.old.partners (pairs_at (mate ∷ []) classes.now arc) }
{
    if arc < mate && at(classes, arc) == at(classes, mate) {
        pair_up(made, arc, mate);
    }
}

/// The pairing of these arcs that joins those of each class.
#[tactic(auto, using(crate::proofs::MorePairs::pairs_more))]
pub fn paired_by(classes: &Names, opened: &[u8]) -> Pairing
    requires opened { IsOpened opened.now }
    ensures made { result.partners
        ≡ fold paired_up (range_with_len 0 POINTS) (pairs_among opened.now classes.now) }
    ensures pairs { IsPairingOf opened.now (pairs_among opened.now classes.now)
        → joins_of result.partners opened.now ≡ pairs_among opened.now classes.now }
{
    let mut made = Pairing::none();
    'arcs: for arc in opened {
        pair_mates(&mut made, classes, opened, *arc);
    }
    made
}
