//! Pairings of open arcs.

ghost use Rattle.std.specs.Prelude.{◌≡◌, ◌↔◌, ◌<◌, ◌≢◌, slice_index, slice_set, [], ◌∷◌, ◌++◌, ◌+◌, ◌≤◌, length, true, if◌then◌else◌};
ghost use Rattle.std.specs.List.{range_with_len};
ghost use Rattle.tangle_maps.specs.declared.pairing.TheConstants.{POINTS};
ghost use Rattle.tangle_maps.specs.Pairings.{ArePartners, IsOpened, is_paired, joins_of, paired_arcs, partnered};
ghost use Rattle.kh_types.specs.Classes.{joined};
ghost use Rattle.std.specs.List.{fold};

use crate::names::{Names, at, join};
use arrayvec::ArrayVec;

/// More than the greatest number of an arc.
pub const POINTS: usize = 48;

/// Each arc by itself.
pub const ALONE: Names = [
    0, 1, 2, 3, 4, 5, 6, 7, 8, 9, 10, 11, 12, 13, 14, 15, 16, 17, 18, 19, 20, 21, 22, 23, 24, 25,
    26, 27, 28, 29, 30, 31, 32, 33, 34, 35, 36, 37, 38, 39, 40, 41, 42, 43, 44, 45, 46, 47,
];

/// A pairing of open arcs: each has another for its partner, and an arc that is not open is its
/// own. `partners` has the partner of each number below POINTS, and `==` compares these.
#[derive(Clone, Copy, Debug, PartialEq, Eq)]
pub struct Pairing {
    pub partners: Names,
    ghost paired: { ArePartners partners },
}

impl Pairing {
    /// The pairing of no arcs: each is its own partner.
    pub fn none() -> Pairing
        ensures { result.partners ≡ range_with_len 0 POINTS }
    {
        Pairing { partners: ALONE }
    }

    /// The partner of an arc, itself if it is not open.
    pub fn partner(&self, arc: u8) -> u8
        requires { arc < POINTS }
        ensures partner { result ≡ slice_index self.now.partners arc }
        ensures below { result < POINTS }
    {
        at(&self.partners, arc)
    }

    /// The arcs that it pairs, ascending.
    pub fn arcs(&self) -> ArrayVec<u8, POINTS>
        ensures { result.items ≡ paired_arcs self.now.partners }
    {
        let mut arcs = ArrayVec::new();
        'arcs: for arc in 0..POINTS {
            self.push_paired(&mut arcs, arc as u8);
        }
        arcs
    }

    /// Whether these are the arcs that it pairs, ascending.
    pub fn is_of(&self, arcs: &[u8]) -> bool
        ensures { (result ≡ true) ↔ (arcs.now ≡ paired_arcs self.now.partners) }
    {
        let paired = self.arcs();
        are_equal(arcs, paired.as_slice())
    }

    /// Adds an arc to others, if it has a partner.
    fn push_paired(&self, arcs: &mut ArrayVec<u8, POINTS>, arc: u8)
        requires arc { arc < POINTS }
        requires room { length arcs.old.items < POINTS }
        ensures arcs { arcs.new.items ≡ arcs.old.items
            ++ (if is_paired self.now.partners arc then arc ∷ [] else []) }
        ensures bound { length arcs.new.items ≤ length arcs.old.items + 1 }
    {
        if self.partner(arc) != arc {
            arcs.push(arc);
        }
    }

    /// Makes partners of two arcs that have none.
    pub fn pair(&mut self, one: u8, other: u8)
        requires one { one < POINTS }
        requires other { other < POINTS }
        requires apart { one ≢ other }
        requires one_alone { slice_index self.old.partners one ≡ one }
        requires other_alone { slice_index self.old.partners other ≡ other }
        ensures { self.new.partners ≡ partnered self.old.partners one other }
    {
        self.partners[usize::from(one)] = other;
        self.partners[usize::from(other)] = one;
    }
}

/// Whether two lists of arcs are equal.
fn are_equal(arcs: &[u8], others: &[u8]) -> bool
    ensures { (result ≡ true) ↔ (arcs.now ≡ others.now) }
{
    arcs == others
}

/// Joins the arcs of each pair, of some arcs, that are least in it, with their partners.
#[tactic(auto, using(crate::proofs::PairingLemmas::joins_more))]
pub fn join_pairs(classes: &mut Names, pairing: &Pairing, arcs: &[u8])
    requires { IsOpened arcs.now }
    ensures { classes.new ≡ fold joined classes.old (joins_of pairing.now.partners arcs.now) }
{
    'arcs: for arc in arcs {
        join_pair(classes, pairing, *arc);
    }
}

/// Joins an arc with its partner, if it is the lesser of the two.
fn join_pair(classes: &mut Names, pairing: &Pairing, arc: u8)
    requires { arc < POINTS }
    ensures { classes.new ≡ fold joined classes.old (joins_of pairing.now.partners (arc ∷ [])) }
{
    let partner = pairing.partner(arc);
    if arc < partner {
        join(classes, arc, partner);
    }
}
