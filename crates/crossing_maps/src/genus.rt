//! The genus of each component of the surface that a crossing adds.

ghost use Rattle.std.specs.Prelude.{◌≡◌, ℕ, ◌+◌, ◌++◌, ◌*◌, ◌≤◌, List, length, map, slice_index};
ghost use Rattle.std.specs.List.{Contains};
ghost use Rattle.kh_types.specs.Classes.{classes_of};
ghost use Rattle.kh_types.specs.Code.{Code};
ghost use Rattle.added_crossing_laws.specs.Codes.{closed_at, discs_behind, points_at, smoothing_at, step_at};
ghost use Rattle.added_crossing_laws.specs.Entries.{added_surface};
ghost use Rattle.surface_laws.specs.Points.{discs};
ghost use Rattle.added_crossing_laws.specs.Steps.{near};
ghost use Rattle.surface_laws.specs.Surfaces.{genus_on, marks_on};
ghost use Rattle.tangle_maps.specs.declared.pairing.TheConstants.{POINTS};
ghost use Rattle.tangle_maps.specs.Pairings.{IsOpened};
ghost use Rattle.crossing_maps.specs.Counts.{genus_at, genus_among, marks_by, surface_of};
ghost use Rattle.crossing_maps.specs.ListedPlaces.{HaveRoom, places_in};

use tangle_maps::POINTS;
use tangle_maps::names::Names;
use tangle_maps::seam::how_many;

/// Places of a surface, or the components on which they lie: of the discs after the crossing and
/// before it, of the circles closed on either side, and of half strips.
#[derive(Clone, Copy)]
pub struct Lists<'a> {
    pub rims: &'a [u8],
    pub discs: &'a [u8],
    pub closed: &'a [u8],
    pub others: &'a [u8],
    pub lowers: &'a [u8],
    pub raises: &'a [u8],
}

/// The genus of a component, by the components of places.
fn genus_in(component: u8, lists: &Lists<'_>) -> u8
    requires { HaveRoom (places_in lists.now) }
    ensures { result ≡ genus_at (places_in lists.now) component }
{
    let faces = how_many(component, lists.rims)
        + (how_many(component, lists.discs)
            + (how_many(component, lists.closed) + how_many(component, lists.others)));
    let count = 2 * faces + how_many(component, lists.raises);
    ((how_many(component, lists.lowers) + 4).saturating_sub(count) / 4) as u8
}

/// The genus of each component, by the components of places.
#[tactic(auto, using(tangle_maps::proofs::SeamLemmas::noted_more))]
pub fn genera_in(components: &[u8], lists: &Lists<'_>) -> Names
    requires components { IsOpened components.now }
    requires room { HaveRoom (places_in lists.now) }
    ensures { (k : ℕ) → Contains components.now k
        → slice_index result k ≡ genus_at (places_in lists.now) k }
{
    let mut genera = [0; POINTS];
    'components: for component in components {
        genera[usize::from(*component)] = genus_in(*component, lists);
    }
    genera
}

/// Counts of components are the genus of the surface.
pub fn genera_are_counted()
    ensures { (size : ℕ) (places : List ℕ) (joins : List (ℕ × ℕ))
        (rims discs closed others lowers raises : List ℕ) (kept dots label other component : ℕ)
        → genus_on (surface_of size places joins rims discs closed others lowers raises kept dots
        label other) component
        ≡ genus_among component (map (slice_index (classes_of size joins)) rims)
        (map (slice_index (classes_of size joins)) discs)
        (map (slice_index (classes_of size joins)) closed)
        (map (slice_index (classes_of size joins)) others)
        (map (slice_index (classes_of size joins)) lowers)
        (map (slice_index (classes_of size joins)) raises) }
{}

/// The surface of a term after a crossing is such a surface.
pub fn terms_are_counted()
    ensures { (code : Code) (k smoothing : ℕ) (m n : List (ℕ × ℕ)) (dots label other kept : ℕ)
        → added_surface code k smoothing m n dots label other kept
        ≡ surface_of (points_at code k).size (near (step_at code k))
        ((m ++ smoothing_at code k smoothing) ++ (n ++ smoothing_at code k smoothing))
        (discs_behind code k smoothing smoothing m n) (discs (points_at code k) m n)
        (closed_at code k smoothing m) (closed_at code k smoothing n) (points_at code k).opened
        (points_at code (k + 1)).opened kept dots label other }
{}

/// Counts of components are the marks on the surface.
pub fn marks_are_counted()
    ensures { (size : ℕ) (places : List ℕ) (joins : List (ℕ × ℕ))
        (rims discs closed others lowers raises : List ℕ) (kept dots label other component : ℕ)
        → marks_on (surface_of size places joins rims discs closed others lowers raises kept dots
        label other) component
        ≡ marks_by component (map (slice_index (classes_of size joins)) rims)
        (map (slice_index (classes_of size joins)) discs)
        (map (slice_index (classes_of size joins)) closed)
        (map (slice_index (classes_of size joins)) others) kept dots label other }
{}
