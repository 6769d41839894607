//! The bridges of new maps: those from one pairing to another with either smoothing, and those of
//! saddles. One that has been made is found again by its pairings.

ghost use Rattle.std.specs.Prelude.{◌≡◌, ℕ, ◌<◌, List, length, slice_index_or, IfOk, IfSome, OnOk};
ghost use Rattle.tangle_scan.specs.AddedBridges.{AreAllBridges, AreBridgesFrom, HasBridgeAt, HasBridgesAt, IsSaddleOf};
ghost use Rattle.tangle_scan.specs.Additions.{AreLinks, IsChild, IsParent};

use crate::adding::children::{Child, Links, Parent, pairing_of, side_of};
use crossing_maps::between::{added_bridge, saddle_bridge};
use crossing_maps::bridges::Bridge;
use kh_types::NoMemory;
use tangle_maps::Pairing;

/// A bridge, and the pairing to which it leads.
#[derive(Drop)]
pub struct BridgeTo {
    pub pairing: Pairing,
    pub bridge: Bridge,
}

/// The bridges from a pairing with one smoothing that have been made, each to another pairing.
pub type Bridges = Vec<BridgeTo>;

/// The bridges of a pairing: those with either smoothing, and that of its saddle.
#[derive(Drop)]
pub struct BridgesOf {
    pub pairing: Pairing,
    pub zero: Bridges,
    pub one: Bridges,
    pub saddle: Bridge,
}

/// The bridges of the pairings of objects, as far as they have been made.
pub type AllBridges = Vec<BridgesOf>;

/// What is kept with a pairing.
trait HasPairing {
    ghost partners_of: { Self → List ℕ };

    fn pairing(&self) -> &Pairing
        ensures { result.now.partners ≡ partners_of self.now };
}

impl HasPairing for BridgeTo {
    ghost partners_of = { λ to. to.pairing.partners };

    fn pairing(&self) -> &Pairing {
        &self.pairing
    }
}

impl HasPairing for BridgesOf {
    ghost partners_of = { λ bridges. bridges.pairing.partners };

    fn pairing(&self) -> &Pairing {
        &self.pairing
    }
}

/// The place of what is kept of a pairing, if there is any.
fn place_of<T: HasPairing>(all: &[T], pairing: &Pairing) -> Option<usize>
    ensures within { IfSome result (λ place. place < length all.now) }
    ensures found { IfSome result (λ place. (d : T)
        → T.partners_of (slice_index_or all.now place d) ≡ pairing.now.partners) }
{
    'all: for place in 0..all.len() {
        if all[place].pairing().partners == pairing.partners {
            return Some(place);
        }
    }
    None
}

/// Makes the bridge from an object to another, and tells its place.
fn push_bridge(
    bridges: &mut Bridges,
    links: &Links<'_>,
    from: &Child<'_>,
    head: &Parent<'_>,
) -> Result<usize, NoMemory>
    requires links { (p : ℕ) × AreLinks p links.now }
    requires from { IsChild links.now.adding.now from.now }
    requires head { IsParent links.now.adding.now head.now }
    requires bridges { AreBridgesFrom links.now.adding.now from.now.side.smoothing
        from.now.parent bridges.old.items }
    ensures bridges { OnOk result (AreBridgesFrom links.now.adding.now from.now.side.smoothing
        from.now.parent bridges.new.items) }
    ensures place { IfOk result (λ place. HasBridgeAt links.now.adding.now
        from.now.side.smoothing from.now.parent head.now.place bridges.new.items place) }
{
    let to = side_of(links, head, from.side.smoothing);
    let bridge = added_bridge(links.alloc, &links.adding.site, &from.side, &to);
    let place = bridges.len();
    bridges.push(BridgeTo {
        pairing: *to.pairing,
        bridge,
    })?;
    Ok(place)
}

/// The place of the bridge from an object to another, which is made if there is none.
pub fn bridge_to(
    bridges: &mut Bridges,
    links: &Links<'_>,
    from: &Child<'_>,
    head: &Parent<'_>,
) -> Result<usize, NoMemory>
    requires links { (p : ℕ) × AreLinks p links.now }
    requires from { IsChild links.now.adding.now from.now }
    requires head { IsParent links.now.adding.now head.now }
    requires bridges { AreBridgesFrom links.now.adding.now from.now.side.smoothing
        from.now.parent bridges.old.items }
    ensures bridges { OnOk result (AreBridgesFrom links.now.adding.now from.now.side.smoothing
        from.now.parent bridges.new.items) }
    ensures place { IfOk result (λ place. HasBridgeAt links.now.adding.now
        from.now.side.smoothing from.now.parent head.now.place bridges.new.items place) }
{
    let pairing = pairing_of(links, head);
    match place_of(bridges, pairing) {
        Some(place) => Ok(place),
        None => push_bridge(bridges, links, from, head),
    }
}

/// The bridge of the saddle of an object.
fn saddle_of(links: &Links<'_>, parent: &Parent<'_>) -> Bridge
    requires links { (p : ℕ) × AreLinks p links.now }
    requires parent { IsParent links.now.adding.now parent.now }
    ensures { IsSaddleOf links.now.adding.now parent.now.place result }
{
    let from = side_of(links, parent, 0);
    let to = side_of(links, parent, 1);
    saddle_bridge(links.alloc, &links.adding.site, &from, &to)
}

/// Begins the bridges of an object's pairing, and tells their place.
fn push_bridges(
    all: &mut AllBridges,
    links: &Links<'_>,
    parent: &Parent<'_>,
) -> Result<usize, NoMemory>
    requires links { (p : ℕ) × AreLinks p links.now }
    requires parent { IsParent links.now.adding.now parent.now }
    requires all { AreAllBridges links.now.adding.now all.old.items }
    ensures all { OnOk result (AreAllBridges links.now.adding.now all.new.items) }
    ensures place { IfOk result (λ place. HasBridgesAt links.now.adding.now parent.now.place
        all.new.items place) }
{
    let pairing = pairing_of(links, parent);
    let saddle = saddle_of(links, parent);
    let place = all.len();
    all.push(BridgesOf {
        pairing: *pairing,
        zero: Vec::new(links.alloc),
        one: Vec::new(links.alloc),
        saddle,
    })?;
    Ok(place)
}

/// The place of the bridges of an object's pairing, which are begun if there are none.
pub fn bridges_of(
    all: &mut AllBridges,
    links: &Links<'_>,
    parent: &Parent<'_>,
) -> Result<usize, NoMemory>
    requires links { (p : ℕ) × AreLinks p links.now }
    requires parent { IsParent links.now.adding.now parent.now }
    requires all { AreAllBridges links.now.adding.now all.old.items }
    ensures all { OnOk result (AreAllBridges links.now.adding.now all.new.items) }
    ensures place { IfOk result (λ place. HasBridgesAt links.now.adding.now parent.now.place
        all.new.items place) }
{
    match place_of(all, pairing_of(links, parent)) {
        Some(place) => Ok(place),
        None => push_bridges(all, links, parent),
    }
}
