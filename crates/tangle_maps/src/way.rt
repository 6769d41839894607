//! Ways from a pairing over a second one to a third.

ghost use Rattle.std.specs.Prelude.{◌≡◌, ◌↔◌, true};
ghost use Rattle.tangle_maps.specs.Ways.{IsWay};

use crate::pairing::Pairing;
use dotted_maps::term::Term;

/// Two maps that follow one another: the first from the pairing `from` to the pairing `over`, the
/// second from there to the pairing `to`. All three pair the same arcs, `opened`, ascending.
#[derive(Clone, Copy)]
pub struct Way<'a> {
    pub opened: &'a [u8],
    pub from: &'a Pairing,
    pub over: &'a Pairing,
    pub to: &'a Pairing,
    pub first: &'a [Term],
    pub second: &'a [Term],
}

/// Whether the three pairings of a way pair its opened arcs.
pub fn is_way(way: &Way<'_>) -> bool
    ensures { (result ≡ true) ↔ IsWay way.now }
{
    way.from.is_of(way.opened) && way.over.is_of(way.opened) && way.to.is_of(way.opened)
}
