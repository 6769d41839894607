//! Bigons, searched slot by slot.

ghost use Rattle.std.specs.Prelude.{◌≡◌, ◌<◌, length};
ghost use Rattle.std.specs.List.{list_any, range_with_len};
ghost use Rattle.kink_and_finger_laws.specs.Drops.{after, is_bigon, is_bigon_at};

use crate::pair::Pair;
use kh_types::Diagram;
use kh_types::laws::diagrams::diagram_laws;

/// Whether two crossings meet in a bigon.
#[tactic(auto, using(crate::proofs::Fours::list_any_four))]
pub(crate) fn is_bigon(diagram: &Diagram, pair: Pair) -> bool
    requires first { pair.first < length diagram.now.crossings }
    requires second { pair.second < length diagram.now.crossings }
    ensures { result ≡ is_bigon diagram.now.crossings pair.first pair.second }
{
    let zero = has_bigon_at(diagram, pair, 0);
    let one = has_bigon_at(diagram, pair, 1);
    let two = has_bigon_at(diagram, pair, 2);
    let three = has_bigon_at(diagram, pair, 3);
    pair.first != pair.second && (zero || (one || (two || three)))
}

/// Whether they meet in one from a slot of the first.
#[tactic(auto, using(crate::proofs::Fours::list_any_four))]
fn has_bigon_at(diagram: &Diagram, pair: Pair, p: u8) -> bool
    requires first { pair.first < length diagram.now.crossings }
    requires second { pair.second < length diagram.now.crossings }
    requires slot { p < 4 }
    ensures { result
        ≡ list_any (is_bigon_at diagram.now.crossings pair.first pair.second p)
        (range_with_len 0 4) }
{
    let zero = is_bigon_at(diagram, pair, p, 0);
    let one = is_bigon_at(diagram, pair, p, 1);
    let two = is_bigon_at(diagram, pair, p, 2);
    let three = is_bigon_at(diagram, pair, p, 3);
    zero || (one || (two || three))
}

/// Whether they meet in one from a slot of each.
fn is_bigon_at(diagram: &Diagram, pair: Pair, p: u8, q: u8) -> bool
    requires first { pair.first < length diagram.now.crossings }
    requires second { pair.second < length diagram.now.crossings }
    requires first_slot { p < 4 }
    requires second_slot { q < 4 }
    ensures { result ≡ is_bigon_at diagram.now.crossings pair.first pair.second p q }
{
    diagram_laws(diagram);
    let first_end = diagram.partner_at(4 * pair.first + p);
    let second_end = diagram.partner_at(4 * pair.second + q);
    let first_meets = first_end == 4 * pair.second + after(q);
    let second_meets = second_end == 4 * pair.first + after(p);
    first_meets && (second_meets && (p + q) % 2 == 1)
}

/// The slot after a slot, counterclockwise.
fn after(slot: u8) -> u8
    requires { slot < 4 }
    ensures after { result ≡ after slot }
    ensures within { result < 4 }
{
    (slot + 1) % 4
}
