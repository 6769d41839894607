//! The labels behind an edge, by arithmetic on bits.

ghost use Rattle.std.specs.Prelude.{◌≡◌, ◌+◌, ◌*◌, ◌^◌, ◌<◌, ◌≤◌};
ghost use Rattle.kh_types.specs.declared.limits.TheConstants.{CIRCLES};
ghost use Rattle.circle_smoothing.specs.Edges.{HasNumbersBelow};
ghost use Rattle.cube_signs.specs.Heads.{labels_behind, merged_labels, split_labels};
ghost use Rattle.cube_signs.specs.Heads.{with_gap, without_bit};

use arrayvec::ArrayVec;
use circle_smoothing::Edge;
use kh_types::bit;

/// The labels behind an edge, ascending.
pub fn labels_behind(change: Edge, label: u64) -> ArrayVec<u64, 2>
    requires numbers { HasNumbersBelow CIRCLES change }
    requires label { label < 2 ^ CIRCLES }
    ensures { result.items ≡ labels_behind change label }
{
    match change {
        Edge::Merge { a, b, .. } => merged_labels(a, b, label),
        Edge::Split { a, b, .. } => split_labels(a, b, label),
    }
}

/// The labels behind a merge of two circles.
fn merged_labels(a: u8, b: u8, label: u64) -> ArrayVec<u64, 2>
    requires a { a < CIRCLES }
    requires b { b < CIRCLES }
    requires label { label < 2 ^ CIRCLES }
    ensures { result.items ≡ merged_labels a b label }
{
    let mut labels = ArrayVec::new();
    let (of_a, of_b) = (bit(label, usize::from(a)), bit(label, usize::from(b)));
    if of_a == 1 && of_b == 1 {
        return labels;
    }
    labels.push(without_bit(b, label) + power(a) * u64::from(of_b));
    labels
}

/// The labels behind a split into two circles.
fn split_labels(a: u8, b: u8, label: u64) -> ArrayVec<u64, 2>
    requires a { a < CIRCLES }
    requires b { b < CIRCLES }
    requires label { label < 2 ^ CIRCLES }
    ensures { result.items ≡ split_labels a b label }
{
    let mut labels = ArrayVec::new();
    let apart = with_gap(b, label);
    if bit(label, usize::from(a)) != 1 {
        labels.push(apart + power(a));
    }
    labels.push(apart + power(b));
    labels
}

/// A label without the bit at a place.
#[tactic(auto, using(crate::proofs::HeadBounds::bounds))]
fn without_bit(place: u8, label: u64) -> u64
    requires place { place < CIRCLES }
    requires label { label < 2 ^ CIRCLES }
    ensures label { result ≡ without_bit place label }
    ensures within { result ≤ label }
{
    label % power(place) + power(place) * (label / power(place + 1))
}

/// A label with a new bit 0 at a place.
#[tactic(auto, using(crate::proofs::HeadBounds::bounds))]
fn with_gap(place: u8, label: u64) -> u64
    requires place { place < CIRCLES }
    requires label { label < 2 ^ CIRCLES }
    ensures label { result ≡ with_gap place label }
    ensures within { result ≤ 2 * label }
{
    label % power(place) + power(place + 1) * (label / power(place))
}

/// A power of 2.
#[tactic(auto, using(crate::proofs::HeadBounds::powers))]
fn power(place: u8) -> u64
    requires { place ≤ CIRCLES }
    ensures power { result ≡ 2 ^ place }
    ensures positive { 0 < result }
    ensures within { result ≤ 2 ^ CIRCLES }
{
    1 << place
}
