//! Counts of the places of a degree, by its number from the least degree on.

ghost use Rattle.std.specs.Prelude.{◌≡◌, ◌<◌, ◌≤◌, ◌^◌, [], length, slice_index_or, All, false};
ghost use Rattle.std.specs.List.{count_by};
ghost use Rattle.sparse_block.specs.Inside.{lists_in};

use crate::Generator;

/// How many names degree number `k` has, none past the last degree.
pub(crate) fn name_count(names: &[Vec<Generator>], k: usize) -> u32
    requires { All (λ degree. length degree < 2 ^ 29) (lists_in names.now) }
    ensures { result ≡ length (slice_index_or (lists_in names.now) k []) }
{
    match names.get(k) {
        Some(degree) => degree.len() as u32,
        None => 0,
    }
}

/// How many places degree number `k` has, none past the last degree.
pub(crate) fn place_count(alive: &[Vec<bool>], k: usize) -> usize
    ensures { result ≡ length (slice_index_or (lists_in alive.now) k []) }
{
    alive.get(k).map_or(0, |degree| degree.len())
}

/// How many places of degree number `k` are alive, none past the last degree.
pub(crate) fn alive_count(alive: &[Vec<bool>], k: usize) -> u32
    requires { All (λ degree. length degree < 2 ^ 29) (lists_in alive.now) }
    ensures { result ≡ count_by (λ is_alive. is_alive) (slice_index_or (lists_in alive.now) k []) }
{
    match alive.get(k) {
        Some(degree) => live_count(degree) as u32,
        None => 0,
    }
}

/// Whether a place of degree number `k` is alive; none is past the end.
pub(crate) fn alive_at(alive: &[Vec<bool>], k: usize, place: u32) -> bool
    ensures { result ≡ slice_index_or (slice_index_or (lists_in alive.now) k []) place false }
{
    match alive.get(k) {
        Some(degree) => degree.get(place as usize).copied().unwrap_or(false),
        None => false,
    }
}

fn live_count(alive: &[bool]) -> usize
    ensures count { result ≡ count_by (λ is_alive. is_alive) alive.now }
    ensures within { result ≤ length alive.now }
{
    alive.iter().filter(|is_alive| **is_alive).count()
}
