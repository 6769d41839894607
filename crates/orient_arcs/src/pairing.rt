//! Whether the names of arcs are paired.

ghost use Rattle.std.specs.Prelude.{◌≡◌, ◌↔◌, IsTrue};
ghost use Rattle.code_passes.specs.Parts.{ArePaired};
ghost use Rattle.orient_arcs.specs.Pairing.{all_are_paired, entering_count, is_paired_at, is_paired_in, leaving_count};

use crate::parts::Parts;
use crate::passes::passes_through;
use code_passes::Pass;

impl Parts {
    /// Whether each name that stands at all stands twice, once as the head of an arc and once as a
    /// tail.
    pub fn is_paired(&self) -> bool
        ensures { IsTrue result ↔ ArePaired self.now }
    {
        all_are_paired(&passes_through(self))
    }
}

/// Whether each name on which a pass enters or leaves is paired.
fn all_are_paired(passes: &[Pass]) -> bool
    ensures { result ≡ all_are_paired passes.now }
{
    let mut are_paired = true;
    'passes: for pass in passes {
        are_paired &= is_paired_at(passes, *pass);
    }
    are_paired
}

/// Whether the names on which a pass enters and leaves are.
fn is_paired_at(passes: &[Pass], pass: Pass) -> bool
    ensures { result ≡ is_paired_at passes.now pass }
{
    is_paired_in(passes, pass.enters) & is_paired_in(passes, pass.leaves)
}

/// Whether one pass enters on a name at most, and as many leave on it.
fn is_paired_in(passes: &[Pass], name: u8) -> bool
    ensures { result ≡ is_paired_in passes.now name }
{
    entering_count(passes, name) < 2 && leaving_count(passes, name) == entering_count(passes, name)
}

/// How many passes enter on a name.
fn entering_count(passes: &[Pass], name: u8) -> usize
    ensures { result ≡ entering_count passes.now name }
{
    passes
        .iter()
        .copied()
        .filter(|pass| pass.enters == name)
        .count()
}

/// How many leave on it.
fn leaving_count(passes: &[Pass], name: u8) -> usize
    ensures { result ≡ leaving_count passes.now name }
{
    passes
        .iter()
        .copied()
        .filter(|pass| pass.leaves == name)
        .count()
}
