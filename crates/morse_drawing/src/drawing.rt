//! The drawing of a diagram.

ghost use Rattle.std.specs.Prelude.{◌≡◌, ◌++◌, IfOk, OnOk};
ghost use Rattle.morse_drawing.specs.Joins.{IsFaultless};
ghost use Rattle.morse_drawing.specs.Pages.{loop_slices, slices_of};

use crate::page::Page;
use crate::slice::Slice;
use crate::step::next_page;
use kh_types::{Diagram, NoMemory};
use std::alloc::Global;

/// The slices of a diagram, which a law reads back as its arcs and loops.
pub fn slices(alloc: Global, diagram: &Diagram) -> Result<Vec<Slice>, NoMemory>
    ensures slices { IfOk result (λ slices. slices.items ≡ slices_of diagram.now) }
    ensures faultless { IfOk result (λ slices. IsFaultless slices.items) }
{
    let mut page = Page::blank(alloc);
    'steps: for _ in 0..5 * diagram.crossings().len() {
        next_page(diagram, &mut page)?;
    }
    let mut slices = page.slices;
    push_loops(&mut slices, diagram.loops())?;
    Ok(slices)
}

/// Adds a cap and a cup for each loop.
#[tactic(auto, using(crate::proofs::StepLemmas::loops_pushed))]
fn push_loops(slices: &mut Vec<Slice>, loops: u8) -> Result<(), NoMemory>
    ensures { OnOk result (slices.new.items ≡ slices.old.items ++ loop_slices loops) }
{
    'loops: for _ in 0..loops {
        slices.push(Slice::Cap { at: 1 })?;
        slices.push(Slice::Cup { at: 1 })?;
    }
    Ok(())
}
