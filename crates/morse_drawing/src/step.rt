//! The steps of a drawing.

ghost use Rattle.std.specs.Prelude.{◌≡◌, ◌+◌, ◌*◌, ◌<◌, get_or, length, OnOk};
ghost use Rattle.kh_types.specs.Darts.{dart_count, partner_at};
ghost use Rattle.morse_drawing.specs.Pages.{
  are_paired,
  by_crossing,
  by_pair,
  by_row,
  leading,
  leads_on,
  next_page,
  paired,
  undrawn,
};
ghost use Rattle.morse_drawing.specs.Progress.{IsPageOf};

use crate::page::Page;
use kh_types::{Diagram, NoMemory, dart_at};

/// One step of the drawing of a diagram, by the first rule that applies; a finished page stays as
/// it is.
pub fn next_page(diagram: &Diagram, page: &mut Page) -> Result<(), NoMemory>
    requires { IsPageOf diagram.now page.old }
    ensures { OnOk result (page.new
        ≡ next_page (length diagram.now.crossings) (partner_at diagram.now.crossings) page.old) }
{
    if page.strands() == 0 {
        begin_next(diagram, page)
    } else {
        change_row(diagram, page)
    }
}

/// Where the row is empty, the least crossing that is not drawn begins.
fn begin_next(diagram: &Diagram, page: &mut Page) -> Result<(), NoMemory>
    requires { IsPageOf diagram.now page.old }
    ensures { OnOk result (page.new
        ≡ by_crossing page.old (undrawn (length diagram.now.crossings) page.old.drawn)) }
{
    match undrawn(diagram, page) {
        Some(crossing) => page.begin(crossing),
        None => Ok(()),
    }
}

/// Else the leftmost strand that leads on meets its crossing; where none does, two neighbours that
/// are partners end.
fn change_row(diagram: &Diagram, page: &mut Page) -> Result<(), NoMemory>
    requires { IsPageOf diagram.now page.old }
    ensures { OnOk result (page.new ≡ by_row (partner_at diagram.now.crossings) page.old
        (leading (partner_at diagram.now.crossings) page.old.drawn page.old.row)) }
{
    match leading(diagram, page) {
        Some(place) => {
            let dart = partner_of(diagram, page, place);
            page.cross(place, dart)
        }
        None => close_pair(diagram, page),
    }
}

/// The leftmost two neighbours that are partners end.
fn close_pair(diagram: &Diagram, page: &mut Page) -> Result<(), NoMemory>
    requires { IsPageOf diagram.now page.old }
    ensures { OnOk result (page.new
        ≡ by_pair page.old (paired (partner_at diagram.now.crossings) page.old.row)) }
{
    match paired(diagram, page) {
        Some(place) => page.close(place),
        None => Ok(()),
    }
}

/// The place of the least crossing that is not drawn.
#[tactic(auto, using(crate::proofs::StepLemmas::found_first, crate::proofs::StepLemmas::found_none))]
fn undrawn(diagram: &Diagram, page: &Page) -> Option<u8>
    ensures { result ≡ undrawn (length diagram.now.crossings) page.now.drawn }
{
    'crossings: for crossing in 0..diagram.count() {
        if !page.has_drawn(crossing) {
            return Some(crossing);
        }
    }
    None
}

/// The place of the leftmost strand that leads on.
#[tactic(auto, using(crate::proofs::StepLemmas::found_first, crate::proofs::StepLemmas::found_none))]
fn leading(diagram: &Diagram, page: &Page) -> Option<usize>
    requires { IsPageOf diagram.now page.now }
    ensures { result ≡ leading (partner_at diagram.now.crossings) page.now.drawn page.now.row }
{
    'places: for place in 0..page.strands() {
        if leads_on(diagram, page, place) {
            return Some(place);
        }
    }
    None
}

/// The leftmost place of two neighbours that are partners.
#[tactic(auto, using(crate::proofs::StepLemmas::found_first, crate::proofs::StepLemmas::found_none))]
fn paired(diagram: &Diagram, page: &Page) -> Option<usize>
    requires { IsPageOf diagram.now page.now }
    ensures { result ≡ paired (partner_at diagram.now.crossings) page.now.row }
{
    'places: for place in 0..page.strands().saturating_sub(1) {
        if are_paired(diagram, page, place) {
            return Some(place);
        }
    }
    None
}

/// Whether the strand at a place leads on to a crossing that is not drawn.
fn leads_on(diagram: &Diagram, page: &Page, place: usize) -> bool
    requires page { IsPageOf diagram.now page.now }
    requires within { place < length page.now.row }
    ensures { result
        ≡ leads_on (partner_at diagram.now.crossings) page.now.drawn page.now.row place }
{
    let partner = dart_at(partner_of(diagram, page, place));
    !page.has_drawn(partner.crossing - 1)
}

/// Whether the strands at a place and the next are partners.
fn are_paired(diagram: &Diagram, page: &Page, place: usize) -> bool
    requires page { IsPageOf diagram.now page.now }
    requires within { place + 1 < length page.now.row }
    ensures { result ≡ are_paired (partner_at diagram.now.crossings) page.now.row place }
{
    partner_of(diagram, page, place) == page.row[place + 1]
}

/// The partner of the dart at a place in the row.
#[tactic(auto, using(crate::proofs::StepLemmas::row_below))]
fn partner_of(diagram: &Diagram, page: &Page, place: usize) -> u8
    requires page { IsPageOf diagram.now page.now }
    requires within { place < length page.now.row }
    ensures partner { result ≡ partner_at diagram.now.crossings (get_or page.now.row place 0) }
    ensures below { result < dart_count diagram.now.crossings }
{
    diagram.partner_at(page.row[place])
}
