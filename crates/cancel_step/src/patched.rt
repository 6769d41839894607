//! Patches: what a cancellation makes of a look.

ghost use Rattle.std.specs.Prelude.{◌≡◌};

use crate::Look;
use prime_field::PrimeField;
use sparse_block::{Line, Pivot};
use std::marker::Model;

/// The columns and rows that were copied, as they are after the cancellation.
#[derive(Drop)]
pub(crate) struct Update {
    pub(crate) columns: Vec<Line>,
    pub(crate) rows: Vec<Line>,
}

/// A look, with its columns and rows as they are after the cancellation. There is no need of them
/// where the pivot stands alone in its column or its row. Contracts see the look.
#[derive(Drop)]
pub struct Patch<F: PrimeField> {
    pub(crate) look: Look<F>,
    pub(crate) update: Option<Update>,
}

impl<F: PrimeField> Model for Patch<F> {
    ghost use Rattle.cancel_step.specs.Copies.{Copied};
    ghost use Rattle.cancel_step.specs.Updates.{IsUpdated};

    ghost Value = { Copied };

    ghost view = { λ patch. patch.look };

    ghost invariant = { λ patch. IsUpdated F.P patch.look patch.update };
}

impl<F: PrimeField> Patch<F> {
    /// The pivot.
    pub fn pivot(&self) -> Pivot
        ensures { result ≡ self.now.pivot }
    {
        self.look.pivot()
    }
}
