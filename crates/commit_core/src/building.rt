//! How a core is made.

ghost use Rattle.std.specs.Prelude.{◌≡◌, replicate, None, IfOk};

use crate::held_look::HeldLook;
use kh_types::NoMemory;
use prime_field::PrimeField;
use std::alloc::Global;

/// Nothing for each worker.
pub(crate) fn nothing_held<F: PrimeField>(
    alloc: Global,
    workers: u32,
) -> Result<Vec<Option<HeldLook<F>>>, NoMemory>
    ensures { IfOk result (λ held. held.items ≡ replicate workers None) }
{
    let mut held = Vec::with_capacity(alloc, workers as usize)?;
    'workers: for _ in 0..workers {
        held.push(None)?;
    }
    Ok(held)
}
