//! Slots: each has one value, or nothing yet.

ghost use Rattle.std.specs.Prelude.{◌≡◌, ◌<◌, IfOk, None, length, slice_index_or, slice_set};
ghost use Rattle.worker_pool.specs.Slots.{AreEmpty};

use kh_types::NoMemory;
use std::alloc::Global;

/// So many empty slots.
pub(crate) fn empty_slots<T: Drop>(alloc: Global, count: usize) -> Result<Vec<Option<T>>, NoMemory>
    ensures { IfOk result (λ slots. AreEmpty count slots.items) }
{
    let mut slots = Vec::with_capacity(alloc, count)?;
    'slots: for _ in 0..count {
        slots.push(None)?;
    }
    Ok(slots)
}

/// What is in a slot, which is left empty.
pub(crate) fn take_slot<T: Drop>(slots: &mut Vec<Option<T>>, place: usize) -> Option<T>
    requires { place < length slots.old.items }
    ensures taken { result ≡ slice_index_or slots.old.items place result }
    ensures empty { slots.new.items ≡ slice_set slots.old.items place None }
{
    slots[place].take()
}
