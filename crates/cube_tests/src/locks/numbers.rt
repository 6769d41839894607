//! A list of numbers with room for so many: the least value that a lock can hold.
ghost use Rattle.std.specs.Prelude.{◌≡◌, ◌<◌, ◌≤◌, ◌^◌, length, vec_len, vec_capacity, IfOk, []};
ghost use native.Mathlib.Omega.{arith};

use kh_types::NoMemory;
use std::alloc::Global;
use std::hint::spin_loop;
use std::sync::atomic::{AtomicU64, Ordering};
use version_lock::Held;

/// Numbers, and for how many of them there is room.
#[derive(Drop)]
pub struct Numbers {
    pub items: Vec<u32>,
    pub room: usize,
    /// How a look at them goes.
    pub looks: Looks,
    ghost fits: { (vec_len items ≤ room) × (room ≤ vec_capacity items) × (room < 2 ^ 63) },
}

/// How often a look pauses, and whether every second one fails.
#[derive(Drop)]
pub struct Looks {
    pub pauses: u32,
    pub fail: bool,
    pub count: AtomicU64,
}

impl Looks {
    /// Looks that pause so often.
    pub fn new(pauses: u32, fail: bool) -> Looks {
        Looks {
            pauses,
            fail,
            count: AtomicU64::new(0),
        }
    }

    /// Takes its time, and tells whether this look fails.
    fn go(&self) -> bool {
        'while_others_wait: for _ in 0..self.pauses {
            spin_loop();
        }
        self.fail && self.count.fetch_add(1, Ordering::SeqCst) % 2 == 1
    }
}

/// A number for a list that has so many.
#[derive(Drop)]
pub struct Addition {
    pub number: u32,
    pub count: usize,
}

impl Numbers {
    /// No numbers, and room for this many.
    pub fn new(alloc: Global, room: usize, looks: Looks) -> Result<Numbers, NoMemory>
        requires { room < 2 ^ 63 }
        ensures { IfOk result (λ numbers. (numbers.items.items ≡ []) × (numbers.room ≡ room)) }
    {
        Ok(Numbers {
            items: Vec::with_capacity(alloc, room)?,
            room,
            looks,
        })
    }
}

impl Held for Numbers {
    type Origin = usize;

    type Entry = u32;

    type Look = usize;

    type Patch = Addition;

    ghost origin = { λ numbers. numbers.room };

    ghost history = { λ numbers. numbers.items.items };

    ghost entry = { λ addition. addition.number };

    ghost look_fits = { λ count room log. (count ≡ length log) × (count < room) × (room < 2 ^ 63) };

    ghost patch_fits = { λ addition room log. (addition.count ≡ length log) ×
        (addition.count < room) × (room < 2 ^ 63) };

    ghost done = { λ room log. room ≤ length log };

    fn version(&self) -> u64 {
        self.items.len() as u64
    }

    fn look_at(&self, _alloc: Global, _hint: u32) -> Result<Option<usize>, NoMemory> {
        if self.looks.go() {
            return Err(NoMemory);
        }
        if self.room <= self.items.len() {
            return Ok(None);
        }
        Ok(Some(self.items.len()))
    }

    fn take(&mut self, patch: Addition) {
        self.items.push_reserved(patch.number);
    }

    ghost look_is_short = { λ look start log h. omega (arith, h.0, h.1, h.2) };

    ghost patch_is_short = { λ patch start log h. omega (arith, h.0, h.1, h.2) };
}
