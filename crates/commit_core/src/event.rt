//! What a worker does.

ghost use Rattle.std.specs.Prelude.{◌≡◌, ◌↔◌, ◌≤◌, All, IsTrue};
ghost use Rattle.commit_core.specs.States.{event_worker};

/// What a worker does next. Workers are numbered from 1.
#[derive(Clone, Copy, Debug, PartialEq, Eq)]
pub enum Event {
    /// It gives up what it holds, and looks at the block at a quantum degree. The hint may say
    /// where to search for a pivot; no answer depends on it.
    Look { worker: u32, block: i16, hint: u32 },
    /// It commits what it holds.
    Commit { worker: u32 },
    /// It gives up what it holds.
    Forget { worker: u32 },
}

impl Event {
    /// The worker that the event is of.
    pub fn worker(self) -> u32
        ensures { result ≡ event_worker self }
    {
        match self {
            Event::Look { worker, .. } | Event::Commit { worker } | Event::Forget { worker } =>
                worker,
        }
    }
}

/// Whether all events are of workers from 1 to this number.
pub fn are_of_workers(events: &[Event], workers: u32) -> bool
    ensures { IsTrue result
        ↔ All (λ event. (1 ≤ event_worker event) × (event_worker event ≤ workers)) events.now }
{
    events
        .iter()
        .all(|event| 1 <= event.worker() && event.worker() <= workers)
}
