//! What a run is asked for, and why there is none.

use id_core::{Count, Keeps};
use std::alloc::AllocError;

/// The most messages that an element may be allowed to handle.
pub const MAX_STEPS: u64 = 100_000_000;

/// What a run is asked for: how many elements, how many messages each may handle, the seed for the order of messages,
/// where threads are not to give it, and how much is kept of events.
#[derive(Clone, Copy)]
pub struct Settings {
    pub elements: u32,
    pub steps: u64,
    pub order: Option<u64>,
    pub keeps: Keeps,
}

impl Settings {
    ghost use Rattle.std.specs.Prelude.{◌≡◌, None};
    ghost use Rattle.id_record.specs.declared.kept.Keeps.TheVariants as keeps;

    /// So many elements, each of which may handle so many messages, in the order that threads give. All events are
    /// kept.
    pub fn new(elements: u32, steps: u64) -> Settings
        ensures { result ≡ record { elements = elements; steps = steps; order = None; keeps = keeps.All } }
    {
        Settings {
            elements,
            steps,
            order: None,
            keeps: Keeps::All,
        }
    }
}

/// What of settings is good.
#[derive(Clone, Copy)]
pub struct Allowed {
    pub count: Count,
    pub steps: u64,
    pub keeps: Keeps,
}

/// Why there is no run.
#[derive(Clone, Copy)]
pub enum RunError {
    /// No element, or more than `MAX_ELEMENTS`.
    BadElements,
    /// No step, or more than `MAX_STEPS`.
    BadSteps,
    /// An element answered `Stuck`.
    Stuck,
    /// A growth was refused, or an inbox took no more.
    Memory,
}

impl From<AllocError> for RunError {
    ghost use Rattle.std.specs.Prelude.{◌≡◌};
    ghost use Rattle.id_elements.specs.declared.settings.RunError.TheVariants.{Memory};

    ghost from_gives = { λ _ e. e ≡ Memory };

    fn from(_error: AllocError) -> RunError {
        RunError::Memory
    }
}
