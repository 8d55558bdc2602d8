//! How many elements a machine has.

ghost use Rattle.std.specs.Prelude.{◌≡◌, ◌<◌, ◌≤◌, ◌⊎◌, MatchOption};

/// The most elements that a machine may have.
pub const MAX_ELEMENTS: u32 = 64;

/// How many elements a machine has.
///
/// Keeps: they are 1 to `MAX_ELEMENTS`.
#[derive(Clone, Copy)]
pub struct Count {
    pub number: u32,
    pub ghost some: { 0 < number },
    pub ghost few: { number ≤ 64 },
}

impl Count {
    /// So many, where a machine may have as many. Takes no memory.
    pub fn new(number: u32) -> Option<Count>
        ensures { MatchOption result ((number ≡ 0) ⊎ (64 < number)) (λ c. c.number ≡ number) }
    {
        if number == 0 || number > MAX_ELEMENTS {
            return None;
        }
        Some(Count { number })
    }
}
