//! Queues of what waits for binders.

ghost use Rattle.std.specs.Prelude.{◌≡◌, IfOk, OnOk};
ghost use Rattle.id_facts.specs.Queues.{queue};
ghost use Rattle.id_facts.specs.Queues.{Adds, width};

use crate::facts::Trail;
use std::alloc::{AllocError, Global};

/// What waits for a binder, where a row is On at a path.
#[derive(Clone, Copy)]
pub struct Wait {
    pub path: Trail,
    /// The row that is On, a name or a loop, or the index that has a value.
    pub row: usize,
    /// The row that waits: the name, a `next` of the loop, or the index.
    pub user: usize,
}

/// What waits, by the number of its queue.
#[derive(Drop)]
pub struct Queues {
    pub queues: Vec<Vec<Wait>>,
}

impl Queues {
    /// So many queues, with nothing in them.
    pub fn new(alloc: Global, count: usize) -> Result<Queues, AllocError>
        ensures { IfOk result (λ w. width w ≡ count) }
    {
        let mut queues = Vec::new(alloc);
        for _queue in 0..count {
            queues.push(Vec::new(alloc))?;
        }
        Ok(Queues { queues })
    }

    /// Adds this to the queue of this number; past the queues, nothing.
    pub fn add(&mut self, number: usize, wait: Wait) -> Result<(), AllocError>
        ensures { OnOk result (Adds self.old self.new number wait) }
    {
        if number < self.queues.len() {
            self.queues[number].push(wait)?;
        }
        Ok(())
    }

    /// What waits in the queue of this number.
    pub fn of(&self, number: usize) -> &[Wait]
        ensures { result.now ≡ queue self.now.queues.items number }
    {
        if number < self.queues.len() {
            self.queues[number].as_slice()
        } else {
            &[]
        }
    }
}
