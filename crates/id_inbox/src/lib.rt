//! Ruled inboxes: a queue of letters, each a list of messages, which threads share under the rule that nothing is lost,
//! and the doors by which they use it.
//!
//! Keeps: each message that was sent by a door is taken by one door, once, or is in the queue.
//! Errors: want of memory alone, or of places; a letter that could not be sent comes back.
//! Read first: `specs/Hands.antt`, then `Door`, then docs/THREADS.md ("Inboxes").
//! Not here: the element that a message goes to (`id_tag`), a letter's layout (`id_flight`).
#![tactic(auto)]

mod door;
mod hand;
#[cfg(test)]
mod tests;

pub use door::Door;
pub use hand::{Fair, Hand};
