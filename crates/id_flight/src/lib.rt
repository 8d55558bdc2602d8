//! Messages in flight, in few bytes: a queue that contracts see as a list of messages.
//!
//! Keeps: each message in the queue, whole and in order.
//! Errors: want of memory alone, and then the messages are the same.
//! Read first: `Queue`, then `specs/Parcels.antt`.
//! Not here: the element that a message goes to (`id_tag`), what it makes of a message (`id_step`), which message
//! comes next (`id_core`, `id_elements`).
#![tactic(auto)]

mod access;
mod buffer;
mod parcel;
mod queue;
mod row;

pub use access::Access;
pub use queue::Queue;
