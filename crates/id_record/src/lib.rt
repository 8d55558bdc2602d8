//! The record of an element: what it handled, what that came to, and what it sent.
//!
//! Keeps: a record is a list of events, in proofs; in memory, what they tell of contexts, of structures and of the
//! answer, and the first fault, and as far as it is asked for what came to merges, or all events.
//! Errors: want of memory alone, and then nothing has changed.
//! Read first: `specs/Events.antt`, then `Record`; `specs/Tellings.antt`, then `Kept`; `History`.
//! Not here: handling a message (`id_step`), the records of several elements as one (`id_observe`).
#![tactic(auto)]

mod cell_event;
mod handled;
mod handlings;
mod history;
mod kept;
mod outputs;
mod past;
mod payload;
mod plain_firing;
mod room;
mod step;
mod telling;
mod tellings;

pub use cell_event::{CellAnswer, CellEvent};
pub use handled::{Handled, Handling, NO_REPLIES, Reaction, Replies};
pub use history::{Event, Events, Record};
pub use kept::Keeps;
pub use outputs::{
    Envelope, Outputs, chosen, count_started, message, moved_to, start, token_at, token_to,
};
pub use past::History;
pub use payload::{tag_of, value_of};
pub use plain_firing::PlainFiring;
pub use step::{Fault, Step, Verdict, full_step};
pub use telling::{Faulted, Telling, Told, is_value_merge};
pub use tellings::Tellings;
