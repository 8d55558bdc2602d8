//! Several logs, merged line by line as they are read.
//!
//! Keeps: of each log no more than a piece, and less than the longest line of an event.
//! Errors: `LogFault`, of an opening or a read of one of the logs.
//! Read first: `specs/Lines.antt`, `specs/Merging.antt`, then `open_merged` and `Merged`.
//! Not here: what a log is (`id_log`), what the lines say (`id_judge`).
#![tactic(auto)]

mod head;
mod lines;
mod merged;

pub use merged::{Merged, open_merged};
