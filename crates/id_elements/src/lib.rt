//! Worker threads: each works one element of a machine, by messages from ruled inboxes, until the run ends; or one
//! thread delivers all messages, in the order that a seed gives.
//!
//! Keeps: no message is lost between workers, and a run has come to its end.
//! Errors: `RunError`.
//! Read first: `specs/Runs.antt`, then `run`, `run_limited` and `run_in_order`; docs/THREADS.md.
//! Not here: inboxes (`id_inbox`), the element step (`id_step`), the law that what is accounted for is a run
//! (`id_runs`), what is printed of a run (`id_print`).
#![tactic(auto)]

mod doors;
mod drawn;
mod ended;
mod finish;
mod goals;
mod hand;
mod home;
mod passing;
mod running;
mod settings;
mod shared;
mod worker;

pub use drawn::run_in_order;
pub use ended::Run;
pub use running::{run, run_limited};
pub use settings::{MAX_STEPS, RunError, Settings};
