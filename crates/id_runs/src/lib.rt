//! Runs of any graph: which events happen, what they send, what becomes of what is sent, and what the accounts of
//! elements and the stamps in their records say of all events together.
//!
//! Keeps: nothing; the one function is a law, and has no code.
//! Errors: none.
//! Read first: `specs/Events.antt`, then `specs/Runs.antt`, `specs/OneMessage.antt`, `specs/Cells.antt`,
//! `specs/Suited.antt`, `specs/Serials.antt` and `specs/Legal.antt`; `specs/Accounts.antt`, then `specs/Orders.antt`.
//! Not here: the machine's step and its records (`id_core`), the graphs of the schemas (`id_laws`).
#![tactic(auto)]

mod orders;

pub use orders::orders_are_runs;
